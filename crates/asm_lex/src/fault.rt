//! Why a source is refused.

ghost use Rattle.std.specs.Prelude.{◌≡◌};
ghost use Rattle.asm_lex.specs.Causes.{cause_number};
ghost use Rattle.asm_lex.specs.declared.fault.SourceFault.TheVariants.{Memory};

use std::alloc::{AllocError, AllocFailed};
use std::fmt;
use thiserror::Error;

/// What is wrong with a source (profile).
#[derive(Clone, Copy, Debug, PartialEq, Eq)]
pub enum SourceCause {
    /// A byte above 0x7E, or a control other than tab and newline.
    NotAscii,
    /// A character that begins no token.
    BadCharacter,
    /// A comment `/*` that does not end.
    OpenComment,
    /// A string that does not end on its line.
    OpenString,
    /// An escape in a string that is not one of the listed ones.
    BadEscape,
    /// A word that begins with a digit and is no number, a `'` that begins none, or a number out
    /// of range.
    BadNumber,
    /// A `%` without a register after it.
    BadRegister,
    /// A token with which no statement can go on.
    BadOperand,
    /// A scale other than 1, 2, 4 or 8.
    BadScale,
    /// A name with a leading `.` that is neither a label nor a directive.
    UnknownDirective,
    /// An argument of a directive that is missing, too many, of another kind or out of range.
    BadArgument,
    /// A name that was defined before in this source.
    DoubledLabel,
    /// More than 4,194,304 bytes.
    TooLong,
    /// The 65,537th different symbol.
    TooManySymbols,
}

impl SourceCause {
    /// The number that a refusal shows.
    pub fn number(self) -> u8
        ensures { result ≡ cause_number self }
    {
        match self {
            SourceCause::NotAscii => 1,
            SourceCause::BadCharacter => 2,
            SourceCause::OpenComment => 3,
            SourceCause::OpenString => 4,
            SourceCause::BadEscape => 5,
            SourceCause::BadNumber => 6,
            SourceCause::BadRegister => 7,
            SourceCause::BadOperand => 8,
            SourceCause::BadScale => 9,
            SourceCause::UnknownDirective => 10,
            SourceCause::BadArgument => 11,
            SourceCause::DoubledLabel => 12,
            SourceCause::TooLong => 13,
            SourceCause::TooManySymbols => 14,
        }
    }
}

impl fmt::Display for SourceCause {
    fn fmt<W: fmt::Write>(&self, f: &mut fmt::Formatter<W>) -> fmt::Result {
        f.write_str(match self {
            SourceCause::NotAscii => "a byte above 0x7E, or a control other than tab and newline",
            SourceCause::BadCharacter => "a character that begins no token",
            SourceCause::OpenComment => "a comment that does not end",
            SourceCause::OpenString => "a string that does not end on its line",
            SourceCause::BadEscape => "an escape that is not listed",
            SourceCause::BadNumber => "a number that there is not, or one out of range",
            SourceCause::BadRegister => "a `%` without a register behind it",
            SourceCause::BadOperand => "a token with which no statement can go on",
            SourceCause::BadScale => "a scale other than 1, 2, 4 or 8",
            SourceCause::UnknownDirective => "an unknown directive",
            SourceCause::BadArgument =>
                "an argument of a directive that is missing, too many, of another kind or out of range",
            SourceCause::DoubledLabel => "a name that was defined before",
            SourceCause::TooLong => "more than 4194304 bytes",
            SourceCause::TooManySymbols => "more than 65536 symbols",
        })
    }
}

/// Why a source was not read: its line, counted from 1, and the cause, or that no memory was found.
#[derive(Clone, Copy, Debug, PartialEq, Eq, Error)]
pub enum SourceFault {
    #[error("refused {number} line {line}", number = cause.number())]
    At { line: u32, cause: SourceCause },
    #[error("out of memory")]
    Memory,
}

impl From<AllocError> for SourceFault {
    ghost from_gives = { λ _ e. e ≡ Memory };

    fn from(_e: AllocError) -> SourceFault {
        SourceFault::Memory
    }
}

impl<T: Drop> From<AllocFailed<T>> for SourceFault {
    ghost from_gives = { λ _ e. e ≡ Memory };

    fn from(_e: AllocFailed<T>) -> SourceFault {
        SourceFault::Memory
    }
}
