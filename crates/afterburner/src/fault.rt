//! Why a source is not burnt.

ghost use Rattle.std.specs.Prelude.{◌≡◌};
ghost use Rattle.afterburner.specs.declared.fault.ItemFault.TheVariants.{Memory};
ghost use Rattle.afterburner.specs.Causes.{cause_number};

use std::alloc::{AllocError, AllocFailed};
use std::fmt;
use thiserror::Error;

/// Why an item is refused. Of several causes of one item the first of these is reported.
#[derive(Clone, Copy, Debug)]
pub enum BurnCause {
    /// No instruction has the name.
    UnknownInstruction,
    /// The name is that of an instruction that is refused.
    RefusedInstruction,
    /// The instruction takes no such operands.
    Operands,
    /// A number doesn't fit its field.
    ValueRange,
    /// The text is longer than 16,777,216 bytes.
    TextTooLarge,
    /// The data and the zeroed bytes are more than 33,554,432 bytes together.
    InitTooLarge,
    /// Data in text, data that isn't zero in zeroed bytes, or an instruction outside text.
    DataInText,
    /// More than 262,144 sites.
    TooManySites,
}

impl BurnCause {
    /// The number by which users know the cause.
    pub fn number(self) -> u8
        ensures { result ≡ cause_number self }
    {
        match self {
            BurnCause::UnknownInstruction => 20,
            BurnCause::RefusedInstruction => 21,
            BurnCause::Operands => 22,
            BurnCause::ValueRange => 23,
            BurnCause::TextTooLarge => 24,
            BurnCause::InitTooLarge => 25,
            BurnCause::DataInText => 26,
            BurnCause::TooManySites => 27,
        }
    }
}

impl fmt::Display for BurnCause {
    fn fmt<W: fmt::Write>(&self, f: &mut fmt::Formatter<W>) -> fmt::Result {
        f.write_str(match self {
            BurnCause::UnknownInstruction => "no instruction has the name",
            BurnCause::RefusedInstruction => "an instruction that is refused by its name",
            BurnCause::Operands => "the instruction takes no such operands",
            BurnCause::ValueRange => "a number that doesn't fit its field",
            BurnCause::TextTooLarge => "more than 16777216 bytes of text",
            BurnCause::InitTooLarge => "more than 33554432 bytes of data and zeroed bytes",
            BurnCause::DataInText =>
                "data in text, data that isn't zero in zeroed bytes, or an instruction outside text",
            BurnCause::TooManySites => "more than 262144 sites",
        })
    }
}

/// The line of the first item that is refused and its cause, or that no memory was found.
#[derive(Debug, Drop, Error)]
pub enum BurnFault {
    #[error("refused at line {line}: {cause}")]
    At { line: u32, cause: BurnCause },
    #[error("no memory was found")]
    Memory,
}

/// Why the work at an item stops.
#[derive(Drop)]
pub enum ItemFault {
    Cause(BurnCause),
    Memory,
}

impl From<AllocError> for ItemFault {
    ghost from_gives = { λ _ e. e ≡ Memory };

    fn from(_e: AllocError) -> ItemFault {
        ItemFault::Memory
    }
}

impl<T: Drop> From<AllocFailed<T>> for ItemFault {
    ghost from_gives = { λ _ e. e ≡ Memory };

    fn from(_e: AllocFailed<T>) -> ItemFault {
        ItemFault::Memory
    }
}
