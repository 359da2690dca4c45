//! Why a script is refused.

use std::fmt;
use thiserror::Error;

/// Why a line of a script is refused. The program prints 80 to 84 for them, in this order.
#[derive(Clone, Copy, Debug, PartialEq, Eq)]
pub enum ScriptCause {
    NoForm,
    BadNumber,
    StepFalls,
    TooMany,
    NotAscii,
}

impl fmt::Display for ScriptCause {
    fn fmt<W: fmt::Write>(&self, f: &mut fmt::Formatter<W>) -> fmt::Result {
        f.write_str(match self {
            ScriptCause::NoForm => "neither `STEP rx HH` nor `STEP line N`",
            ScriptCause::BadNumber => "a step, a byte or a line that there isn't",
            ScriptCause::StepFalls => "a step below the one before",
            ScriptCause::TooMany => "more than 65536 events",
            ScriptCause::NotAscii => "a byte that is no printable ASCII",
        })
    }
}

/// Why a script is refused.
#[derive(Clone, Copy, Debug, PartialEq, Eq, Error)]
pub enum ScriptFault {
    /// The first bad line, counted from 1.
    #[error("line {line}: {cause}")]
    At { line: u64, cause: ScriptCause },
    #[error("out of memory")]
    Memory,
}
