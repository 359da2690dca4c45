//! Why a schedule is refused.

use thiserror::Error;

/// Why a line of a schedule is refused. The program prints 100 to 102 for them, in this order.
#[derive(Clone, Copy, Debug, PartialEq, Eq, Error)]
pub enum ScheduleCause {
    #[error("not `J STEPS`")]
    NoForm,
    #[error("a kernel that there isn't, or too few or too many steps")]
    BadNumber,
    #[error("more than 1024 slices")]
    TooMany,
}

/// Why a schedule is refused.
#[derive(Clone, Copy, Debug, PartialEq, Eq, Error)]
pub enum ScheduleFault {
    /// The first bad line, counted from 1.
    #[error("line {line}: {cause}")]
    At { line: u64, cause: ScheduleCause },
    #[error("out of memory")]
    Memory,
}
