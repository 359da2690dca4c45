//! How a run begins and is refused, on each machine.

use crate::TooSmall;
use thiserror::Error;

/// Why a machine isn't started.
#[derive(Clone, Copy, Debug, Error)]
pub enum StartFault {
    #[error("{0}")]
    TooSmall(TooSmall),
    #[error("no memory was found")]
    Memory,
}

/// Why a run has no end.
#[derive(Clone, Copy, Debug, Error)]
pub enum RunFault {
    #[error("the trace can't be written")]
    Write,
    #[error("{0}")]
    TooSmall(TooSmall),
    #[error("no memory was found")]
    Memory,
}
