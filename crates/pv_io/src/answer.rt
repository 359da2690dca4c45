//! Why a call to the outside isn't done.

ghost use Rattle.std.specs.Prelude.{◌≡◌};
ghost use Rattle.pv_io.specs.declared.answer.IoAnswer.TheVariants.{Memory};

use std::alloc::{AllocError, AllocFailed};
use thiserror::Error;

/// Why a load or a store isn't done: the outside failed, or no memory was found.
#[derive(Clone, Copy, Debug, Error)]
pub enum IoAnswer {
    #[error("the outside failed")]
    Failed,
    #[error("no memory was found")]
    Memory,
}

/// The sink failed.
#[derive(Clone, Copy, Debug, Error)]
#[error("the sink failed")]
pub struct Failed;

impl From<AllocError> for IoAnswer {
    ghost from_gives = { λ _ e. e ≡ Memory };

    fn from(_: AllocError) -> Self {
        IoAnswer::Memory
    }
}

impl<T: Drop> From<AllocFailed<T>> for IoAnswer {
    ghost from_gives = { λ _ e. e ≡ Memory };

    fn from(_: AllocFailed<T>) -> Self {
        IoAnswer::Memory
    }
}
