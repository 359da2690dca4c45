//! Why a step stops.

ghost use Rattle.std.specs.Prelude.{◌≡◌};
ghost use Rattle.asm_statement.specs.declared.fault.StepFault.TheVariants.{Memory};

use asm_lex::SourceCause;
use std::alloc::{AllocError, AllocFailed};

/// Why the statement isn't read on: the source is refused, or memory isn't found.
#[derive(Drop)]
pub enum StepFault {
    Cause(SourceCause),
    Memory,
}

impl From<AllocError> for StepFault {
    ghost from_gives = { λ _ e. e ≡ Memory };

    fn from(_e: AllocError) -> StepFault {
        StepFault::Memory
    }
}

impl<T: Drop> From<AllocFailed<T>> for StepFault {
    ghost from_gives = { λ _ e. e ≡ Memory };

    fn from(_e: AllocFailed<T>) -> StepFault {
        StepFault::Memory
    }
}
