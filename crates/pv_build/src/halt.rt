//! Why the work of a command ends with nothing stored or printed.

ghost use Rattle.std.specs.Prelude.{◌≡◌};
ghost use Rattle.pv_build.specs.declared.halt.Halt.TheVariants.{Memory};

use std::alloc::{AllocError, AllocFailed};
use std::marker::Model;

/// A line that is to be printed, with its newline.
#[derive(Drop)]
pub struct Line {
    pub bytes: Vec<u8>,
}

impl Model for Line {
    ghost use Rattle.std.specs.Prelude.{List, ℕ};

    ghost Value = { List ℕ };

    ghost view = { λ l. l.bytes.items };
}

/// A refusal with its line, a load that failed, or no memory.
#[derive(Drop)]
pub enum Halt {
    Refused(Line),
    ReadFault,
    Memory,
}

impl From<AllocError> for Halt {
    ghost from_gives = { λ _ e. e ≡ Memory };

    fn from(_e: AllocError) -> Halt {
        Halt::Memory
    }
}

impl<T: Drop> From<AllocFailed<T>> for Halt {
    ghost from_gives = { λ _ e. e ≡ Memory };

    fn from(_e: AllocFailed<T>) -> Halt {
        Halt::Memory
    }
}
