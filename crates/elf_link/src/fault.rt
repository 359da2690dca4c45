//! Why objects are not linked.

ghost use Rattle.std.specs.Prelude.{◌≡◌};
ghost use Rattle.elf_link.specs.declared.fault.LinkFault.TheVariants.{Memory};
ghost use Rattle.elf_link.specs.Numbers.{number};

use elf_form::Bytes;
use std::alloc::{AllocError, AllocFailed};
use thiserror::Error;

/// What is wrong with an object among those before it. Each cause has its number, from 30.
#[derive(Debug, Drop, Error)]
pub enum LinkCause {
    /// A relocation's symbol, which no object defines.
    #[error("a symbol that no object defines")]
    NoSymbol(Bytes),
    /// A global symbol that is defined twice.
    #[error("a symbol that is defined twice")]
    Doubled(Bytes),
    /// The field of a branch, or the value of `_start`, as an offset in its part.
    #[error("a branch or a start that is not in text, at {0}")]
    NotText(u32),
    #[error("too much text")]
    TextTooLarge,
    #[error("too much data")]
    InitTooLarge,
    #[error("too many symbols")]
    TooManySymbols,
    #[error("no annotations in the form")]
    SitesForm,
}

impl LinkCause {
    /// The number of the cause, 30 to 36.
    pub fn number(&self) -> u8
        ensures { result ≡ number self.now }
    {
        match self {
            LinkCause::NoSymbol(_) => 30,
            LinkCause::Doubled(_) => 31,
            LinkCause::NotText(_) => 32,
            LinkCause::TextTooLarge => 33,
            LinkCause::InitTooLarge => 34,
            LinkCause::TooManySymbols => 35,
            LinkCause::SitesForm => 36,
        }
    }
}

/// What is wrong with an object, counted from 0, or that no memory was found.
#[derive(Debug, Drop, Error)]
pub enum LinkFault {
    #[error("object {object}: {cause}")]
    At { object: u32, cause: LinkCause },
    #[error("no memory was found")]
    Memory,
}

impl From<AllocError> for LinkFault {
    ghost from_gives = { λ _ e. e ≡ Memory };

    fn from(_e: AllocError) -> LinkFault {
        LinkFault::Memory
    }
}

impl<T: Drop> From<AllocFailed<T>> for LinkFault {
    ghost from_gives = { λ _ e. e ≡ Memory };

    fn from(_e: AllocFailed<T>) -> LinkFault {
        LinkFault::Memory
    }
}
