//! A site, and lists of sites.

ghost use Rattle.std.specs.Prelude.{◌≡◌};
ghost use Rattle.sites.specs.declared.site.SitesFault.TheVariants.{Memory};

use ia32_types::SiteKind;
use std::alloc::{AllocError, AllocFailed};
use std::marker::Model;
use thiserror::Error;

/// A site: its offset in its text, the kind of its instruction, and how many bytes are sensitive
/// and in all (with the NOPs after them).
#[derive(Clone, Copy, PartialEq, Eq)]
pub struct Site {
    pub at: u32,
    pub kind: SiteKind,
    pub len: u8,
    pub total: u8,
}

/// The sites of a text, in the order of their offsets, and the format of their annotations, 1 or 2.
#[derive(Drop)]
pub struct Sites {
    pub list: Vec<Site>,
    pub format: u8,
}

impl Model for Sites {
    ghost use Rattle.sites.specs.SitesParts.{SitesParts};

    ghost Value = { SitesParts };

    ghost view = { λ s. record { list = s.list.items; format = s.format } };
}

/// Where the bytes are not in the form, or that no memory was found.
#[derive(Debug, Drop, Error)]
pub enum SitesFault {
    #[error("no annotations in the form, at {at}")]
    Form { at: u32 },
    #[error("no memory was found")]
    Memory,
}

impl From<AllocError> for SitesFault {
    ghost from_gives = { λ _ e. e ≡ Memory };

    fn from(_e: AllocError) -> SitesFault {
        SitesFault::Memory
    }
}

impl<T: Drop> From<AllocFailed<T>> for SitesFault {
    ghost from_gives = { λ _ e. e ≡ Memory };

    fn from(_e: AllocFailed<T>) -> SitesFault {
        SitesFault::Memory
    }
}
