//! Why a file is not accepted.

ghost use Rattle.std.specs.Prelude.{◌≡◌};
ghost use Rattle.image_check.specs.declared.fault.CheckFault.TheVariants.{Memory};

use elf_form::ElfFault;
use std::alloc::{AllocError, AllocFailed};
use std::fmt;
use thiserror::Error;

/// What is wrong with an image, in the order in which the causes are tested but for one: `SitesForm`
/// is tested before `SiteWrong`. Each has its number, from 60.
#[derive(Clone, Copy, Debug, PartialEq, Eq)]
pub enum CheckCause {
    TextPlace = 60,
    InitPlace,
    TextSize,
    InitSize,
    EntryPlace,
    RefusedCode,
    BadCode,
    TextEnd,
    SiteWrong,
    SitesForm,
    Target,
    EntryStart,
}

impl fmt::Display for CheckCause {
    fn fmt<W: fmt::Write>(&self, f: &mut fmt::Formatter<W>) -> fmt::Result {
        f.write_str(match self {
            CheckCause::TextPlace => "the text is not at 0x10000000",
            CheckCause::InitPlace => "the data is not at 0x11000000",
            CheckCause::TextSize => "no text, or too much",
            CheckCause::InitSize => "too much data",
            CheckCause::EntryPlace => "the entry is not in the text",
            CheckCause::RefusedCode => "an instruction that is refused by its name",
            CheckCause::BadCode => "bytes that are no instruction",
            CheckCause::TextEnd => "the last instruction does not jump to itself",
            CheckCause::SiteWrong =>
                "a sensitive instruction without its padding or its annotation, or an annotation without one",
            CheckCause::SitesForm => "no annotations in the form",
            CheckCause::Target => "a branch that leads to no instruction, or into a site",
            CheckCause::EntryStart => "an entry that is no instruction, or lies in a site",
        })
    }
}

/// Why a file is not accepted: it is no image file, the image is wrong at a place, or no memory was
/// found. `at` is an offset in the text, but 0 for the causes of places and sizes, and for
/// `SitesForm` an offset in the annotations.
#[derive(Debug, Drop, Error)]
pub enum CheckFault {
    #[error("{0}")]
    Elf(ElfFault),
    #[error("{cause}, at {at}")]
    At { at: u32, cause: CheckCause },
    #[error("no memory was found")]
    Memory,
}

impl From<AllocError> for CheckFault {
    ghost from_gives = { λ _ e. e ≡ Memory };

    fn from(_e: AllocError) -> CheckFault {
        CheckFault::Memory
    }
}

impl<T: Drop> From<AllocFailed<T>> for CheckFault {
    ghost from_gives = { λ _ e. e ≡ Memory };

    fn from(_e: AllocFailed<T>) -> CheckFault {
        CheckFault::Memory
    }
}
