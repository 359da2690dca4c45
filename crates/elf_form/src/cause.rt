//! Why a file could not be read.

ghost use Rattle.std.specs.Prelude.{◌≡◌};
ghost use Rattle.elf_form.specs.declared.cause.ElfFault.TheVariants.{Memory};

use std::alloc::{AllocError, AllocFailed};
use std::fmt;
use thiserror::Error;

/// What is wrong with a file. The causes are tested in this order; each has its number, from 40.
#[derive(Clone, Copy, Debug, PartialEq, Eq)]
pub enum ElfCause {
    Truncated = 40,
    Magic,
    Class,
    Encoding,
    Version,
    FileType,
    Machine,
    Sizes,
    SectionForm,
    Compressed,
    StringPlace,
    SymbolForm,
    RelocForm,
}

impl fmt::Display for ElfCause {
    fn fmt<W: fmt::Write>(&self, f: &mut fmt::Formatter<W>) -> fmt::Result {
        f.write_str(match self {
            ElfCause::Truncated => "a part passes the end of the file",
            ElfCause::Magic => "no ELF file",
            ElfCause::Class => "no file of 32 bits",
            ElfCause::Encoding => "no little-endian file",
            ElfCause::Version => "another version than 1",
            ElfCause::FileType => "another type of file",
            ElfCause::Machine => "another machine than the 80386",
            ElfCause::Sizes => "a size that does not fit",
            ElfCause::SectionForm => "a section or segment that is not allowed or is missing",
            ElfCause::Compressed => "a compressed section",
            ElfCause::StringPlace => "a name outside its string table",
            ElfCause::SymbolForm => "a symbol that is not allowed",
            ElfCause::RelocForm => "a relocation that is not allowed",
        })
    }
}

/// What is wrong with a file, at the offset of the bad field, or that no memory was found.
#[derive(Debug, Drop, Error)]
pub enum ElfFault {
    #[error("{cause}, at {at}")]
    At { at: u32, cause: ElfCause },
    #[error("no memory was found")]
    Memory,
}

impl From<AllocError> for ElfFault {
    ghost from_gives = { λ _ e. e ≡ Memory };

    fn from(_e: AllocError) -> ElfFault {
        ElfFault::Memory
    }
}

impl<T: Drop> From<AllocFailed<T>> for ElfFault {
    ghost from_gives = { λ _ e. e ≡ Memory };

    fn from(_e: AllocFailed<T>) -> ElfFault {
        ElfFault::Memory
    }
}
