//! The section headers that are written.

ghost use Rattle.std.specs.Prelude.{◌≡◌, ◌++◌, OnOk};
ghost use Rattle.elf_form.specs.Output.{longs};
ghost use Rattle.elf_form.specs.SectionHeaders.{placed, bss_section, relocations_section, symbols_section, names_section, numbers_of};

use crate::abi::{
    REL_SIZE, SHF_ALLOC, SHF_EXECINSTR, SHF_WRITE, SHT_NOBITS, SHT_NULL, SHT_PROGBITS, SHT_REL,
    SHT_STRTAB, SHT_SYMTAB, SYM_SIZE,
};
use crate::output::put_longs;
use std::alloc::AllocError;

/// A section header, by its fields in their order: name, type, flags, address, offset in the file,
/// bytes, link, info, alignment, and the size of entries.
#[derive(Clone, Copy)]
pub struct SectionHeader {
    pub name: u32,
    pub kind: u32,
    pub flags: u32,
    pub address: u32,
    pub offset: u32,
    pub size: u32,
    pub link: u32,
    pub info: u32,
    pub alignment: u32,
    pub entry_size: u32,
}

impl SectionHeader {
    /// The header of a section at an address, with so many bytes at an offset in the file.
    pub fn at(self, address: u32, offset: u32, size: u32) -> SectionHeader
        ensures { result ≡ placed self address offset size }
    {
        SectionHeader {
            address,
            offset,
            size,
            ..self
        }
    }
}

/// The first header of a table, which stands for no section.
pub const NO_SECTION: SectionHeader = SectionHeader {
    name: 0,
    kind: SHT_NULL,
    flags: 0,
    address: 0,
    offset: 0,
    size: 0,
    link: 0,
    info: 0,
    alignment: 0,
    entry_size: 0,
};

/// Text, in an object and in an image. Its name is the first after a zero byte.
pub const TEXT_SECTION: SectionHeader = SectionHeader {
    name: 1,
    kind: SHT_PROGBITS,
    flags: SHF_ALLOC + SHF_EXECINSTR,
    alignment: 16,
    ..NO_SECTION
};

/// Data.
pub const DATA_SECTION: SectionHeader = SectionHeader {
    name: 7,
    kind: SHT_PROGBITS,
    flags: SHF_WRITE + SHF_ALLOC,
    alignment: 16,
    ..NO_SECTION
};

/// Annotations.
pub const SITES_SECTION: SectionHeader = SectionHeader {
    name: 18,
    kind: SHT_PROGBITS,
    alignment: 4,
    ..NO_SECTION
};

/// Zeroed bytes.
pub fn bss_section(alignment: u32) -> SectionHeader
    ensures { result ≡ bss_section alignment }
{
    SectionHeader {
        name: 13,
        kind: SHT_NOBITS,
        flags: SHF_WRITE + SHF_ALLOC,
        alignment,
        ..NO_SECTION
    }
}

/// Relocations of a section. They name symbols of section 7.
pub fn relocations_section(name: u32, section: u32) -> SectionHeader
    ensures { result ≡ relocations_section name section }
{
    SectionHeader {
        name,
        kind: SHT_REL,
        link: 7,
        info: section,
        entry_size: REL_SIZE as u32,
        ..NO_SECTION
    }
}

/// Symbols, of which this is the first global one. Their names stand in section 8.
pub fn symbols_section(first_global: u32) -> SectionHeader
    ensures { result ≡ symbols_section first_global }
{
    SectionHeader {
        name: 48,
        kind: SHT_SYMTAB,
        link: 8,
        info: first_global,
        entry_size: SYM_SIZE as u32,
        ..NO_SECTION
    }
}

/// Names, each ended by a zero byte.
pub fn names_section(name: u32) -> SectionHeader
    ensures { result ≡ names_section name }
{
    SectionHeader {
        name,
        kind: SHT_STRTAB,
        ..NO_SECTION
    }
}

/// Adds the headers of some sections.
pub fn put_headers(out: &mut Vec<u8>, headers: &[SectionHeader]) -> Result<(), AllocError>
    ensures { OnOk result (out.new.items ≡ out.old.items ++ longs (numbers_of headers.now)) }
{
    for h in headers {
        put_longs(
            out,
            &[
                h.name,
                h.kind,
                h.flags,
                h.address,
                h.offset,
                h.size,
                h.link,
                h.info,
                h.alignment,
                h.entry_size,
            ],
        )?;
    }
    Ok(())
}
