//! The sections of a file, and their names.

ghost use Rattle.std.specs.Prelude.{◌≡◌, ◌≤◌, ◌<◌, ◌+◌, ◌^◌, length, drop, IfSome};
ghost use Rattle.guest_ram.specs.Bytes.{word16, word32};
ghost use Rattle.elf_form.specs.declared.abi.TheConstants.{EHDR_SIZE};
ghost use Rattle.elf_form.specs.Whole.{IsWhole, IsSection};
ghost use Rattle.elf_form.specs.Cut.{section_passes};
ghost use Rattle.elf_form.specs.Sections.{contents, is_index, has_strings, strings_in, names, is_null, is_unnamed, is_nameless, is_sites, is_compressed, one_of, compressed, nameless};

use crate::abi::{
    E_SHNUM, E_SHOFF, E_SHSTRNDX, SH_FLAGS, SH_OFFSET, SH_SIZE, SH_TYPE, SHDR_SIZE, SHF_COMPRESSED,
    SHN_LORESERVE, SHN_UNDEF, SHT_NOBITS, SHT_NULL, SHT_STRTAB,
};
use crate::segments::Found;
use guest_ram::{half, word};

/// The name of the section of sites, with the zero byte that ends it.
pub const SITES_NAME: [u8; 10] = *b".pv_sites\0";

/// The bytes of a section.
#[tactic(auto, unfolding(crate::specs::Sections::contents, guest_ram::specs::Bytes::part))]
pub fn contents(bytes: &[u8], s: usize) -> &[u8]
    requires { IsSection bytes.now s }
    ensures bytes { result.now ≡ contents bytes.now s }
    ensures small { length result.now < 2 ^ 32 }
    ensures inside { 0 < length result.now → word32 bytes.now (s + SH_OFFSET) + length result.now ≤ length bytes.now }
{
    let kind = word(bytes, s + SH_TYPE);
    if kind == SHT_NULL || kind == SHT_NOBITS {
        return &[];
    }
    let at = word(bytes, s + SH_OFFSET) as usize;
    let size = word(bytes, s + SH_SIZE) as usize;
    &bytes[at..at + size]
}

/// Whether an index names a section; `SHN_UNDEF` and the reserved ones name none.
pub fn is_index(bytes: &[u8], index: usize) -> bool
    requires { EHDR_SIZE ≤ length bytes.now }
    ensures { result ≡ is_index bytes.now index }
{
    index != SHN_UNDEF && index < SHN_LORESERVE && index < half(bytes, E_SHNUM) as usize
}

/// Whether an index names a string table.
pub fn has_strings(bytes: &[u8], index: usize) -> bool
    requires { IsWhole bytes.now }
    ensures { result ≡ has_strings bytes.now index }
{
    let table = word(bytes, E_SHOFF) as usize;
    is_index(bytes, index) && word(bytes, table + SHDR_SIZE * index + SH_TYPE) == SHT_STRTAB
}

/// The bytes of a string table, none where the section is no such table.
#[tactic(auto, unfolding(crate::specs::Sections::strings_in), using(crate::proofs::WholeLaws::section_at))]
pub fn strings_in(bytes: &[u8], index: usize) -> &[u8]
    requires { IsWhole bytes.now }
    ensures { result.now ≡ strings_in bytes.now index }
{
    let table = word(bytes, E_SHOFF) as usize;
    if !is_index(bytes, index) {
        return &[];
    }
    let s = table + SHDR_SIZE * index;
    if word(bytes, s + SH_TYPE) != SHT_STRTAB {
        return &[];
    }
    contents(bytes, s)
}

/// The bytes of the section that has the names of sections.
#[tactic(auto, unfolding(crate::specs::Sections::names))]
pub fn names(bytes: &[u8]) -> &[u8]
    requires { IsWhole bytes.now }
    ensures { result.now ≡ names bytes.now }
{
    strings_in(bytes, half(bytes, E_SHSTRNDX) as usize)
}

/// The names from an offset on.
pub fn from(names: &[u8], at: usize) -> &[u8]
    ensures { result.now ≡ drop at names.now }
{
    if at > names.len() { &[] } else { &names[at..] }
}

/// Whether the section's type is SHT_NULL.
pub fn is_null(bytes: &[u8], s: usize) -> bool
    requires { s + SHDR_SIZE ≤ length bytes.now }
    ensures { result ≡ is_null bytes.now s }
{
    word(bytes, s + SH_TYPE) == SHT_NULL
}

/// Whether no zero byte ends a name within a string table, of a section or a symbol that begins at `at`.
pub fn is_unnamed(strings: &[u8], bytes: &[u8], at: usize) -> bool
    requires { at + 4 ≤ length bytes.now }
    ensures { result ≡ is_unnamed strings.now bytes.now at }
{
    !from(strings, word(bytes, at) as usize).contains(&0)
}

fn is_nameless(names: &[u8], bytes: &[u8], s: usize) -> bool
    requires { s + SHDR_SIZE ≤ length bytes.now }
    ensures { result ≡ is_nameless names.now bytes.now s }
{
    word(bytes, s + SH_TYPE) != SHT_NULL && is_unnamed(names, bytes, s)
}

/// Whether the section has the name of the list of sites.
pub fn is_sites(names: &[u8], bytes: &[u8], s: usize) -> bool
    requires { s + SHDR_SIZE ≤ length bytes.now }
    ensures { result ≡ is_sites names.now bytes.now s }
{
    word(bytes, s + SH_TYPE) != SHT_NULL
        && from(names, word(bytes, s) as usize).starts_with(&SITES_NAME)
}

fn is_compressed(bytes: &[u8], s: usize) -> bool
    requires { s + SHDR_SIZE ≤ length bytes.now }
    ensures { result ≡ is_compressed bytes.now s }
{
    word(bytes, s + SH_TYPE) != SHT_NULL && word(bytes, s + SH_FLAGS) / SHF_COMPRESSED % 2 == 1
}

/// The place that says that there is not one section.
pub fn one_of(sections: Found) -> Option<usize>
    ensures { result ≡ one_of sections }
{
    match sections {
        Found::Nothing => Some(E_SHNUM),
        Found::One(_) => None,
        Found::Two(_, t) | Found::More(_, t) => Some(t),
    }
}

/// The flags of the first section that is compressed.
pub fn compressed(bytes: &[u8]) -> Option<usize>
    requires { IsWhole bytes.now }
    ensures place { result ≡ compressed bytes.now }
    ensures inside { IfSome result (λ at. at < length bytes.now) }
{
    let table = word(bytes, E_SHOFF) as usize;
    let count = half(bytes, E_SHNUM) as usize;
    for i in 0..count {
        let s = table + SHDR_SIZE * i;
        if is_compressed(bytes, s) {
            return Some(s + SH_FLAGS);
        }
    }
    None
}

/// The first section that has no name.
pub fn nameless(bytes: &[u8]) -> Option<usize>
    requires { IsWhole bytes.now }
    ensures place { result ≡ nameless bytes.now }
    ensures inside { IfSome result (λ at. at < length bytes.now) }
{
    let table = word(bytes, E_SHOFF) as usize;
    let count = half(bytes, E_SHNUM) as usize;
    let names = names(bytes);
    for i in 0..count {
        let s = table + SHDR_SIZE * i;
        if is_nameless(names, bytes, s) {
            return Some(s);
        }
    }
    None
}
