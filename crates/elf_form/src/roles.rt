//! What each section of an object is read as.

ghost use Rattle.std.specs.Prelude.{◌≡◌, ◌≤◌, ◌<◌, ◌+◌, ◌*◌, ◌^◌, length, filter, IfSome};
ghost use Rattle.guest_ram.specs.Bytes.{word16, word32};
ghost use Rattle.guest_ram.specs.Among.{is_among};
ghost use Rattle.elf_form.specs.Tables.{entries, found};
ghost use Rattle.elf_form.specs.Whole.{AllFound, IsWhole, IsSection};
ghost use Rattle.elf_form.specs.Header.{sections};
ghost use Rattle.elf_form.specs.Roles.{role_by, role as role_of, role_number, has_role, with_role, is_kept, alignments, is_misaligned, misaligned, joined_fault, up};
ghost use Rattle.elf_form.specs.Output.{pad};

use crate::abi::{
    E_SHNUM, E_SHOFF, SH_ADDRALIGN, SH_FLAGS, SH_TYPE, SHDR_SIZE, SHF_ALLOC, SHF_EXECINSTR,
    SHT_NOBITS, SHT_NOTE, SHT_PROGBITS, SHT_REL, SHT_SYMTAB,
};
use crate::sections::{is_null, is_sites};
use crate::segments::Found;
use guest_ram::{half, word};

/// What a section is read as: ignored, or the annotations, the text, a part of the data or of the
/// zeroed bytes, one that is not allowed, the symbol table, or relocations.
#[derive(Clone, Copy)]
pub enum Role {
    Ignored,
    Sites,
    Text,
    Init,
    Bss,
    Foreign,
    Symbols,
    Relocs,
}

fn role_by(kind: u32, flags: u32) -> Role
    ensures { result ≡ role_by kind flags }
{
    if flags / SHF_ALLOC % 2 != 1 {
        return match kind {
            SHT_SYMTAB => Role::Symbols,
            SHT_REL => Role::Relocs,
            _ => Role::Ignored,
        };
    }
    match kind {
        SHT_PROGBITS if flags / SHF_EXECINSTR % 2 == 1 => Role::Text,
        SHT_PROGBITS => Role::Init,
        SHT_NOBITS => Role::Bss,
        SHT_NOTE => Role::Ignored,
        _ => Role::Foreign,
    }
}

/// What the section is read as whose header begins at `s`, by its name, its type and its flags. `names` is the table
/// of names.
#[tactic(auto, unfolding(crate::specs::Roles::role))]
pub fn section_role(names: &[u8], bytes: &[u8], s: usize) -> Role
    requires { s + SHDR_SIZE ≤ length bytes.now }
    ensures { result ≡ role_of names.now bytes.now s }
{
    if is_null(bytes, s) {
        return Role::Ignored;
    }
    if is_sites(names, bytes, s) {
        return Role::Sites;
    }
    role_by(word(bytes, s + SH_TYPE), word(bytes, s + SH_FLAGS))
}

/// The number of a role, by which roles are compared.
pub fn role_number(role: Role) -> u8
    ensures { result ≡ role_number role }
{
    match role {
        Role::Ignored => 0,
        Role::Sites => 1,
        Role::Text => 2,
        Role::Init => 3,
        Role::Bss => 4,
        Role::Foreign => 5,
        Role::Symbols => 6,
        Role::Relocs => 7,
    }
}

/// Whether the section whose header begins at `s` is read as this.
pub fn has_role(role: Role, names: &[u8], bytes: &[u8], s: usize) -> bool
    requires { s + SHDR_SIZE ≤ length bytes.now }
    ensures { result ≡ has_role role names.now bytes.now s }
{
    role_number(section_role(names, bytes, s)) == role_number(role)
}

/// Whether the section is one of the object's: text, data or zeroed bytes.
pub fn is_kept(role: Role) -> bool
    ensures { result ≡ is_kept role }
{
    match role {
        Role::Text | Role::Init | Role::Bss => true,
        Role::Ignored | Role::Sites | Role::Foreign | Role::Symbols | Role::Relocs => false,
    }
}

/// The sections that have a role.
pub fn with_role(role: Role, names: &[u8], bytes: &[u8]) -> Found
    requires { IsWhole bytes.now }
    ensures found { result ≡ with_role role names.now bytes.now }
    ensures inside { AllFound (IsSection bytes.now) result }
{
    let table = word(bytes, E_SHOFF) as usize;
    let count = half(bytes, E_SHNUM) as usize;
    let mut found = Found::Nothing;
    for i in 0..count {
        let s = table + SHDR_SIZE * i;
        if has_role(role, names, bytes, s) {
            found = found.with(s);
        }
    }
    found
}

/// The next multiple of an alignment; 0 is none.
pub fn up(alignment: u32, n: u64) -> u64
    requires { n ≤ 2 ^ 63 }
    ensures exact { result ≡ up alignment n }
    ensures near { result ≤ n + alignment }
    ensures least { n ≤ result }
{
    if alignment == 0 {
        return n;
    }
    let alignment = alignment as u64;
    n + (alignment - n % alignment) % alignment
}

const ALIGNMENTS: [u32; 14] = [0, 1, 2, 4, 8, 16, 32, 64, 128, 256, 512, 1024, 2048, 4096];

fn is_alignment(number: u32) -> bool
    ensures { result ≡ is_among number alignments }
{
    ALIGNMENTS.contains(&number)
}

/// Whether it is a section of data or of zeroed bytes whose alignment isn't 0 or a power of 2 up to 4096 (profile).
pub fn is_misaligned(names: &[u8], bytes: &[u8], s: usize) -> bool
    requires { s + SHDR_SIZE ≤ length bytes.now }
    ensures { result ≡ is_misaligned names.now bytes.now s }
{
    (has_role(Role::Init, names, bytes, s) || has_role(Role::Bss, names, bytes, s))
        && !is_alignment(word(bytes, s + SH_ADDRALIGN))
}
