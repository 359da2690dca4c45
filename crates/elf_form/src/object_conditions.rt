//! The tests of an object's sections and names.

ghost use Rattle.std.specs.Prelude.{◌≡◌, ◌≤◌, ◌<◌, ◌+◌, ◌*◌, ◌^◌, length, IfNone, IfSome};
ghost use Rattle.guest_ram.specs.Bytes.{word16, word32};
ghost use Rattle.elf_form.specs.declared.roles.Role.TheVariants as role;
ghost use Rattle.elf_form.specs.Tables.{first_in, second_in, further};
ghost use Rattle.elf_form.specs.Whole.{AllFound, IsWhole, IsSection};
ghost use Rattle.elf_form.specs.Sections.{names as names_of};
ghost use Rattle.elf_form.specs.Roles.{with_role};
ghost use Rattle.elf_form.specs.Symbols.{entries_fault};
ghost use Rattle.elf_form.specs.ObjectReading.{table_of, strings_of, link_of, table_fault, inner_sizes, object_sizes, object_form, section_names_fault, symbol_names_fault, string_places};

use crate::abi::{
    E_EHSIZE, E_SHENTSIZE, E_SHNUM, E_SHOFF, E_SHSTRNDX, EHDR_SIZE, SH_FLAGS, SH_LINK, SH_TYPE,
    SHDR_SIZE, SHT_STRTAB, SYM_SIZE,
};
use crate::header::lower;
use crate::joining::{joined_fault, misaligned};
use crate::roles::{Role, with_role};
use crate::sections::{has_strings, nameless, names, strings_in};
use crate::segments::{FILE_LIMIT, Found};
use crate::symbol_walks::{sections_fault, symbols_fault};
use crate::symbols::{SectionTest, SymbolTest, Table, entries_fault, table_at};
use guest_ram::{half, word};

/// The symbol table of an object.
pub fn table_of(bytes: &[u8]) -> Table
    requires { IsWhole bytes.now }
    ensures table { result ≡ table_of bytes.now }
    ensures small { result.count < 2 ^ 28 }
    ensures inside { 0 < result.count → result.at + SYM_SIZE * result.count ≤ length bytes.now }
    ensures section { result.section + SHDR_SIZE ≤ length bytes.now }
{
    table_at(bytes, with_role(Role::Symbols, names(bytes), bytes))
}

/// The names of an object's symbols.
pub fn strings_of(bytes: &[u8]) -> &[u8]
    requires { IsWhole bytes.now }
    ensures { result.now ≡ strings_of bytes.now }
{
    strings_in(
        bytes,
        word(bytes, table_of(bytes).section + SH_LINK) as usize,
    )
}

fn table_fault(bytes: &[u8], found: Found) -> Option<usize>
    requires { AllFound (IsSection bytes.now) found }
    ensures place { result ≡ table_fault bytes.now found }
    ensures inside { IfSome result (λ at. at < length bytes.now) }
{
    match found {
        Found::Nothing => None,
        Found::One(s) | Found::Two(s, _) | Found::More(s, _) => entries_fault(
            SYM_SIZE as u32,
            bytes,
            s,
        ),
    }
}

#[tactic(auto, unfolding(crate::specs::ObjectReading::inner_sizes))]
fn inner_sizes(bytes: &[u8]) -> Option<usize>
    requires { IsWhole bytes.now }
    ensures place { result ≡ inner_sizes bytes.now }
    ensures inside { IfSome result (λ at. at < length bytes.now) }
{
    let names = names(bytes);
    let table = table_fault(bytes, with_role(Role::Symbols, names, bytes));
    let relocs = sections_fault(SectionTest::EntrySizes, table_of(bytes), names, bytes);
    let init = joined_fault(Role::Init, names, bytes);
    let bss = joined_fault(Role::Bss, names, bytes);
    let joined = lower(init, lower(bss, lower(table, relocs)));
    lower(
        (half(bytes, E_EHSIZE) != EHDR_SIZE as u16).then_some(E_EHSIZE),
        lower(
            (half(bytes, E_SHENTSIZE) != SHDR_SIZE as u16).then_some(E_SHENTSIZE),
            joined,
        ),
    )
}

/// The lowest size field that is wrong.
#[tactic(auto, unfolding(crate::specs::ObjectReading::object_sizes))]
pub fn object_sizes(bytes: &[u8]) -> Option<usize>
    requires { IsWhole bytes.now }
    ensures place { result ≡ object_sizes bytes.now }
    ensures small { IfSome result (λ at. at < 2 ^ 32) }
    ensures limit { IfNone result (length bytes.now ≤ FILE_LIMIT) }
{
    lower(
        inner_sizes(bytes),
        (FILE_LIMIT < bytes.len()).then_some(FILE_LIMIT),
    )
}

fn first_field(bytes: &[u8], field: usize, found: Found) -> Option<usize>
    requires inside { AllFound (IsSection bytes.now) found }
    requires field { field < SHDR_SIZE }
    ensures place { result ≡ further field (first_in found) }
    ensures inside { IfSome result (λ at. at < length bytes.now) }
{
    let _bytes = bytes.len();
    match found {
        Found::Nothing => None,
        Found::One(s) | Found::Two(s, _) | Found::More(s, _) => Some(s + field),
    }
}

fn second_field(bytes: &[u8], field: usize, found: Found) -> Option<usize>
    requires inside { AllFound (IsSection bytes.now) found }
    requires field { field < SHDR_SIZE }
    ensures place { result ≡ further field (second_in found) }
    ensures inside { IfSome result (λ at. at < length bytes.now) }
{
    let _bytes = bytes.len();
    match found {
        Found::Nothing | Found::One(_) => None,
        Found::Two(_, t) | Found::More(_, t) => Some(t + field),
    }
}

/// The lowest field of a section that is not allowed.
pub fn object_form(bytes: &[u8]) -> Option<usize>
    requires { IsWhole bytes.now }
    ensures place { result ≡ object_form bytes.now }
    ensures inside { IfSome result (λ at. at < length bytes.now) }
{
    let names = names(bytes);
    let foreign = first_field(bytes, SH_TYPE, with_role(Role::Foreign, names, bytes));
    let text = second_field(bytes, SH_FLAGS, with_role(Role::Text, names, bytes));
    let sites = second_field(bytes, 0, with_role(Role::Sites, names, bytes));
    lower(foreign, lower(text, lower(sites, misaligned(names, bytes))))
}

fn section_names_fault(bytes: &[u8]) -> Option<usize>
    requires { IsWhole bytes.now }
    ensures place { result ≡ section_names_fault bytes.now }
    ensures inside { IfSome result (λ at. at < length bytes.now) }
{
    if !has_strings(bytes, half(bytes, E_SHSTRNDX) as usize) && half(bytes, E_SHNUM) != 0 {
        return Some(E_SHSTRNDX);
    }
    nameless(bytes)
}

fn symbol_names_fault(bytes: &[u8], found: Found) -> Option<usize>
    requires whole { IsWhole bytes.now }
    requires inside { AllFound (IsSection bytes.now) found }
    ensures place { result ≡ symbol_names_fault bytes.now found }
    ensures inside { IfSome result (λ at. at < length bytes.now) }
{
    match found {
        Found::Nothing => None,
        Found::One(s) | Found::Two(s, _) | Found::More(s, _) => {
            let table = table_of(bytes);
            if !has_strings(bytes, word(bytes, table.section + SH_LINK) as usize) {
                return Some(s + SH_LINK);
            }
            symbols_fault(
                SymbolTest::Names,
                table,
                strings_of(bytes),
                names(bytes),
                bytes,
            )
        }
    }
}

/// The lowest field that names no string.
pub fn string_places(bytes: &[u8]) -> Option<usize>
    requires { IsWhole bytes.now }
    ensures place { result ≡ string_places bytes.now }
    ensures inside { IfSome result (λ at. at < length bytes.now) }
{
    let symbols = with_role(Role::Symbols, names(bytes), bytes);
    lower(
        section_names_fault(bytes),
        symbol_names_fault(bytes, symbols),
    )
}
