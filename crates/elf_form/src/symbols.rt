//! The symbol table of an object, its relocations, and their tests.

ghost use Rattle.std.specs.Prelude.{◌≡◌, ◌≤◌, ◌<◌, ◌+◌, ◌*◌, ◌^◌, length, IfSome};
ghost use Rattle.guest_ram.specs.Bytes.{word16, word32};
ghost use Rattle.elf_form.specs.declared.abi.TheConstants.{EHDR_SIZE};
ghost use Rattle.elf_form.specs.Whole.{AllFound, IsWhole, IsSection};
ghost use Rattle.elf_form.specs.Header.{section_table, section_count};
ghost use Rattle.elf_form.specs.Symbols.{target_role, table_at, is_file, has_binding, has_place, is_listed, place_by, role_at, symbol_fault, global_fault, is_reloc_section, is_reloc_section_of, entries_fault, is_linked, section_test, symbol_test, has_symbol, size_at, named_symbol, is_outside, has_kind, names_none, named_fault, form_fault, reloc_test};
ghost use Rattle.elf_form.specs.Sections.{is_unnamed};
ghost use Rattle.elf_form.specs.KeptRelocs.{IsEntry};

use crate::abi::{
    E_SHNUM, E_SHOFF, R_386_32, R_386_PC32, R_INFO, REL_SIZE, SH_ENTSIZE, SH_INFO, SH_LINK,
    SH_OFFSET, SH_SIZE, SHDR_SIZE, SHN_UNDEF, ST_INFO, ST_SHNDX, STB_LOCAL, STB_WEAK, STT_FILE,
    SYM_SIZE,
};
use crate::object::Place;
use crate::roles::{Role, has_role, is_kept, role_number, section_role};
use crate::sections::{contents, is_index, is_unnamed};
use crate::segments::Found;
use guest_ram::{byte, half, word};

/// The symbol table: its section, where its entries begin, and how many it has with the null one
/// (0 where there is no table).
#[derive(Clone, Copy)]
pub struct Table {
    pub section: usize,
    pub at: usize,
    pub count: usize,
}

/// A relocation: the section that it stands in, and where.
#[derive(Clone, Copy)]
pub struct Entry {
    pub section: usize,
    pub at: usize,
}

/// What is tested of the sections of relocations.
#[derive(Clone, Copy)]
pub enum SectionTest {
    EntrySizes,
    Links,
}

/// What is tested of symbols.
#[derive(Clone, Copy)]
pub enum SymbolTest {
    Names,
    Globals,
}

/// What is tested of relocations: the symbol that one names, or its own form.
#[derive(Clone, Copy)]
pub enum RelocTest {
    Named,
    Form,
}

/// The table of symbols in the first of the sections that were found: the offsets of its header and of its contents,
/// and the number of its entries. All 0 where none was found.
pub fn table_at(bytes: &[u8], found: Found) -> Table
    requires found { AllFound (IsSection bytes.now) found }
    requires header { EHDR_SIZE ≤ length bytes.now }
    ensures table { result ≡ table_at bytes.now found }
    ensures section { result.section + SHDR_SIZE ≤ length bytes.now }
    ensures small { result.count < 2 ^ 28 }
    ensures inside { 0 < result.count → result.at + SYM_SIZE * result.count ≤ length bytes.now }
{
    match found {
        Found::Nothing => Table {
            section: 0,
            at: 0,
            count: 0,
        },
        Found::One(s) | Found::Two(s, _) | Found::More(s, _) => Table {
            section: s,
            at: word(bytes, s + SH_OFFSET) as usize,
            count: contents(bytes, s).len() / SYM_SIZE,
        },
    }
}

/// Whether the symbol at `y` names a source file (STT_FILE).
pub fn is_file(bytes: &[u8], y: usize) -> bool
    requires { y + SYM_SIZE ≤ length bytes.now }
    ensures { result ≡ is_file bytes.now y }
{
    byte(bytes, y + ST_INFO) % 16 == STT_FILE
}

fn has_binding(bytes: &[u8], y: usize) -> bool
    requires { y + SYM_SIZE ≤ length bytes.now }
    ensures { result ≡ has_binding bytes.now y }
{
    byte(bytes, y + ST_INFO) / 16 < STB_WEAK
}

/// Where a symbol is defined, by what its section is read as.
pub fn place_by(role: Role) -> Place
    ensures { result ≡ place_by role }
{
    match role {
        Role::Text => Place::Text,
        Role::Init => Place::Init,
        Role::Bss => Place::Bss,
        Role::Ignored | Role::Sites | Role::Foreign | Role::Symbols | Role::Relocs => {
            Place::Undefined
        }
    }
}

/// What the section of an index is read as.
#[tactic(auto, unfolding(crate::specs::Symbols::role_at))]
pub fn role_at(names: &[u8], bytes: &[u8], index: usize) -> Role
    requires { IsWhole bytes.now }
    ensures role { result ≡ role_at names.now bytes.now index }
{
    if !is_index(bytes, index) {
        return Role::Ignored;
    }
    section_role(
        names,
        bytes,
        word(bytes, E_SHOFF) as usize + SHDR_SIZE * index,
    )
}

fn has_place(names: &[u8], bytes: &[u8], y: usize) -> bool
    requires whole { IsWhole bytes.now }
    requires inside { y + SYM_SIZE ≤ length bytes.now }
    ensures { result ≡ has_place names.now bytes.now y }
{
    let index = half(bytes, y + ST_SHNDX) as usize;
    index == SHN_UNDEF || is_kept(role_at(names, bytes, index))
}

/// Whether the symbol at `y` is one of the object's: no file, local or global, undefined or in a section that is
/// kept.
pub fn is_listed(names: &[u8], bytes: &[u8], y: usize) -> bool
    requires whole { IsWhole bytes.now }
    requires inside { y + SYM_SIZE ≤ length bytes.now }
    ensures { result ≡ is_listed names.now bytes.now y }
{
    !is_file(bytes, y) && has_binding(bytes, y) && has_place(names, bytes, y)
}

/// Where a symbol that is needed is bad.
#[tactic(auto, unfolding(crate::specs::Symbols::symbol_fault))]
fn symbol_fault(names: &[u8], bytes: &[u8], y: usize) -> Option<usize>
    requires whole { IsWhole bytes.now }
    requires inside { y + SYM_SIZE ≤ length bytes.now }
    ensures place { result ≡ symbol_fault names.now bytes.now y }
    ensures small { IfSome result (λ at. at < length bytes.now) }
{
    if is_file(bytes, y) {
        return None;
    }
    if !has_binding(bytes, y) {
        return Some(y + ST_INFO);
    }
    (!has_place(names, bytes, y)).then_some(y + ST_SHNDX)
}

fn global_fault(names: &[u8], bytes: &[u8], y: usize) -> Option<usize>
    requires whole { IsWhole bytes.now }
    requires inside { y + SYM_SIZE ≤ length bytes.now }
    ensures place { result ≡ global_fault names.now bytes.now y }
    ensures small { IfSome result (λ at. at < length bytes.now) }
{
    if byte(bytes, y + ST_INFO) / 16 == STB_LOCAL {
        return None;
    }
    symbol_fault(names, bytes, y)
}

fn target_role(names: &[u8], bytes: &[u8], s: usize) -> Role
    requires whole { IsWhole bytes.now }
    requires inside { s + SHDR_SIZE ≤ length bytes.now }
    ensures { result ≡ target_role names.now bytes.now s }
{
    role_at(names, bytes, word(bytes, s + SH_INFO) as usize)
}

fn is_reloc_section(names: &[u8], bytes: &[u8], s: usize) -> bool
    requires whole { IsWhole bytes.now }
    requires inside { s + SHDR_SIZE ≤ length bytes.now }
    ensures { result ≡ is_reloc_section names.now bytes.now s }
{
    has_role(Role::Relocs, names, bytes, s) && is_kept(target_role(names, bytes, s))
}

/// Whether the section whose header begins at `s` relocates a section of this role.
pub fn is_reloc_section_of(role: Role, names: &[u8], bytes: &[u8], s: usize) -> bool
    requires whole { IsWhole bytes.now }
    requires inside { s + SHDR_SIZE ≤ length bytes.now }
    ensures { result ≡ is_reloc_section_of role names.now bytes.now s }
{
    has_role(Role::Relocs, names, bytes, s)
        && role_number(target_role(names, bytes, s)) == role_number(role)
}

/// The offset of the first field that is bad: the size, where it isn't a multiple of the entry's, or the entry's size
/// itself.
pub fn entries_fault(entry: u32, bytes: &[u8], s: usize) -> Option<usize>
    requires inside { s + SHDR_SIZE ≤ length bytes.now }
    requires entry { 0 < entry }
    ensures place { result ≡ entries_fault entry bytes.now s }
    ensures small { IfSome result (λ at. at < length bytes.now) }
{
    if word(bytes, s + SH_SIZE) % entry != 0 {
        return Some(s + SH_SIZE);
    }
    (word(bytes, s + SH_ENTSIZE) != entry).then_some(s + SH_ENTSIZE)
}

fn is_linked(table: Table, names: &[u8], bytes: &[u8], s: usize) -> bool
    requires whole { IsWhole bytes.now }
    requires inside { s + SHDR_SIZE ≤ length bytes.now }
    ensures { result ≡ is_linked table names.now bytes.now s }
{
    let link = word(bytes, s + SH_LINK) as usize;
    role_number(role_at(names, bytes, link)) == role_number(Role::Symbols)
        && word(bytes, E_SHOFF) as usize + SHDR_SIZE * link == table.section
}

/// The offset of the field at which a section of relocations fails the test. Other sections pass.
pub fn section_test(
    test: SectionTest,
    table: Table,
    names: &[u8],
    bytes: &[u8],
    s: usize,
) -> Option<usize>
    requires whole { IsWhole bytes.now }
    requires inside { s + SHDR_SIZE ≤ length bytes.now }
    ensures place { result ≡ section_test test table names.now bytes.now s }
    ensures small { IfSome result (λ at. at < length bytes.now) }
{
    if !is_reloc_section(names, bytes, s) {
        return None;
    }
    match test {
        SectionTest::EntrySizes => entries_fault(REL_SIZE as u32, bytes, s),
        SectionTest::Links => (!is_linked(table, names, bytes, s)).then_some(s + SH_LINK),
    }
}

/// The offset at which the symbol at `y` fails the test.
pub fn symbol_test(
    test: SymbolTest,
    strings: &[u8],
    names: &[u8],
    bytes: &[u8],
    y: usize,
) -> Option<usize>
    requires whole { IsWhole bytes.now }
    requires inside { y + SYM_SIZE ≤ length bytes.now }
    ensures place { result ≡ symbol_test test strings.now names.now bytes.now y }
    ensures small { IfSome result (λ at. at < length bytes.now) }
{
    match test {
        SymbolTest::Names => is_unnamed(strings, bytes, y).then_some(y),
        SymbolTest::Globals => global_fault(names, bytes, y),
    }
}

fn named_symbol(bytes: &[u8], y: usize) -> usize
    requires { y + REL_SIZE ≤ length bytes.now }
    ensures number { result ≡ named_symbol bytes.now y }
    ensures small { result < 2 ^ 24 }
{
    word(bytes, y + R_INFO) as usize / 256
}

fn has_symbol(table: Table, bytes: &[u8], y: usize) -> bool
    requires { y + REL_SIZE ≤ length bytes.now }
    ensures { result ≡ has_symbol table bytes.now y }
{
    named_symbol(bytes, y) != 0 && named_symbol(bytes, y) < table.count
}

#[tactic(auto, unfolding(crate::specs::Symbols::size_at))]
fn size_at(bytes: &[u8], index: usize) -> usize
    requires { IsWhole bytes.now }
    ensures size { result ≡ size_at bytes.now index }
{
    if index >= half(bytes, E_SHNUM) as usize {
        return 0;
    }
    word(
        bytes,
        word(bytes, E_SHOFF) as usize + SHDR_SIZE * index + SH_SIZE,
    ) as usize
}

fn is_outside(names: &[u8], bytes: &[u8], e: Entry) -> bool
    requires whole { IsWhole bytes.now }
    requires inside { IsEntry bytes.now e }
    ensures { result ≡ is_outside names.now bytes.now e }
{
    let index = word(bytes, e.section + SH_INFO) as usize;
    if role_number(role_at(names, bytes, index)) == role_number(Role::Bss) {
        return true;
    }
    let size = size_at(bytes, index);
    size < word(bytes, e.at) as usize + 4
}

fn has_kind(bytes: &[u8], y: usize) -> bool
    requires { y + REL_SIZE ≤ length bytes.now }
    ensures { result ≡ has_kind bytes.now y }
{
    word(bytes, y + R_INFO) % 256 == R_386_32 || word(bytes, y + R_INFO) % 256 == R_386_PC32
}

fn names_none(table: Table, bytes: &[u8], y: usize) -> bool
    requires inside { y + REL_SIZE ≤ length bytes.now }
    requires table { 0 < table.count → table.at + SYM_SIZE * table.count ≤ length bytes.now }
    ensures { result ≡ names_none table bytes.now y }
{
    if !has_symbol(table, bytes, y) {
        return true;
    }
    is_file(bytes, table.at + SYM_SIZE * named_symbol(bytes, y))
}

fn named_fault(table: Table, names: &[u8], bytes: &[u8], y: usize) -> Option<usize>
    requires whole { IsWhole bytes.now }
    requires inside { y + REL_SIZE ≤ length bytes.now }
    requires table { 0 < table.count → table.at + SYM_SIZE * table.count ≤ length bytes.now }
    ensures place { result ≡ named_fault table names.now bytes.now y }
    ensures small { IfSome result (λ at. at < length bytes.now) }
{
    if !has_symbol(table, bytes, y) {
        return None;
    }
    symbol_fault(names, bytes, table.at + SYM_SIZE * named_symbol(bytes, y))
}

fn form_fault(table: Table, names: &[u8], bytes: &[u8], e: Entry) -> Option<usize>
    requires whole { IsWhole bytes.now }
    requires entry { IsEntry bytes.now e }
    requires table { 0 < table.count → table.at + SYM_SIZE * table.count ≤ length bytes.now }
    ensures place { result ≡ form_fault table names.now bytes.now e }
    ensures small { IfSome result (λ at. at < length bytes.now) }
{
    if is_outside(names, bytes, e) {
        return Some(e.at);
    }
    (!has_kind(bytes, e.at) || names_none(table, bytes, e.at)).then_some(e.at + R_INFO)
}

/// The offset at which a relocation, or the symbol that it names, fails the test.
pub fn reloc_test(
    test: RelocTest,
    table: Table,
    names: &[u8],
    bytes: &[u8],
    e: Entry,
) -> Option<usize>
    requires whole { IsWhole bytes.now }
    requires entry { IsEntry bytes.now e }
    requires table { 0 < table.count → table.at + SYM_SIZE * table.count ≤ length bytes.now }
    ensures place { result ≡ reloc_test test table names.now bytes.now e }
    ensures small { IfSome result (λ at. at < length bytes.now) }
{
    match test {
        RelocTest::Named => named_fault(table, names, bytes, e.at),
        RelocTest::Form => form_fault(table, names, bytes, e),
    }
}
