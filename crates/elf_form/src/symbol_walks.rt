//! Walks over the sections, symbols and relocations of an object.

ghost use Rattle.std.specs.Prelude.{◌≡◌, ◌≤◌, ◌<◌, ◌+◌, ◌*◌, ◌^◌, ◌++◌, length, All, OnOk, IfOk, IfSome};
ghost use Rattle.guest_ram.specs.Bytes.{word16, word32};
ghost use Rattle.elf_form.specs.Faults.{◌or_lower◌};
ghost use Rattle.elf_form.specs.Whole.{IsWhole, IsSection};
ghost use Rattle.elf_form.specs.Symbols.{sections_fault, symbols_fault};

use crate::abi::{E_SHNUM, E_SHOFF, SHDR_SIZE, SYM_SIZE};
use crate::symbols::{SectionTest, SymbolTest, Table, section_test, symbol_test};
use guest_ram::{half, word};

/// The first place that a test of the sections gives.
pub fn sections_fault(test: SectionTest, table: Table, names: &[u8], bytes: &[u8]) -> Option<usize>
    requires { IsWhole bytes.now }
    ensures place { result ≡ sections_fault test table names.now bytes.now }
    ensures inside { IfSome result (λ at. at < length bytes.now) }
{
    let first = word(bytes, E_SHOFF) as usize;
    let count = half(bytes, E_SHNUM) as usize;
    for i in 0..count {
        if let Some(at) = section_test(test, table, names, bytes, first + SHDR_SIZE * i) {
            return Some(at);
        }
    }
    None
}

/// The first place that a test of the symbols after the null one gives.
pub fn symbols_fault(
    test: SymbolTest,
    table: Table,
    strings: &[u8],
    names: &[u8],
    bytes: &[u8],
) -> Option<usize>
    requires whole { IsWhole bytes.now }
    requires table { 0 < table.count → table.at + SYM_SIZE * table.count ≤ length bytes.now }
    ensures place { result ≡ symbols_fault test table strings.now names.now bytes.now }
    ensures inside { IfSome result (λ at. at < length bytes.now) }
{
    if table.count == 0 {
        return None;
    }
    let first = table.at + SYM_SIZE;
    let count = table.count - 1;
    for i in 0..count {
        if let Some(at) = symbol_test(test, strings, names, bytes, first + SYM_SIZE * i) {
            return Some(at);
        }
    }
    None
}
