//! Symbols and relocations, as they are read.

ghost use Rattle.std.specs.Prelude.{◌≡◌, ◌≤◌, ◌<◌, ◌+◌, ◌*◌, ◌^◌, ◌++◌, ◌==◌, length, map, All, OnOk, IfOk};
ghost use Rattle.std.specs.List.{position_or_len};
ghost use Rattle.guest_ram.specs.Bytes.{word16, word32};
ghost use Rattle.elf_form.specs.Header.{sections};
ghost use Rattle.elf_form.specs.Whole.{IsWhole};
ghost use Rattle.elf_form.specs.declared.roles.Role.TheVariants.{Init, Bss};
ghost use Rattle.elf_form.specs.Roles.{starts as starts_of};
ghost use Rattle.elf_form.specs.Symbols.{start_at, name_in, symbol_at, symbols_in, numbers, symbols_of, reloc_at};
ghost use Rattle.elf_form.specs.KeptRelocs.{IsEntry};

use crate::abi::{R_386_PC32, R_INFO, SH_INFO, ST_INFO, ST_SHNDX, ST_VALUE, STB_GLOBAL, SYM_SIZE};
use crate::object::{Bytes, Reloc, Symbol};
use crate::roles::{Role, role_number};
use crate::sections::from;
use crate::symbols::{Entry, Table, is_listed, place_by, role_at};
use guest_ram::{byte, half, word};
use std::alloc::{AllocError, Global};

/// Where each section of data, and of zeroed bytes, begins among those that it is joined to.
#[derive(Clone, Copy)]
pub struct Starts<'a> {
    pub init: &'a [u32],
    pub bss: &'a [u32],
}

/// Where a section begins in what it is joined to.
#[tactic(auto, unfolding(crate::specs::Symbols::start_at))]
fn start_at(starts: Starts, names: &[u8], bytes: &[u8], index: usize) -> u32
    requires whole { IsWhole bytes.now }
    requires init { starts.init.now ≡ starts_of Init names.now bytes.now 0 (sections bytes.now) }
    requires bss { starts.bss.now ≡ starts_of Bss names.now bytes.now 0 (sections bytes.now) }
    ensures { result ≡ start_at names.now bytes.now index }
{
    match role_at(names, bytes, index) {
        Role::Init => starts.init.get(index).copied().unwrap_or(0),
        Role::Bss => starts.bss.get(index).copied().unwrap_or(0),
        _ => 0,
    }
}

/// How many bytes come before the first zero byte.
fn before_zero(bytes: &[u8]) -> usize
    ensures count { result ≡ position_or_len (λ b. b == 0) bytes.now }
    ensures within { result ≤ length bytes.now }
{
    for (i, b) in bytes.iter().enumerate() {
        if *b == 0 {
            return i;
        }
    }
    bytes.len()
}

/// The name at an offset of a string table, up to its first zero byte.
fn name_in(strings: &[u8], at: usize) -> &[u8]
    ensures { result.now ≡ name_in strings.now at }
{
    let rest = from(strings, at);
    &rest[..before_zero(rest)]
}

#[tactic(auto, unfolding(crate::specs::Symbols::symbol_at))]
fn symbol_at(
    alloc: Global,
    starts: Starts,
    strings: &[u8],
    names: &[u8],
    bytes: &[u8],
    y: usize,
) -> Result<Symbol, AllocError>
    requires whole { IsWhole bytes.now }
    requires init { starts.init.now ≡ starts_of Init names.now bytes.now 0 (sections bytes.now) }
    requires bss { starts.bss.now ≡ starts_of Bss names.now bytes.now 0 (sections bytes.now) }
    requires inside { y + SYM_SIZE ≤ length bytes.now }
    ensures { IfOk result (λ s. s ≡ symbol_at strings.now names.now bytes.now y) }
{
    let index = half(bytes, y + ST_SHNDX) as usize;
    let name = name_in(strings, word(bytes, y) as usize);
    let start = start_at(starts, names, bytes, index);
    Ok(Symbol {
        name: Bytes {
            list: Vec::from_slice(alloc, name)?,
        },
        place: place_by(role_at(names, bytes, index)),
        value: start.wrapping_add(word(bytes, y + ST_VALUE)),
        global: byte(bytes, y + ST_INFO) / 16 == STB_GLOBAL,
    })
}

/// Adds the symbols that are listed, in the order of the table.
#[tactic(auto, unfolding(crate::specs::Symbols::symbols_in))]
pub fn put_symbols(
    out: &mut Vec<Symbol>,
    alloc: Global,
    starts: Starts,
    table: Table,
    strings: &[u8],
    names: &[u8],
    bytes: &[u8],
) -> Result<(), AllocError>
    requires whole { IsWhole bytes.now }
    requires init { starts.init.now ≡ starts_of Init names.now bytes.now 0 (sections bytes.now) }
    requires bss { starts.bss.now ≡ starts_of Bss names.now bytes.now 0 (sections bytes.now) }
    requires table { 0 < table.count → table.at + SYM_SIZE * table.count ≤ length bytes.now }
    ensures { OnOk result (out.new.items ≡ out.old.items ++ symbols_in table strings.now names.now bytes.now) }
{
    if table.count == 0 {
        return Ok(());
    }
    let first = table.at + SYM_SIZE;
    let count = table.count - 1;
    for i in 0..count {
        let y = first + SYM_SIZE * i;
        if is_listed(names, bytes, y) {
            out.push(symbol_at(alloc, starts, strings, names, bytes, y)?)?;
        }
    }
    Ok(())
}

/// How many symbols that are listed come before each symbol of the table, the null one apart.
pub fn numbers(
    alloc: Global,
    table: Table,
    names: &[u8],
    bytes: &[u8],
) -> Result<Vec<u32>, AllocError>
    requires whole { IsWhole bytes.now }
    requires table { 0 < table.count → table.at + SYM_SIZE * table.count ≤ length bytes.now }
    requires count { table.count < 2 ^ 28 }
    ensures { IfOk result (λ v. v.items ≡ numbers names.now bytes.now 0 (symbols_of table)) }
{
    let mut out = Vec::new(alloc);
    if table.count == 0 {
        return Ok(out);
    }
    let first = table.at + SYM_SIZE;
    let count = table.count - 1;
    let mut number: u32 = 0;
    for i in 0..count {
        out.push(number)?;
        if is_listed(names, bytes, first + SYM_SIZE * i) {
            number += 1;
        }
    }
    Ok(out)
}

#[tactic(auto, unfolding(crate::specs::Symbols::reloc_at))]
fn reloc_at(starts: Starts, numbers: &[u32], names: &[u8], bytes: &[u8], e: Entry) -> Reloc
    requires whole { IsWhole bytes.now }
    requires init { starts.init.now ≡ starts_of Init names.now bytes.now 0 (sections bytes.now) }
    requires bss { starts.bss.now ≡ starts_of Bss names.now bytes.now 0 (sections bytes.now) }
    requires inside { IsEntry bytes.now e }
    ensures { result ≡ reloc_at numbers.now names.now bytes.now e }
{
    let target = word(bytes, e.section + SH_INFO) as usize;
    let info = word(bytes, e.at + R_INFO);
    let number = (info / 256) as usize;
    Reloc {
        in_text: role_number(role_at(names, bytes, target)) == role_number(Role::Text),
        at: start_at(starts, names, bytes, target).wrapping_add(word(bytes, e.at)),
        symbol: numbers.get(number.saturating_sub(1)).copied().unwrap_or(0),
        relative: info % 256 == R_386_PC32,
    }
}

/// Adds the relocations of some entries.
pub fn put_relocs(
    out: &mut Vec<Reloc>,
    starts: Starts,
    numbers: &[u32],
    names: &[u8],
    bytes: &[u8],
    entries: &[Entry],
) -> Result<(), AllocError>
    requires whole { IsWhole bytes.now }
    requires init { starts.init.now ≡ starts_of Init names.now bytes.now 0 (sections bytes.now) }
    requires bss { starts.bss.now ≡ starts_of Bss names.now bytes.now 0 (sections bytes.now) }
    requires entries { All (IsEntry bytes.now) entries.now }
    ensures { OnOk result (out.new.items ≡ out.old.items ++ map (reloc_at numbers.now names.now bytes.now) entries.now) }
{
    for e in entries {
        out.push(reloc_at(starts, numbers, names, bytes, *e))?;
    }
    Ok(())
}
