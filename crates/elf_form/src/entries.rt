//! The relocations of the sections that are kept, and their tests.

ghost use Rattle.std.specs.Prelude.{◌≡◌, ◌≤◌, ◌<◌, ◌+◌, ◌*◌, ◌^◌, ◌++◌, length, All, OnOk, IfOk, IfSome};
ghost use Rattle.guest_ram.specs.Bytes.{word16, word32};
ghost use Rattle.elf_form.specs.declared.abi.TheConstants.{SYM_SIZE};
ghost use Rattle.elf_form.specs.Whole.{IsWhole, IsSection};
ghost use Rattle.elf_form.specs.Symbols.{relocs_in, relocs_of, relocs_fault};
ghost use Rattle.elf_form.specs.KeptRelocs.{IsEntry};

use crate::abi::{E_SHNUM, E_SHOFF, REL_SIZE, SH_OFFSET, SHDR_SIZE};
use crate::header::lower;
use crate::roles::Role;
use crate::sections::contents;
use crate::symbols::{Entry, RelocTest, Table, is_reloc_section_of, reloc_test};
use guest_ram::{half, word};
use std::alloc::{AllocError, Global};

fn put_entries(out: &mut Vec<Entry>, bytes: &[u8], s: usize) -> Result<(), AllocError>
    requires section { IsSection bytes.now s }
    requires inside { All (IsEntry bytes.now) out.old.items }
    ensures items { OnOk result (out.new.items ≡ out.old.items ++ relocs_in bytes.now s) }
    ensures inside { OnOk result (All (IsEntry bytes.now) out.new.items) }
{
    let first = word(bytes, s + SH_OFFSET) as usize;
    let count = contents(bytes, s).len() / REL_SIZE;
    for i in 0..count {
        let at = first + REL_SIZE * i;
        out.push(Entry { section: s, at })?;
    }
    Ok(())
}

/// The relocations of the sections of one role.
pub fn entries_of(
    alloc: Global,
    role: Role,
    names: &[u8],
    bytes: &[u8],
) -> Result<Vec<Entry>, AllocError>
    requires { IsWhole bytes.now }
    ensures items { IfOk result (λ v. v.items ≡ relocs_of role names.now bytes.now) }
    ensures inside { IfOk result (λ v. All (IsEntry bytes.now) v.items) }
{
    let table = word(bytes, E_SHOFF) as usize;
    let count = half(bytes, E_SHNUM) as usize;
    let mut out = Vec::new(alloc);
    for i in 0..count {
        let s = table + SHDR_SIZE * i;
        if is_reloc_section_of(role, names, bytes, s) {
            put_entries(&mut out, bytes, s)?;
        }
    }
    Ok(out)
}

/// The lowest place that a test of relocations gives.
pub fn relocs_fault(
    test: RelocTest,
    table: Table,
    names: &[u8],
    bytes: &[u8],
    entries: &[Entry],
) -> Option<usize>
    requires whole { IsWhole bytes.now }
    requires table { 0 < table.count → table.at + SYM_SIZE * table.count ≤ length bytes.now }
    requires entries { All (IsEntry bytes.now) entries.now }
    ensures place { result ≡ relocs_fault test table names.now bytes.now entries.now }
    ensures small { IfSome result (λ at. at < length bytes.now) }
{
    let mut lowest = None;
    for e in entries {
        lowest = lower(lowest, reloc_test(test, table, names, bytes, *e));
    }
    lowest
}
