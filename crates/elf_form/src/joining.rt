//! Sections of one role, joined each at its alignment.

ghost use Rattle.std.specs.Prelude.{◌≡◌, ◌≤◌, ◌<◌, ◌+◌, ◌*◌, ◌^◌, length, [], OnOk, IfOk, IfNone, IfSome};
ghost use Rattle.elf_form.specs.Header.{sections};
ghost use Rattle.elf_form.specs.Whole.{IsWhole, IsSection};
ghost use Rattle.elf_form.specs.declared.roles.Role.{Role};
ghost use Rattle.elf_form.specs.Roles.{is_misaligned, misaligned, joined_fault, starts, joined_end, with_section, joined};

use crate::abi::{E_SHNUM, E_SHOFF, SH_ADDRALIGN, SH_SIZE, SHDR_SIZE};
use crate::output::{pad, put_zeros};
use crate::roles::{Role, has_role, is_misaligned, up};
use crate::sections::contents;
use guest_ram::{half, word};
use std::alloc::{AllocError, Global};

/// The alignment of the first section that is joined and has a bad one.
pub fn misaligned(names: &[u8], bytes: &[u8]) -> Option<usize>
    requires { IsWhole bytes.now }
    ensures place { result ≡ misaligned names.now bytes.now }
    ensures inside { IfSome result (λ at. at < length bytes.now) }
{
    let table = word(bytes, E_SHOFF) as usize;
    let count = half(bytes, E_SHNUM) as usize;
    for i in 0..count {
        let s = table + SHDR_SIZE * i;
        if is_misaligned(names, bytes, s) {
            return Some(s + SH_ADDRALIGN);
        }
    }
    None
}

/// The size of the first section with which those of a role take 2^32 bytes or more, in whole
/// pages.
pub fn joined_fault(role: Role, names: &[u8], bytes: &[u8]) -> Option<usize>
    requires { IsWhole bytes.now }
    ensures place { result ≡ joined_fault role names.now bytes.now 0 (sections bytes.now) }
    ensures inside { IfSome result (λ at. at < length bytes.now) }
{
    let table = word(bytes, E_SHOFF) as usize;
    let count = half(bytes, E_SHNUM) as usize;
    let mut total: usize = 0;
    for i in 0..count {
        let s = table + SHDR_SIZE * i;
        if has_role(role, names, bytes, s) {
            let size = word(bytes, s + SH_SIZE) as usize;
            let more = total + (size + pad(4096, size));
            if more >= 0x1_0000_0000 {
                return Some(s + SH_SIZE);
            }
            total = more;
        }
    }
    None
}

/// Where each section begins among those of a role, modulo 2^32 (0 for the others), and where the
/// last of them ends.
pub fn starts(
    alloc: Global,
    role: Role,
    names: &[u8],
    bytes: &[u8],
) -> Result<(Vec<u32>, u64), AllocError>
    requires { IsWhole bytes.now }
    ensures starts { IfOk result (λ r. r.0.items ≡ starts role names.now bytes.now 0 (sections bytes.now)) }
    ensures end { IfOk result (λ r. r.1 ≡ joined_end role names.now bytes.now 0 (sections bytes.now)) }
{
    let table = word(bytes, E_SHOFF) as usize;
    let count = half(bytes, E_SHNUM) as usize;
    let mut list = Vec::new(alloc);
    let mut end: u64 = 0;
    for i in 0..count {
        let s = table + SHDR_SIZE * i;
        let mut start: u64 = 0;
        if has_role(role, names, bytes, s) {
            start = up(word(bytes, s + SH_ADDRALIGN), end);
            end = start + word(bytes, s + SH_SIZE) as u64;
        }
        list.push((start % 0x1_0000_0000) as u32)?;
    }
    Ok((list, end))
}

#[tactic(auto, unfolding(crate::specs::Roles::with_section))]
fn put_section(out: &mut Vec<u8>, bytes: &[u8], s: usize) -> Result<(), AllocError>
    requires { IsSection bytes.now s }
    ensures { OnOk result (out.new.items ≡ with_section bytes.now out.old.items s) }
{
    let len = out.len() as u64;
    let start = up(word(bytes, s + SH_ADDRALIGN), len);
    put_zeros(out, (start - len) as usize)?;
    out.extend_from_slice(contents(bytes, s))?;
    Ok(())
}

/// The bytes of the data.
pub fn joined(alloc: Global, names: &[u8], bytes: &[u8]) -> Result<Vec<u8>, AllocError>
    requires { IsWhole bytes.now }
    ensures { IfOk result (λ v. v.items ≡ joined names.now bytes.now [] (sections bytes.now)) }
{
    let table = word(bytes, E_SHOFF) as usize;
    let count = half(bytes, E_SHNUM) as usize;
    let mut out = Vec::new(alloc);
    for i in 0..count {
        let s = table + SHDR_SIZE * i;
        if has_role(Role::Init, names, bytes, s) {
            put_section(&mut out, bytes, s)?;
        }
    }
    Ok(out)
}
