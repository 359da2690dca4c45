//! The header, and the parts that pass the end of the file.

ghost use Rattle.std.specs.Prelude.{◌≡◌, ◌≤◌, ◌<◌, ◌+◌, ◌*◌, ◌^◌, Bool, length, not, ◌||◌, ◌==◌, IfNone, IfSome};
ghost use Rattle.std.specs.List.{find};
ghost use Rattle.guest_ram.specs.Bytes.{byte, word16, word32};
ghost use Rattle.elf_form.specs.Faults.{test, ◌or_lower◌};
ghost use Rattle.elf_form.specs.Answers.{Gives};
ghost use Rattle.elf_form.specs.Tables.{entries};
ghost use Rattle.elf_form.specs.Header.{cut, passes};
ghost use Rattle.elf_form.specs.Cut.{part_begins, header_passes, section_passes};
ghost use Rattle.elf_form.specs.Stages.{identified};
ghost use Rattle.elf_form.specs.Whole.{IsWhole};

use crate::abi::{
    E_MACHINE, E_PHNUM, E_PHOFF, E_SHNUM, E_SHOFF, E_TYPE, E_VERSION, EHDR_SIZE, EI_CLASS, EI_DATA,
    EI_VERSION, ELFCLASS32, ELFDATA2LSB, ELFMAG, EM_386, EV_CURRENT, P_FILESZ, P_OFFSET, PHDR_SIZE,
    SH_OFFSET, SH_SIZE, SH_TYPE, SHDR_SIZE, SHT_NOBITS, SHT_NULL,
};
use crate::cause::{ElfCause, ElfFault};
use guest_ram::{byte, half, word};

/// The lower place.
pub fn lower(a: Option<usize>, b: Option<usize>) -> Option<usize>
    ensures { result ≡ a or_lower b }
{
    match (a, b) {
        (None, b) => b,
        (Some(a), None) => Some(a),
        (Some(a), Some(b)) => Some(if b < a { b } else { a }),
    }
}

fn passes_end(bytes: &[u8], at: u32, size: u64) -> bool
    requires { size < 2 ^ 62 }
    ensures { result ≡ passes bytes.now at size }
{
    (bytes.len() as u64) < at as u64 + size
}

fn header_passes_end(bytes: &[u8], h: usize) -> bool
    requires { h + PHDR_SIZE ≤ length bytes.now }
    ensures { result ≡ header_passes bytes.now h }
{
    passes_end(
        bytes,
        word(bytes, h + P_OFFSET),
        word(bytes, h + P_FILESZ) as u64,
    )
}

fn section_passes_end(bytes: &[u8], s: usize) -> bool
    requires { s + SHDR_SIZE ≤ length bytes.now }
    ensures { result ≡ section_passes bytes.now s }
{
    let kind = word(bytes, s + SH_TYPE);
    if kind == SHT_NULL || kind == SHT_NOBITS {
        return false;
    }
    passes_end(
        bytes,
        word(bytes, s + SH_OFFSET),
        word(bytes, s + SH_SIZE) as u64,
    )
}

fn cut_header(bytes: &[u8], table: usize, count: usize) -> Option<u32>
    requires { table + PHDR_SIZE * count ≤ length bytes.now }
    ensures { result ≡ part_begins bytes.now P_OFFSET (find (header_passes bytes.now) (entries table PHDR_SIZE count)) }
{
    for i in 0..count {
        let h = table + PHDR_SIZE * i;
        if header_passes_end(bytes, h) {
            return Some(word(bytes, h + P_OFFSET));
        }
    }
    None
}

fn cut_section(bytes: &[u8], table: usize, count: usize) -> Option<u32>
    requires { table + SHDR_SIZE * count ≤ length bytes.now }
    ensures { result ≡ part_begins bytes.now SH_OFFSET (find (section_passes bytes.now) (entries table SHDR_SIZE count)) }
{
    for i in 0..count {
        let s = table + SHDR_SIZE * i;
        if section_passes_end(bytes, s) {
            return Some(word(bytes, s + SH_OFFSET));
        }
    }
    None
}

/// The first part that passes the end.
#[tactic(auto, unfolding(crate::specs::Cut::cut_in_turn), using(crate::proofs::OrderLaws::cut_met))]
pub fn cut(bytes: &[u8]) -> Option<u32>
    ensures place { result ≡ cut bytes.now }
    ensures whole { IfNone result (IsWhole bytes.now) }
{
    if bytes.len() < EHDR_SIZE {
        return Some(0);
    }
    let headers = word(bytes, E_PHOFF);
    let header_count = half(bytes, E_PHNUM);
    if passes_end(bytes, headers, PHDR_SIZE as u64 * header_count as u64) {
        return Some(headers);
    }
    let sections = word(bytes, E_SHOFF);
    let section_count = half(bytes, E_SHNUM);
    if passes_end(bytes, sections, SHDR_SIZE as u64 * section_count as u64) {
        return Some(sections);
    }
    if let Some(at) = cut_header(bytes, headers as usize, header_count as usize) {
        return Some(at);
    }
    cut_section(bytes, sections as usize, section_count as usize)
}

/// Passes where there is no place.
pub fn test(cause: ElfCause, place: Option<usize>) -> Result<(), ElfFault>
    requires { IfSome place (λ at. at < 2 ^ 32) }
    ensures { Gives (λ _. tt) result (test cause place) }
{
    match place {
        None => Ok(()),
        Some(at) => Err(ElfFault::At {
            at: at as u32,
            cause,
        }),
    }
}

/// The tests of the identification, the type and the machine.
#[tactic(auto, unfolding(crate::specs::Stages::identified, crate::specs::Faults::tested))]
pub fn identified(bytes: &[u8], wanted: u16) -> Result<(), ElfFault>
    requires { EHDR_SIZE ≤ length bytes.now }
    ensures { Gives (λ _. tt) result (identified wanted bytes.now) }
{
    test(ElfCause::Magic, (word(bytes, 0) != ELFMAG).then_some(0))?;
    test(
        ElfCause::Class,
        (byte(bytes, EI_CLASS) != ELFCLASS32).then_some(EI_CLASS),
    )?;
    test(
        ElfCause::Encoding,
        (byte(bytes, EI_DATA) != ELFDATA2LSB).then_some(EI_DATA),
    )?;
    test(
        ElfCause::Version,
        lower(
            (byte(bytes, EI_VERSION) as u32 != EV_CURRENT).then_some(EI_VERSION),
            (word(bytes, E_VERSION) != EV_CURRENT).then_some(E_VERSION),
        ),
    )?;
    test(
        ElfCause::FileType,
        (half(bytes, E_TYPE) != wanted).then_some(E_TYPE),
    )?;
    test(
        ElfCause::Machine,
        (half(bytes, E_MACHINE) != EM_386).then_some(E_MACHINE),
    )
}
