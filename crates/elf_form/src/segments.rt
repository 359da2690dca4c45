//! The program headers of an image.

ghost use Rattle.std.specs.Prelude.{◌≡◌, ◌≤◌, ◌<◌, ◌+◌, ◌*◌, ◌^◌, Bool, length, filter, IfNone, IfSome};
ghost use Rattle.guest_ram.specs.Bytes.{word16, word32};
ghost use Rattle.elf_form.specs.Tables.{entries, found, first_of, second_of};
ghost use Rattle.elf_form.specs.Finding.{with_one};
ghost use Rattle.elf_form.specs.Whole.{AllFound, IsWhole, IsHeader};
ghost use Rattle.elf_form.specs.Segments.{loads, memory_sizes, first_size, second_size, sizes, order, is_executable};

use crate::abi::{
    E_EHSIZE, E_PHENTSIZE, E_PHNUM, E_PHOFF, E_SHENTSIZE, EHDR_SIZE, P_FILESZ, P_FLAGS, P_MEMSZ,
    PF_X, PHDR_SIZE, PT_LOAD, SHDR_SIZE,
};
use crate::header::lower;
use guest_ram::{half, word};

/// The longest file that is read.
pub const FILE_LIMIT: usize = 33_554_432;

/// The first two of the entries that were looked for.
#[derive(Clone, Copy)]
pub enum Found {
    Nothing,
    One(usize),
    Two(usize, usize),
    More(usize, usize),
}

impl Found {
    /// With an entry more. Of a third and later ones it is only known that there are more.
    pub fn with(self, at: usize) -> Found
        ensures { result ≡ with_one self at }
    {
        match self {
            Found::Nothing => Found::One(at),
            Found::One(a) => Found::Two(a, at),
            Found::Two(a, b) | Found::More(a, b) => Found::More(a, b),
        }
    }

    /// The offset of the first, 0 where there is none.
    pub fn first(self) -> usize
        ensures { result ≡ first_of self }
    {
        match self {
            Found::Nothing => 0,
            Found::One(a) | Found::Two(a, _) | Found::More(a, _) => a,
        }
    }

    /// The offset of the second, 0 where there is none.
    pub fn second(self) -> usize
        ensures { result ≡ second_of self }
    {
        match self {
            Found::Nothing | Found::One(_) => 0,
            Found::Two(_, b) | Found::More(_, b) => b,
        }
    }
}

/// The program headers that are loaded.
#[tactic(auto, unfolding(crate::specs::Segments::loads))]
pub fn loads(bytes: &[u8]) -> Found
    requires { IsWhole bytes.now }
    ensures found { result ≡ loads bytes.now }
    ensures inside { AllFound (IsHeader bytes.now) result }
{
    let table = word(bytes, E_PHOFF) as usize;
    let count = half(bytes, E_PHNUM) as usize;
    let mut found = Found::Nothing;
    for i in 0..count {
        let h = table + PHDR_SIZE * i;
        if word(bytes, h) == PT_LOAD {
            found = found.with(h);
        }
    }
    found
}

fn first_size(bytes: &[u8], h: usize) -> Option<usize>
    requires { h + PHDR_SIZE ≤ length bytes.now }
    ensures { result ≡ first_size bytes.now h }
{
    (word(bytes, h + P_MEMSZ) != word(bytes, h + P_FILESZ)).then_some(h + P_MEMSZ)
}

fn second_size(bytes: &[u8], h: usize) -> Option<usize>
    requires { h + PHDR_SIZE ≤ length bytes.now }
    ensures { result ≡ second_size bytes.now h }
{
    (word(bytes, h + P_MEMSZ) < word(bytes, h + P_FILESZ)).then_some(h + P_MEMSZ)
}

#[tactic(auto, unfolding(crate::specs::Segments::memory_sizes), using(crate::proofs::FormLaws::lower_end))]
fn memory_sizes(bytes: &[u8], headers: Found) -> Option<usize>
    requires { AllFound (IsHeader bytes.now) headers }
    ensures place { result ≡ memory_sizes bytes.now headers }
    ensures inside { IfSome result (λ at. at < length bytes.now) }
{
    match headers {
        Found::Nothing => None,
        Found::One(a) => first_size(bytes, a),
        Found::Two(a, b) | Found::More(a, b) => lower(first_size(bytes, a), second_size(bytes, b)),
    }
}

/// The lowest size field that is wrong.
#[tactic(auto, unfolding(crate::specs::Segments::sizes))]
pub fn sizes(bytes: &[u8]) -> Option<usize>
    requires { IsWhole bytes.now }
    ensures place { result ≡ sizes bytes.now }
    ensures small { IfSome result (λ at. at < 2 ^ 32) }
    ensures limit { IfNone result (length bytes.now ≤ FILE_LIMIT) }
    ensures memory { IfNone result (memory_sizes bytes.now (loads bytes.now) ≡ None) }
{
    let memory = memory_sizes(bytes, loads(bytes));
    let long = (FILE_LIMIT < bytes.len()).then_some(FILE_LIMIT);
    lower(
        (half(bytes, E_EHSIZE) != EHDR_SIZE as u16).then_some(E_EHSIZE),
        lower(
            (half(bytes, E_PHENTSIZE) != PHDR_SIZE as u16).then_some(E_PHENTSIZE),
            lower(
                (half(bytes, E_SHENTSIZE) != SHDR_SIZE as u16).then_some(E_SHENTSIZE),
                lower(memory, long),
            ),
        ),
    )
}

fn is_executable(bytes: &[u8], h: usize) -> bool
    requires { h + PHDR_SIZE ≤ length bytes.now }
    ensures { result ≡ is_executable bytes.now h }
{
    word(bytes, h + P_FLAGS) % 2 == PF_X
}

/// Whether there are two, of which the first alone is executable.
#[tactic(auto, unfolding(crate::specs::Segments::order))]
pub fn order(bytes: &[u8], headers: Found) -> Option<usize>
    requires { AllFound (IsHeader bytes.now) headers }
    ensures place { result ≡ order bytes.now headers }
    ensures small { IfSome result (λ at. at ≡ 44) }
{
    match headers {
        Found::Two(a, b) => (!(is_executable(bytes, a) && !is_executable(bytes, b))).then_some(
            E_PHNUM,
        ),
        Found::Nothing | Found::One(_) | Found::More(_, _) => Some(E_PHNUM),
    }
}
