//! The three sections, and what an item adds to the one that it stands in.

ghost use Rattle.std.specs.Prelude.{◌≡◌, ◌≤◌, ◌<◌, ◌+◌, ◌++◌, ◌^◌, replicate, OnOk};
ghost use Rattle.afterburner.specs.Sections as spec;

use crate::assembly::Assembly;
use asm_source::begins;
use elf_form::{Place, pad};
use std::alloc::AllocError;

/// The section that a piece of a source stands in: text, data or zeroed bytes.
#[derive(Clone, Copy)]
pub enum Section {
    Text,
    Init,
    Bss,
}

/// Whether it is the section of text.
pub fn is_text(section: Section) -> bool
    ensures { result ≡ spec.is_text section }
{
    match section {
        Section::Text => true,
        _ => false,
    }
}

/// Whether it is the section of data.
pub fn is_init(section: Section) -> bool
    ensures { result ≡ spec.is_init section }
{
    match section {
        Section::Init => true,
        _ => false,
    }
}

/// How an object's symbols name the section.
pub fn place_of(section: Section) -> Place
    ensures { result ≡ spec.place_of section }
{
    match section {
        Section::Text => Place::Text,
        Section::Init => Place::Init,
        Section::Bss => Place::Bss,
    }
}

/// The section of a name; a name of none leaves the section.
#[tactic(auto, unfolding(crate::specs::Sections::section_named))]
pub fn section_named(name: &[u8], before: Section) -> Section
    ensures { result ≡ spec.section_named name.now before }
{
    if begins(name, b".text") {
        Section::Text
    } else if begins(name, b".bss") {
        Section::Bss
    } else if begins(name, b".rodata") || begins(name, b".data") {
        Section::Init
    } else {
        before
    }
}

fn unless_more(most: Option<u64>, count: usize) -> usize
    ensures count { result ≡ spec.unless_more most count }
    ensures less { result ≤ count }
{
    match most {
        None => count,
        Some(most) => if most < count as u64 { 0 } else { count },
    }
}

/// Adds a byte `count` times.
pub fn put(out: &mut Vec<u8>, count: usize, byte: u8) -> Result<(), AllocError>
    ensures { OnOk result (out.new.items ≡ out.old.items ++ replicate count byte) }
{
    for _ in 0..count {
        out.push(byte)?;
    }
    Ok(())
}

impl Assembly {
    /// The offset at which the next item stands in its section.
    pub fn here(&self) -> usize
        ensures { result ≡ spec.here self.now }
    {
        match self.section {
            Section::Text => self.text.len(),
            Section::Init => self.init.len(),
            Section::Bss => self.bss,
        }
    }

    /// From here on items stand in this section.
    pub fn enter(&mut self, section: Section)
        ensures { self.new ≡ spec.entered self.old section }
    {
        self.section = section;
    }

    /// NOPs in text, zero bytes elsewhere.
    fn fill(&mut self, count: usize) -> Result<(), AllocError>
        requires { self.old.bss + count < 2 ^ 64 }
        ensures { OnOk result (self.new ≡ spec.filled_in self.old self.old.section count) }
    {
        match self.section {
            Section::Text => put(&mut self.text, count, 0x90),
            Section::Init => put(&mut self.init, count, 0),
            Section::Bss => {
                self.bss += count;
                Ok(())
            }
        }
    }

    /// Goes on at the next multiple of the alignment, unless more than `most` bytes are needed.
    #[tactic(auto, unfolding(crate::specs::Sections::aligned))]
    pub fn align(&mut self, alignment: usize, most: Option<u64>) -> Result<(), AllocError>
        requires some { 1 ≤ alignment }
        requires room { self.old.bss + alignment < 2 ^ 64 }
        ensures { OnOk result (self.new ≡ spec.aligned self.old alignment most) }
    {
        let count = unless_more(most, pad(alignment, self.here()));
        self.fill(count)
    }
}
