//! What a source says of its names.

ghost use Rattle.std.specs.Prelude.{◌≡◌, ◌<◌, ◌≤◌, ◌+◌, ◌++◌, ◌^◌, length, OnOk};
ghost use Rattle.std.specs.Option.{option_copied};
ghost use Rattle.afterburner.specs.Symbols as spec;
ghost use Rattle.afterburner.specs.Sections as sections;

use crate::assembly::Assembly;
use crate::section::place_of;
use asm_source::{Name, Names, SYMBOL_LIMIT};
use elf_form::{Place, Reloc, pad};
use std::alloc::AllocError;

/// How far a name reaches, by the strongest directive that gives its binding. A name that has none
/// is local, unless it is undefined.
#[derive(Clone, Copy)]
pub enum Binding {
    /// No directive gives its binding.
    Unsaid,
    /// `.comm`: global.
    Common,
    /// `.local`: local, also where `.comm` defines it.
    Local,
    /// `.globl`: global, whatever else is said.
    Global,
}

/// Where a name is defined, as an offset in its section, and how far it reaches.
#[derive(Clone, Copy)]
pub struct Definition {
    pub place: Place,
    pub value: u32,
    pub binding: Binding,
}

fn strength(binding: Binding) -> u8
    ensures { result ≡ spec.strength binding }
{
    match binding {
        Binding::Unsaid => 0,
        Binding::Common => 1,
        Binding::Local => 2,
        Binding::Global => 3,
    }
}

fn stronger(a: Binding, b: Binding) -> Binding
    ensures { result ≡ spec.stronger a b }
{
    if strength(a) < strength(b) { b } else { a }
}

fn define(definitions: &mut [Definition], number: usize, place: Place, value: u32)
    ensures { definitions.new ≡ spec.with_place definitions.old number place value }
{
    if number < definitions.len() {
        let binding = definitions[number].binding;
        definitions[number] = Definition {
            place,
            value,
            binding,
        };
    }
}

fn bind(definitions: &mut [Definition], number: usize, binding: Binding)
    ensures { definitions.new ≡ spec.with_binding definitions.old number binding }
{
    if number < definitions.len() {
        let Definition {
            place,
            value,
            binding: before,
        } = definitions[number];
        definitions[number] = Definition {
            place,
            value,
            binding: stronger(before, binding),
        };
    }
}

/// The relocation of a field at this offset, where it names a symbol.
pub fn put_reloc(
    relocs: &mut Vec<Reloc>,
    names: &Names,
    in_text: bool,
    at: u32,
    relative: bool,
    name: Option<&Name>,
) -> Result<(), AllocError>
    requires few { length names.now ≤ SYMBOL_LIMIT }
    ensures { OnOk result (relocs.new.items ≡ relocs.old.items ++ spec.reloc_to names.now in_text at relative (option_copied name.entry)) }
{
    match name {
        None => Ok(()),
        Some(name) => {
            relocs.push(Reloc {
                in_text,
                at,
                symbol: names.number_of(&name.bytes) as u32,
                relative,
            })?;
            Ok(())
        }
    }
}

impl Assembly {
    /// A label.
    #[tactic(auto, unfolding(crate::specs::Sections::labelled))]
    pub fn label(&mut self, names: &Names, name: &[u8])
        requires { sections.here self.old < 2 ^ 32 }
        ensures { self.new ≡ sections.labelled names.now self.old name.now }
    {
        let value = self.here() as u32;
        let place = place_of(self.section);
        define(&mut self.definitions, names.number_of(name), place, value);
    }

    /// A directive says how far the name reaches.
    pub fn bind(&mut self, names: &Names, name: Option<&Name>, binding: Binding)
        ensures { self.new ≡ spec.bound names.now self.old (option_copied name.entry) binding }
    {
        if let Some(name) = name {
            bind(&mut self.definitions, names.number_of(&name.bytes), binding);
        }
    }

    /// The next zeroed byte is defined as this name.
    fn define_in_bss(&mut self, names: &Names, name: Option<&Name>)
        requires { self.old.bss < 2 ^ 32 }
        ensures { self.new ≡ sections.defined_in_bss names.now self.old (option_copied name.entry) }
    {
        if let Some(name) = name {
            let value = self.bss as u32;
            let number = names.number_of(&name.bytes);
            define(&mut self.definitions, number, Place::Bss, value);
        }
    }

    /// A piece of the zeroed bytes at its alignment, with its name.
    #[tactic(auto, unfolding(crate::specs::Sections::reserved))]
    pub fn reserve(&mut self, names: &Names, name: Option<&Name>, size: u64, alignment: usize)
        requires some { 1 ≤ alignment }
        requires room { self.old.bss + alignment < 2 ^ 32 }
        requires size { size < 2 ^ 63 }
        ensures { self.new ≡ sections.reserved names.now self.old (option_copied name.entry) size alignment }
    {
        self.bss += pad(alignment, self.bss);
        self.define_in_bss(names, name);
        self.bss += size as usize;
    }
}
