//! What an object file has: one source's text, data, symbols and relocations.

ghost use Rattle.std.specs.Prelude.{◌≡◌};

use std::marker::Model;

/// The most symbols of an object, and of objects that are linked (profile).
pub const SYMBOL_LIMIT: usize = 65_536;

/// Where a symbol is defined: nowhere, or in an object's text, data or zeroed bytes.
#[derive(Clone, Copy, PartialEq, Eq)]
pub enum Place {
    Undefined,
    Text,
    Init,
    Bss,
}

/// A name, without the zero byte that ends it in a file.
#[derive(Debug, Drop)]
pub struct Bytes {
    pub list: Vec<u8>,
}

impl Model for Bytes {
    ghost use Rattle.std.specs.Prelude.{List, ℕ};

    ghost Value = { List ℕ };

    ghost view = { λ b. b.list.items };
}

/// The bytes of a name.
pub fn bytes_of(name: &Bytes) -> &[u8]
    ensures { result.now ≡ name.now }
{
    &name.list
}

/// A symbol. `value` is an offset in the text, data or zeroed bytes of its object.
#[derive(Drop)]
pub struct Symbol {
    pub name: Bytes,
    pub place: Place,
    pub value: u32,
    pub global: bool,
}

/// Four bytes of the text or of the data, at `at` there, to which the address of a symbol is
/// added (R_386_32), or the distance from the field to it (R_386_PC32) where `relative` is set.
#[derive(Clone, Copy, PartialEq, Eq)]
pub struct Reloc {
    pub in_text: bool,
    pub at: u32,
    pub symbol: u32,
    pub relative: bool,
}

/// What an object file holds. `bss` counts zeroed bytes, and `sites` is the annotation section.
#[derive(Drop)]
pub struct Object {
    pub text: Vec<u8>,
    pub init: Vec<u8>,
    pub bss: u32,
    pub sites: Vec<u8>,
    pub symbols: Vec<Symbol>,
    pub relocs: Vec<Reloc>,
}

impl Model for Object {
    ghost use Rattle.elf_form.specs.ObjectParts.{ObjectParts};

    ghost Value = { ObjectParts };

    ghost view = { λ o. record {
      text = o.text.items;
      init = o.init.items;
      bss = o.bss;
      sites = o.sites.items;
      symbols = o.symbols.items;
      relocs = o.relocs.items;
    } };
}
