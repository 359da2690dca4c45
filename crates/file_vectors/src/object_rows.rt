//! Objects as rows of their parts.

ghost use Rattle.std.specs.Prelude.{◌≡◌, ◌+◌, length};
ghost use Rattle.std.specs.List.{sum_by};

use crate::agree::{are_same, holds, list};
use crate::vectors::{NO_SITES, WORKED_SITES, WORKED_TEXT};
use elf_form::{Bytes, Object, Place, Reloc, Symbol, read_object};
use std::alloc::Global;
use std::process::Abort;

/// A symbol's name, place and value, and whether it is global.
pub type Named = (&'static [u8], Place, u32, bool);

/// What an object has.
#[derive(Clone, Copy)]
pub struct Parts {
    pub text: &'static [u8],
    pub init: &'static [u8],
    pub bss: u32,
    pub sites: &'static [u8],
    pub symbols: &'static [Named],
    pub relocs: &'static [Reloc],
}

/// Nothing, and annotations without sites.
pub const EMPTY: Parts = Parts {
    text: b"",
    init: b"",
    bss: 0,
    sites: NO_SITES,
    symbols: &[],
    relocs: &[],
};

/// The worked object, with its symbol.
pub const WORKED: Parts = Parts {
    text: WORKED_TEXT,
    sites: WORKED_SITES,
    symbols: &[(b"_start", Place::Text, 0, true)],
    ..EMPTY
};

/// The symbol of a row.
fn symbol(rt: &impl Abort, alloc: Global, row: &Named) -> Symbol
    ensures { length result.name ≡ length row.now.0.now }
{
    let (name, place, value, global) = *row;
    Symbol {
        name: Bytes {
            list: list(rt, alloc, name),
        },
        place,
        value,
        global,
    }
}

/// Puts the symbol after the others. The bytes of the names add up.
#[tactic(auto, using(std::proofs::lemmas::List::Sums::sum_by_push))]
pub fn put_symbol(rt: &impl Abort, alloc: Global, symbols: &mut Vec<Symbol>, row: &Named)
    ensures count { length symbols.new.items ≡ length symbols.old.items + 1 }
    ensures names { sum_by (λ s. length s.name) symbols.new.items
        ≡ sum_by (λ s. length s.name) symbols.old.items + length row.now.0.now }
{
    symbols.push(symbol(rt, alloc, row)).expect(rt, "memory");
}

/// The object of these parts.
pub fn object(rt: &impl Abort, alloc: Global, parts: &Parts) -> Object {
    let mut symbols = Vec::new(alloc);
    for row in parts.symbols {
        put_symbol(rt, alloc, &mut symbols, row);
    }
    Object {
        text: list(rt, alloc, parts.text),
        init: list(rt, alloc, parts.init),
        bss: parts.bss,
        sites: list(rt, alloc, parts.sites),
        symbols,
        relocs: Vec::from_slice(alloc, parts.relocs).expect(rt, "memory"),
    }
}

/// The objects, in the same order.
pub fn objects(rt: &impl Abort, alloc: Global, all: &[Parts]) -> Vec<Object> {
    let mut objects = Vec::new(alloc);
    for parts in all {
        objects.push(object(rt, alloc, parts)).expect(rt, "memory");
    }
    objects
}

/// Whether the symbol is this one.
fn is_so(symbol: &Symbol, (name, place, value, global): &Named) -> bool {
    are_same(&symbol.name.list, name)
        && symbol.place == *place
        && symbol.value == *value
        && symbol.global == *global
}

/// Whether the object's symbol of that number is this one.
fn is_symbol(object: &Object, number: usize, row: &Named) -> bool {
    match object.symbols.get(number) {
        None => false,
        Some(symbol) => is_so(symbol, row),
    }
}

/// Whether these are all the symbols of the object.
pub fn are_symbols(object: &Object, rows: &[Named]) -> bool {
    for (k, row) in rows.iter().enumerate() {
        if !is_symbol(object, k, row) {
            return false;
        }
    }
    object.symbols.len() == rows.len()
}

/// Whether these are all the relocations of the object.
pub fn are_relocs(object: &Object, relocs: &[Reloc]) -> bool {
    object.relocs.as_slice() == relocs
}

/// The object has these parts. One that differs is reported: text, data, zeroed bytes, annotations, symbols and relocations are
/// the rows 0 to 5.
fn are_parts(rt: &impl Abort, object: &Object, parts: &Parts) {
    holds(rt, 0, are_same(&object.text, parts.text));
    holds(rt, 1, are_same(&object.init, parts.init));
    holds(rt, 2, object.bss == parts.bss);
    holds(rt, 3, are_same(&object.sites, parts.sites));
    holds(rt, 4, are_symbols(object, parts.symbols));
    holds(rt, 5, are_relocs(object, parts.relocs));
}

/// The file is read as the object with these parts, and nothing else.
pub fn reads_as(rt: &impl Abort, alloc: Global, bytes: &[u8], parts: &Parts) {
    let object = read_object(alloc, bytes).expect(rt, "an object");
    are_parts(rt, &object, parts);
}
