//! The global names of the objects.

ghost use Rattle.std.specs.Prelude.{◌≡◌, ◌++◌, [], ◌∷◌, map, filter, None, false, OnOk, IfOk};
ghost use Rattle.elf_link.specs.Symbols.{is_defined, is_exported, target, lookup, target_of};
ghost use Rattle.elf_link.specs.Refusals.{holds, first_doubled};

use crate::target::Target;
use elf_form::{Bytes, Place, Symbol};
use indexmap::IndexMap;
use std::alloc::{AllocError, Global};
use std::marker::Model;

/// What each global name stands for, in the order in which they were added. No call searches
/// them one by one.
#[derive(Drop)]
pub struct Globals {
    map: IndexMap<Vec<u8>, Target>,
}

impl Model for Globals {
    ghost use Rattle.std.specs.Prelude.{List, ℕ};
    ghost use Rattle.elf_link.specs.declared.target.Target.{Target as View};
    ghost use Rattle.elf_link.specs.Held.{named};

    ghost Value = { List (List ℕ × View) };

    ghost view = { λ g. named g.map.entries };
}

impl Globals {
    /// No name stands for anything.
    pub fn new(alloc: Global) -> Globals
        ensures { result ≡ [] }
    {
        Globals {
            map: IndexMap::new(alloc),
        }
    }

    /// What a name stands for, if it does.
    pub fn get(&self, name: &[u8]) -> Option<Target>
        ensures { result ≡ lookup name.now self.now }
    {
        self.map.get(name).copied()
    }

    /// Whether a name is among them.
    pub fn holds(&self, name: &[u8]) -> bool
        ensures { result ≡ holds (map (λ d. d.0) self.now) name.now }
    {
        self.map.contains_key(name)
    }

    /// Adds a name that isn't there.
    pub fn add(&mut self, alloc: Global, name: &[u8], target: Target) -> Result<(), AllocError>
        requires { holds (map (λ d. d.0) self.old) name.now ≡ false }
        ensures { OnOk result (self.new ≡ self.old ++ (name.now, target) ∷ []) }
    {
        let bytes = Vec::from_slice(alloc, name)?;
        self.map.insert(bytes, target)?;
        Ok(())
    }
}

/// The bytes of a symbol's name.
pub fn name_of(symbol: &Symbol) -> &[u8]
    ensures { result.now ≡ symbol.now.name }
{
    &symbol.name.list
}

/// Whether a place is in a part of an object.
pub fn is_defined(place: Place) -> bool
    ensures { result ≡ is_defined place }
{
    match place {
        Place::Undefined => false,
        Place::Text | Place::Init | Place::Bss => true,
    }
}

/// Whether a symbol gives its name a meaning in all objects.
fn is_exported(symbol: &Symbol) -> bool
    ensures { result ≡ is_exported symbol.now }
{
    symbol.global && is_defined(symbol.place)
}

/// What a symbol that object `number` defines stands for.
fn target(number: u32, symbol: &Symbol) -> Target
    ensures { result ≡ target number symbol.now }
{
    Target {
        object: number,
        place: symbol.place,
        value: symbol.value,
    }
}

/// A copy of a name.
pub fn copy_of(alloc: Global, name: &[u8]) -> Result<Bytes, AllocError>
    ensures { IfOk result (λ b. b ≡ name.now) }
{
    Ok(Bytes {
        list: Vec::from_slice(alloc, name)?,
    })
}

/// Adds the names that object `number` defines for all objects, or answers the first that is there
/// already; what was added before it is then of no more use.
pub fn export(
    alloc: Global,
    globals: &mut Globals,
    number: u32,
    symbols: &[Symbol],
) -> Result<Option<Bytes>, AllocError>
    ensures doubled { IfOk result (λ found. found
        ≡ first_doubled (map (λ d. d.0) globals.old) (map (λ s. s.name) (filter is_exported symbols.now))) }
    ensures added { IfOk result (λ found. found ≡ None
        → globals.new ≡ globals.old ++ map (λ s. (s.name, target number s)) (filter is_exported symbols.now)) }
{
    for symbol in symbols {
        if is_exported(symbol) {
            if globals.holds(name_of(symbol)) {
                return Ok(Some(copy_of(alloc, name_of(symbol))?));
            }
            globals.add(alloc, name_of(symbol), target(number, symbol))?;
        }
    }
    Ok(None)
}

/// What a symbol of object `number` stands for, if it is defined anywhere.
#[tactic(auto, unfolding(crate::specs::Symbols::target_of))]
pub fn target_of(globals: &Globals, number: u32, symbol: &Symbol) -> Option<Target>
    ensures { result ≡ target_of globals.now number symbol.now }
{
    if is_defined(symbol.place) {
        return Some(target(number, symbol));
    }
    if symbol.global {
        return globals.get(name_of(symbol));
    }
    None
}
