//! The names of a source and their numbers.

ghost use Rattle.std.specs.Prelude.{◌≡◌, ◌<◌, ◌≤◌, [], length, slice_get, Some, OnOk, OnErr};
ghost use Rattle.asm_source.specs.Names.{holds, added, name_number};

use indexmap::IndexSet;
use std::alloc::{AllocError, Global};
use std::marker::Model;

/// The most names of a source (profile). An object has no more symbols either.
pub const SYMBOL_LIMIT: usize = 65_536;

/// Different names in the order in which they are first seen, each with its number. No call
/// searches them one by one.
#[derive(Drop)]
pub struct Names {
    set: IndexSet<Vec<u8>>,
}

impl Model for Names {
    ghost use Rattle.std.specs.Prelude.{List, ℕ};
    ghost use Rattle.asm_source.specs.Keys.{key_bytes};

    ghost Value = { List (List ℕ) };

    ghost view = { λ n. key_bytes n.set.keys };
}

impl Names {
    /// None.
    pub fn new(alloc: Global) -> Names
        ensures { result ≡ [] }
    {
        Names {
            set: IndexSet::new(alloc),
        }
    }

    /// How many there are.
    pub fn len(&self) -> usize
        ensures { result ≡ length self.now }
    {
        self.set.len()
    }

    /// Whether the name is among them.
    pub fn holds(&self, name: &[u8]) -> bool
        ensures { result ≡ holds self.now name.now }
    {
        self.set.contains(name)
    }

    /// The number of a name, or how many names there are where it is none of them.
    pub fn number_of(&self, name: &[u8]) -> usize
        ensures number { result ≡ name_number self.now name.now }
        ensures within { result ≤ length self.now }
    {
        match self.set.get_index_of(name) {
            Some(number) => number,
            None => self.set.len(),
        }
    }

    /// The name of a number.
    pub fn name_at(&self, number: usize) -> &[u8]
        requires { number < length self.now }
        ensures { slice_get self.now number ≡ Some result.now }
    {
        match self.set.get_index(number) {
            Some(name) => name,
            None => &[],
        }
    }

    /// Adds the name at the end, if it is not there. The names stay as they were where memory runs
    /// out.
    pub fn add(&mut self, alloc: Global, name: &[u8]) -> Result<(), AllocError>
        ensures added { OnOk result (self.new ≡ added self.old name.now) }
        ensures unchanged { OnErr result (self.new ≡ self.old) }
    {
        if self.holds(name) {
            return Ok(());
        }
        let bytes = Vec::from_slice(alloc, name)?;
        self.set.insert(bytes)?;
        Ok(())
    }
}
