//! What the statements before say.

ghost use Rattle.std.specs.Prelude.{◌≡◌, OnOk, OnErr};
ghost use Rattle.asm_source.specs.Names.{holds};
ghost use Rattle.asm_statement.specs.Definers.{is_spent};
ghost use Rattle.asm_statement.specs.Scope as spec;

use asm_source::{Name, Names, SYMBOL_LIMIT, SourceItem};
use std::alloc::{AllocError, Global};
use std::marker::Model;

/// The items so far, the names so far in the order in which they were first seen, which of them are
/// defined, and whether statements are skipped.
#[derive(Drop)]
pub struct Scope {
    items: Vec<SourceItem>,
    names: Names,
    defined: Names,
    skipping: bool,
}

impl Model for Scope {
    ghost use Rattle.asm_statement.specs.ScopeView.{ScopeView};

    ghost Value = { ScopeView };

    ghost view = { λ s. record { items = s.items.items; names = s.names; defined = s.defined; skipping = s.skipping } };
}

impl Scope {
    /// Before the first statement: no item, no name, nothing skipped.
    pub fn new(alloc: Global) -> Scope
        ensures { result ≡ spec.fresh }
    {
        Scope {
            items: Vec::new(alloc),
            names: Names::new(alloc),
            defined: Names::new(alloc),
            skipping: false,
        }
    }

    /// Whether statements are skipped, since the section is one that isn't read.
    pub fn is_skipping(&self) -> bool
        ensures { result ≡ self.now.skipping }
    {
        self.skipping
    }

    /// Whether a statement before has defined the name.
    pub fn is_defined(&self, name: &Name) -> bool
        ensures { result ≡ holds self.now.defined name.now }
    {
        self.defined.holds(&name.bytes)
    }

    /// Whether the name was seen, or may be one more of the source (profile).
    pub fn has_room(&self, name: &Name) -> bool
        ensures { result ≡ spec.has_room self.now name.now }
    {
        self.names.holds(&name.bytes) || self.names.len() < SYMBOL_LIMIT
    }

    /// Whether as many names as a source may have are defined.
    pub fn is_spent(&self) -> bool
        ensures { result ≡ is_spent self.now }
    {
        self.defined.len() >= SYMBOL_LIMIT
    }

    /// From here on statements are skipped, or read.
    pub fn set_skipping(&mut self, skipping: bool)
        ensures { self.new ≡ record self.old { skipping = skipping } }
    {
        self.skipping = skipping;
    }

    /// Says an item more.
    pub fn push(&mut self, item: SourceItem) -> Result<(), AllocError>
        ensures pushed { OnOk result (self.new ≡ spec.pushed self.old item) }
        ensures unchanged { OnErr result (self.new ≡ self.old) }
    {
        self.items.push(item)?;
        Ok(())
    }

    /// A name is seen.
    pub fn note(&mut self, alloc: Global, name: &Name) -> Result<(), AllocError>
        ensures noted { OnOk result (self.new ≡ spec.noted self.old name.now) }
        ensures unchanged { OnErr result (self.new ≡ self.old) }
    {
        self.names.add(alloc, &name.bytes)?;
        Ok(())
    }

    /// A name is defined.
    pub fn define(&mut self, alloc: Global, name: &Name) -> Result<(), AllocError>
        ensures defined { OnOk result (self.new ≡ spec.defined_too self.old name.now) }
        ensures unchanged { OnErr result (self.new ≡ self.old) }
    {
        self.defined.add(alloc, &name.bytes)?;
        Ok(())
    }

    /// Lets go of what was said.
    pub fn discard(self) {
        let Scope {
            items: _,
            names,
            defined,
            skipping: _,
        } = self;
        discard_names(names);
        discard_names(defined);
    }

    /// The items in the order of the source.
    pub fn into_items(self) -> Vec<SourceItem>
        ensures { result.items ≡ self.items }
    {
        let Scope {
            items,
            names,
            defined,
            skipping: _,
        } = self;
        discard_names(names);
        discard_names(defined);
        items
    }
}

/// Lets go of names.
fn discard_names(_names: Names) {}
