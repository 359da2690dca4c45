//! A list of at most eight pairs of views, in a slab.

ghost use Rattle.std.specs.Prelude.{◌≡◌, ◌<◌, List, [], ◌∷◌, length, slice_get, remove, Some, IfOk};

use crate::pair::Pair;
use arrayvec::ArrayVec;
use slab::Slab;
use std::alloc::{AllocError, Global};
use std::marker::Model;

/// How many pairs are kept.
pub const PAIRS: usize = 8;

/// Up to 8 pairs in order. They lie in a slab with room for all, and their keys in it are listed.
#[derive(Drop)]
pub struct Pairs {
    slab: Slab<Pair>,
    order: ArrayVec<usize, PAIRS>,
}

impl Model for Pairs {
    ghost use Rattle.std.specs.Prelude.{List};
    ghost use Rattle.shadow_cache.specs.declared.pair.Pair.{Pair};
    ghost use Rattle.shadow_cache.specs.Keyed.{listed, IsKeyed};

    ghost Value = { List Pair };

    ghost view = { λ p. listed p.slab p.order.items };

    ghost invariant = { λ p. IsKeyed p.slab p.order.items };
}

impl Pairs {
    /// None, with room for all that may come.
    pub fn new(alloc: Global) -> Result<Pairs, AllocError>
        ensures { IfOk result (λ pairs. pairs ≡ []) }
    {
        Ok(Pairs {
            slab: Slab::with_capacity(alloc, PAIRS)?,
            order: ArrayVec::new(),
        })
    }

    /// How many there are, 0 to 8.
    pub fn len(&self) -> usize
        ensures { result ≡ length self.now }
    {
        self.order.len()
    }

    /// The pair at a place, counted from 0.
    pub fn at(&self, i: usize) -> &Pair
        requires { i < length self.now }
        ensures { slice_get self.now i ≡ Some result.now }
    {
        &self.slab[self.order[i]]
    }

    /// Puts a pair first.
    pub fn push(&mut self, pair: Pair)
        requires { length self.old < 8 }
        ensures { self.new ≡ pair ∷ self.old }
    {
        let key = self.slab.insert_reserved(pair);
        self.order.insert(0, key);
    }

    /// Takes a pair out.
    pub fn take(&mut self, i: usize) -> Pair
        requires { i < length self.old }
        ensures pair { slice_get self.old i ≡ Some result }
        ensures rest { self.new ≡ remove self.old i }
    {
        let key = self.order.remove(i);
        self.slab.remove(key)
    }
}
