//! Writing what an instruction writes.

ghost use Rattle.std.specs.Prelude.{◌≡◌, ◌<◌, ◌^◌, ⊤};
ghost use Rattle.ia32_exec.specs.Commit.{list_of};
ghost use Rattle.ia32_exec.specs.Outcomes.{AreStored};
ghost use Rattle.paging.specs.Space.{saved};
ghost use Rattle.step_exec.specs.Plain.{stored_all};
ghost use Rattle.step_exec.specs.Ready.{IsWritableAt};

use ia32_exec::{Store, Stores, Writer, write_all};
use paging::GuestMem;
use std::marker::PhantomData;

/// Writes into a step's memory.
#[derive(Drop)]
struct Saver<M> {
    into: PhantomData<M>,
}

impl<M: GuestMem> Writer for Saver<M> {
    type Memory = M;

    ghost stands = { λ w mem. ⊤ };

    ghost writable = { λ w mem at. IsWritableAt (M.space mem) at × (at < 2 ^ 32) };

    ghost written = { λ w old store new. (M.frame new ≡ M.frame old)
        × (M.space new ≡ saved (M.space old) store.at store.size store.value) };

    ghost in_space = { λ w mem at h. h.1 };

    #[inline(always)]
    fn write(&self, mem: &mut M, store: Store) {
        let Store { at, size, value } = store;
        mem.save(at, size, value);
    }
}

/// Writes numbers that lie in the write range.
pub fn store_all<M: GuestMem>(mem: &mut M, stores: &Stores)
    requires { AreStored (IsWritableAt (M.space mem.old)) stores.now }
    ensures frame { M.frame mem.new ≡ M.frame mem.old }
    ensures pages { (M.space mem.new).pages ≡ (M.space mem.old).pages }
    ensures stored { M.space mem.new ≡ stored_all (M.space mem.old) (list_of stores.now) }
{
    let saver = Saver { into: PhantomData };
    write_all(&saver, mem, stores);
}
