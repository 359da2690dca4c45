//! Files by name.

ghost use Rattle.std.specs.Prelude.{◌≡◌, ◌≢◌, ◌≤◌, ◌++◌, Option, List, ℕ, Bool, true, OnOk, OnErr, IsErrOf};
ghost use Rattle.pv_io.specs.Causes.{Rose};
ghost use Rattle.pv_io.specs.Answered.{HasCause, IsMissing, Loads};
ghost use Rattle.pv_io.specs.Files.{FileMap, IsHeld, Stores, ChangesAt};

use crate::IoAnswer;
use std::alloc::Global;

/// Files by name, as the program sees them. Neither call changes the other call's count, and no count
/// falls.
pub trait Files {
    /// What the names hold, where that is told.
    ghost held: { Self → Option FileMap };

    /// How often a load has failed.
    ghost load_faults: { Self → ℕ };

    /// How often a store has failed.
    ghost store_faults: { Self → ℕ };

    /// Nothing fails but a load of a name that isn't held.
    ghost sure: { Self → Bool };

    /// Appends the bytes of a file. It changes no file, and after a refusal `into` is as before. `Failed`
    /// comes only where the count of load faults rose, and a name that isn't held makes it rise. A load that
    /// is done, or finds no memory, leaves the count.
    fn load(&mut self, alloc: Global, name: &str, into: &mut Vec<u8>) -> Result<(), IoAnswer>
        ensures loads { OnOk result (Loads (held self.old) name.now into.old.items into.new.items) }
        ensures err { OnErr result (into.new.items ≡ into.old.items) }
        ensures held { held self.new ≡ held self.old }
        ensures cause { HasCause (load_faults self.old) (load_faults self.new) result }
        ensures kept { OnOk result (load_faults self.new ≡ load_faults self.old) }
        ensures missing { IsMissing (held self.old) name.now → Rose (load_faults self.old) (load_faults self.new) }
        ensures other_count { store_faults self.new ≡ store_faults self.old }
        ensures sure { sure self.new ≡ sure self.old }
        ensures sure_load { sure self.old ≡ true → IsHeld (held self.old) name.now →
            (load_faults self.new ≡ load_faults self.old) × (IsErrOf result IoAnswer.Failed → ⊥) };

    /// Makes the name hold exactly these bytes. `Failed` comes only where the count of store faults rose;
    /// the other names are then as before, and the bytes of this one are open. `Memory` changes nothing. A
    /// store that is done, or finds no memory, leaves the count.
    fn store(&mut self, name: &str, bytes: &[u8]) -> Result<(), IoAnswer>
        ensures stores { OnOk result (Stores (held self.old) (held self.new) name.now bytes.now) }
        ensures failed { IsErrOf result IoAnswer.Failed → ChangesAt (held self.old) (held self.new) name.now }
        ensures memory { IsErrOf result IoAnswer.Memory → held self.new ≡ held self.old }
        ensures cause { HasCause (store_faults self.old) (store_faults self.new) result }
        ensures kept { OnOk result (store_faults self.new ≡ store_faults self.old) }
        ensures other_count { load_faults self.new ≡ load_faults self.old }
        ensures sure { sure self.new ≡ sure self.old }
        ensures sure_store { sure self.old ≡ true →
            (store_faults self.new ≡ store_faults self.old) × (IsErrOf result IoAnswer.Failed → ⊥) };
}

/// A file's bytes, after what was there.
pub(crate) fn append(into: &mut Vec<u8>, bytes: &[u8]) -> Result<(), IoAnswer>
    ensures ok { OnOk result (into.new.items ≡ into.old.items ++ bytes.now) }
    ensures err { OnErr result (into.new.items ≡ into.old.items) }
    ensures memory { IsErrOf result IoAnswer.Failed → ⊥ }
{
    match into.extend_from_slice(bytes) {
        Ok(()) => Ok(()),
        Err(_) => Err(IoAnswer::Memory),
    }
}
