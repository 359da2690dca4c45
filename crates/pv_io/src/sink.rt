//! Where the text goes.

ghost use Rattle.std.specs.Prelude.{◌≡◌, ◌≤◌, Option, List, ℕ, OnOk, OnErr};
ghost use Rattle.pv_io.specs.Causes.{Rose};
ghost use Rattle.pv_io.specs.Sink.{Appends, AppendsFront};

use crate::Failed;

/// A sink of bytes. Its count of faults never falls.
pub trait Sink {
    /// The bytes that were taken so far, where that is told.
    ghost taken: { Self → Option (List ℕ) };

    /// How often a call has failed.
    ghost faults: { Self → ℕ };

    /// Appends all of the bytes. `Failed` comes only where the count rose, and then a front of them was
    /// appended. A call that is done leaves the count.
    fn put(&mut self, bytes: &[u8]) -> Result<(), Failed>
        ensures ok { OnOk result (Appends (taken self.old) (taken self.new) bytes.now) }
        ensures failed { OnErr result (AppendsFront (taken self.old) (taken self.new) bytes.now) }
        ensures later { faults self.old ≤ faults self.new }
        ensures cause { OnErr result (Rose (faults self.old) (faults self.new)) }
        ensures kept { OnOk result (faults self.new ≡ faults self.old) };
}
