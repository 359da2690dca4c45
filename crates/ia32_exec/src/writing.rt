//! The numbers that an instruction writes, written one after another by any writer.

ghost use Rattle.std.specs.Prelude.{◌≡◌, ◌<◌, ◌^◌, ◌+◌, ◌*◌, ◌/◌, ℕ, slice_index};
ghost use Rattle.std.specs.List.{FoldsTo};
ghost use Rattle.ia32_types.specs.Size.{width};
ghost use Rattle.ia32_exec.specs.Commit.{list_of, longs_to};
ghost use Rattle.ia32_exec.specs.Outcomes.{AreStored};
ghost use Rattle.ia32_exec.specs.Readable.{AreAll};

use crate::outcome::{Store, Stores};
use ia32_types::Size;

/// A way of writing numbers into a memory whose ranges were translated before.
pub trait Writer {
    ghost use Rattle.ia32_exec.specs.declared.outcome.Store.{Store};

    /// What is written into.
    type Memory;

    /// What holds of a memory before a write and after it.
    ghost stands: { Self → Self.Memory → Type 0 };

    /// The byte at an address may be written.
    ghost writable: { Self → Self.Memory → ℕ → Type 0 };

    /// What a memory is after a number was written.
    ghost written: { Self → Self.Memory → Store → Self.Memory → Type 0 };

    /// Writes the low bits of a number.
    fn write(&self, memory: &mut Self::Memory, store: Store)
        requires stands { stands self.now memory.old }
        requires open_to { AreAll (writable self.now memory.old) store.at (width store.size / 8) }
        ensures stands { stands self.now memory.new }
        ensures written { written self.now memory.old store memory.new }
        ensures open_still { (k : ℕ) → writable self.now memory.old k → writable self.now memory.new k };

    /// There are 2^32 addresses.
    ghost in_space: { (writer : Self) (memory : Self.Memory) (at : ℕ) → writable writer memory at → at < 2 ^ 32 };
}

fn write_eight<W: Writer>(writer: &W, memory: &mut W::Memory, at: u32, values: [u32; 8])
    requires stands { W.stands writer.now memory.old }
    requires open_to { AreAll (W.writable writer.now memory.old) at 32 }
    ensures stands { W.stands writer.now memory.new }
    ensures written { FoldsTo (W.written writer.now) memory.old (longs_to 8 at values) memory.new }
{
    for k in 0..8u32 {
        let store = Store {
            at: at + 4 * k,
            size: Size::Long,
            value: values[k as usize],
        };
        writer.write(memory, store);
    }
}

/// Writes the numbers of an instruction in their order.
#[inline(always)]
pub fn write_all<W: Writer>(writer: &W, memory: &mut W::Memory, stores: &Stores)
    requires stands { W.stands writer.now memory.old }
    requires open_to { AreStored (W.writable writer.now memory.old) stores.now }
    ensures stands { W.stands writer.now memory.new }
    ensures written { FoldsTo (W.written writer.now) memory.old (list_of stores.now) memory.new }
{
    match *stores {
        Stores::Nothing => {}
        Stores::One(store) => writer.write(memory, store),
        Stores::Eight(at, values) => write_eight(writer, memory, at, values),
    }
}
