//! A pair of views, and the tables that they were read from.

ghost use Rattle.std.specs.Prelude.{◌≡◌, ◌≤◌, ◌<◌, [], length, false, true, slice_set};
ghost use Rattle.frame_pool.specs.Pool.{free_list, Stands};
ghost use Rattle.frame_pool.specs.Held.{Owns, Moves};
ghost use Rattle.shadow_cache.specs.After.{marked_by};
ghost use Rattle.shadow_cache.specs.Pairs.{no_frames, reads};
ghost use Rattle.std.specs.FinMap.{empty as no_entries};
ghost use Rattle.shadow_tables.specs.Entries.{entries_of};
ghost use Rattle.shadow_tables.specs.Slots.{held, slot_at, IsEmpty};

use crate::frame_set::FrameSet;
use frame_pool::Pool;
use guest_ram::Ram;
use shadow_tables::Shadow;

/// The views of one value of CR3.
#[derive(Drop)]
pub struct Pair {
    pub cr3: u32,
    pub shadow: Shadow,
    /// The frames from which the guest's tables were read.
    pub tables: FrameSet,
    /// A table of it was written since.
    pub stale: bool,
}

impl Pair {
    /// Views that keep nothing, of tables that weren't read yet.
    pub fn new(ram: &mut Ram, pool: &mut Pool, cr3: u32) -> Pair
        requires stands { Stands pool.old ram.old }
        requires free { 2 ≤ length (free_list pool.old ram.old) }
        ensures cr3 { result.cr3 ≡ cr3 }
        ensures empty { IsEmpty result.shadow ram.new }
        ensures entries { entries_of (slot_at result.shadow ram.new) ≡ no_entries }
        ensures tables { result.tables ≡ no_frames }
        ensures stale { result.stale ≡ false }
        ensures owns { Owns pool.new ram.new (held result.shadow ram.new) }
        ensures moves { Moves pool.old pool.new ram.old ram.new [] (held result.shadow ram.new) }
    {
        Pair {
            cr3,
            shadow: Shadow::new(ram, pool),
            tables: FrameSet::new(),
            stale: false,
        }
    }

    /// A copy of the pair.
    pub fn copy(&self) -> Pair
        ensures { result ≡ self.now }
    {
        Pair {
            cr3: self.cr3,
            shadow: self.shadow,
            tables: self.tables.copy(),
            stale: self.stale,
        }
    }

    /// Views that keep nothing, of tables that weren't read yet, in the place of another pair.
    pub fn begin(&mut self, ram: &mut Ram, pool: &mut Pool, cr3: u32)
        requires stands { Stands pool.old ram.old }
        requires free { 2 ≤ length (free_list pool.old ram.old) }
        ensures cr3 { self.new.cr3 ≡ cr3 }
        ensures empty { IsEmpty self.new.shadow ram.new }
        ensures tables { self.new.tables ≡ no_frames }
        ensures stale { self.new.stale ≡ false }
        ensures moves { Moves pool.old pool.new ram.old ram.new [] (held self.new.shadow ram.new) }
    {
        self.cr3 = cr3;
        self.shadow = Shadow::new(ram, pool);
        self.renew();
    }

    /// The guest's tables were read from this frame.
    pub fn reads(&self, frame: u32) -> bool
        ensures { result ≡ reads self.now frame }
    {
        self.tables.has(frame)
    }

    /// Makes the pair as new, with the same views.
    pub fn renew(&mut self)
        ensures { self.new ≡ record self.old { tables = no_frames; stale = false } }
    {
        self.tables.clear();
        self.stale = false;
    }

    /// The guest's tables were read from this frame too.
    pub fn note(&mut self, frame: u32)
        requires { frame < 16384 }
        ensures { self.new ≡ record self.old { tables = slice_set self.old.tables frame true } }
    {
        self.tables.add(frame);
    }

    /// A byte of this frame was written, which matters where the tables were read from it.
    pub fn write(&mut self, frame: u32)
        ensures { self.new ≡ marked_by self.old frame }
    {
        if self.tables.has(frame) {
            self.tables.remove(frame);
            self.stale = true;
        }
    }
}
