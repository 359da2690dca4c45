//! Lists of calls.

ghost use Rattle.std.specs.Prelude.{◌≡◌, ◌+◌, ◌≤◌, ◌<◌, [], length, take, drop, IsTrue};
ghost use Rattle.frame_pool.specs.Pool.{free_list};
ghost use Rattle.frame_pool.specs.Held.{Owns, Moves};
ghost use Rattle.shadow_tables.specs.Calls.{IsFit, AreFit, fill_count, fills, BeginsWithFill};
ghost use Rattle.shadow_tables.specs.Steps.{ProtectsNone, IsAfterAll, AllFollow, AllAdequateAfter};
ghost use Rattle.shadow_tables.specs.Seen.{after_one, after_calls};

use crate::shadows::Shadows;
use crate::words::Side;
use frame_pool::Pool;
use guest_ram::Ram;
use paging::Entry;

/// A call that changes what is kept or write-protected.
#[derive(Clone, Copy)]
pub enum Call {
    Fill(Side, Entry, bool),
    DropPage(u32),
    DropDir(u32),
    DropAll,
    Note(u32),
    Written(u32),
}

/// Does a call, unless it is a fill and no frame is free. Then nothing changes.
fn apply<S: Shadows>(shadows: &mut S, ram: &mut Ram, pool: &mut Pool, call: Call) -> bool
    requires stands { ∥ S.stands shadows.old ram.old ∥₁ }
    requires owns { Owns pool.old ram.old (S.frames shadows.old ram.old) }
    requires fit { IsFit call }
    ensures stands { ∥ S.stands shadows.new ram.new ∥₁ }
    ensures moves { Moves pool.old pool.new ram.old ram.new (S.frames shadows.old ram.old) (S.frames shadows.new ram.new) }
    ensures done { fill_count call ≤ length (free_list pool.old ram.old) → IsTrue result }
    ensures undone { (IsTrue result → ⊥) → (fill_count call ≡ 1) × (free_list pool.new ram.new ≡ []) }
    ensures left { length (free_list pool.old ram.old) ≤ length (free_list pool.new ram.new) + fill_count call }
    ensures same { (IsTrue result → ⊥) → S.sight shadows.new ram.new ≡ S.sight shadows.old ram.old }
    ensures sight { IsTrue result → S.sight shadows.new ram.new ≡ after_one call (S.sight shadows.old ram.old) }
{
    match call {
        Call::Fill(side, entry, wp) => {
            if pool.free() == 0 {
                return false;
            }
            shadows.fill(ram, pool, side, entry, wp);
        }
        Call::DropPage(page) => shadows.drop_page(ram, page),
        Call::DropDir(index) => shadows.drop_dir(ram, index),
        Call::DropAll => shadows.drop_all(ram, pool),
        Call::Note(frame) => shadows.note(ram, frame),
        Call::Written(frame) => shadows.written(ram, pool, frame),
    }
    true
}

/// Does the calls in order up to a fill for which no frame is free, and returns how many were done. All are done at least
/// where as many frames are free as there are fills. A page's entry is then that of its last fill which no later drop
/// took away. A read is adequate exactly where this fill was on that side and let the read pass, and so is a write where
/// the shadows track no frame; where they do, a write is adequate at most then.
pub fn replay<S: Shadows>(shadows: &mut S, ram: &mut Ram, pool: &mut Pool, calls: &[Call]) -> usize
    requires stands { ∥ S.stands shadows.old ram.old ∥₁ }
    requires owns { Owns pool.old ram.old (S.frames shadows.old ram.old) }
    requires fit { AreFit calls.now }
    ensures stands { ∥ S.stands shadows.new ram.new ∥₁ }
    ensures owns { Owns pool.new ram.new (S.frames shadows.new ram.new) }
    ensures moves { Moves pool.old pool.new ram.old ram.new (S.frames shadows.old ram.old) (S.frames shadows.new ram.new) }
    ensures some { result ≤ length calls.now }
    ensures all { fills calls.now ≤ length (free_list pool.old ram.old) → result ≡ length calls.now }
    ensures stopped { result < length calls.now → BeginsWithFill (drop result calls.now) × (free_list pool.new ram.new ≡ []) }
    ensures sight { S.sight shadows.new ram.new ≡ after_calls (take result calls.now) (S.sight shadows.old ram.old) }
    ensures law { AllFollow (take result calls.now) (S.slots shadows.old ram.old) (S.slots shadows.new ram.new) }
    ensures slots { ProtectsNone S.write_protected
        → IsAfterAll (take result calls.now) (S.slots shadows.old ram.old) (S.slots shadows.new ram.new) }
    ensures adequate { ProtectsNone S.write_protected
        → AllAdequateAfter (take result calls.now) (S.slots shadows.old ram.old) (S.slots shadows.new ram.new) }
{
    let mut count = 0;
    for call in calls {
        if !apply(shadows, ram, pool, *call) {
            return count;
        }
        count += 1;
    }
    count
}
