//! The pairs beside the present one.

ghost use Rattle.std.specs.Prelude.{◌≡◌, ℕ, ◌≤◌, ◌<◌, ◌^◌, List, [], ◌∷◌, length, remove, filter, not, IfSome};
ghost use Rattle.frame_pool.specs.Pool.{free_list};
ghost use Rattle.frame_pool.specs.Held.{Holds, Owns, Writes, Moves};
ghost use Rattle.shadow_cache.specs.Pairs.{reads, any_reads, frames_of, AreShadows};
ghost use Rattle.shadow_cache.specs.Others.{AreKept, AllLoseWrites, place_of};

use crate::pairs::Pairs;
use frame_pool::Pool;
use guest_ram::Ram;

/// The tables of any were read from this frame.
pub fn any_reads(pairs: &Pairs, frame: u32) -> bool
    ensures { result ≡ any_reads pairs.now frame }
{
    for i in 0..pairs.len() {
        if pairs.at(i).reads(frame) {
            return true;
        }
    }
    false
}

/// Takes the right to write to this frame from what all keep.
pub fn bar_all(pairs: &Pairs, ram: &mut Ram, frame: u32)
    requires shadows { AreShadows pairs.now ram.old }
    requires holds { Holds ram.old (frames_of pairs.now ram.old) }
    ensures shadows { AreShadows pairs.now ram.new }
    ensures frames { frames_of pairs.now ram.new ≡ frames_of pairs.now ram.old }
    ensures loses { AllLoseWrites pairs.now ram.old ram.new frame }
    ensures memory { Writes (frames_of pairs.now ram.old) ram.old ram.new }
{
    for i in 0..pairs.len() {
        pairs.at(i).shadow.bar(ram, frame);
    }
}

/// A pair leaves, and gives its frames back.
pub fn leave(pairs: &mut Pairs, ram: &mut Ram, pool: &mut Pool, i: usize)
    requires place { i < length pairs.old }
    requires shadows { AreShadows pairs.old ram.old }
    requires owns { Owns pool.old ram.old (frames_of pairs.old ram.old) }
    ensures rest { pairs.new ≡ remove pairs.old i }
    ensures kept { AreKept pairs.new ram.old ram.new }
    ensures fewer { length (free_list pool.old ram.old) ≤ length (free_list pool.new ram.new) }
    ensures moves { Moves pool.old pool.new ram.old ram.new (frames_of pairs.old ram.old) (frames_of pairs.new ram.new) }
{
    let pair = pairs.take(i);
    pair.shadow.close(ram, pool);
}

/// The pairs whose tables were read from this frame leave.
pub fn leave_readers(pairs: &mut Pairs, ram: &mut Ram, pool: &mut Pool, frame: u32)
    requires shadows { AreShadows pairs.old ram.old }
    requires owns { Owns pool.old ram.old (frames_of pairs.old ram.old) }
    ensures rest { pairs.new ≡ filter (λ p. not (reads p frame)) pairs.old }
    ensures kept { AreKept pairs.new ram.old ram.new }
    ensures fewer { length (free_list pool.old ram.old) ≤ length (free_list pool.new ram.new) }
    ensures moves { Moves pool.old pool.new ram.old ram.new (frames_of pairs.old ram.old) (frames_of pairs.new ram.new) }
{
    let mut left = pairs.len();
    while left > 0 {
        left -= 1;
        if pairs.at(left).reads(frame) {
            leave(pairs, ram, pool, left);
        }
    }
}

/// All leave.
pub fn leave_all(pairs: &mut Pairs, ram: &mut Ram, pool: &mut Pool)
    requires shadows { AreShadows pairs.old ram.old }
    requires owns { Owns pool.old ram.old (frames_of pairs.old ram.old) }
    ensures none { pairs.new ≡ [] }
    ensures moves { Moves pool.old pool.new ram.old ram.new (frames_of pairs.old ram.old) [] }
{
    while pairs.len() > 0 {
        leave(pairs, ram, pool, 0);
    }
}

/// The first pair of this value.
pub fn find(pairs: &Pairs, cr3: u32) -> Option<usize>
    ensures place { result ≡ place_of cr3 pairs.now }
    ensures within { IfSome result (λ i. i < length pairs.now) }
{
    for i in 0..pairs.len() {
        if pairs.at(i).cr3 == cr3 {
            return Some(i);
        }
    }
    None
}
