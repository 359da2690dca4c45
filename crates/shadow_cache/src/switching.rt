//! A load of CR3, in its two parts.

ghost use Rattle.std.specs.Prelude.{◌≡◌, ℕ, ◌≤◌, ◌<◌, List, ◌∷◌, length, take};
ghost use Rattle.frame_pool.specs.Pool.{free_list};
ghost use Rattle.frame_pool.specs.Held.{Owns, Moves};
ghost use Rattle.shadow_cache.specs.Pairs.{frames_of, AreUnmarked, IsRoots};
ghost use Rattle.shadow_cache.specs.Others.{AreKept};
ghost use Rattle.shadow_cache.specs.Switched.{staying_pairs, Comes};

use crate::others::{find, leave};
use crate::pair::Pair;
use crate::pairs::{PAIRS, Pairs};
use frame_pool::Pool;
use guest_ram::Ram;

/// The pair that was present joins the others, or leaves if it is marked.
pub fn put_by(others: &mut Pairs, ram: &mut Ram, pool: &mut Pool, before: &Pair)
    requires roots { IsRoots (before.now ∷ others.old) ram.old }
    requires owns { Owns pool.old ram.old (frames_of (before.now ∷ others.old) ram.old) }
    ensures staying { others.new ≡ staying_pairs (before.now ∷ others.old) }
    ensures roots { IsRoots others.new ram.new }
    ensures unmarked { AreUnmarked others.new }
    ensures kept { AreKept others.new ram.old ram.new }
    ensures fewer { length (free_list pool.old ram.old) ≤ length (free_list pool.new ram.new) }
    ensures moves { Moves pool.old pool.new ram.old ram.new (frames_of (before.now ∷ others.old) ram.old) (frames_of others.new ram.new) }
{
    if before.stale {
        before.shadow.close(ram, pool);
    } else {
        others.push(before.copy());
    }
}

/// Of 8 pairs the last leaves.
fn make_room(others: &mut Pairs, ram: &mut Ram, pool: &mut Pool)
    requires roots { IsRoots others.old ram.old }
    requires unmarked { AreUnmarked others.old }
    requires owns { Owns pool.old ram.old (frames_of others.old ram.old) }
    ensures rest { others.new ≡ take 7 others.old }
    ensures roots { IsRoots others.new ram.new }
    ensures unmarked { AreUnmarked others.new }
    ensures kept { AreKept others.new ram.old ram.new }
    ensures fewer { length (free_list pool.old ram.old) ≤ length (free_list pool.new ram.new) }
    ensures moves { Moves pool.old pool.new ram.old ram.new (frames_of others.old ram.old) (frames_of others.new ram.new) }
{
    if others.len() == PAIRS {
        leave(others, ram, pool, PAIRS - 1);
    }
}

/// The pair of this value, taken out, or a new one takes the place of the present one.
pub fn come(others: &mut Pairs, ram: &mut Ram, pool: &mut Pool, cr3: u32, present: &mut Pair)
    requires roots { IsRoots others.old ram.old }
    requires unmarked { AreUnmarked others.old }
    requires owns { Owns pool.old ram.old (frames_of others.old ram.old) }
    requires free { 2 ≤ length (free_list pool.old ram.old) }
    ensures comes { Comes others.old (present.new ∷ others.new) ram.old ram.new cr3 }
    ensures roots { IsRoots (present.new ∷ others.new) ram.new }
    ensures moves { Moves pool.old pool.new ram.old ram.new (frames_of others.old ram.old) (frames_of (present.new ∷ others.new) ram.new) }
{
    match find(others, cr3) {
        Some(i) => *present = others.take(i),
        None => {
            make_room(others, ram, pool);
            present.begin(ram, pool, cr3);
        }
    }
}
