//! Loads of CR3.

ghost use Rattle.std.specs.Prelude.{◌≡◌, ℕ, ◌+◌, ◌*◌, ◌<◌, ◌≤◌, ◌^◌, Bool, true, List, [], length, Some, None, false, eqb};
ghost use Rattle.std.specs.FinMap.{empty};
ghost use Rattle.shadow_tables.specs.Entries.{entries_of};
ghost use Rattle.shadow_tables.specs.declared.words.Side.{Side};
ghost use Rattle.std.specs.Set.{is_member, distinct_count};
ghost use Rattle.frame_pool.specs.Pool.{free_list};
ghost use Rattle.frame_pool.specs.Held.{Owns, Moves};
ghost use Rattle.shadow_tables.specs.OtherRoot.{IsSame, AreSame};
ghost use Rattle.shadow_tables.specs.Known.{KnowsNothing};
ghost use Rattle.shadow_tables.specs.Slots.{ArePart};
ghost use Rattle.shadow_cache.specs.Laws as laws;
ghost use Rattle.shadow_cache.specs.Standing as standing;
ghost use Rattle.shadow_tables.specs.Seen.{emptied};
ghost use Rattle.shadow_cache.specs.Loading.{switched};
ghost use Rattle.shadow_cache.specs.Reloaded.{put_by, coming, staying};

use crate::roots::Roots;
use frame_pool::Pool;
use guest_ram::Ram;
use shadow_tables::Shadows;

/// Shadows that put by what they keep under a value of CR3 for when it is loaded again.
pub trait Reloads: Shadows {
    /// CR3 is loaded with this value. What is kept of the present tables is put by, unless it is marked. What was put by
    /// under this value comes back; otherwise nothing is kept under it yet, and of eight values the one that was used
    /// longest ago goes.
    fn switch(&mut self, ram: &mut Ram, pool: &mut Pool, cr3: u32)
        requires stands { ∥ Self.stands self.old ram.old ∥₁ }
        requires owns { Owns pool.old ram.old (Self.frames self.old ram.old) }
        requires free { 2 ≤ length (free_list pool.old ram.old) }
        ensures stands { ∥ Self.stands self.new ram.new ∥₁ }
        ensures sight { Self.sight self.new ram.new ≡ switched cr3 (Self.sight self.old ram.old) }
        ensures loads { Self.cr3 self.new ≡ Some cr3 }
        ensures stale { Self.stale self.new ≡ false }
        ensures present { IsSame (coming cr3 (put_by (Self.cr3 self.old) (Self.stale self.old) (Self.read_from self.old)
            (Self.slots self.old ram.old) (Self.other_roots self.old ram.old)))
            (record { cr3 = cr3; tables = Self.read_from self.new; slots = Self.slots self.new ram.new }) }
        ensures other_roots { AreSame (staying cr3 (put_by (Self.cr3 self.old) (Self.stale self.old) (Self.read_from self.old)
            (Self.slots self.old ram.old) (Self.other_roots self.old ram.old)))
            (Self.other_roots self.new ram.new) }
        ensures write_protected { ArePart (Self.write_protected self.new) (Self.write_protected self.old) }
        ensures has_tables_under { (indices : ℕ → Bool) → Self.has_tables_under self.old ram.old indices
            → Self.has_tables_under self.new ram.new indices }
        ensures owns { Owns pool.new ram.new (Self.frames self.new ram.new) }
        ensures moves { Moves pool.old pool.new ram.old ram.new (Self.frames self.old ram.old) (Self.frames self.new ram.new) };

    /// Drops all, so that the present tables are as new: nothing is noted of them, and they aren't marked.
    fn renew(&mut self, ram: &mut Ram, pool: &mut Pool)
        requires stands { ∥ Self.stands self.old ram.old ∥₁ }
        requires owns { Owns pool.old ram.old (Self.frames self.old ram.old) }
        ensures stands { ∥ Self.stands self.new ram.new ∥₁ }
        ensures sight { Self.sight self.new ram.new ≡ emptied (Self.sight self.old ram.old) }
        ensures none { (page : ℕ) → page < 2 ^ 20 → Self.slots self.new ram.new page ≡ None }
        ensures entries { entries_of (Self.slots self.new ram.new) ≡ empty }
        ensures known { KnowsNothing Self.read_from Self.stale Self.cr3 Self.write_protected self.old self.new }
        ensures other_roots { Self.other_roots self.new ram.new ≡ [] }
        ensures has_tables_under { (indices : ℕ → Bool) → Self.has_tables_under self.new ram.new indices }
        ensures roots { (side : Side) → Self.directory self.new side ≡ Self.directory self.old side }
        ensures two { length (Self.frames self.new ram.new) ≡ 2 }
        ensures owns { Owns pool.new ram.new (Self.frames self.new ram.new) }
        ensures moves { Moves pool.old pool.new ram.old ram.new (Self.frames self.old ram.old) (Self.frames self.new ram.new) };

    /// A directory index, this one or a later one, before which no page of another is kept; 1,024 where there is none.
    fn next_opened(&self, ram: &Ram, from: u32) -> u32
        requires stands { ∥ Self.stands self.now ram.now ∥₁ }
        requires from { from ≤ 1024 }
        ensures behind { from ≤ result }
        ensures within { result ≤ 1024 }
        ensures none { (page : ℕ) → page < 2 ^ 20 → 1024 * from ≤ page → page < 1024 * result
            → Self.slots self.now ram.now page ≡ None };

    /// At most eight values are kept, the present one among them.
    ghost few: { (s : Self) (m : List ℕ) → ∥ Self.stands s m ∥₁ → length (Self.other_roots s m) ≤ 7 };

    /// Each of them holds two frames, and at most one more in each view for a directory index for which it has a table: so
    /// at most 400 where these are at most 24.
    ghost sized: { (s : Self) (m : List ℕ) (indices : ℕ → Bool) (among : List ℕ) → ∥ Self.stands s m ∥₁ → Self.has_tables_under s m indices
        → ((index : ℕ) → index < 1024 → indices index ≡ true → is_member eqb among index ≡ true)
        → length (Self.frames s m) ≤ 8 * (2 + 2 * distinct_count eqb among) };
}

impl Reloads for Roots {
    ghost use Rattle.shadow_cache.specs.Roots.{pairs_of};

    ghost few = { λ r m h. laws.few-other_roots r.present r.others m (standing.roots_in r m h) };

    ghost sized = { λ r m indices among h o all. laws.frames-sized r.present r.others m indices among (standing.roots_in r m h) o all };

    fn switch(&mut self, ram: &mut Ram, pool: &mut Pool, cr3: u32) {
        Roots::switch(self, ram, pool, cr3);
    }

    fn renew(&mut self, ram: &mut Ram, pool: &mut Pool) {
        Roots::drop_all(self, ram, pool);
    }

    fn next_opened(&self, ram: &Ram, from: u32) -> u32 {
        Roots::next_opened(self, ram, from)
    }
}
