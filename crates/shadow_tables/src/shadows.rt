//! What keeps the translations of a guest for its host.

ghost use Rattle.std.specs.Prelude.{◌≡◌, ℕ, ◌+◌, ◌*◌, ◌/◌, ◌≤◌, ◌<◌, ◌^◌, refl, List, [], ◌∷◌, length, drop, Bool, Option, Some, None, IfSome, true, false};
ghost use Rattle.std.specs.FinMap.{get, insert, remove, empty};
ghost use Rattle.frame_pool.specs.Pool.{base_of, free_list};
ghost use Rattle.frame_pool.specs.declared.Pool.{Pool};
ghost use Rattle.frame_pool.specs.Held.{times, Holds, Owns, Writes, Moves, SameIn};
ghost use Rattle.paging.specs.Reached.{reached, walk_frames};
ghost use Rattle.paging.specs.Uses.{without_dir};
ghost use Rattle.shadow_tables.specs.OtherRoot.{OtherRoot, AreSame, LoseWrites, AllFit, AllBarred, AllProtected, spared};
ghost use Rattle.shadow_tables.specs.Entries.{FillsSlot, entries_of};
ghost use Rattle.shadow_tables.specs.Host.{lent};
ghost use Rattle.shadow_tables.specs.Known.{KnowsNoMore, KnowsRead, KnowsWritten, SameBeside};
ghost use Rattle.shadow_tables.specs.Seen.{Seen, alone, protects, seen_of, page_dropped, dir_dropped, page_filled, emptied, noted, told_written};
ghost use Rattle.guest_ram.specs.Among.{is_among};
ghost use Rattle.shadow_tables.specs.Opened.{HasOpened};
ghost use Rattle.shadow_tables.specs.Slots.{Slot, filled, entry_in, is_adequate, Turns, LosesDir, LosesWrites, SameSlots, Becomes, IsShadow, held, slot_at, root_of};
ghost use Rattle.shadow_tables.specs.declared.words.Side.{Side};
ghost use Rattle.shadow_tables.specs.Laws as laws;

use crate::shadow::Shadow;
use crate::words::Side;
use frame_pool::Pool;
use guest_ram::Ram;
use paging::Entry;

/// Shadows of a guest's tables, which lie in frames of a pool. Each call writes only frames that were free or that they
/// held, and no call changes a root.
pub trait Shadows {
    /// The memory is as the shadows left it.
    ghost stands: { Self → List ℕ → Type 0 };

    /// The frames of the pool that they hold, each once and all out.
    ghost frames: { Self → List ℕ → List ℕ };

    /// The frames to which no access may write that they make adequate.
    ghost write_protected: { Self → List ℕ };

    /// The frames from which the guest's present tables were read, as far as it matters here: all, where no other
    /// tables are kept than the present ones.
    ghost read_from: { Self → ℕ → Bool };

    /// A frame from which the present tables were read was written: what is kept of them doesn't come back once another
    /// value of CR3 was loaded. So it is too where nothing comes back.
    ghost stale: { Self → Bool };

    /// The value of CR3 to which the present tables belong, where it is kept.
    ghost cr3: { Self → Option ℕ };

    /// What they keep for values of CR3 that aren't present and may be loaded again, the last used first.
    ghost other_roots: { Self → List ℕ → List OtherRoot };

    /// They have tables only for pages under directory indices of which the test is true, those for other values of CR3
    /// too: as far as it matters how many frames they hold.
    ghost has_tables_under: { Self → List ℕ → (ℕ → Bool) → Type 0 };

    /// What they keep for each page.
    ghost slots: { Self → List ℕ → ℕ → Option Slot };

    /// What they show, as one value: what they keep for each page, from which frames the present tables were read, whether
    /// these are stale, their value of CR3, and what is kept for other values. What is write-protected follows from it.
    ghost sight: { Self → List ℕ → Seen };

    /// The root of a view.
    ghost directory: { Self → Side → ℕ };

    /// The root of a view.
    fn root(&self, side: Side) -> u32
        ensures { result ≡ directory self.now side };

    /// The entry that either view holds.
    fn kept(&self, ram: &Ram, page: u32) -> Option<Entry>
        requires stands { ∥ stands self.now ram.now ∥₁ }
        requires page { page < 2 ^ 20 }
        ensures kept { result ≡ entry_in (slots self.now ram.now page) }
        ensures entries { result ≡ get (entries_of (slots self.now ram.now)) page }
        ensures fits { IfSome result (λ entry. (entry.page ≡ page) × (entry.frame < 2 ^ 20)) };

    /// The host may do the access in that view.
    fn adequate(&self, ram: &Ram, side: Side, page: u32, write: bool) -> bool
        requires stands { ∥ stands self.now ram.now ∥₁ }
        requires page { page < 2 ^ 20 }
        ensures { result ≡ is_adequate (slots self.now ram.now page) side write };

    /// Drops the page in both views.
    fn drop_page(&mut self, ram: &mut Ram, page: u32)
        requires stands { ∥ stands self.old ram.old ∥₁ }
        requires page { page < 2 ^ 20 }
        ensures stands { ∥ stands self.new ram.new ∥₁ }
        ensures sight { sight self.new ram.new ≡ page_dropped page (sight self.old ram.old) }
        ensures turns { Turns (slots self.old ram.old) (slots self.new ram.new) page None }
        ensures entries { entries_of (slots self.new ram.new) ≡ remove (entries_of (slots self.old ram.old)) page }
        ensures beside { SameBeside read_from stale cr3 write_protected other_roots self.old self.new ram.old ram.new }
        ensures has_tables_under { (indices : ℕ → Bool) → has_tables_under self.old ram.old indices
            → has_tables_under self.new ram.new indices }
        ensures roots { (side : Side) → directory self.new side ≡ directory self.old side }
        ensures frames { frames self.new ram.new ≡ frames self.old ram.old }
        ensures memory { Writes (frames self.old ram.old) ram.old ram.new }
        ensures moves { (p : Pool) → Owns p ram.old (frames self.old ram.old)
            → Moves p p ram.old ram.new (frames self.old ram.old) (frames self.new ram.new) };

    /// Drops every page of a directory index in both views. The frames of tables stay held.
    fn drop_dir(&mut self, ram: &mut Ram, index: u32)
        requires stands { ∥ stands self.old ram.old ∥₁ }
        requires index { index < 1024 }
        ensures stands { ∥ stands self.new ram.new ∥₁ }
        ensures sight { sight self.new ram.new ≡ dir_dropped index (sight self.old ram.old) }
        ensures loses { LosesDir (slots self.old ram.old) (slots self.new ram.new) index }
        ensures entries { entries_of (slots self.new ram.new) ≡ without_dir (entries_of (slots self.old ram.old)) index }
        ensures beside { SameBeside read_from stale cr3 write_protected other_roots self.old self.new ram.old ram.new }
        ensures has_tables_under { (indices : ℕ → Bool) → has_tables_under self.old ram.old indices
            → has_tables_under self.new ram.new indices }
        ensures roots { (side : Side) → directory self.new side ≡ directory self.old side }
        ensures frames { frames self.new ram.new ≡ frames self.old ram.old }
        ensures memory { Writes (frames self.old ram.old) ram.old ram.new }
        ensures moves { (p : Pool) → Owns p ram.old (frames self.old ram.old)
            → Moves p p ram.old ram.new (frames self.old ram.old) (frames self.new ram.new) };

    /// Drops the page in both views, and then holds it in one, with the host's rights that `allows` gives that view
    /// under `wp`. A write-protected frame is held without the right to write.
    fn fill(&mut self, ram: &mut Ram, pool: &mut Pool, side: Side, entry: Entry, wp: bool)
        requires stands { ∥ stands self.old ram.old ∥₁ }
        requires owns { Owns pool.old ram.old (frames self.old ram.old) }
        requires free { 1 ≤ length (free_list pool.old ram.old) }
        requires fits { (entry.page < 2 ^ 20) × (entry.frame < 2 ^ 20) }
        ensures stands { ∥ stands self.new ram.new ∥₁ }
        ensures sight { sight self.new ram.new ≡ page_filled side entry wp (sight self.old ram.old) }
        ensures fills { FillsSlot (write_protected self.old) side entry wp (slots self.old ram.old) (slots self.new ram.new) }
        ensures beside { SameBeside read_from stale cr3 write_protected other_roots self.old self.new ram.old ram.new }
        ensures has_tables_under { (indices : ℕ → Bool) → indices (entry.page / 1024) ≡ true
            → has_tables_under self.old ram.old indices → has_tables_under self.new ram.new indices }
        ensures roots { (side : Side) → directory self.new side ≡ directory self.old side }
        ensures one { length (free_list pool.old ram.old) ≤ length (free_list pool.new ram.new) + 1 }
        ensures owns { Owns pool.new ram.new (frames self.new ram.new) }
        ensures moves { Moves pool.old pool.new ram.old ram.new (frames self.old ram.old) (frames self.new ram.new) };

    /// Drops all pages, and gives all frames back but the two roots.
    fn drop_all(&mut self, ram: &mut Ram, pool: &mut Pool)
        requires stands { ∥ stands self.old ram.old ∥₁ }
        requires owns { Owns pool.old ram.old (frames self.old ram.old) }
        ensures stands { ∥ stands self.new ram.new ∥₁ }
        ensures sight { sight self.new ram.new ≡ emptied (sight self.old ram.old) }
        ensures none { (page : ℕ) → page < 2 ^ 20 → slots self.new ram.new page ≡ None }
        ensures entries { entries_of (slots self.new ram.new) ≡ empty }
        ensures known { KnowsNoMore read_from stale cr3 write_protected self.old self.new }
        ensures other_roots { other_roots self.new ram.new ≡ [] }
        ensures has_tables_under { (indices : ℕ → Bool) → has_tables_under self.old ram.old indices
            → has_tables_under self.new ram.new indices }
        ensures roots { (side : Side) → directory self.new side ≡ directory self.old side }
        ensures two { length (frames self.new ram.new) ≡ 2 }
        ensures owns { Owns pool.new ram.new (frames self.new ram.new) }
        ensures moves { Moves pool.old pool.new ram.old ram.new (frames self.old ram.old) (frames self.new ram.new) };

    /// The guest's tables are read from this frame from now on. Where the frame is write-protected then, no page of it is
    /// adequate for a write any more.
    fn note(&mut self, ram: &mut Ram, frame: u32)
        requires stands { ∥ stands self.old ram.old ∥₁ }
        requires frame { frame < 16384 }
        ensures stands { ∥ stands self.new ram.new ∥₁ }
        ensures sight { sight self.new ram.new ≡ noted frame (sight self.old ram.old) }
        ensures slots { LosesWrites (slots self.old ram.old) (slots self.new ram.new) (write_protected self.new) }
        ensures entries { entries_of (slots self.new ram.new) ≡ entries_of (slots self.old ram.old) }
        ensures known { KnowsRead read_from stale cr3 write_protected frame self.old self.new }
        ensures other_roots { LoseWrites (frame ∷ []) (other_roots self.old ram.old) (other_roots self.new ram.new) }
        ensures has_tables_under { (indices : ℕ → Bool) → has_tables_under self.old ram.old indices
            → has_tables_under self.new ram.new indices }
        ensures roots { (side : Side) → directory self.new side ≡ directory self.old side }
        ensures frames { frames self.new ram.new ≡ frames self.old ram.old }
        ensures memory { Writes (frames self.old ram.old) ram.old ram.new }
        ensures moves { (p : Pool) → Owns p ram.old (frames self.old ram.old)
            → Moves p p ram.old ram.new (frames self.old ram.old) (frames self.new ram.new) };

    /// A byte of this frame was written, or is about to be. The frame isn't write-protected any more; what is kept stays.
    fn written(&mut self, ram: &mut Ram, pool: &mut Pool, frame: u32)
        requires stands { ∥ stands self.old ram.old ∥₁ }
        requires owns { Owns pool.old ram.old (frames self.old ram.old) }
        ensures stands { ∥ stands self.new ram.new ∥₁ }
        ensures sight { sight self.new ram.new ≡ told_written frame (sight self.old ram.old) }
        ensures slots { SameSlots (slots self.old ram.old) (slots self.new ram.new) }
        ensures entries { entries_of (slots self.new ram.new) ≡ entries_of (slots self.old ram.old) }
        ensures known { KnowsWritten read_from stale cr3 write_protected frame self.old self.new }
        ensures other_roots { AreSame (spared frame (other_roots self.old ram.old)) (other_roots self.new ram.new) }
        ensures has_tables_under { (indices : ℕ → Bool) → has_tables_under self.old ram.old indices
            → has_tables_under self.new ram.new indices }
        ensures roots { (side : Side) → directory self.new side ≡ directory self.old side }
        ensures fewer { length (free_list pool.old ram.old) ≤ length (free_list pool.new ram.new) }
        ensures owns { Owns pool.new ram.new (frames self.new ram.new) }
        ensures moves { Moves pool.old pool.new ram.old ram.new (frames self.old ram.old) (frames self.new ram.new) };

    /// What they show is what the members above say, of each page up to the last.
    ghost seen: { (s : Self) (m : List ℕ) → sight s m
        ≡ seen_of (slots s m) (read_from s) (stale s) (cr3 s) (other_roots s m) };

    /// The frames to which no access may write are just those from which tables that may come back were read.
    ghost protected: { (s : Self) (m : List ℕ) (frame : ℕ) → is_among frame (write_protected s) ≡ protects (sight s m) frame };

    /// Their frames lie in memory, each once.
    ghost holds: { (s : Self) (m : List ℕ) → ∥ stands s m ∥₁ → Holds m (frames s m) };

    /// Two of them are the roots.
    ghost two: { (s : Self) (m : List ℕ) → ∥ stands s m ∥₁ → 2 ≤ length (frames s m) };

    /// A walk of a view reads no other frames.
    ghost walked: { (s : Self) (m : List ℕ) (side : Side) (page f : ℕ) → ∥ stands s m ∥₁ → page < 2 ^ 20
        → 1 ≤ times f (walk_frames m (directory s side) page) → 1 ≤ times f (frames s m) };

    /// Where a host's access leads by a walk of a view's tables as they stand, over all n frames of the memory, is what is kept.
    ghost host: { (s : Self) (m : List ℕ) (n : ℕ) (side : Side) (page : ℕ) (write : Bool) → ∥ stands s m ∥₁
        → 4096 * n ≡ length m → page < 2 ^ 20
        → reached m n (directory s side) page write ≡ lent n (slots s m page) side write };

    /// A page's entry is of that page, and can be filled again.
    ghost fits: { (s : Self) (m : List ℕ) (page : ℕ) (slot : Slot) → ∥ stands s m ∥₁ → page < 2 ^ 20
        → slots s m page ≡ Some slot → (slot.entry.page ≡ page) × (slot.entry.frame < 2 ^ 20) };

    /// No write to a write-protected frame is adequate.
    ghost barred: { (s : Self) (m : List ℕ) (page : ℕ) (slot : Slot) → ∥ stands s m ∥₁ → page < 2 ^ 20
        → slots s m page ≡ Some slot → is_among slot.entry.frame (write_protected s) ≡ true → slot.writes ≡ false };

    /// What is kept for other values of CR3: a page's entry is of that page, and can be filled again.
    ghost other_roots_fit: { (s : Self) (m : List ℕ) → ∥ stands s m ∥₁ → AllFit (other_roots s m) };

    ghost other_roots_barred: { (s : Self) (m : List ℕ) → ∥ stands s m ∥₁
        → AllBarred (λ f. is_among f (write_protected s)) (other_roots s m) };

    /// The tables that what is kept was read from are write-protected, as far as it may come back.
    ghost read_from_is_protected: { (s : Self) (frame : ℕ) → stale s ≡ false → read_from s frame ≡ true
        → is_among frame (write_protected s) ≡ true };

    ghost other_roots_protected: { (s : Self) (m : List ℕ) → AllProtected (λ f. is_among f (write_protected s)) (other_roots s m) };

    /// A write in other frames makes no difference.
    ghost stays: { (s : Self) (m m' : List ℕ) → ∥ stands s m ∥₁ → SameIn (frames s m) m m' → ∥ stands s m' ∥₁ };

    ghost same_frames: { (s : Self) (m m' : List ℕ) → ∥ stands s m ∥₁ → SameIn (frames s m) m m' → frames s m' ≡ frames s m };

    ghost same_slots: { (s : Self) (m m' : List ℕ) → ∥ stands s m ∥₁ → SameIn (frames s m) m m' → SameSlots (slots s m) (slots s m') };

    ghost same_other_roots: { (s : Self) (m m' : List ℕ) → ∥ stands s m ∥₁ → SameIn (frames s m) m m'
        → AreSame (other_roots s m) (other_roots s m') };

    ghost same_tables_under: { (s : Self) (m m' : List ℕ) (indices : ℕ → Bool) → ∥ stands s m ∥₁ → SameIn (frames s m) m m'
        → has_tables_under s m indices → has_tables_under s m' indices };

    ghost wider: { (s : Self) (m : List ℕ) (indices more : ℕ → Bool)
        → ((index : ℕ) → indices index ≡ true → more index ≡ true) → has_tables_under s m indices → has_tables_under s m more };

    ghost same_entries: { (s : Self) (m m' : List ℕ) → ∥ stands s m ∥₁ → SameIn (frames s m) m m'
        → entries_of (slots s m') ≡ entries_of (slots s m) } = { λ s m m' h e.
            laws.same-entries (slots s m) (slots s m') (same_slots s m m' h e) };

    /// The entries as a map: that of a page, and none from the last page on.
    ghost entry_at: { (s : Self) (m : List ℕ) (page : ℕ) → page < 2 ^ 20
        → get (entries_of (slots s m)) page ≡ entry_in (slots s m page) } = { λ s m page l.
            laws.entry-at (slots s m) page l };

    ghost none_beyond: { (s : Self) (m : List ℕ) (page : ℕ) → 2 ^ 20 ≤ page
        → get (entries_of (slots s m)) page ≡ None } = { λ s m page l.
            laws.none-beyond (slots s m) page l };

    /// No frame of theirs lies below the pool's first: what is written below changes none.
    ghost above: { (s : Self) (p : Pool) (m m' : List ℕ) (limit : ℕ) → Owns p m (frames s m) → limit ≤ 4096 * base_of p
        → drop limit m' ≡ drop limit m → length m' ≡ length m → SameIn (frames s m) m m' } = { λ s p m m' limit o l e size.
            laws.same-above p m m' limit (frames s m) o l e size };

    ghost owned_above: { (s : Self) (p : Pool) (m m' : List ℕ) (limit : ℕ) → ∥ stands s m ∥₁ → Owns p m (frames s m)
        → limit ≤ 4096 * base_of p → drop limit m' ≡ drop limit m → length m' ≡ length m
        → Owns p m' (frames s m') } = { λ s p m m' limit h o l e size.
            laws.owned-above p m m' limit (frames s m) (frames s m') o l e size
            (same_frames s m m' h (laws.same-above p m m' limit (frames s m) o l e size)) };
}

impl Shadows for Shadow {
    ghost stands = { λ s m. IsShadow s m };

    ghost frames = { λ s m. held s m };

    ghost write_protected = { λ s. [] };

    ghost read_from = { λ s f. true };

    ghost stale = { λ s. true };

    ghost cr3 = { λ s. None };

    ghost other_roots = { λ s m. [] };

    ghost has_tables_under = { λ s m indices. Unit {0} };

    ghost slots = { λ s m page. slot_at s m page };

    ghost sight = { λ s m. alone (slot_at s m) };

    ghost directory = { λ s side. root_of s side };

    ghost seen = { λ s m. refl };

    ghost protected = { λ s m frame. refl };

    ghost holds = { λ s m h. laws.lies s m h };

    ghost two = { λ s m h. laws.held-roots s m };

    ghost walked = { λ s m side page f h l i. laws.walked s m side page f h l i };

    ghost host = { λ s m n side page write h e l. laws.host s m n side page write h e l };

    ghost fits = { λ s m page slot h l e. laws.fits s m page slot h l e };

    ghost barred = { λ s m page slot h l e t. laws.none-write_protected slot.entry.frame slot.writes t };

    ghost other_roots_fit = { λ s m h. tt };

    ghost other_roots_barred = { λ s m h. tt };

    ghost read_from_is_protected = { λ s frame unmarked n. laws.never-unmarked frame unmarked };

    ghost other_roots_protected = { λ s m. tt };

    ghost stays = { λ s m m' h e. laws.stays s m m' h e };

    ghost same_frames = { λ s m m' h e. laws.same-frames s m m' h e };

    ghost same_slots = { λ s m m' h e. laws.same-slots s m m' h e };

    ghost same_other_roots = { λ s m m' h e. tt };

    ghost same_tables_under = { λ s m m' indices h e o. tt };

    ghost wider = { λ s m indices more w o. tt };

    fn root(&self, side: Side) -> u32 {
        Shadow::root(self, side)
    }

    fn kept(&self, ram: &Ram, page: u32) -> Option<Entry> {
        Shadow::kept(self, ram, page)
    }

    fn adequate(&self, ram: &Ram, side: Side, page: u32, write: bool) -> bool {
        Shadow::adequate(self, ram, side, page, write)
    }

    fn drop_page(&mut self, ram: &mut Ram, page: u32) {
        Shadow::drop_page(self, ram, page);
    }

    fn drop_dir(&mut self, ram: &mut Ram, index: u32) {
        Shadow::drop_dir(self, ram, index);
    }

    fn fill(&mut self, ram: &mut Ram, pool: &mut Pool, side: Side, entry: Entry, wp: bool)
        requires stands { ∥ IsShadow self.old ram.old ∥₁ }
        requires owns { Owns pool.old ram.old (held self.old ram.old) }
        requires free { 1 ≤ length (free_list pool.old ram.old) }
        requires fits { (entry.page < 2 ^ 20) × (entry.frame < 2 ^ 20) }
        ensures same { self.new ≡ self.old }
        ensures becomes { Becomes self.old ram.old ram.new entry.page (Some (filled false side entry wp)) }
        ensures entries { entries_of (slot_at self.new ram.new) ≡ insert (entries_of (slot_at self.old ram.old)) entry.page entry }
        ensures one { length (free_list pool.old ram.old) ≤ length (free_list pool.new ram.new) + 1 }
        ensures owns { Owns pool.new ram.new (held self.new ram.new) }
        ensures moves { Moves pool.old pool.new ram.old ram.new (held self.old ram.old) (held self.new ram.new) }

        ensures table { HasOpened self.old ram.old ram.new side (entry.page / 1024) }
    {
        Shadow::fill(self, ram, pool, side, entry, wp);
    }

    fn drop_all(&mut self, ram: &mut Ram, pool: &mut Pool) {
        Shadow::drop_all(self, ram, pool);
    }

    /// Nothing is write-protected, and nothing comes back.
    fn note(&mut self, ram: &mut Ram, _frame: u32)
        requires stands { ∥ IsShadow self.old ram.old ∥₁ }
        ensures still { (self.new ≡ self.old) × (ram.new ≡ ram.old) }
    {}

    fn written(&mut self, ram: &mut Ram, pool: &mut Pool, _frame: u32)
        requires stands { ∥ IsShadow self.old ram.old ∥₁ }
        requires owns { Owns pool.old ram.old (held self.old ram.old) }
        ensures still { (self.new ≡ self.old) × (ram.new ≡ ram.old) × (pool.new ≡ pool.old) }
    {
        // no frame is write-protected, so none is lost
    }
}
