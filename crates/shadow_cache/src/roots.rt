//! The views of the present value of CR3, and of values that may come back.

ghost use Rattle.std.specs.Prelude.{◌≡◌, ℕ, ◌+◌, ◌*◌, ◌/◌, ◌≤◌, ◌<◌, ◌^◌, Bool, List, [], ◌∷◌, ◌++◌, length, Some, None, not, ◌&&◌, true, false, IfOk, OnErr};
ghost use Rattle.std.specs.FinMap.{empty, remove};
ghost use Rattle.frame_pool.specs.Pool.{free_list, Stands};
ghost use Rattle.frame_pool.specs.declared.Pool.{Pool};
ghost use Rattle.frame_pool.specs.Held.{Owns, Moves, Writes};
ghost use Rattle.paging.specs.Uses.{without_dir};
ghost use Rattle.shadow_tables.specs.Entries.{FillsSlot, entries_of};
ghost use Rattle.shadow_tables.specs.Slots.{permits, slot_at, root_of, ArePart, LosesDir, LosesWrites, SameSlots, Turns};
ghost use Rattle.shadow_tables.specs.declared.words.Side.{Side};
ghost use Rattle.shadow_cache.specs.Pairs.{frames_of, tables_of, any_reads, AreShadows};
ghost use Rattle.shadow_cache.specs.Others.{AreKept, AllLoseWrites};

use crate::frame_set::FrameSet;
use crate::others::{any_reads, bar_all, leave_all, leave_readers};
use crate::pair::Pair;
use crate::pairs::Pairs;
use crate::switching::{come, put_by};
use frame_pool::Pool;
use guest_ram::Ram;
use paging::Entry;
use shadow_tables::{Shadows, Side, permits};
use std::alloc::{AllocError, Global};

/// Up to 8 pairs of views: that of the present value of CR3, and those of values that may come back, the last used first.
#[derive(Drop)]
pub struct Roots {
    present: Pair,
    others: Pairs,
    /// Frames to which no pair gives the right to write: all but those of which a page was filled with it since they were
    /// last barred.
    barred: FrameSet,
}

impl Roots {
    ghost use Rattle.shadow_cache.specs.Roots.{pairs_of, IsStanding};
    ghost use Rattle.shadow_cache.specs.After.{IsStart, beside, slots_of};
    ghost use Rattle.shadow_cache.specs.Called.{BeginsUnder, GoesOn};
    ghost use Rattle.shadow_cache.specs.Opening.{AllOpenedOnly};
    ghost use Rattle.shadow_cache.specs.OtherRoots.{other_roots_of};
    ghost use Rattle.shadow_cache.specs.Switched.{IsSwitched};
    ghost use Rattle.shadow_cache.specs.Agreeing.{Agree};
    ghost use Rattle.shadow_cache.specs.declared.call_lists.RootsCall.TheVariants.{Switch};

    /// One pair, of this value, that keeps nothing. Takes the room for 8.
    pub fn new(alloc: Global, ram: &mut Ram, pool: &mut Pool, cr3: u32) -> Result<Roots, AllocError>
        requires stands { Stands pool.old ram.old }
        requires free { 2 ≤ length (free_list pool.old ram.old) }
        ensures refused { OnErr result ((pool.new ≡ pool.old) × (ram.new ≡ ram.old)) }
        ensures stands { IfOk result (λ r. ∥ IsStanding r ram.new ∥₁) }
        ensures starts { IfOk result (λ r. IsStart (pairs_of r) ram.new cr3) }
        ensures owns { IfOk result (λ r. Owns pool.new ram.new (frames_of (pairs_of r) ram.new)) }
        ensures moves { IfOk result (λ r. Moves pool.old pool.new ram.old ram.new [] (frames_of (pairs_of r) ram.new)) }
        ensures told { IfOk result (λ r. Agree cr3 [] (pairs_of r) ram.new) }
        ensures entries { IfOk result (λ r. entries_of (slots_of (pairs_of r) ram.new) ≡ empty) }
        ensures begins { IfOk result (λ r. BeginsUnder cr3 (pairs_of r)) }
        ensures alone { IfOk result (λ r. other_roots_of (beside (pairs_of r)) ram.new ≡ []) }
        ensures has_tables_under { (indices : ℕ → Bool) → IfOk result (λ r. AllOpenedOnly indices (pairs_of r) ram.new) }
    {
        let others = Pairs::new(alloc)?;
        let present = Pair::new(ram, pool, cr3);
        let barred = FrameSet::full();
        Ok(Roots {
            present,
            others,
            barred,
        })
    }

    /// Goes to the pair of this value, or to a new one. A marked present pair leaves first, and a ninth, the last used longest ago.
    pub fn switch(&mut self, ram: &mut Ram, pool: &mut Pool, cr3: u32)
        requires stands { ∥ IsStanding self.old ram.old ∥₁ }
        requires owns { Owns pool.old ram.old (frames_of (pairs_of self.old) ram.old) }
        requires free { 2 ≤ length (free_list pool.old ram.old) }
        ensures stands { ∥ IsStanding self.new ram.new ∥₁ }
        ensures switched { IsSwitched (pairs_of self.old) (pairs_of self.new) ram.old ram.new cr3 }
        ensures owns { Owns pool.new ram.new (frames_of (pairs_of self.new) ram.new) }
        ensures moves { Moves pool.old pool.new ram.old ram.new
            (frames_of (pairs_of self.old) ram.old) (frames_of (pairs_of self.new) ram.new) }
        ensures told { GoesOn (Switch cr3) (pairs_of self.old) (pairs_of self.new) ram.old ram.new }
    {
        if self.present.cr3 == cr3 && !self.present.stale {
            return;
        }
        put_by(&mut self.others, ram, pool, &self.present);
        come(&mut self.others, ram, pool, cr3, &mut self.present);
    }
}

impl Roots {
    ghost use Rattle.shadow_cache.specs.Roots.{pairs_of, IsStanding};

    /// The tables of any pair were read from this frame.
    fn is_write_protected(&self, frame: u32) -> bool
        ensures { result ≡ any_reads (pairs_of self.now) frame }
    {
        if self.present.reads(frame) {
            return true;
        }
        any_reads(&self.others, frame)
    }

    /// Takes the right to write to this frame from what all pairs keep. None gives it where the frame is listed as barred.
    fn bar_frame(&self, ram: &mut Ram, frame: u32)
        requires stands { ∥ IsStanding self.now ram.old ∥₁ }
        ensures shadows { AreShadows (pairs_of self.now) ram.new }
        ensures loses { AllLoseWrites (pairs_of self.now) ram.old ram.new frame }
        ensures frames { frames_of (pairs_of self.now) ram.new ≡ frames_of (pairs_of self.now) ram.old }
        ensures memory { Writes (frames_of (pairs_of self.now) ram.old) ram.old ram.new }
    {
        if self.barred.has(frame) {
            return;
        }
        self.present.shadow.bar(ram, frame);
        bar_all(&self.others, ram, frame);
    }
}

impl Roots {
    ghost use Rattle.shadow_cache.specs.Roots.{pairs_of, IsStanding};
    ghost use Rattle.shadow_cache.specs.After.{slots_of, directory_of, OpensIn, KeepsIn, noted_in, written_in, emptied};
    ghost use Rattle.shadow_cache.specs.Called.{BarsSlots, Frees, GoesOn, KeepsPool, KeepsSlots, SamePairs};
    ghost use Rattle.shadow_cache.specs.declared.call_lists.RootsCall.TheVariants.{Shared};
    ghost use Rattle.shadow_tables.specs.declared.calls.Call.TheVariants.{Fill, DropPage, DropDir, DropAll, Note, Written};

    /// Drops the page in the present pair.
    pub fn drop_page(&mut self, ram: &mut Ram, page: u32)
        requires stands { ∥ IsStanding self.old ram.old ∥₁ }
        requires page { page < 2 ^ 20 }
        ensures same { SamePairs (pairs_of self.old) (pairs_of self.new) ram.old ram.new }
        ensures stands { ∥ IsStanding self.new ram.new ∥₁ }
        ensures turns { Turns (slots_of (pairs_of self.old) ram.old) (slots_of (pairs_of self.new) ram.new) page None }
        ensures tables { KeepsIn (pairs_of self.old) ram.old ram.new }
        ensures entries { entries_of (slots_of (pairs_of self.new) ram.new)
            ≡ remove (entries_of (slots_of (pairs_of self.old) ram.old)) page }
        ensures frames { frames_of (pairs_of self.new) ram.new ≡ frames_of (pairs_of self.old) ram.old }
        ensures memory { Writes (frames_of (pairs_of self.old) ram.old) ram.old ram.new }
        ensures moves { KeepsPool (pairs_of self.old) (pairs_of self.new) ram.old ram.new }
        ensures told { GoesOn (Shared (DropPage page)) (pairs_of self.old) (pairs_of self.new) ram.old ram.new }
    {
        let mut shadow = self.present.shadow;
        shadow.drop_page(ram, page);
    }

    /// Drops every page of a directory index in the present pair.
    pub fn drop_dir(&mut self, ram: &mut Ram, index: u32)
        requires stands { ∥ IsStanding self.old ram.old ∥₁ }
        requires index { index < 1024 }
        ensures same { SamePairs (pairs_of self.old) (pairs_of self.new) ram.old ram.new }
        ensures stands { ∥ IsStanding self.new ram.new ∥₁ }
        ensures loses { LosesDir (slots_of (pairs_of self.old) ram.old) (slots_of (pairs_of self.new) ram.new) index }
        ensures tables { KeepsIn (pairs_of self.old) ram.old ram.new }
        ensures entries { entries_of (slots_of (pairs_of self.new) ram.new)
            ≡ without_dir (entries_of (slots_of (pairs_of self.old) ram.old)) index }
        ensures frames { frames_of (pairs_of self.new) ram.new ≡ frames_of (pairs_of self.old) ram.old }
        ensures memory { Writes (frames_of (pairs_of self.old) ram.old) ram.old ram.new }
        ensures moves { KeepsPool (pairs_of self.old) (pairs_of self.new) ram.old ram.new }
        ensures told { GoesOn (Shared (DropDir index)) (pairs_of self.old) (pairs_of self.new) ram.old ram.new }
    {
        let mut shadow = self.present.shadow;
        shadow.drop_dir(ram, index);
    }

    /// A directory index, this one or a later one, before which the present pair keeps no page of another; 1,024 where there is
    /// none.
    pub fn next_opened(&self, ram: &Ram, from: u32) -> u32
        requires stands { ∥ IsStanding self.now ram.now ∥₁ }
        requires from { from ≤ 1024 }
        ensures behind { from ≤ result }
        ensures within { result ≤ 1024 }
        ensures none { (page : ℕ) → page < 2 ^ 20 → 1024 * from ≤ page → page < 1024 * result
            → slots_of (pairs_of self.now) ram.now page ≡ None }
    {
        self.present.shadow.next_opened(ram, from)
    }

    /// Fills the page in the present pair, without the right to write where the tables of any pair were read from its
    /// frame.
    pub fn fill(&mut self, ram: &mut Ram, pool: &mut Pool, side: Side, entry: Entry, wp: bool)
        requires stands { ∥ IsStanding self.old ram.old ∥₁ }
        requires owns { Owns pool.old ram.old (frames_of (pairs_of self.old) ram.old) }
        requires free { 1 ≤ length (free_list pool.old ram.old) }
        requires fits { (entry.page < 2 ^ 20) × (entry.frame < 2 ^ 20) }
        ensures same { SamePairs (pairs_of self.old) (pairs_of self.new) ram.old ram.new }
        ensures stands { ∥ IsStanding self.new ram.new ∥₁ }
        ensures fills { FillsSlot (tables_of (pairs_of self.old)) side entry wp
            (slots_of (pairs_of self.old) ram.old) (slots_of (pairs_of self.new) ram.new) }
        ensures table { OpensIn (pairs_of self.old) ram.old ram.new side (entry.page / 1024) }
        ensures one { length (free_list pool.old ram.old) ≤ length (free_list pool.new ram.new) + 1 }
        ensures owns { Owns pool.new ram.new (frames_of (pairs_of self.new) ram.new) }
        ensures moves { Moves pool.old pool.new ram.old ram.new
            (frames_of (pairs_of self.old) ram.old) (frames_of (pairs_of self.new) ram.new) }
        ensures told { GoesOn (Shared (Fill side entry wp)) (pairs_of self.old) (pairs_of self.new) ram.old ram.new }
    {
        let barred = self.is_write_protected(entry.frame);
        let mut shadow = self.present.shadow;
        shadow.hold(ram, pool, side, entry, wp, barred);
        let writes = is_writable(side, &entry, wp, barred);
        self.barred.remove_if(entry.frame, writes);
    }

    /// All other pairs leave, and the present one is as new.
    pub fn drop_all(&mut self, ram: &mut Ram, pool: &mut Pool)
        requires stands { ∥ IsStanding self.old ram.old ∥₁ }
        requires owns { Owns pool.old ram.old (frames_of (pairs_of self.old) ram.old) }
        ensures pairs { pairs_of self.new ≡ emptied (pairs_of self.old) }
        ensures stands { ∥ IsStanding self.new ram.new ∥₁ }
        ensures none { (page : ℕ) → page < 2 ^ 20 → slots_of (pairs_of self.new) ram.new page ≡ None }
        ensures entries { entries_of (slots_of (pairs_of self.new) ram.new) ≡ empty }
        ensures write_protected { ArePart (tables_of (pairs_of self.new)) (tables_of (pairs_of self.old)) }
        ensures roots { (side : Side) → directory_of (pairs_of self.new) side ≡ directory_of (pairs_of self.old) side }
        ensures two { length (frames_of (pairs_of self.new) ram.new) ≡ 2 }
        ensures owns { Owns pool.new ram.new (frames_of (pairs_of self.new) ram.new) }
        ensures moves { Moves pool.old pool.new ram.old ram.new
            (frames_of (pairs_of self.old) ram.old) (frames_of (pairs_of self.new) ram.new) }
        ensures told { GoesOn (Shared DropAll) (pairs_of self.old) (pairs_of self.new) ram.old ram.new }
    {
        leave_all(&mut self.others, ram, pool);
        let mut shadow = self.present.shadow;
        shadow.drop_all(ram, pool);
        self.present.renew();
    }

    /// The tables of the present pair were read from this frame. No pair lets a write pass to it any more.
    pub fn note(&mut self, ram: &mut Ram, frame: u32)
        requires stands { ∥ IsStanding self.old ram.old ∥₁ }
        requires frame { frame < 16384 }
        ensures pairs { pairs_of self.new ≡ noted_in (pairs_of self.old) frame }
        ensures loses { AllLoseWrites (pairs_of self.old) ram.old ram.new frame }
        ensures stands { ∥ IsStanding self.new ram.new ∥₁ }
        ensures bars { BarsSlots (pairs_of self.old) (pairs_of self.new) ram.old ram.new }
        ensures write_protected { ArePart (tables_of (pairs_of self.new)) (frame ∷ (tables_of (pairs_of self.old))) }
        ensures roots { (side : Side) → directory_of (pairs_of self.new) side ≡ directory_of (pairs_of self.old) side }
        ensures frames { frames_of (pairs_of self.new) ram.new ≡ frames_of (pairs_of self.old) ram.old }
        ensures memory { Writes (frames_of (pairs_of self.old) ram.old) ram.old ram.new }
        ensures moves { KeepsPool (pairs_of self.old) (pairs_of self.new) ram.old ram.new }
        ensures told { GoesOn (Shared (Note frame)) (pairs_of self.old) (pairs_of self.new) ram.old ram.new }
    {
        self.bar_frame(ram, frame);
        self.present.note(frame);
        self.barred.add(frame);
    }

    /// A byte of this frame was written, or is about to be. Each other pair whose tables were read from it leaves, and the
    /// present one is marked.
    pub fn written(&mut self, ram: &mut Ram, pool: &mut Pool, frame: u32)
        requires stands { ∥ IsStanding self.old ram.old ∥₁ }
        requires owns { Owns pool.old ram.old (frames_of (pairs_of self.old) ram.old) }
        ensures pairs { pairs_of self.new ≡ written_in (pairs_of self.old) frame }
        ensures kept { AreKept (pairs_of self.new) ram.old ram.new }
        ensures stands { ∥ IsStanding self.new ram.new ∥₁ }
        ensures slots { KeepsSlots (pairs_of self.old) (pairs_of self.new) ram.old ram.new }
        ensures frees { Frees frame (pairs_of self.old) (pairs_of self.new) }
        ensures roots { (side : Side) → directory_of (pairs_of self.new) side ≡ directory_of (pairs_of self.old) side }
        ensures fewer { length (free_list pool.old ram.old) ≤ length (free_list pool.new ram.new) }
        ensures owns { Owns pool.new ram.new (frames_of (pairs_of self.new) ram.new) }
        ensures moves { Moves pool.old pool.new ram.old ram.new
            (frames_of (pairs_of self.old) ram.old) (frames_of (pairs_of self.new) ram.new) }
        ensures told { GoesOn (Shared (Written frame)) (pairs_of self.old) (pairs_of self.new) ram.old ram.new }
    {
        leave_readers(&mut self.others, ram, pool, frame);
        self.present.write(frame);
    }
}

/// A fill gives the right to write.
fn is_writable(side: Side, entry: &Entry, wp: bool, barred: bool) -> bool
    requires fits { (entry.now.page < 2 ^ 20) × (entry.now.frame < 2 ^ 20) }
    ensures { result ≡ (not barred && permits side entry.now true wp) }
{
    !barred && permits(side, entry, true, wp)
}

impl Shadows for Roots {
    ghost use Rattle.shadow_cache.specs.Roots.{pairs_of, IsStanding};
    ghost use Rattle.shadow_cache.specs.Laws as laws;
    ghost use Rattle.shadow_cache.specs.Standing as standing;
    ghost use Rattle.shadow_cache.specs.OtherRoots.{other_roots_of};
    ghost use Rattle.shadow_cache.specs.Pairs.{reads};
    ghost use Rattle.std.specs.Prelude.{refl};
    ghost use Rattle.shadow_tables.specs.Seen.{seen_of};
    ghost use Rattle.shadow_cache.specs.Opening.{AllOpenedOnly};

    ghost stands = { λ r m. IsStanding r m };

    ghost frames = { λ r m. frames_of (pairs_of r) m };

    ghost write_protected = { λ r. tables_of (pairs_of r) };

    ghost read_from = { λ r f. reads r.present f };

    ghost stale = { λ r. r.present.stale };

    ghost cr3 = { λ r. Some r.present.cr3 };

    ghost other_roots = { λ r m. other_roots_of r.others m };

    ghost has_tables_under = { λ r m indices. AllOpenedOnly indices (pairs_of r) m };

    ghost slots = { λ r m page. slot_at r.present.shadow m page };

    ghost sight = { λ r m. seen_of (slot_at r.present.shadow m) (reads r.present) r.present.stale (Some r.present.cr3)
        (other_roots_of r.others m) };

    ghost directory = { λ r side. root_of r.present.shadow side };

    ghost seen = { λ r m. refl };

    ghost protected = { λ r m frame. laws.protects-is r.present r.others m (slot_at r.present.shadow m) frame };

    ghost holds = { λ r m h. laws.lies (pairs_of r) m (standing.roots_in r m h) };

    ghost two = { λ r m h. laws.two r.present r.others m };

    ghost walked = { λ r m side page f h l i. laws.walked r.present r.others m side page f (standing.roots_in r m h) l i };

    ghost host = { λ r m n side page write h e l. laws.host r.present r.others m n side page write (standing.roots_in r m h) e l };

    ghost fits = { λ r m page slot h l e. laws.fits r.present r.others m page slot (standing.roots_in r m h) l e };

    ghost barred = { λ r m page slot h l e t. laws.barred r.present r.others m page slot (standing.roots_in r m h) l e t };

    ghost other_roots_fit = { λ r m h. laws.other_roots-fit r.present r.others m (standing.roots_in r m h) };

    ghost other_roots_barred = { λ r m h. laws.other_roots-barred r.present r.others m (standing.roots_in r m h) };

    ghost read_from_is_protected = { λ r frame unmarked n. laws.read_from-write_protected r.present r.others frame n };

    ghost other_roots_protected = { λ r m. laws.other_roots-write_protected r.present r.others m };

    ghost stays = { λ r m m' h e. standing.stays_in r m m' h e };

    ghost same_frames = { λ r m m' h e. standing.frames_in r m m' h e };

    ghost same_slots = { λ r m m' h e. standing.slots_in r m m' h e };

    ghost same_other_roots = { λ r m m' h e. standing.other_roots_in r m m' h e };

    ghost same_tables_under = { λ r m m' indices h e o. laws.same-has_tables_under (pairs_of r) m m' indices e o };

    ghost wider = { λ r m indices more w o. laws.wider-has_tables_under (pairs_of r) m indices more w o };

    fn root(&self, side: Side) -> u32 {
        self.present.shadow.root(side)
    }

    fn kept(&self, ram: &Ram, page: u32) -> Option<Entry> {
        self.present.shadow.kept(ram, page)
    }

    fn adequate(&self, ram: &Ram, side: Side, page: u32, write: bool) -> bool {
        self.present.shadow.adequate(ram, side, page, write)
    }

    fn drop_page(&mut self, ram: &mut Ram, page: u32) {
        Roots::drop_page(self, ram, page);
    }

    fn drop_dir(&mut self, ram: &mut Ram, index: u32) {
        Roots::drop_dir(self, ram, index);
    }

    fn fill(&mut self, ram: &mut Ram, pool: &mut Pool, side: Side, entry: Entry, wp: bool) {
        Roots::fill(self, ram, pool, side, entry, wp);
    }

    fn drop_all(&mut self, ram: &mut Ram, pool: &mut Pool) {
        Roots::drop_all(self, ram, pool);
    }

    fn note(&mut self, ram: &mut Ram, frame: u32) {
        Roots::note(self, ram, frame);
    }

    fn written(&mut self, ram: &mut Ram, pool: &mut Pool, frame: u32) {
        Roots::written(self, ram, pool, frame);
    }
}
