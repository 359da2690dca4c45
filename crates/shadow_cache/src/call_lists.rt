//! Lists of calls, loads of CR3 among them.

ghost use Rattle.std.specs.Prelude.{◌≡◌, ℕ, ◌+◌, ◌≤◌, ◌<◌, ◌^◌, List, [], ◌∷◌, ◌++◌, length, take, drop, IsTrue, IfOk, OnErr};
ghost use Rattle.frame_pool.specs.Pool.{free_list, Stands};
ghost use Rattle.frame_pool.specs.Held.{Owns, Moves};
ghost use Rattle.shadow_tables.specs.Calls.{IsFit, fill_count};
ghost use Rattle.shadow_cache.specs.Pairs.{frames_of};
ghost use Rattle.shadow_cache.specs.Roots.{pairs_of, IsStanding};
ghost use Rattle.shadow_cache.specs.After.{slots_of};
ghost use Rattle.shadow_cache.specs.Past.{pairs_after};
ghost use Rattle.shadow_cache.specs.Replayed.{IsFitCall, AreFitCalls, need, BeginsBeyond, IsKeptAs, ArePasts, done_in, most_frames};
ghost use Rattle.shadow_cache.specs.Agreeing.{Agree};
ghost use Rattle.shadow_cache.specs.Called.{GoesOn};
ghost use Rattle.shadow_cache.specs.declared.call_lists.RootsCall.{RootsCall};
ghost use Rattle.shadow_cache.specs.declared.call_lists.RootsCall.TheVariants.{Shared};

use crate::roots::Roots;
use frame_pool::Pool;
use guest_ram::Ram;
use shadow_tables::Call;
use std::alloc::{AllocError, Global};

/// A call that changes what is kept or write-protected.
#[derive(Clone, Copy)]
pub enum RootsCall {
    /// One that all shadows have, on the present pair.
    Shared(Call),
    /// A load of CR3 with this value.
    Switch(u32),
}

/// Pairs after some calls of a list, and how many of them were done.
#[derive(Drop)]
pub struct Replayed {
    pub roots: Roots,
    pub count: usize,
}

/// Does a call that all shadows have, unless it is a fill and no frame is free. Then nothing changes.
fn apply_shared(roots: &mut Roots, ram: &mut Ram, pool: &mut Pool, call: Call) -> bool
    requires stands { ∥ IsStanding roots.old ram.old ∥₁ }
    requires owns { Owns pool.old ram.old (frames_of (pairs_of roots.old) ram.old) }
    requires fit { IsFit call }
    ensures stands { ∥ IsStanding roots.new ram.new ∥₁ }
    ensures moves { Moves pool.old pool.new ram.old ram.new
        (frames_of (pairs_of roots.old) ram.old) (frames_of (pairs_of roots.new) ram.new) }
    ensures undone { (IsTrue result → ⊥)
        → (pairs_of roots.new ≡ pairs_of roots.old) × (ram.new ≡ ram.old) × (length (free_list pool.new ram.new) < fill_count call) }
    ensures law { IsTrue result → GoesOn (Shared call) (pairs_of roots.old) (pairs_of roots.new) ram.old ram.new }
{
    match call {
        Call::Fill(side, entry, wp) => {
            if pool.free() == 0 {
                return false;
            }
            roots.fill(ram, pool, side, entry, wp);
        }
        Call::DropPage(page) => roots.drop_page(ram, page),
        Call::DropDir(index) => roots.drop_dir(ram, index),
        Call::DropAll => roots.drop_all(ram, pool),
        Call::Note(frame) => roots.note(ram, frame),
        Call::Written(frame) => roots.written(ram, pool, frame),
    }
    true
}

/// Does a call, unless too few frames are free for it. Then nothing changes.
fn apply(roots: &mut Roots, ram: &mut Ram, pool: &mut Pool, call: RootsCall) -> bool
    requires stands { ∥ IsStanding roots.old ram.old ∥₁ }
    requires owns { Owns pool.old ram.old (frames_of (pairs_of roots.old) ram.old) }
    requires fit { IsFitCall call }
    ensures stands { ∥ IsStanding roots.new ram.new ∥₁ }
    ensures moves { Moves pool.old pool.new ram.old ram.new
        (frames_of (pairs_of roots.old) ram.old) (frames_of (pairs_of roots.new) ram.new) }
    ensures undone { (IsTrue result → ⊥)
        → (pairs_of roots.new ≡ pairs_of roots.old) × (ram.new ≡ ram.old) × (length (free_list pool.new ram.new) < need call) }
    ensures law { IsTrue result → GoesOn call (pairs_of roots.old) (pairs_of roots.new) ram.old ram.new }
{
    match call {
        RootsCall::Shared(shared) => apply_shared(roots, ram, pool, shared),
        RootsCall::Switch(cr3) => {
            if pool.free() < 2 {
                return false;
            }
            roots.switch(ram, pool, cr3);
            true
        }
    }
}

/// Does the calls in order up to one for which too few frames are free, and returns how many were done.
fn follow(roots: &mut Roots, ram: &mut Ram, pool: &mut Pool, calls: &[RootsCall]) -> usize
    requires stands { ∥ IsStanding roots.old ram.old ∥₁ }
    requires owns { Owns pool.old ram.old (frames_of (pairs_of roots.old) ram.old) }
    requires fit { AreFitCalls calls.now }
    ensures stands { ∥ IsStanding roots.new ram.new ∥₁ }
    ensures moves { Moves pool.old pool.new ram.old ram.new
        (frames_of (pairs_of roots.old) ram.old) (frames_of (pairs_of roots.new) ram.new) }
    ensures some { result ≤ length calls.now }
    ensures stopped { result < length calls.now → BeginsBeyond (length (free_list pool.new ram.new)) (drop result calls.now) }
    ensures law { (value : ℕ) → Agree value [] (pairs_of roots.old) ram.old
        → Agree value (take result calls.now) (pairs_of roots.new) ram.new }
{
    let mut count = 0;
    for call in calls {
        if !apply(roots, ram, pool, *call) {
            return count;
        }
        count += 1;
    }
    count
}

/// `new` with this value, and then the calls in order, up to one for which too few frames are free. Each pair is then as
/// its past says, the present one first: an entry of it is that of the page's last fill in it, where no later drop there
/// took it away. A read is adequate exactly where this fill was on that side and lets it pass, and a write exactly where
/// it does too and no pair has had the entry's frame among its tables at that fill or since. All frames are free but those
/// of these pairs: a pair holds two, and at most one more for each directory index of a view under which pages were
/// filled in it.
pub fn replay(
    alloc: Global,
    ram: &mut Ram,
    pool: &mut Pool,
    cr3: u32,
    calls: &[RootsCall],
) -> Result<Replayed, AllocError>
    requires stands { Stands pool.old ram.old }
    requires free { 2 ≤ length (free_list pool.old ram.old) }
    requires fit { AreFitCalls calls.now }
    ensures refused { OnErr result ((pool.new ≡ pool.old) × (ram.new ≡ ram.old)) }
    ensures stands { IfOk result (λ r. ∥ IsStanding r.roots ram.new ∥₁) }
    ensures owns { IfOk result (λ r. Owns pool.new ram.new (frames_of (pairs_of r.roots) ram.new)) }
    ensures moves { IfOk result (λ r. Moves pool.old pool.new ram.old ram.new [] (frames_of (pairs_of r.roots) ram.new)) }
    ensures some { IfOk result (λ r. r.count ≤ length calls.now) }
    ensures stopped { IfOk result (λ r. r.count < length calls.now
        → BeginsBeyond (length (free_list pool.new ram.new)) (drop r.count calls.now)) }
    ensures frames { IfOk result (λ r. length (free_list pool.old ram.old)
        ≤ length (free_list pool.new ram.new) + most_frames (pairs_after cr3 (take r.count calls.now))) }
    ensures pairs { IfOk result (λ r. let done = take r.count calls.now in
        ArePasts cr3 done (pairs_after cr3 done) (pairs_of r.roots) ram.new) }
    ensures law { IfOk result (λ r. (page : ℕ) → page < 2 ^ 20
        → let done = take r.count calls.now in
        IsKeptAs cr3 done (done_in (pairs_after cr3 done)) page (slots_of (pairs_of r.roots) ram.new page)) }
{
    let mut roots = Roots::new(alloc, ram, pool, cr3)?;
    let count = follow(&mut roots, ram, pool, calls);
    Ok(Replayed { roots, count })
}
