//! Filling the pages of a step.

ghost use Rattle.std.specs.Prelude.{◌≡◌, ◌+◌, ◌≤◌, ◌<◌, ◌^◌, ◌&&◌, not, length, Some, IfSome, if◌then◌else◌};
ghost use Rattle.std.specs.FinMap.{get};
ghost use Rattle.frame_pool.specs.Pool.{free_list};
ghost use Rattle.frame_pool.specs.Held.{Owns, Moves};
ghost use Rattle.guest_ram.specs.Among.{is_among};
ghost use Rattle.shadow_tables.specs.Slots.{Turns, entry_in};
ghost use Rattle.step_mem.specs.Changes.{AreOfPages, AreWithin};
ghost use Rattle.wedge_mem.specs.Seen.{KeepsRest, OpensFor, OpensUnder, set_after};
ghost use Rattle.wedge_mem.specs.Settled.{Fills, FillsLast, filled_by, fills_at, has_entry, is_due, refilled, serves, used};

use crate::pages::is_among;
use frame_pool::Pool;
use guest_ram::Ram;
use ia32_types::PAGES;
use paging::Entry;
use shadow_tables::{Shadows, Side, permits};
use step_mem::{Change, last_change};

/// What is kept of the entry's page lets the host do on that side what the entry lets it do there, which is to read at least.
fn serves<S: Shadows>(shadows: &S, ram: &Ram, side: Side, wp: bool, entry: &Entry) -> bool
    requires stands { ∥ S.stands shadows.now ram.now ∥₁ }
    requires page { entry.now.page < 2 ^ 20 }
    requires frame { entry.now.frame < 2 ^ 20 }
    requires kept { entry_in (S.slots shadows.now ram.now entry.now.page) ≡ Some entry.now }
    ensures { result ≡ serves side wp (S.slots shadows.now ram.now entry.now.page) }
{
    if !permits(side, entry, false, wp) || !shadows.adequate(ram, side, entry.page, false) {
        return false;
    }
    let writes = shadows.adequate(ram, side, entry.page, true);
    if permits(side, entry, true, wp) {
        writes
    } else {
        !writes
    }
}

/// What is kept of the page serves.
fn is_served<S: Shadows>(
    shadows: &S,
    ram: &Ram,
    side: Side,
    wp: bool,
    page: u32,
    entry: Option<Entry>,
) -> bool
    requires stands { ∥ S.stands shadows.now ram.now ∥₁ }
    requires page { page < 2 ^ 20 }
    requires kept { entry_in (S.slots shadows.now ram.now page) ≡ entry }
    requires fits { IfSome entry (λ e. (e.page ≡ page) × (e.frame < 2 ^ 20)) }
    ensures { result ≡ serves side wp (S.slots shadows.now ram.now page) }
{
    match entry {
        Some(entry) => serves(shadows, ram, side, wp, &entry),
        None => false,
    }
}

/// Fills a page from its entry, or drops it where it has none.
fn fill_page<S: Shadows>(
    shadows: &mut S,
    ram: &mut Ram,
    pool: &mut Pool,
    side: Side,
    wp: bool,
    page: u32,
    entry: Option<Entry>,
)
    requires stands { ∥ S.stands shadows.old ram.old ∥₁ }
    requires owns { Owns pool.old ram.old (S.frames shadows.old ram.old) }
    requires page { page < 2 ^ 20 }
    requires fits { IfSome entry (λ e. (e.page ≡ page) × (e.frame < 2 ^ 20)) }
    requires free { (if has_entry entry then 1 else 0) ≤ length (free_list pool.old ram.old) }
    ensures stands { ∥ S.stands shadows.new ram.new ∥₁ }
    ensures turns { Turns (S.slots shadows.old ram.old) (S.slots shadows.new ram.new) page
        (filled_by side wp (S.write_protected shadows.old) entry) }
    ensures rest { KeepsRest S.Shadows shadows.old shadows.new ram.old ram.new }
    ensures has_tables_under { OpensUnder S.Shadows page shadows.old shadows.new ram.old ram.new }
    ensures left { length (free_list pool.old ram.old) ≤ length (free_list pool.new ram.new) + (if has_entry entry then 1 else 0) }
    ensures moves { Moves pool.old pool.new ram.old ram.new (S.frames shadows.old ram.old) (S.frames shadows.new ram.new) }
{
    match entry {
        Some(entry) => shadows.fill(ram, pool, side, entry, wp),
        None => shadows.drop_page(ram, page),
    }
}

/// Fills a page again from the entry that is kept of it, unless that serves. Answers whether it was filled.
fn fill_again<S: Shadows>(
    shadows: &mut S,
    ram: &mut Ram,
    pool: &mut Pool,
    side: Side,
    wp: bool,
    page: u32,
) -> bool
    requires stands { ∥ S.stands shadows.old ram.old ∥₁ }
    requires owns { Owns pool.old ram.old (S.frames shadows.old ram.old) }
    requires page { page < 2 ^ 20 }
    requires free { (if has_entry (entry_in (S.slots shadows.old ram.old page)) then 1 else 0) ≤ length (free_list pool.old ram.old) }
    ensures stands { ∥ S.stands shadows.new ram.new ∥₁ }
    ensures turns { Turns (S.slots shadows.old ram.old) (S.slots shadows.new ram.new) page
        (filled_by side wp (S.write_protected shadows.old) (entry_in (S.slots shadows.old ram.old page))) }
    ensures rest { KeepsRest S.Shadows shadows.old shadows.new ram.old ram.new }
    ensures has_tables_under { OpensUnder S.Shadows page shadows.old shadows.new ram.old ram.new }
    ensures left { length (free_list pool.old ram.old)
        ≤ length (free_list pool.new ram.new) + (if has_entry (entry_in (S.slots shadows.old ram.old page)) then 1 else 0) }
    ensures moves { Moves pool.old pool.new ram.old ram.new (S.frames shadows.old ram.old) (S.frames shadows.new ram.new) }
    ensures filled { result ≡ (has_entry (entry_in (S.slots shadows.old ram.old page))
        && not (serves side wp (S.slots shadows.old ram.old page))) }
{
    let entry = shadows.kept(ram, page);
    if is_served(shadows, ram, side, wp, page, entry) {
        return false;
    }
    fill_page(shadows, ram, pool, side, wp, page, entry);
    entry.is_some()
}

/// Fills a page from the entry that the step left it, or drops it where it has none, unless the page comes again or what is
/// kept of it serves. Answers whether it was filled.
fn fill_last<S: Shadows>(
    shadows: &mut S,
    ram: &mut Ram,
    pool: &mut Pool,
    changes: &[Change],
    side: Side,
    wp: bool,
    page: u32,
    later: &[u32],
) -> bool
    requires stands { ∥ S.stands shadows.old ram.old ∥₁ }
    requires owns { Owns pool.old ram.old (S.frames shadows.old ram.old) }
    requires fits { IfSome (get (set_after S.Shadows shadows.old ram.old changes.now) page)
        (λ e. (e.page ≡ page) × (e.frame < 2 ^ 20)) }
    requires pages { AreOfPages changes.now }
    requires free { fills_at (set_after S.Shadows shadows.old ram.old changes.now) page later.now ≤ length (free_list pool.old ram.old) }
    ensures stands { ∥ S.stands shadows.new ram.new ∥₁ }
    ensures slots { FillsLast (S.slots shadows.old ram.old) (S.slots shadows.new ram.new)
        (set_after S.Shadows shadows.old ram.old changes.now) page later.now side wp (S.write_protected shadows.old) }
    ensures rest { KeepsRest S.Shadows shadows.old shadows.new ram.old ram.new }
    ensures has_tables_under { OpensUnder S.Shadows page shadows.old shadows.new ram.old ram.new }
    ensures left { length (free_list pool.old ram.old)
        ≤ length (free_list pool.new ram.new) + fills_at (set_after S.Shadows shadows.old ram.old changes.now) page later.now }
    ensures moves { Moves pool.old pool.new ram.old ram.new (S.frames shadows.old ram.old) (S.frames shadows.new ram.new) }
    ensures filled { result ≡ ((has_entry (get (set_after S.Shadows shadows.old ram.old changes.now) page) && not (is_among page later.now))
        && is_due (S.slots shadows.old ram.old) changes.now side wp page) }
{
    if page >= PAGES || is_among(page, later) {
        return false;
    }
    match last_change(changes, page) {
        Some(entry) => {
            fill_page(shadows, ram, pool, side, wp, page, entry);
            entry.is_some()
        }
        None => fill_again(shadows, ram, pool, side, wp, page),
    }
}

/// Fills each page from the entry that the step left it, or drops it where it has none, but where what is kept serves.
/// Answers how many were filled.
pub fn fill_pages<S: Shadows>(
    shadows: &mut S,
    ram: &mut Ram,
    pool: &mut Pool,
    changes: &[Change],
    side: Side,
    wp: bool,
    pages: &[u32],
) -> u32
    requires stands { ∥ S.stands shadows.old ram.old ∥₁ }
    requires owns { Owns pool.old ram.old (S.frames shadows.old ram.old) }
    requires within { AreWithin PAGES (set_after S.Shadows shadows.old ram.old changes.now) }
    requires pages { AreOfPages changes.now }
    requires free { length (used (set_after S.Shadows shadows.old ram.old changes.now) pages.now) ≤ length (free_list pool.old ram.old) }
    requires few { length pages.now ≤ 128 }
    ensures stands { ∥ S.stands shadows.new ram.new ∥₁ }
    ensures fills { Fills (S.slots shadows.old ram.old) (S.slots shadows.new ram.new)
        (set_after S.Shadows shadows.old ram.old changes.now) pages.now side wp (S.write_protected shadows.old) }
    ensures rest { KeepsRest S.Shadows shadows.old shadows.new ram.old ram.new }
    ensures has_tables_under { OpensFor S.Shadows pages.now shadows.old shadows.new ram.old ram.new }
    ensures moves { Moves pool.old pool.new ram.old ram.new (S.frames shadows.old ram.old) (S.frames shadows.new ram.new) }
    ensures filled { result ≡ length (refilled (S.slots shadows.old ram.old)
        (set_after S.Shadows shadows.old ram.old changes.now) changes.now side wp pages.now) }
{
    let mut count = 0;
    for i in 0..pages.len() {
        let filled = fill_last(
            shadows,
            ram,
            pool,
            changes,
            side,
            wp,
            pages[i],
            &pages[i + 1..],
        );
        count += u32::from(filled);
    }
    count
}
