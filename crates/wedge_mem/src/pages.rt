//! The pages of a step, and the entries that it left them.

ghost use Rattle.std.specs.Prelude.{◌≡◌, ◌+◌, ◌<◌, ◌≤◌, ◌^◌, ◌&&◌, length, not, None, true, false};
ghost use Rattle.std.specs.FinMap.{get};
ghost use Rattle.shadow_tables.specs.Entries.{entries_of};
ghost use Rattle.guest_ram.specs.Among.{is_among};
ghost use Rattle.step_mem.specs.Changes.{AreOfPages, AreToldIn};
ghost use Rattle.wedge_mem.specs.Seen.{set_after};
ghost use Rattle.wedge_mem.specs.Settled.{has_entry, pages_of, used};

use guest_ram::Ram;
use ia32_types::PAGES;
use paging::Entry;
use shadow_tables::Shadows;
use step_mem::{Changes, StepState, Visited, last_change};

/// The pages that a step went through, and those that it changed.
pub fn pages_of(state: &StepState) -> Visited
    requires { length state.now.visited + length state.now.changes ≤ 128 }
    ensures all { result ≡ pages_of state.now.visited state.now.changes }
    ensures pages { AreOfPages state.now.changes }
{
    let mut pages = state.visited.copied();
    for change in state.changes.as_slice() {
        pages.push(change.page());
    }
    pages
}

/// The page is one of these.
pub fn is_among(page: u32, pages: &[u32]) -> bool
    ensures { result ≡ is_among page pages.now }
{
    for other in pages {
        if page == *other {
            return true;
        }
    }
    false
}

/// The entry that the step left the page.
#[inline(always)]
pub fn entry_of<S: Shadows>(shadows: &S, ram: &Ram, changes: &Changes, page: u32) -> Option<Entry>
    requires { ∥ S.stands shadows.now ram.now ∥₁ }
    ensures { result ≡ get (set_after S.Shadows shadows.now ram.now changes.now) page }
{
    match last_change(changes.as_slice(), page) {
        Some(entry) => entry,
        None => kept(shadows, ram, page),
    }
}

fn kept<S: Shadows>(shadows: &S, ram: &Ram, page: u32) -> Option<Entry>
    requires { ∥ S.stands shadows.now ram.now ∥₁ }
    ensures { result ≡ get (entries_of (S.slots shadows.now ram.now)) page }
{
    if page >= PAGES {
        return None;
    }
    shadows.kept(ram, page)
}

/// The page has an entry, and isn't among the later ones.
fn is_used<S: Shadows>(shadows: &S, ram: &Ram, changes: &Changes, page: u32, later: &[u32]) -> bool
    requires { ∥ S.stands shadows.now ram.now ∥₁ }
    ensures { result ≡ has_entry (get (set_after S.Shadows shadows.now ram.now changes.now) page) && not (is_among page later.now) }
{
    entry_of(shadows, ram, changes, page).is_some() && !is_among(page, later)
}

/// How many of the pages have an entry, each counted once.
fn count_used<S: Shadows>(shadows: &S, ram: &Ram, changes: &Changes, pages: &[u32]) -> u32
    requires stands { ∥ S.stands shadows.now ram.now ∥₁ }
    requires few { length pages.now ≤ 128 }
    ensures { result ≡ length (used (set_after S.Shadows shadows.now ram.now changes.now) pages.now) }
{
    let mut count = 0;
    for i in 0..pages.len() {
        if is_used(shadows, ram, changes, pages[i], &pages[i + 1..]) {
            count += 1;
        }
    }
    count
}

/// How many entries the step used. The pages that it changed are some of those that it went through.
pub fn entries_used<S: Shadows>(shadows: &S, ram: &Ram, state: &StepState) -> u32
    requires stands { ∥ S.stands shadows.now ram.now ∥₁ }
    requires few { length state.now.visited ≤ 128 }
    requires told { AreToldIn state.now.visited state.now.changes }
    ensures { result ≡ length (used (set_after S.Shadows shadows.now ram.now state.now.changes)
        (pages_of state.now.visited state.now.changes)) }
{
    count_used(shadows, ram, &state.changes, state.visited.as_slice())
}

/// Fewer frames are free than the step used entries. It used no more than it went through pages, so they are counted only
/// where those may be too many.
pub fn lacks_frames<S: Shadows>(shadows: &S, ram: &Ram, state: &StepState, free: u32) -> bool
    requires stands { ∥ S.stands shadows.now ram.now ∥₁ }
    requires few { length state.now.visited ≤ 128 }
    requires told { AreToldIn state.now.visited state.now.changes }
    ensures lacks { result ≡ true → free < length (used (set_after S.Shadows shadows.now ram.now state.now.changes)
        (pages_of state.now.visited state.now.changes)) }
    ensures enough { result ≡ false → length (used (set_after S.Shadows shadows.now ram.now state.now.changes)
        (pages_of state.now.visited state.now.changes)) ≤ free }
{
    if state.visited.as_slice().len() <= free as usize {
        return false;
    }
    entries_used(shadows, ram, state) > free
}
