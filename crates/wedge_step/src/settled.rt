//! Whether a step left anything to settle.

ghost use Rattle.std.specs.Prelude.{◌≡◌, ◌&&◌, ◌<◌, ◌^◌, nat_lt, true, length, Some, IfSome};
ghost use Rattle.shadow_tables.specs.Slots.{entry_in};
ghost use Rattle.wedge_mem.specs.Settled.{serves};
ghost use Rattle.wedge_step.specs.AtRest.{IsAtRest};

use guest_ram::Ram;
use ia32_types::PAGES;
use paging::Entry;
use shadow_tables::{Shadows, Side, permits};
use step_mem::StepState;

/// The step changed no translation, read no frame as a table, and wrote none.
#[inline(always)]
fn is_unchanged(state: &StepState) -> bool
    ensures changes { result ≡ true → length state.now.changes ≡ 0 }
    ensures tables { result ≡ true → length state.now.tables ≡ 0 }
    ensures wrote { result ≡ true → length state.now.wrote ≡ 0 }
{
    state.changes.as_slice().is_empty()
        && state.tables.as_slice().is_empty()
        && state.wrote.as_slice().is_empty()
}

/// The page is one of the address space, and what is kept of it serves.
#[inline(always)]
fn is_held<S: Shadows>(shadows: &S, ram: &Ram, side: Side, wp: bool, page: u32) -> bool
    requires stands { ∥ S.stands shadows.now ram.now ∥₁ }
    ensures { result ≡ (nat_lt page (2 ^ 20) && serves side wp (S.slots shadows.now ram.now page)) }
{
    page < PAGES && is_page_served(shadows, ram, side, wp, page)
}

/// There is nothing to settle after a step: it changed no translation, read no frame as a table and wrote none, and what is
/// kept of each page that it went through serves on this side.
#[inline(always)]
pub fn is_settled<S: Shadows>(shadows: &S, ram: &Ram, state: &StepState, side: Side) -> bool
    requires stands { ∥ S.stands shadows.now ram.now ∥₁ }
    ensures { result ≡ true → IsAtRest (S.slots shadows.now ram.now) side state.now }
{
    if !is_unchanged(state) {
        return false;
    }
    for page in state.visited.as_slice() {
        if !is_held(shadows, ram, side, state.control.wp, *page) {
            return false;
        }
    }
    true
}

/// What is kept of the entry's page lets the host do on that side what the entry lets it do there, which is to read at least.
fn serves<S: Shadows>(shadows: &S, ram: &Ram, side: Side, wp: bool, entry: &Entry) -> bool
    requires stands { ∥ S.stands shadows.now ram.now ∥₁ }
    requires page { entry.now.page < 2 ^ 20 }
    requires frame { entry.now.frame < 2 ^ 20 }
    requires kept { entry_in (S.slots shadows.now ram.now entry.now.page) ≡ Some entry.now }
    ensures { result ≡ serves side wp (S.slots shadows.now ram.now entry.now.page) }
{
    if !permits(side, entry, false, wp) || !shadows.adequate(ram, side, entry.page, false) {
        return false;
    }
    let writes = shadows.adequate(ram, side, entry.page, true);
    if permits(side, entry, true, wp) {
        writes
    } else {
        !writes
    }
}

/// What is kept of the page serves.
#[inline(always)]
fn is_served<S: Shadows>(
    shadows: &S,
    ram: &Ram,
    side: Side,
    wp: bool,
    page: u32,
    entry: Option<Entry>,
) -> bool
    requires stands { ∥ S.stands shadows.now ram.now ∥₁ }
    requires page { page < 2 ^ 20 }
    requires kept { entry_in (S.slots shadows.now ram.now page) ≡ entry }
    requires fits { IfSome entry (λ e. (e.page ≡ page) × (e.frame < 2 ^ 20)) }
    ensures { result ≡ serves side wp (S.slots shadows.now ram.now page) }
{
    match entry {
        Some(entry) => serves(shadows, ram, side, wp, &entry),
        None => false,
    }
}

/// What is kept of the page serves: its entry is looked up.
#[inline(always)]
fn is_page_served<S: Shadows>(shadows: &S, ram: &Ram, side: Side, wp: bool, page: u32) -> bool
    requires stands { ∥ S.stands shadows.now ram.now ∥₁ }
    requires page { page < 2 ^ 20 }
    ensures { result ≡ serves side wp (S.slots shadows.now ram.now page) }
{
    is_served(shadows, ram, side, wp, page, shadows.kept(ram, page))
}
