//! Which of a step's pages a view may show.

ghost use Rattle.std.specs.Prelude.{◌≡◌, ℕ, ◌+◌, ◌≤◌, ◌&&◌, length, true, false, nat_le, nat_lt};
ghost use Rattle.std.specs.FinMap.{get};
ghost use Rattle.std.specs.Option.{ForSome};
ghost use Rattle.paging.specs.declared.entry.Entry.{Entry as Translation};
ghost use Rattle.paging.specs.Uses.{is_text, is_given};
ghost use Rattle.image_check.specs.Image.{Image};
ghost use Rattle.machine_model.specs.State.{rules_over};
ghost use Rattle.machine_model.specs.UsedPages.{may_use};
ghost use Rattle.image_load.specs.Boot.{text_pages};
ghost use Rattle.shadow_tables.specs.Entries.{entries_of};
ghost use Rattle.guest_ram.specs.Among.{is_among};
ghost use Rattle.shadow_tables.specs.Slots.{is_user};
ghost use Rattle.step_mem.specs.Changes.{AreToldIn, changed};
ghost use Rattle.native_steps.specs.Lends.{IsOpen};
ghost use Rattle.wedge_mem.specs.Settled.{pages_of};
ghost use Rattle.wedge_step.specs.Opened.{is_entry_open};
ghost use Rattle.wedge_step.specs.Standing.{is_kernel};

use guest_ram::Ram;
use ia32_types::{DATA_PAGE, TEXT_FRAME};
use paging::Entry;
use shadow_tables::{Shadows, Side};
use step_mem::{StepState, is_loaded, lies_in};
use wedge_mem::entry_of;

/// The frame is one of so many that hold text.
pub(crate) fn is_text(count: u32, frame: u32) -> bool
    ensures { result ≡ is_text (rules_over count) frame }
{
    lies_in(frame, TEXT_FRAME, count)
}

/// The frame is the one that the loader gave this page of the text window, of so many.
pub(crate) fn is_given(count: u32, page: u32, frame: u32) -> bool
    ensures { result ≡ is_given (rules_over count) page frame }
{
    is_loaded(TEXT_FRAME, count, page, frame)
}

/// The view of this side may show the page, where so many frames hold text.
fn is_open(count: u32, side: Side, page: u32, frame: u32) -> bool
    ensures { result ≡ may_use (rules_over count) (is_user side) page frame }
{
    match side {
        Side::User => !is_text(count, frame),
        Side::Kernel => {
            is_given(count, page, frame) || (page >= DATA_PAGE && !is_text(count, frame))
        }
    }
}

fn is_entry_open(count: u32, side: Side, entry: Option<Entry>) -> bool
    ensures { result ≡ is_entry_open count side entry }
{
    match entry {
        None => true,
        Some(entry) => is_open(count, side, entry.page, entry.frame),
    }
}

/// The view of this side may show every page that the step went through or changed. Each that it changed is one that it
/// went through.
pub fn are_open<S: Shadows>(
    shadows: &S,
    ram: &Ram,
    state: &StepState,
    side: Side,
    count: u32,
) -> bool
    requires stands { ∥ S.stands shadows.now ram.now ∥₁ }
    requires told { AreToldIn state.now.visited state.now.changes }
    ensures opened { result ≡ true → (page : ℕ) → is_among page (pages_of state.now.visited state.now.changes) ≡ true
        → is_entry_open count side (get (changed (entries_of (S.slots shadows.now ram.now)) state.now.changes) page) ≡ true }
    ensures barred { result ≡ false → (page : ℕ) × (is_among page (pages_of state.now.visited state.now.changes) ≡ true)
        × (is_entry_open count side (get (changed (entries_of (S.slots shadows.now ram.now)) state.now.changes) page) ≡ false) }
{
    for page in state.visited.as_slice() {
        if !is_entry_open(count, side, entry_of(shadows, ram, &state.changes, *page)) {
            return false;
        }
    }
    true
}
