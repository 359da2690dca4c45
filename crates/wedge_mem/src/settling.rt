//! The end of a step: the shadows keep what the step left (shadow synchronisation).

ghost use Rattle.std.specs.Prelude.{◌≡◌, ◌*◌, length, take, IfSome};
ghost use Rattle.frame_pool.specs.Pool.{base_of, free_list};
ghost use Rattle.frame_pool.specs.Held.{Owns, Moves};
ghost use Rattle.shadow_tables.specs.Entries.{entries_of};
ghost use Rattle.shadow_tables.specs.declared.words.Side.{Side as View};
ghost use Rattle.step_mem.specs.Sound.{space_at};
ghost use Rattle.wedge_mem.specs.Finished.{IsSettled};
ghost use Rattle.wedge_mem.specs.Seen.{IsSoundBy, OpensFor, set_after};
ghost use Rattle.wedge_mem.specs.Settled.{HasRoom, IsFillCount, pages_of};

use crate::filling::fill_pages;
use crate::pages::lacks_frames;
use crate::telling::{note_tables, tell_written};
use frame_pool::Pool;
use guest_ram::Ram;
use shadow_tables::{Shadows, Side};
use step_mem::StepState;

/// Settles the shadows to the set that a step left: every page that the step went through is held with its entry on that
/// side, or dropped where it has none. It is filled only where the step changed its entry, or where what is kept doesn't
/// let the host do there all that the entry does. The frames that the step's walks read are noted before, and only then
/// those that it wrote are reported: the present tables are marked where one of them is both. What is kept for another value
/// of CR3 goes where the step wrote a frame of its tables. Answers how many pages were filled. None where fewer frames are
/// free than the pages have entries: all is dropped then.
pub fn settle<S: Shadows>(
    shadows: &mut S,
    ram: &mut Ram,
    pool: &mut Pool,
    state: &StepState,
    side: Side,
) -> Option<u32>
    requires sound { IsSoundBy S.Shadows shadows.old pool.old ram.old state.now }
    ensures stands { ∥ S.stands shadows.new ram.new ∥₁ }
    ensures owns { Owns pool.new ram.new (S.frames shadows.new ram.new) }
    ensures moves { Moves pool.old pool.new ram.old ram.new (S.frames shadows.old ram.old) (S.frames shadows.new ram.new) }
    ensures roots { (view : View) → S.directory shadows.new view ≡ S.directory shadows.old view }
    ensures room { HasRoom (set_after S.Shadows shadows.old ram.old state.now.changes) (pages_of state.now.visited state.now.changes)
        (length (free_list pool.old ram.old)) result }
    ensures count { IfSome result (λ n. IsFillCount (S.slots shadows.old ram.old)
        (set_after S.Shadows shadows.old ram.old state.now.changes) state.now.changes state.now.tables state.now.visited
        side state.now.control.wp n) }
    ensures settled { IsSettled S.Shadows shadows.old shadows.new ram.old ram.new
        (space_at (λ m. entries_of (S.slots shadows.old m)) ram.old state.now)
        (pages_of state.now.visited state.now.changes) side result }
    ensures has_tables_under { OpensFor S.Shadows (pages_of state.now.visited state.now.changes) shadows.old shadows.new ram.old ram.new }
    ensures guest { take (4096 * base_of pool.old) ram.new ≡ take (4096 * base_of pool.old) ram.old }
{
    let _len = ram.len();
    if lacks_frames(shadows, ram, state, pool.free()) {
        shadows.drop_all(ram, pool);
        return None;
    }
    note_tables(shadows, ram, state.tables.as_slice());
    tell_written(shadows, ram, pool, state.wrote.as_slice());
    let filled = fill_pages(
        shadows,
        ram,
        pool,
        state.changes.as_slice(),
        side,
        state.control.wp,
        state.visited.as_slice(),
    );
    Some(filled)
}
