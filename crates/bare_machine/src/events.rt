//! The events of a step, where there are any.

ghost use Rattle.std.specs.Prelude.{◌≡◌, ◌+◌, true};
ghost use Rattle.board.specs.Boards.{given};
ghost use Rattle.board.specs.ScriptForm.{is_script};
ghost use Rattle.bare_machine.specs.Events.{NoneComes};

use board::{Board, Script, steps_are_quiet};

/// Gives the board the events of a step. The script is searched only from the step on at which one may come next, or an
/// edge of the timer; that step is kept from one call to the next.
#[inline(always)]
pub fn begin(board: &mut Board, script: &Script, step: u64, next: &mut u64)
    requires script { is_script script.now.list ≡ true }
    requires none { NoneComes script.now.list step next.old }
    ensures given { board.new ≡ given board.old script.now.list step }
    ensures none { NoneComes script.now.list (step + 1) next.new }
{
    if step < *next {
        return;
    }
    steps_are_quiet();
    board.begin(script, step);
    *next = match board.next_event(script, step) {
        None => u64::MAX,
        Some(steps) => step.saturating_add(steps),
    };
}
