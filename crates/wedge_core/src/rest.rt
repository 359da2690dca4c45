//! A halted processor that waits.

ghost use Rattle.std.specs.Prelude.{◌≡◌, ℕ, ◌+◌, ◌-◌, ◌*◌, ◌/◌, ◌%◌, ◌==◌, ◌≤◌, ◌<◌, ◌^◌, List, true, false, None};
ghost use Rattle.board.specs.Boards.{with_timer_edge};
ghost use Rattle.board.specs.Quiet.{comes_within, event_within};
ghost use Rattle.board.specs.ScriptForm.{is_script};
ghost use Rattle.image_check.specs.Image.{Image};
ghost use Rattle.machine_model.specs.State.{wedge};
ghost use Rattle.machine_model.specs.Step.{interrupt_of};
ghost use Rattle.wedge_core.specs.Counts.{Counts};
ghost use Rattle.wedge_core.specs.Stepping.{Passes};
ghost use Rattle.wedge_step.specs.Standing.{state_of};

use board::Script;
use machine_model::halted_steps_rest;
use machine_step::resting_steps;
use shadow_tables::Shadows;
use wedge_step::Running;

/// Passes the steps in which a halted processor has nothing to do, up to the bound or to what can wake it, in one go.
#[inline(always)]
pub fn rest<S: Shadows + Drop>(running: &mut Running<S>, script: &Script, bound: u64)
    requires script { is_script script.now.list ≡ true }
    requires begun { 0 < running.old.step }
    requires within { running.old.step ≤ bound }
    requires bound { bound ≤ 2 ^ 40 }
    ensures passes { (image : Image) (memory : List ℕ) (counts : Counts)
        → Passes (wedge image script.now.list running.old.frames)
        (state_of S.Shadows (wedge image script.now.list running.old.frames) running.old memory)
        (state_of S.Shadows (wedge image script.now.list running.old.frames) running.new memory) counts counts }
    ensures same { running.new ≡ record running.old { board = running.new.board; step = running.new.step } }
    // Short of the bound it ends only where something reaches the board in the next step.
    ensures furthest { running.old.cpu.halted ≡ true → running.old.cpu.held ≡ false
        → interrupt_of running.old.cpu running.old.board ≡ None → running.new.step < bound
        → comes_within running.old.board script.now.list (running.old.step - 1) (running.new.step - running.old.step + 1) ≡ true }
    // An edge of the timer that doesn't wake the processor ends it nowhere.
    ensures past_edges { running.old.cpu.halted ≡ true → running.old.cpu.held ≡ false
        → interrupt_of running.old.cpu running.old.board ≡ None
        → interrupt_of running.old.cpu (with_timer_edge running.old.board) ≡ None → running.new.step < bound
        → event_within (running.old.step - 1) (running.new.step - running.old.step + 1) script.now.list ≡ true }
    ensures later { running.old.step ≤ running.new.step }
    ensures within { running.new.step ≤ bound }
{
    let most = bound - running.step;
    let k = resting_steps(&running.cpu, &running.board, script, running.step, most);
    if k > 0 {
        halted_steps_rest();
        running.board.advance(k);
        running.step += k;
    }
}
