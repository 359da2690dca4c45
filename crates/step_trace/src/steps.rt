//! Steps with their lines.

ghost use Rattle.std.specs.Prelude.{◌≡◌, ◌≤◌, ◌^◌, ℕ, List, Option, true, OnOk, OnErr};
ghost use Rattle.board.specs.ScriptForm.{is_script};
ghost use Rattle.image_check.specs.Image.{Image};
ghost use Rattle.pv_io.specs.Causes.{Rose};
ghost use Rattle.bare_machine.specs.Machine.{state_of, IsKept};
ghost use Rattle.bare_machine.specs.Settings.{bare};
ghost use Rattle.look_words.specs.View.{only_view};
ghost use Rattle.step_trace.specs.Answers.{HasPut, PausesWith};
ghost use Rattle.step_trace.specs.Traces.{Trace, trace_to};

use crate::step::step_on;
use bare_machine::{Bare, StepRoom};
use board::Script;
use look_words::Only;
use pv_io::{Failed, Sink};
use run_trace::Pause;
use xlate_buffer::Cache;

/// Steps up to a count of steps, or to a stop, with their lines.
pub fn steps_on<C: Cache, O: Sink>(
    machine: &mut Bare<C>,
    script: &Script,
    n: u64,
    from: u64,
    only: &Only,
    out: &mut O,
) -> Result<Pause, Failed>
    requires script { is_script script.now.list ≡ true }
    requires kept { IsKept machine.old.frames (state_of C.entries machine.old) }
    requires begun { machine.old.step ≤ n }
    requires bound { n ≤ 2 ^ 40 }
    ensures pauses { (image : Image) (whole : Trace) (told : Option (List ℕ))
        → HasPut whole (trace_to C.keeping (bare image script.now.list machine.old.frames) n from (only_view only.now)
        (state_of C.entries machine.old)) told (O.taken out.old)
        → PausesWith whole machine.new.step told (O.taken out.new) result }
    ensures kept { OnOk result (O.faults out.new ≡ O.faults out.old) }
    ensures cause { OnErr result (Rose (O.faults out.old) (O.faults out.new)) }
{
    let mut room = StepRoom::new(machine.cpu());
    while machine.step() < n {
        match step_on(machine, script, &mut room, from, only, out) {
            Err(failed) => return Err(failed),
            Ok(pause) => match pause {
                Pause::Stopped(stop) => return Ok(Pause::Stopped(stop)),
                Pause::Reached => {}
            },
        }
    }
    Ok(Pause::Reached)
}
