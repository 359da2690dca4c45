//! A run goes on from a checkpoint on the bare machine, to its last line.

ghost use Rattle.std.specs.Prelude.{◌≡◌, ◌/◌, ◌≤◌, ◌^◌, length, true, IfOk};
ghost use Rattle.board.specs.ScriptForm.{is_script};
ghost use Rattle.image_check.specs.Image.{Image};
ghost use Rattle.bare_machine.specs.Answers.{WholeAs};
ghost use Rattle.bare_machine.specs.Settings.{bare};
ghost use Rattle.checkpoint.specs.InForm.{IsInForm};
ghost use Rattle.checkpoint.specs.Moved.{rested_from};

use crate::bare::bare_from;
use crate::state::State;
use bare_machine::run_on;
use board::Script;
use image_load::RunFault;
use pv_io::Sink;
use run_trace::Ended;
use xlate_buffer::Buffer;

/// Goes on from a checkpoint until `n` steps are done in all, or to a stop, and puts the text of that part of the run.
pub fn continue_bare<O: Sink>(
    state: State,
    script: &Script,
    n: u64,
    out: &mut O,
) -> Result<Ended, RunFault>
    requires form { IsInForm state }
    requires script { is_script script.now.list ≡ true }
    requires begun { state.step ≤ n }
    requires bound { n ≤ 2 ^ 40 }
    ensures whole { (image : Image) → WholeAs (bare image script.now.list (length state.ram / 4096)) n (rested_from state)
        (O.taken out.old) (O.taken out.new) (O.faults out.old) (O.faults out.new) result }
    ensures fills { IfOk result (λ ended. ended.fills ≡ 0) }
{
    let mut machine = bare_from(state, Buffer::new());
    run_on(&mut machine, script, n, out)
}
