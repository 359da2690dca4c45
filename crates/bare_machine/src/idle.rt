//! A halted processor that waits.

ghost use Rattle.std.specs.Prelude.{◌≡◌, ◌≤◌, ◌<◌, ◌^◌, true, false, None};
ghost use Rattle.board.specs.ScriptForm.{is_script};
ghost use Rattle.image_check.specs.Image.{Image};
ghost use Rattle.machine_model.specs.Run.{Set};
ghost use Rattle.machine_model.specs.Step.{interrupt_of};
ghost use Rattle.paging.specs.Part.{IsPartOf};
ghost use Rattle.bare_machine.specs.Buffered.{KeptRests};
ghost use Rattle.bare_machine.specs.Machine.{state_of, IsKept, GoesOn, Rests};
ghost use Rattle.bare_machine.specs.Settings.{bare};
ghost use Rattle.bare_machine.specs.Stepping.{EndsRest};

use crate::machine::BareMachine;
use board::Script;
use machine_model::halted_steps_rest;
use machine_step::resting_steps;
use xlate_buffer::Cache;

/// Passes the steps in which a halted processor has nothing to do, up to the bound or to what can wake it, in one go.
#[inline(always)]
pub fn rest<C: Cache>(machine: &mut BareMachine<C>, script: &Script, n: u64)
    requires script { is_script script.now.list ≡ true }
    requires kept { IsKept machine.old.frames (state_of C.entries machine.old) }
    requires begun { 0 < machine.old.step }
    requires within { machine.old.step ≤ n }
    requires bound { n ≤ 2 ^ 40 }
    ensures rests { (image : Image) (whole : Set) → IsPartOf (C.entries machine.old.kept.cache) whole
        → Rests (bare image script.now.list machine.old.frames) (state_of C.entries machine.old) whole (state_of C.entries machine.new) }
    ensures kept { (image : Image) → KeptRests C.keeping (bare image script.now.list machine.old.frames)
        (state_of C.entries machine.old) (state_of C.entries machine.new) }
    ensures goes_on { GoesOn C.entries C.is_exact machine.old machine.new }
    ensures cpu { machine.new.cpu ≡ machine.old.cpu }
    // Short of the bound it ends only where what can wake it comes.
    ensures ends { machine.old.cpu.halted ≡ true → machine.old.cpu.held ≡ false
        → interrupt_of machine.old.cpu machine.old.board ≡ None → machine.new.step < n
        → EndsRest script.now.list (state_of C.entries machine.old) (state_of C.entries machine.new) }
    ensures later { machine.old.step ≤ machine.new.step }
    ensures within { machine.new.step ≤ n }
{
    let most = n - machine.step;
    let k = resting_steps(&machine.cpu, &machine.board, script, machine.step, most);
    if k > 0 {
        halted_steps_rest();
        machine.board.advance(k);
        machine.step += k;
    }
}
