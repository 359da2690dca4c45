//! A slice of a run.

ghost use Rattle.std.specs.Prelude.{◌≡◌, ◌+◌, ◌≤◌, ◌^◌, length, true, OnOk, OnErr};
ghost use Rattle.board.specs.ScriptForm.{is_script};
ghost use Rattle.image_check.specs.Image.{Image};
ghost use Rattle.pv_io.specs.Causes.{Rose};
ghost use Rattle.machine_model.specs.Fit.{Fit};
ghost use Rattle.bare_machine.specs.Buffered.{KeptSlice};
ghost use Rattle.bare_machine.specs.Machine.{state_of, IsKept, GoesOn};
ghost use Rattle.bare_machine.specs.Settings.{bare};
ghost use Rattle.bare_machine.specs.Slices.{SliceAs, OneStepAs};
ghost use Rattle.run_trace.specs.Pauses.{IfReached};

use crate::idle::rest;
use crate::machine::{BareMachine, NO_TEXT, step};
use board::Script;
use descriptors::Hidden;
use machine_model::runs_keep_fit;
use machine_step::{Worked, first_state, put_seen};
use pv_io::{Failed, Sink};
use run_trace::Pause;
use xlate_buffer::Cache;

/// Makes `k` steps, or ends before a step that stops. The lines of a step go to the sink at its end. Where no
/// put failed its count of faults is as it was, and where one failed it rose.
pub fn take_steps<C: Cache, O: Sink>(
    machine: &mut BareMachine<C>,
    script: &Script,
    k: u64,
    out: &mut O,
) -> Result<Pause, Failed>
    requires script { is_script script.now.list ≡ true }
    requires kept { IsKept machine.old.frames (state_of C.entries machine.old) }
    requires bound { machine.old.step + k ≤ 2 ^ 40 }
    ensures slice { (image : Image) → SliceAs
        (bare image script.now.list machine.old.frames) (C.is_exact machine.old.kept.cache) (machine.old.step + k)
        (state_of C.entries machine.old) (state_of C.entries machine.new) (O.taken out.old) (O.taken out.new) result }
    ensures kept { (image : Image) → KeptSlice C.keeping
        (bare image script.now.list machine.old.frames) (machine.old.step + k)
        (state_of C.entries machine.old) (state_of C.entries machine.new) (O.taken out.old) (O.taken out.new) result }
    ensures one { k ≡ 1 → (image : Image) → OneStepAs (bare image script.now.list machine.old.frames)
        (C.is_exact machine.old.kept.cache) (state_of C.entries machine.old) (state_of C.entries machine.new) result }
    ensures reached { IfReached result (machine.new.step ≡ machine.old.step + k) }
    ensures goes_on { IfReached result (GoesOn C.entries C.is_exact machine.old machine.new) }
    ensures fit { Fit machine.old.cpu → IfReached result (Fit machine.new.cpu) }
    ensures count { OnOk result (O.faults out.new ≡ O.faults out.old) }
    ensures cause { OnErr result (Rose (O.faults out.old) (O.faults out.new)) }
{
    runs_keep_fit();
    segment_count(&machine.cpu.seg);
    let bound = machine.step + k;
    steps_to(machine, script, bound, out)
}

/// How many segment registers the processor has.
pub fn segment_count(segments: &[Hidden; 4]) -> usize
    ensures count { result ≡ length segments.now }
    ensures four { length segments.now ≡ 4 }
{
    segments.len()
}

/// Steps up to a count of steps, or to a stop. The lines of a step go to the sink at its end. Where no put
/// failed its count of faults is as it was, and where one failed it rose.
pub fn steps_to<C: Cache, O: Sink>(
    machine: &mut BareMachine<C>,
    script: &Script,
    bound: u64,
    out: &mut O,
) -> Result<Pause, Failed>
    requires script { is_script script.now.list ≡ true }
    requires kept { IsKept machine.old.frames (state_of C.entries machine.old) }
    requires bound { bound ≤ 2 ^ 40 }
    requires begun { machine.old.step ≤ bound }
    ensures slice { (image : Image) → SliceAs
        (bare image script.now.list machine.old.frames) (C.is_exact machine.old.kept.cache) bound
        (state_of C.entries machine.old) (state_of C.entries machine.new) (O.taken out.old) (O.taken out.new) result }
    ensures kept { (image : Image) → KeptSlice C.keeping
        (bare image script.now.list machine.old.frames) bound
        (state_of C.entries machine.old) (state_of C.entries machine.new) (O.taken out.old) (O.taken out.new) result }
    ensures reached { IfReached result (machine.new.step ≡ bound) }
    ensures goes_on { IfReached result (GoesOn C.entries C.is_exact machine.old machine.new) }
    ensures count { OnOk result (O.faults out.new ≡ O.faults out.old) }
    ensures cause { OnErr result (Rose (O.faults out.old) (O.faults out.new)) }
{
    let mut state = first_state(&NO_TEXT);
    let mut worked = Worked::at(&machine.cpu);
    let mut next = 0;
    while machine.step < bound {
        let before = machine.step;
        match step(machine, script, &mut next, &mut state, &mut worked) {
            Err(stop) => return Ok(Pause::Stopped(stop)),
            Ok(seen) => match put_seen(before, seen, out) {
                Ok(()) => {}
                Err(failed) => return Err(failed),
            },
        }
        rest(machine, script, bound);
    }
    Ok(Pause::Reached)
}
