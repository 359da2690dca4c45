//! Whole runs of the bare machine.

ghost use Rattle.std.specs.Prelude.{◌≡◌, ◌-◌, ◌≤◌, ◌^◌, true, IfOk};
ghost use Rattle.board.specs.ScriptForm.{is_script};
ghost use Rattle.image_check.specs.Image.{Image};
ghost use Rattle.bare_machine.specs.Machine.{state_of, IsKept};
ghost use Rattle.bare_machine.specs.Settings.{bare};
ghost use Rattle.bare_machine.specs.Answers.{RunAnswers, WholeAs};
ghost use Rattle.bare_machine.specs.Buffered.{buffered_run, kept_course};
ghost use Rattle.bare_machine.specs.FreshTexts.{CourseAnswers, CourseAs};
ghost use Rattle.run_trace.specs.Pauses.{end_of};

use crate::bare::Bare;
use crate::ending::{begun, end_run};
use board::Script;
use image_check::Checked;
use image_load::RunFault;
use pv_io::Sink;
use run_trace::{Ended, end_of};
use std::alloc::Global;
use xlate_buffer::{Buffer, Cache};

/// Runs an image for at most so many steps, and puts the text of its trace: that of `buffered_run`, which is a function of
/// image, script, frames and `n`.
pub fn run_bare<O: Sink>(
    alloc: Global,
    image: &Checked,
    script: &Script,
    frames: u32,
    n: u64,
    out: &mut O,
) -> Result<Ended, RunFault>
    requires frames { (2048 ≤ frames) × (frames ≤ 16384) }
    requires script { is_script script.now.list ≡ true }
    requires bound { n ≤ 2 ^ 40 }
    ensures run { RunAnswers image.now script.now.list frames n
        (O.taken out.old) (O.taken out.new) (O.faults out.old) (O.faults out.new) result }
    ensures buffered { CourseAnswers image.now frames (buffered_run image.now script.now.list frames n)
        (O.taken out.old) (O.taken out.new) (O.faults out.old) (O.faults out.new) result }
    ensures fills { IfOk result (λ ended. ended.fills ≡ 0) }
{
    match begun(alloc, image, frames, Buffer::new()) {
        Err(fault) => Err(fault),
        Ok(machine) => {
            let mut machine = machine;
            run_on(&mut machine, script, n, out)
        }
    }
}

/// Goes on until `n` steps are done in all, or to a stop, and puts the text of that part of the run.
pub fn run_on<C: Cache, O: Sink>(
    machine: &mut Bare<C>,
    script: &Script,
    n: u64,
    out: &mut O,
) -> Result<Ended, RunFault>
    requires script { is_script script.now.list ≡ true }
    requires kept { IsKept machine.old.frames (state_of C.entries machine.old) }
    requires begun { machine.old.step ≤ n }
    requires bound { n ≤ 2 ^ 40 }
    ensures whole { (image : Image) → WholeAs
        (bare image script.now.list machine.old.frames) n (state_of C.entries machine.old)
        (O.taken out.old) (O.taken out.new) (O.faults out.old) (O.faults out.new) result }
    ensures course { (image : Image) → CourseAs
        (kept_course C.keeping (bare image script.now.list machine.old.frames) (n - machine.old.step) (state_of C.entries machine.old))
        (O.taken out.old) (O.taken out.new) (O.faults out.old) (O.faults out.new) result }
    ensures fills { IfOk result (λ ended. ended.fills ≡ 0) }
{
    let done = machine.step();
    match machine.slice(script, n - done, out) {
        Err(_) => Err(RunFault::Write),
        Ok(pause) => {
            let steps = machine.step();
            end_run(steps, end_of(pause), out)
        }
    }
}
