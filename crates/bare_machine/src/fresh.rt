//! Whole runs of the bare machine before each step of which nothing is cached.

ghost use Rattle.std.specs.Prelude.{◌≡◌, ◌≤◌, ◌^◌, true};
ghost use Rattle.board.specs.ScriptForm.{is_script};
ghost use Rattle.image_check.specs.Image.{Image};
ghost use Rattle.bare_machine.specs.Machine.{state_of, IsKept};
ghost use Rattle.bare_machine.specs.Settings.{bare};
ghost use Rattle.bare_machine.specs.Answers.{RunAnswers};
ghost use Rattle.bare_machine.specs.FreshRuns.{fresh_course};
ghost use Rattle.bare_machine.specs.FreshTexts.{FreshAnswers, CourseAs, StepsAs};

use crate::ending::{begun, end_run};
use crate::machine::BareMachine;
use crate::slice::steps_to;
use bare_mem::drop_all;
use board::Script;
use image_check::Checked;
use image_load::RunFault;
use pv_io::{Failed, Sink};
use run_trace::{End, Ended, Pause};
use std::alloc::Global;
use xlate_buffer::{Buffer, Cache};

/// Runs an image for at most so many steps, each by translations that it finds in memory, and puts the text of its trace:
/// that of `fresh_run`, which is a function of image, script, frames and `n`.
pub fn run_fresh<O: Sink>(
    alloc: Global,
    image: &Checked,
    script: &Script,
    frames: u32,
    n: u64,
    out: &mut O,
) -> Result<Ended, RunFault>
    requires frames { (2048 ≤ frames) × (frames ≤ 16384) }
    requires script { is_script script.now.list ≡ true }
    requires bound { n ≤ 2 ^ 40 }
    ensures run { RunAnswers image.now script.now.list frames n
        (O.taken out.old) (O.taken out.new) (O.faults out.old) (O.faults out.new) result }
    ensures fresh { FreshAnswers image.now script.now.list frames n
        (O.taken out.old) (O.taken out.new) (O.faults out.old) (O.faults out.new) result }
{
    match begun(alloc, image, frames, Buffer::new()) {
        Err(fault) => Err(fault),
        Ok(machine) => {
            let mut machine = machine.into_machine();
            course(&mut machine, script, n, out)
        }
    }
}

/// The steps, and the last line.
fn course<C: Cache, O: Sink>(
    machine: &mut BareMachine<C>,
    script: &Script,
    n: u64,
    out: &mut O,
) -> Result<Ended, RunFault>
    requires script { is_script script.now.list ≡ true }
    requires kept { IsKept machine.old.frames (state_of C.entries machine.old) }
    requires begin { machine.old.step ≡ 0 }
    requires bound { n ≤ 2 ^ 40 }
    ensures course { (image : Image) → CourseAs
        (fresh_course (bare image script.now.list machine.old.frames) n (state_of C.entries machine.old))
        (O.taken out.old) (O.taken out.new) (O.faults out.old) (O.faults out.new) result }
{
    match fresh_steps(machine, script, n, out) {
        Err(_) => Err(RunFault::Write),
        Ok(end) => end_run(machine.step, end, out),
    }
}

/// Slices of one step, before each of which the cache is emptied.
fn fresh_steps<C: Cache, O: Sink>(
    machine: &mut BareMachine<C>,
    script: &Script,
    n: u64,
    out: &mut O,
) -> Result<End, Failed>
    requires script { is_script script.now.list ≡ true }
    requires kept { IsKept machine.old.frames (state_of C.entries machine.old) }
    requires begin { machine.old.step ≡ 0 }
    requires bound { n ≤ 2 ^ 40 }
    ensures steps { (image : Image) → StepsAs
        (fresh_course (bare image script.now.list machine.old.frames) n (state_of C.entries machine.old)) machine.new.step
        (O.taken out.old) (O.taken out.new) (O.faults out.old) (O.faults out.new) result }
{
    while machine.step < n {
        let next = machine.step + 1;
        drop_all(&mut machine.kept);
        match steps_to(machine, script, next, out) {
            Err(failed) => return Err(failed),
            Ok(pause) => match pause {
                Pause::Stopped(stop) => return Ok(End::Stopped(stop)),
                Pause::Reached => {}
            },
        }
    }
    Ok(End::Bound)
}
