//! The whole trace of a run with its steps.

ghost use Rattle.std.specs.Prelude.{◌≡◌, ◌≤◌, ◌^◌, ℕ, List, Option, true};
ghost use Rattle.board.specs.ScriptForm.{is_script};
ghost use Rattle.image_check.specs.Image.{Image};
ghost use Rattle.bare_machine.specs.Machine.{state_of, IsKept};
ghost use Rattle.bare_machine.specs.Settings.{bare};
ghost use Rattle.look_words.specs.View.{only_view};
ghost use Rattle.step_trace.specs.Answers.{HasPut, TraceAnswers, TracesAs};
ghost use Rattle.step_trace.specs.Traces.{Trace, buffered_trace, trace_to};

use crate::steps::steps_on;
use bare_machine::{Bare, end_run};
use board::Script;
use image_check::Checked;
use image_load::{RunFault, StartFault};
use look_words::Only;
use pv_io::Sink;
use run_trace::{End, Ended, Pause, end_of};
use std::alloc::Global;
use xlate_buffer::{Buffer, Cache};

/// Runs an image for at most `n` steps as `run_bare` does, and puts the text of its trace, with the lines of its steps from one
/// on that are asked for: that of `buffered_trace`, whose steps are those of `buffered_run`.
pub fn trace_steps<O: Sink>(
    alloc: Global,
    image: &Checked,
    script: &Script,
    frames: u32,
    n: u64,
    from: u64,
    only: &Only,
    out: &mut O,
) -> Result<Ended, RunFault>
    requires frames { (2048 ≤ frames) × (frames ≤ 16384) }
    requires script { is_script script.now.list ≡ true }
    requires bound { n ≤ 2 ^ 40 }
    ensures { TraceAnswers image.now frames (buffered_trace image.now script.now.list frames n from (only_view only.now))
        (O.taken out.old) (O.taken out.new) (O.faults out.old) (O.faults out.new) result }
{
    match Bare::start(alloc, image, frames, Buffer::new()) {
        Err(StartFault::TooSmall(small)) => Err(RunFault::TooSmall(small)),
        Err(StartFault::Memory) => Err(RunFault::Memory),
        Ok(machine) => {
            let mut machine = machine;
            trace_on(&mut machine, script, n, from, only, out)
        }
    }
}

/// Goes on until `n` steps are done, or to a stop: up to `from` without lines of steps.
fn trace_on<C: Cache, O: Sink>(
    machine: &mut Bare<C>,
    script: &Script,
    n: u64,
    from: u64,
    only: &Only,
    out: &mut O,
) -> Result<Ended, RunFault>
    requires script { is_script script.now.list ≡ true }
    requires kept { IsKept machine.old.frames (state_of C.entries machine.old) }
    requires begun { machine.old.step ≡ 0 }
    requires bound { n ≤ 2 ^ 40 }
    ensures { (image : Image) → TracesAs (trace_to C.keeping (bare image script.now.list machine.old.frames) n from (only_view only.now)
        (state_of C.entries machine.old)) (O.taken out.old) (O.taken out.new) (O.faults out.old) (O.faults out.new) result }
{
    let first = unlisted(from, n);
    match machine.slice(script, first, out) {
        Err(_) => Err(RunFault::Write),
        Ok(pause) => match pause {
            Pause::Stopped(stop) => {
                let steps = machine.step();
                end_run(steps, End::Stopped(stop), out)
            }
            Pause::Reached => steps_to_end(machine, script, n, from, only, out),
        },
    }
}

/// How many steps come before the first whose line may be printed.
fn unlisted(from: u64, n: u64) -> u64
    ensures from { result ≤ from }
    ensures within { result ≤ n }
{
    from.min(n)
}

/// The steps with their lines, and the last line.
fn steps_to_end<C: Cache, O: Sink>(
    machine: &mut Bare<C>,
    script: &Script,
    n: u64,
    from: u64,
    only: &Only,
    out: &mut O,
) -> Result<Ended, RunFault>
    requires script { is_script script.now.list ≡ true }
    requires kept { IsKept machine.old.frames (state_of C.entries machine.old) }
    requires begun { machine.old.step ≤ n }
    requires bound { n ≤ 2 ^ 40 }
    ensures { (image : Image) (whole : Trace) (told : Option (List ℕ))
        → HasPut whole (trace_to C.keeping (bare image script.now.list machine.old.frames) n from (only_view only.now)
        (state_of C.entries machine.old)) told (O.taken out.old)
        → TracesAs whole told (O.taken out.new) (O.faults out.old) (O.faults out.new) result }
{
    match steps_on(machine, script, n, from, only, out) {
        Err(_) => Err(RunFault::Write),
        Ok(pause) => {
            let steps = machine.step();
            end_run(steps, end_of(pause), out)
        }
    }
}
