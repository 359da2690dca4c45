//! A run of the bare machine up to a count of steps, at which it rests.

ghost use Rattle.std.specs.Prelude.{◌≡◌, ◌*◌, ◌/◌, ◌≤◌, ◌^◌, length, true};
ghost use Rattle.board.specs.ScriptForm.{is_script};
ghost use Rattle.image_check.specs.Image.{Image};
ghost use Rattle.machine_model.specs.Fit.{Fit};
ghost use Rattle.bare_machine.specs.Machine.{state_of, IsKept};
ghost use Rattle.bare_machine.specs.Settings.{bare};
ghost use Rattle.checkpoint.specs.InForm.{IsInForm};
ghost use Rattle.checkpoint.specs.Moved.{rested_from};
ghost use Rattle.checkpoint.specs.RestAnswers.{RestsAs, RestsFromStart, no_counts};

use crate::bare::{bare_from, state_of_bare};
use crate::rested::Rested;
use crate::state::State;
use bare_machine::Bare;
use board::Script;
use image_check::Checked;
use image_load::{RunFault, StartFault};
use machine_model::each_run_begins_fit;
use pv_io::Sink;
use run_trace::{End, Ended, Pause, put_end};
use std::alloc::Global;
use xlate_buffer::{Buffer, Cache};

/// Runs an image on the bare machine from the start, until `n` steps are done, and puts their lines.
pub fn save_bare<O: Sink>(
    alloc: Global,
    image: &Checked,
    script: &Script,
    frames: u32,
    n: u64,
    out: &mut O,
) -> Result<Rested, RunFault>
    requires frames { (2048 ≤ frames) × (frames ≤ 16384) }
    requires script { is_script script.now.list ≡ true }
    requires bound { n ≤ 2 ^ 40 }
    ensures rests { RestsFromStart (bare image.now script.now.list frames) n no_counts
        (O.taken out.old) (O.taken out.new) (O.faults out.old) (O.faults out.new) result }
{
    each_run_begins_fit();
    match Bare::start(alloc, image, frames, Buffer::new()) {
        Err(StartFault::TooSmall(small)) => Err(RunFault::TooSmall(small)),
        Err(StartFault::Memory) => Err(RunFault::Memory),
        Ok(machine) => rest_bare(machine, script, n, out),
    }
}

/// Goes on from a checkpoint on the bare machine, until `n` steps are done in all, and puts their lines.
pub fn save_bare_from<O: Sink>(
    state: State,
    script: &Script,
    n: u64,
    out: &mut O,
) -> Result<Rested, RunFault>
    requires form { IsInForm state }
    requires script { is_script script.now.list ≡ true }
    requires begun { state.step ≤ n }
    requires bound { n ≤ 2 ^ 40 }
    ensures rests { (image : Image)
        → RestsAs (bare image script.now.list (length state.ram / 4096)) n (rested_from state) no_counts
        (O.taken out.old) (O.taken out.new) (O.faults out.old) (O.faults out.new) result }
{
    let machine = bare_from(state, Buffer::new());
    rest_bare(machine, script, n, out)
}

/// Goes on until `n` steps are done in all, and puts their lines. Where a stop comes before, the run's last line is put too.
pub fn rest_bare<C: Cache, O: Sink>(
    machine: Bare<C>,
    script: &Script,
    n: u64,
    out: &mut O,
) -> Result<Rested, RunFault>
    requires script { is_script script.now.list ≡ true }
    requires kept { IsKept machine.frames (state_of C.entries machine) }
    requires fit { Fit machine.cpu }
    requires frames { (2048 ≤ machine.frames) × (machine.frames ≤ 16384) }
    requires size { length machine.ram ≡ 4096 * machine.frames }
    requires begun { machine.step ≤ n }
    requires bound { n ≤ 2 ^ 40 }
    ensures rests { (image : Image)
        → RestsAs (bare image script.now.list machine.frames) n (state_of C.entries machine) no_counts
        (O.taken out.old) (O.taken out.new) (O.faults out.old) (O.faults out.new) result }
{
    let mut machine = machine;
    let done = machine.step();
    let k = n - done;
    let pause = match machine.slice(script, k, out) {
        Err(_) => return Err(RunFault::Write),
        Ok(pause) => pause,
    };
    match pause {
        Pause::Reached => Ok(Rested::At(state_of_bare(machine))),
        Pause::Stopped(stop) => {
            let steps = machine.step();
            let ended = Ended {
                steps,
                end: End::Stopped(stop),
                fills: 0,
            };
            match put_end(&ended, out) {
                Err(_) => Err(RunFault::Write),
                Ok(()) => Ok(Rested::Stopped(ended)),
            }
        }
    }
}
