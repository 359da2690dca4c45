//! Where a whole run begins, and its last line.

ghost use Rattle.std.specs.Prelude.{◌≡◌, ◌≤◌, IfOk, IfErr, Ok};
ghost use Rattle.std.specs.FinMap.{empty};
ghost use Rattle.bare_machine.specs.Machine.{state_of, IsKept};
ghost use Rattle.bare_machine.specs.Starts.{StartedAs, NotBegun};
ghost use Rattle.bare_machine.specs.Ending.{EndsAs};

use crate::bare::Bare;
use image_check::Checked;
use image_load::{RunFault, StartFault};
use pv_io::Sink;
use run_trace::{End, Ended, put_end};
use std::alloc::Global;
use xlate_buffer::Cache;

/// The machine of a run, in the state in which every run begins.
pub fn begun<C: Cache>(
    alloc: Global,
    image: &Checked,
    frames: u32,
    cache: C,
) -> Result<Bare<C>, RunFault>
    requires frames { (2048 ≤ frames) × (frames ≤ 16384) }
    requires empty { C.entries cache ≡ empty }
    ensures begun { IfOk result (λ machine. StartedAs C.entries image.now frames (Ok machine)) }
    ensures kept { IfOk result (λ machine. IsKept machine.frames (state_of C.entries machine)) }
    ensures first { IfOk result (λ machine. machine.step ≡ 0) }
    ensures refused { IfErr result (NotBegun image.now frames) }
{
    match Bare::start(alloc, image, frames, cache) {
        Ok(machine) => Ok(machine),
        Err(StartFault::TooSmall(small)) => Err(RunFault::TooSmall(small)),
        Err(StartFault::Memory) => Err(RunFault::Memory),
    }
}

/// Puts the last line of a run that ended so after these steps, and answers with it.
pub fn end_run<O: Sink>(steps: u64, end: End, out: &mut O) -> Result<Ended, RunFault>
    ensures ends { EndsAs steps end (O.taken out.old) (O.taken out.new) (O.faults out.old) (O.faults out.new) result }
    ensures fills { IfOk result (λ ended. ended.fills ≡ 0) }
{
    let ended = Ended {
        steps,
        end,
        fills: 0,
    };
    match put_end(&ended, out) {
        Err(_) => Err(RunFault::Write),
        Ok(()) => Ok(ended),
    }
}
