//! Patched runs whose notes are kept, so that their text can be judged.

ghost use Rattle.std.specs.Prelude.{◌≡◌, ◌≤◌, ◌^◌, [], true};
ghost use Rattle.board.specs.ScriptForm.{is_script};
ghost use Rattle.image_load.specs.Boot.{need};
ghost use Rattle.machine_model.specs.State.{boot, wedge};
ghost use Rattle.run_trace.specs.Pauses.{end_of};
ghost use Rattle.wedge_step.specs.Leaves.{IsBetween};
ghost use Rattle.wedge_step.specs.Scene.{kept_in, scene, state_in};
ghost use Rattle.wedge_step.specs.Standing.{IsAble};
ghost use Rattle.wedge_core.specs.Surroundings.{around};
ghost use Rattle.wedge_core.specs.OfRoots.{of_roots};
ghost use Rattle.trace_check.specs.NotesKept.{AreKept};
ghost use Rattle.trace_check.specs.Noted.{NotedAnswers};

use crate::kept_notes::KeptNotes;
use crate::laws::notes_are_judged;
use board::Script;
use frame_pool::Pool;
use host_cpl3::Host;
use image_check::Checked;
use image_load::{RunFault, StartFault};
use machine_model::kept_on;
use pv_io::Sink;
use run_trace::{Ended, end_of, put_end};
use std::alloc::Global;
use wedge_core::Guest;

/// How many frames the shadows of a run have.
const POOL: u32 = 512;

/// Runs an image's patched text for at most so many steps, puts the text of its trace, and keeps its notes. None were
/// reported before.
pub fn run_noted<H: Host, O: Sink>(
    alloc: Global,
    image: &Checked,
    script: &Script,
    frames: u32,
    n: u64,
    host: &mut H,
    out: &mut O,
    notes: &mut KeptNotes,
) -> Result<Ended, RunFault>
    requires frames { (2048 ≤ frames) × (frames ≤ 16384) }
    requires script { is_script script.now.list ≡ true }
    requires bound { n ≤ 2 ^ 40 }
    requires room { H.retired host.old ≤ 2 ^ 63 }
    requires untold { AreKept notes.old [] }
    ensures run { NotedAnswers image.now script.now.list frames n notes.new
        (around H.Host O.Sink host.old host.new out.old out.new) (H.bytes host.new) result }
{
    match Guest::start(alloc, image, frames, POOL, host) {
        Err(StartFault::TooSmall(small)) => Err(RunFault::TooSmall(small)),
        Err(StartFault::Memory) => Err(RunFault::Memory),
        Ok((guest, pool)) => {
            let mut guest = guest;
            let mut pool = pool;
            whole(&mut guest, image, script, n, &mut pool, host, out, notes)
        }
    }
}

/// One slice, and the last line.
fn whole<H: Host, O: Sink>(
    guest: &mut Guest,
    image: &Checked,
    script: &Script,
    n: u64,
    pool: &mut Pool,
    host: &mut H,
    out: &mut O,
    notes: &mut KeptNotes,
) -> Result<Ended, RunFault>
    requires started { H.is_started host.old ≡ true }
    requires between { IsBetween of_roots image.now (scene guest.old pool.old (H.bytes host.old)) }
    requires able { IsAble guest.old.cpu }
    requires fits { need image.now ≤ guest.old.frames }
    requires script { is_script script.now.list ≡ true }
    requires first { state_in of_roots (wedge image.now script.now.list guest.old.frames)
        (scene guest.old pool.old (H.bytes host.old))
        ≡ boot (wedge image.now script.now.list guest.old.frames) }
    requires unfilled { guest.old.fills ≡ 0 }
    requires none { kept_in of_roots (scene guest.old pool.old (H.bytes host.old)) ≡ 0 }
    requires bound { n ≤ 2 ^ 40 }
    requires room { H.retired host.old ≤ 2 ^ 63 }
    requires untold { AreKept notes.old [] }
    ensures whole { NotedAnswers image.now script.now.list guest.old.frames n notes.new
        (around H.Host O.Sink host.old host.new out.old out.new) (H.bytes host.new) result }
{
    notes_are_judged();
    kept_on();
    let pause = match guest.slice(image, script, n, pool, host, out, notes) {
        Err(_) => return Err(RunFault::Write),
        Ok(pause) => pause,
    };
    let ended = Ended {
        steps: guest.step(),
        end: end_of(pause),
        fills: guest.fills(),
    };
    match put_end(&ended, out) {
        Err(_) => Err(RunFault::Write),
        Ok(()) => Ok(ended),
    }
}
