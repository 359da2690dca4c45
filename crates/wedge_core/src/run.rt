//! Whole patched runs.

ghost use Rattle.std.specs.Prelude.{◌≡◌, ◌+◌, ◌≤◌, ◌^◌, true};
ghost use Rattle.board.specs.ScriptForm.{is_script};
ghost use Rattle.image_load.specs.Boot.{need};
ghost use Rattle.machine_model.specs.State.{boot, wedge};
ghost use Rattle.run_trace.specs.Pauses.{end_of};
ghost use Rattle.wedge_step.specs.Leaves.{IsBetween};
ghost use Rattle.wedge_step.specs.Scene.{free, kept_in, scene, state_in};
ghost use Rattle.wedge_step.specs.Standing.{IsAble};
ghost use Rattle.wedge_core.specs.Answers.{WedgeAnswers};
ghost use Rattle.wedge_core.specs.Surroundings.{around};
ghost use Rattle.wedge_core.specs.OfRoots.{of_roots};

use crate::guest::Guest;
use board::Script;
use frame_pool::Pool;
use host_cpl3::Host;
use image_check::Checked;
use image_load::{RunFault, StartFault};
use machine_model::kept_on;
use pv_io::Sink;
use run_trace::{End, Ended, NoNotes, Pause, end_of, put_end};
use std::alloc::Global;

/// Runs an image's patched text for at most so many steps, and puts the text of its trace.
pub fn run_wedge<H: Host, O: Sink>(
    alloc: Global,
    image: &Checked,
    script: &Script,
    frames: u32,
    n: u64,
    pool: u32,
    host: &mut H,
    out: &mut O,
) -> Result<Ended, RunFault>
    requires frames { (2048 ≤ frames) × (frames ≤ 16384) }
    requires script { is_script script.now.list ≡ true }
    requires bound { n ≤ 2 ^ 40 }
    requires pool { (16 ≤ pool) × (pool ≤ 512) }
    requires room { H.retired host.old ≤ 2 ^ 63 }
    ensures run { WedgeAnswers image.now script.now.list frames n pool
        (around H.Host O.Sink host.old host.new out.old out.new) (H.bytes host.new) result }
{
    match Guest::start(alloc, image, frames, pool, host) {
        Err(StartFault::TooSmall(small)) => Err(RunFault::TooSmall(small)),
        Err(StartFault::Memory) => Err(RunFault::Memory),
        Ok((guest, pool)) => {
            let mut guest = guest;
            let mut pool = pool;
            whole(&mut guest, image, script, n, &mut pool, host, out)
        }
    }
}

/// One slice, and the last line.
fn whole<H: Host, O: Sink>(
    guest: &mut Guest,
    image: &Checked,
    script: &Script,
    n: u64,
    pool: &mut Pool,
    host: &mut H,
    out: &mut O,
) -> Result<Ended, RunFault>
    requires started { H.is_started host.old ≡ true }
    requires between { IsBetween of_roots image.now (scene guest.old pool.old (H.bytes host.old)) }
    requires able { IsAble guest.old.cpu }
    requires fits { need image.now ≤ guest.old.frames }
    requires script { is_script script.now.list ≡ true }
    requires first { state_in of_roots (wedge image.now script.now.list guest.old.frames)
        (scene guest.old pool.old (H.bytes host.old))
        ≡ boot (wedge image.now script.now.list guest.old.frames) }
    requires two { guest.old.held ≡ 2 }
    requires unfilled { guest.old.fills ≡ 0 }
    requires none { kept_in of_roots (scene guest.old pool.old (H.bytes host.old)) ≡ 0 }
    requires bound { n ≤ 2 ^ 40 }
    requires room { H.retired host.old ≤ 2 ^ 63 }
    ensures whole { WedgeAnswers image.now script.now.list guest.old.frames n
        (free (scene guest.old pool.old (H.bytes host.old)) + guest.old.held)
        (around H.Host O.Sink host.old host.new out.old out.new) (H.bytes host.new) result }
{
    kept_on();
    let pause = match guest.slice(image, script, n, pool, host, out, &mut NoNotes) {
        Err(_) => return Err(RunFault::Write),
        Ok(pause) => pause,
    };
    let ended = Ended {
        steps: guest.step(),
        end: end_of(pause),
        fills: guest.fills(),
    };
    match put_end(&ended, out) {
        Err(_) => Err(RunFault::Write),
        Ok(()) => Ok(ended),
    }
}
