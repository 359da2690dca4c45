//! A patched run goes on from a checkpoint, to its last line.

ghost use Rattle.std.specs.Prelude.{◌≡◌, ◌/◌, ◌≤◌, ◌^◌, length, true, false};
ghost use Rattle.guest_ram.specs.Bytes.{part};
ghost use Rattle.ia32_types.specs.declared.addresses.TheConstants.{TEXT_PLACE};
ghost use Rattle.board.specs.ScriptForm.{is_script};
ghost use Rattle.machine_model.specs.State.{wedge};
ghost use Rattle.run_trace.specs.Pauses.{end_of};
ghost use Rattle.wedge_step.specs.Filled.{WereFilled};
ghost use Rattle.wedge_step.specs.Leaves.{IsBetween};
ghost use Rattle.wedge_step.specs.Scene.{kept_in, scene, state_in};
ghost use Rattle.wedge_step.specs.Standing.{IsAble};
ghost use Rattle.wedge_core.specs.Surroundings.{around};
ghost use Rattle.wedge_core.specs.OfRoots.{of_roots};
ghost use Rattle.wedge_core.specs.Sliced.{BeginsBare};
ghost use Rattle.checkpoint.specs.InForm.{IsInForm};
ghost use Rattle.checkpoint.specs.Moved.{rested_from};
ghost use Rattle.checkpoint.specs.Continued.{WedgeGoesTo};

use crate::guest::guest_from;
use crate::state::State;
use board::Script;
use frame_pool::Pool;
use host_cpl3::Host;
use image_check::Checked;
use image_load::RunFault;
use machine_model::kept_on;
use pv_io::Sink;
use run_trace::{Ended, NoNotes, end_of, put_end};
use std::alloc::Global;
use wedge_core::Guest;

/// Goes on from a checkpoint until `n` steps are done in all, or to a stop, and puts the text of that part of the run.
pub fn continue_wedge<H: Host, O: Sink>(
    alloc: Global,
    state: State,
    image: &Checked,
    script: &Script,
    n: u64,
    host: &mut H,
    out: &mut O,
) -> Result<Ended, RunFault>
    requires form { IsInForm state }
    requires able { IsAble state.cpu }
    requires text { part state.ram TEXT_PLACE (length image.now.text) ≡ image.now.text }
    requires script { is_script script.now.list ≡ true }
    requires begun { state.step ≤ n }
    requires bound { n ≤ 2 ^ 40 }
    requires room { H.retired host.old ≤ 2 ^ 63 }
    ensures run { WedgeGoesTo (wedge image.now script.now.list (length state.ram / 4096)) n (rested_from state)
        (around H.Host O.Sink host.old host.new out.old out.new) (H.bytes host.new) result }
{
    match guest_from(alloc, state, image, host) {
        Err(_) => Err(RunFault::Memory),
        Ok((guest, pool)) => {
            let mut guest = guest;
            let mut pool = pool;
            whole(&mut guest, image, script, n, &mut pool, host, out)
        }
    }
}

/// One slice, and the last line.
fn whole<H: Host, O: Sink>(
    guest: &mut Guest,
    image: &Checked,
    script: &Script,
    n: u64,
    pool: &mut Pool,
    host: &mut H,
    out: &mut O,
) -> Result<Ended, RunFault>
    requires started { H.is_started host.old ≡ true }
    requires between { IsBetween of_roots image.now (scene guest.old pool.old (H.bytes host.old)) }
    requires able { IsAble guest.old.cpu }
    requires bare { BeginsBare of_roots (scene guest.old pool.old (H.bytes host.old)) false }
    requires filled { WereFilled (kept_in of_roots (scene guest.old pool.old (H.bytes host.old))) guest.old.fills }
    requires script { is_script script.now.list ≡ true }
    requires begun { guest.old.step ≤ n }
    requires bound { n ≤ 2 ^ 40 }
    requires room { H.retired host.old ≤ 2 ^ 63 }
    ensures whole { WedgeGoesTo (wedge image.now script.now.list guest.old.frames) n
        (state_in of_roots (wedge image.now script.now.list guest.old.frames)
        (scene guest.old pool.old (H.bytes host.old)))
        (around H.Host O.Sink host.old host.new out.old out.new) (H.bytes host.new) result }
{
    kept_on();
    let k = n - guest.step();
    let pause = match guest.slice(image, script, k, pool, host, out, &mut NoNotes) {
        Err(_) => return Err(RunFault::Write),
        Ok(pause) => pause,
    };
    let ended = Ended {
        steps: guest.step(),
        end: end_of(pause),
        fills: guest.fills(),
    };
    match put_end(&ended, out) {
        Err(_) => Err(RunFault::Write),
        Ok(()) => Ok(ended),
    }
}
