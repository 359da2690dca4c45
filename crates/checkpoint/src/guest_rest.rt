//! A patched run up to a count of steps, at which it rests.

ghost use Rattle.std.specs.Prelude.{◌≡◌, ◌/◌, ◌≤◌, ◌^◌, length, true};
ghost use Rattle.guest_ram.specs.Bytes.{part};
ghost use Rattle.ia32_types.specs.declared.addresses.TheConstants.{TEXT_PLACE};
ghost use Rattle.board.specs.ScriptForm.{is_script};
ghost use Rattle.machine_model.specs.Fit.{Fit};
ghost use Rattle.machine_model.specs.State.{wedge};
ghost use Rattle.wedge_step.specs.Filled.{WereFilled};
ghost use Rattle.wedge_step.specs.Leaves.{IsBetween};
ghost use Rattle.wedge_step.specs.Scene.{kept_in, scene, state_in};
ghost use Rattle.wedge_step.specs.Standing.{IsAble};
ghost use Rattle.wedge_core.specs.Counts.{counts_of};
ghost use Rattle.wedge_core.specs.OfRoots.{of_roots};
ghost use Rattle.checkpoint.specs.InForm.{IsInForm};
ghost use Rattle.checkpoint.specs.Moved.{rested_from};
ghost use Rattle.checkpoint.specs.RestAnswers.{RestsAs, RestsFromStart, host_counts};

use crate::guest::{POOL_FRAMES, guest_from, state_of_guest};
use crate::rested::Rested;
use crate::state::State;
use board::Script;
use descriptors::Hidden;
use frame_pool::Pool;
use host_cpl3::Host;
use image_check::Checked;
use image_load::{RunFault, StartFault};
use machine_model::{each_run_begins_fit, runs_keep_fit};
use pv_io::Sink;
use run_trace::{End, Ended, NoNotes, Pause, put_end};
use std::alloc::Global;
use wedge_core::Guest;

/// Runs an image's patched text from the start, until `n` steps are done, and puts their lines.
pub fn save_wedge<H: Host, O: Sink>(
    alloc: Global,
    image: &Checked,
    script: &Script,
    frames: u32,
    n: u64,
    host: &mut H,
    out: &mut O,
) -> Result<Rested, RunFault>
    requires frames { (2048 ≤ frames) × (frames ≤ 16384) }
    requires script { is_script script.now.list ≡ true }
    requires bound { n ≤ 2 ^ 40 }
    requires room { H.retired host.old ≤ 2 ^ 63 }
    ensures rests { RestsFromStart (wedge image.now script.now.list frames) n
        (host_counts (wedge image.now script.now.list frames) (counts_of H.Host host.old) (counts_of H.Host host.new))
        (O.taken out.old) (O.taken out.new) (O.faults out.old) (O.faults out.new) result }
{
    each_run_begins_fit();
    match Guest::start(alloc, image, frames, POOL_FRAMES, host) {
        Err(StartFault::TooSmall(small)) => Err(RunFault::TooSmall(small)),
        Err(StartFault::Memory) => Err(RunFault::Memory),
        Ok((guest, pool)) => {
            let mut pool = pool;
            rest_wedge(alloc, guest, image, script, n, &mut pool, host, out)
        }
    }
}

/// Goes on from a checkpoint with the image's patched text, until `n` steps are done in all, and puts their lines.
pub fn save_wedge_from<H: Host, O: Sink>(
    alloc: Global,
    state: State,
    image: &Checked,
    script: &Script,
    n: u64,
    host: &mut H,
    out: &mut O,
) -> Result<Rested, RunFault>
    requires form { IsInForm state }
    requires able { IsAble state.cpu }
    requires text { part state.ram TEXT_PLACE (length image.now.text) ≡ image.now.text }
    requires script { is_script script.now.list ≡ true }
    requires begun { state.step ≤ n }
    requires bound { n ≤ 2 ^ 40 }
    requires room { H.retired host.old ≤ 2 ^ 63 }
    ensures rests { RestsAs (wedge image.now script.now.list (length state.ram / 4096)) n (rested_from state)
        (host_counts (wedge image.now script.now.list (length state.ram / 4096)) (counts_of H.Host host.old) (counts_of H.Host host.new))
        (O.taken out.old) (O.taken out.new) (O.faults out.old) (O.faults out.new) result }
{
    match guest_from(alloc, state, image, host) {
        Err(_) => Err(RunFault::Memory),
        Ok((guest, pool)) => {
            let mut pool = pool;
            rest_wedge(alloc, guest, image, script, n, &mut pool, host, out)
        }
    }
}

/// How many segment registers the processor has.
fn segment_count(segments: &[Hidden; 4]) -> usize
    ensures { length segments.now ≡ 4 }
{
    segments.len()
}

/// Goes on until `n` steps are done in all, and puts their lines. Where a stop comes before, the run's last line is put too.
pub fn rest_wedge<H: Host, O: Sink>(
    alloc: Global,
    guest: Guest,
    image: &Checked,
    script: &Script,
    n: u64,
    pool: &mut Pool,
    host: &mut H,
    out: &mut O,
) -> Result<Rested, RunFault>
    requires started { H.is_started host.old ≡ true }
    requires between { IsBetween of_roots image.now (scene guest pool.old (H.bytes host.old)) }
    requires able { IsAble guest.cpu }
    requires fit { Fit guest.cpu }
    requires filled { WereFilled (kept_in of_roots (scene guest pool.old (H.bytes host.old))) guest.fills }
    requires script { is_script script.now.list ≡ true }
    requires begun { guest.step ≤ n }
    requires bound { n ≤ 2 ^ 40 }
    requires room { H.retired host.old ≤ 2 ^ 63 }
    ensures rests { RestsAs (wedge image.now script.now.list guest.frames) n
        (state_in of_roots (wedge image.now script.now.list guest.frames) (scene guest pool.old (H.bytes host.old)))
        (host_counts (wedge image.now script.now.list guest.frames) (counts_of H.Host host.old) (counts_of H.Host host.new))
        (O.taken out.old) (O.taken out.new) (O.faults out.old) (O.faults out.new) result }
{
    let mut guest = guest;
    runs_keep_fit();
    segment_count(&guest.cpu().seg);
    let k = n - guest.step();
    let pause = match guest.slice(image, script, k, pool, host, out, &mut NoNotes) {
        Err(_) => return Err(RunFault::Write),
        Ok(pause) => pause,
    };
    match pause {
        Pause::Reached => match state_of_guest(alloc, guest, image, host) {
            Err(_) => Err(RunFault::Memory),
            Ok(state) => Ok(Rested::At(state)),
        },
        Pause::Stopped(stop) => {
            let ended = Ended {
                steps: guest.step(),
                end: End::Stopped(stop),
                fills: guest.fills(),
            };
            match put_end(&ended, out) {
                Err(_) => Err(RunFault::Write),
                Ok(()) => Ok(Rested::Stopped(ended)),
            }
        }
    }
}
