//! A slice of a patched run.

ghost use Rattle.std.specs.Prelude.{◌≡◌, ◌+◌, ◌-◌, ◌*◌, ◌≤◌, ◌<◌, ◌^◌, true, false};
ghost use Rattle.board.specs.ScriptForm.{is_script};
ghost use Rattle.machine_model.specs.State.{wedge};
ghost use Rattle.wedge_step.specs.Leaves.{IsBetween};
ghost use Rattle.wedge_step.specs.Scene.{scene};
ghost use Rattle.wedge_step.specs.Standing.{IsAble};
ghost use Rattle.wedge_core.specs.Sliced.{BeginsCarried, FaultsOf, SliceIn, SliceLeaves, StaysSilent, noting, outward};

use crate::noting::{tell, tell_both};
use crate::rest::rest;
use crate::step::one_step;
use crate::stretch::{may_run, stretch};
use board::Script;
use frame_pool::Pool;
use host_cpl3::Host;
use image_check::Checked;
use machine_step::{Worked, first_state, put_seen};
use pv_io::{Failed, Sink};
use run_trace::{Notes, Pause};
use shadow_cache::Reloads;
use wedge_step::{Running, carry_laws, original};

/// Steps up to a count of steps, or to a stop. The lines of a step go to the sink at its end. Before which steps all
/// translations were dropped is reported, where notes are wanted; then no translations are kept for another value of CR3.
pub fn steps_to<S: Reloads + Drop, H: Host, O: Sink, L: Notes>(
    running: &mut Running<S>,
    image: &Checked,
    script: &Script,
    bound: u64,
    pool: &mut Pool,
    host: &mut H,
    out: &mut O,
    notes: &mut L,
) -> Result<Pause, Failed>
    requires started { H.is_started host.old ≡ true }
    requires between { IsBetween S.Shadows image.now (scene running.old pool.old (H.bytes host.old)) }
    requires able { IsAble running.old.cpu }
    requires script { is_script script.now.list ≡ true }
    requires begun { running.old.step ≤ bound }
    requires bound { bound ≤ 2 ^ 40 }
    requires room { H.retired host.old + (bound - running.old.step) < 2 ^ 64 }
    ensures slice { SliceIn S.Shadows (wedge image.now script.now.list running.old.frames) bound
        (scene running.old pool.old (H.bytes host.old)) (scene running.new pool.new (H.bytes host.new))
        (outward H.Host O.Sink host.old host.new out.old out.new) (noting L.Notes notes.old notes.new)
        (BeginsCarried S.Shadows image.now script.now.list (scene running.old pool.old (H.bytes host.old)) (L.wants notes.old)) result }
    ensures leaves { SliceLeaves S.Shadows image.now bound (scene running.old pool.old (H.bytes host.old))
        (scene running.new pool.new (H.bytes host.new)) result }
    ensures silent { StaysSilent L.Notes notes.old notes.new }
    ensures faults { FaultsOf (O.faults out.old) (O.faults out.new) result }
    ensures started { H.is_started host.new ≡ true }
{
    let notes_wanted = notes.wanted();
    carry_laws();
    let text = Some(original(image));
    let mut state = first_state(&text);
    let mut worked = Worked::at(&running.cpu);
    let mut cut = false;
    while running.step < bound {
        running.board.begin(script, running.step);
        let runs = may_run(&running.cpu, &running.board, image);
        if stretch(running, host, image, script, bound, runs, &mut cut) > 0 {
            continue;
        }
        let before = running.step;
        match one_step(
            running,
            pool,
            host,
            image,
            &text,
            notes_wanted,
            runs,
            &mut state,
            &mut worked,
        ) {
            Err(stop) => {
                tell(notes, running.lost.before, before);
                return Ok(Pause::Stopped(stop));
            }
            Ok(seen) => {
                tell_both(notes, running.lost, before);
                match put_seen(before, seen, out) {
                    Ok(()) => {}
                    Err(failed) => return Err(failed),
                }
            }
        }
        rest(running, script, bound);
    }
    Ok(Pause::Reached)
}
