//! One step of a patched run, with the host or without it.

ghost use Rattle.std.specs.Prelude.{◌≡◌, ◌+◌, ◌*◌, ◌≤◌, ◌<◌, ◌^◌, true, false};
ghost use Rattle.wedge_step.specs.Leaves.{Accounts, IsBetween};
ghost use Rattle.wedge_step.specs.Original.{IsOriginal};
ghost use Rattle.wedge_step.specs.Scene.{scene};
ghost use Rattle.wedge_step.specs.Standing.{IsAble};
ghost use Rattle.wedge_core.specs.Counts.{counts_of};
ghost use Rattle.wedge_core.specs.Stepped.{CountsOne, StepsOnce};
ghost use Rattle.wedge_core.specs.Views.{may_run};

use crate::laws::alones_go;
use crate::native::{Attempt, begin_native};
use crate::stretch::run_on;
use frame_pool::Pool;
use host_cpl3::Host;
use ia32_types::Stop;
use image_check::Checked;
use machine_model::steps_keep_able;
use machine_step::{Seen, Worked};
use shadow_cache::Reloads;
use step_mem::{StepState, Text};
use wedge_step::{Lost, Running, are_bytes, known_laws, step_alone};

/// One step, whose events were given. Whether all translations were dropped before it or after it is noted. It runs where
/// the host may do it. The text is the image's, and the step's state and outcome take the places of an earlier one's.
pub fn one_step<'t, S: Reloads + Drop, H: Host>(
    running: &mut Running<S>,
    pool: &mut Pool,
    host: &mut H,
    image: &Checked,
    text: &'t Option<Text<'t>>,
    notes_wanted: bool,
    runs: bool,
    state: &mut StepState<'t>,
    worked: &mut Worked,
) -> Result<Seen, Stop>
    requires runs { runs ≡ may_run running.old.cpu running.old.board image.now }
    requires text { IsOriginal image.now text.now }
    requires started { H.is_started host.old ≡ true }
    requires between { IsBetween S.Shadows image.now (scene running.old pool.old (H.bytes host.old)) }
    requires able { IsAble running.old.cpu }
    requires bound { running.old.step < 2 ^ 40 }
    requires room { H.retired host.old + 1 < 2 ^ 64 }
    ensures steps { StepsOnce S.Shadows image.now notes_wanted (scene running.old pool.old (H.bytes host.old))
        (scene running.new pool.new (H.bytes host.new)) result (counts_of H.Host host.old) (counts_of H.Host host.new) }
    ensures accounts { Accounts S.Shadows (scene running.old pool.old (H.bytes host.old)) (scene running.new pool.new (H.bytes host.new)) }
    ensures counts { CountsOne (counts_of H.Host host.old) (counts_of H.Host host.new) result }
    ensures started { H.is_started host.new ≡ true }
{
    alones_go();
    steps_keep_able();
    running.lost = Lost {
        before: false,
        after: false,
        reloaded: false,
    };
    if !runs {
        return step_alone(
            running,
            pool,
            host.ram_mut(),
            image,
            text,
            notes_wanted,
            state,
        );
    }
    on_host(
        running,
        pool,
        host,
        image,
        text,
        notes_wanted,
        state,
        worked,
    )
}

/// One step whose instruction the host may do, and before which nothing is lost.
fn on_host<'t, S: Reloads + Drop, H: Host>(
    running: &mut Running<S>,
    pool: &mut Pool,
    host: &mut H,
    image: &Checked,
    text: &'t Option<Text<'t>>,
    notes_wanted: bool,
    state: &mut StepState<'t>,
    worked: &mut Worked,
) -> Result<Seen, Stop>
    requires text { IsOriginal image.now text.now }
    requires started { H.is_started host.old ≡ true }
    requires between { IsBetween S.Shadows image.now (scene running.old pool.old (H.bytes host.old)) }
    requires able { IsAble running.old.cpu }
    requires bound { running.old.step < 2 ^ 40 }
    requires room { H.retired host.old + 1 < 2 ^ 64 }
    requires runs { may_run running.old.cpu running.old.board image.now ≡ true }
    requires kept { (running.old.lost.before ≡ false) × (running.old.lost.reloaded ≡ false) }
    ensures steps { StepsOnce S.Shadows image.now notes_wanted (scene running.old pool.old (H.bytes host.old))
        (scene running.new pool.new (H.bytes host.new)) result (counts_of H.Host host.old) (counts_of H.Host host.new) }
    ensures accounts { Accounts S.Shadows (scene running.old pool.old (H.bytes host.old)) (scene running.new pool.new (H.bytes host.new)) }
    ensures counts { CountsOne (counts_of H.Host host.old) (counts_of H.Host host.new) result }
    ensures started { H.is_started host.new ≡ true }
{
    known_laws();
    steps_keep_able();
    let frames = running.frames;
    match begin_native(
        running,
        pool,
        host.ram_mut(),
        image,
        text,
        notes_wanted,
        state,
        worked,
    ) {
        Err(stop) => Err(stop),
        Ok(Attempt::Stepped(seen)) => Ok(seen),
        Ok(Attempt::Asked) => {
            let _one = run_on(running, host, 1);
            are_bytes(host.ram(), image, frames);
            Ok(Seen::Nothing)
        }
    }
}
