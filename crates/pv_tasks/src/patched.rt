//! Runs of a patched image on a host.

ghost use Rattle.std.specs.Prelude.{◌≡◌, ◌≤◌, ◌^◌, true};
ghost use Rattle.board.specs.ScriptForm.{is_script};
ghost use Rattle.wedge_core.specs.Answers.{WedgeAnswers};
ghost use Rattle.wedge_core.specs.Surroundings.{around};

use board::Script;
use host_cpl3::Host;
use image_check::Checked;
use image_load::RunFault;
use pv_io::Sink;
use run_trace::Ended;
use std::alloc::Global;
use wedge_core::run_wedge;

/// How many frames the shadows of a run have.
const POOL: u32 = 512;

/// Runs the patched image over a pool of its own.
pub fn patched_run<H: Host, S: Sink>(
    alloc: Global,
    image: &Checked,
    events: &Script,
    frames: u32,
    n: u64,
    host: &mut H,
    out: &mut S,
) -> Result<Ended, RunFault>
    requires script { is_script events.now.list ≡ true }
    requires limits { (2048 ≤ frames) × (frames ≤ 16384) × (n ≤ 2 ^ 40) }
    requires room { H.retired host.old ≤ 2 ^ 63 }
    ensures { WedgeAnswers image.now events.now.list frames n 512 (around H.Host S.Sink host.old host.new out.old out.new)
        (H.bytes host.new) result }
{
    run_wedge(alloc, image, events, frames, n, POOL, host, out)
}
