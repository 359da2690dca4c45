//! The command `run`, on the bare machine or of a patched image on a host.

ghost use Rattle.std.specs.Prelude.{◌≡◌, ◌≤◌, ◌^◌, true};
ghost use Rattle.board.specs.ScriptForm.{is_script};
ghost use Rattle.pv_words.specs.View.{AreWithin};
ghost use Rattle.wedge_core.specs.Surroundings.{around};
ghost use Rattle.pv_tasks.specs.Outside.{outside};
ghost use Rattle.pv_tasks.specs.Faulting.{FaultsEnd};
ghost use Rattle.pv_tasks.specs.Answering.{AnswersOn};
ghost use Rattle.pv_tasks.specs.Tasks.{Means, FaultCounts};
ghost use Rattle.pv_tasks.specs.Running.{run_task};

use crate::patched::patched_run;
use bare_machine::run_bare;
use host_cpl3::Host;
use image_load::RunFault;
use pv_build::{Runnable, Status, end, runnable_in_files, tell_run};
use pv_io::{Files, Sink};
use pv_words::{RunMode, RunWords};
use run_trace::Ended;
use std::alloc::Global;

/// Runs an image under a script, and prints its trace.
pub fn run<F: Files, S: Sink, H: Host>(
    alloc: Global,
    mode: RunMode,
    words: RunWords<'_>,
    files: &mut F,
    out: &mut S,
    host: &mut H,
) -> Status
    requires within { AreWithin words }
    requires room { H.retired host.old ≤ 2 ^ 63 }
    ensures meaning { Means
        (run_task mode words.entry.image.now words.entry.script.now words.entry.frames words.entry.n)
        (outside F.Files S.Sink H.Host (files.old, files.new) (out.old, out.new) (host.old, host.new)) result }
    ensures counts { FaultCounts
        (run_task mode words.entry.image.now words.entry.script.now words.entry.frames words.entry.n)
        (outside F.Files S.Sink H.Host (files.old, files.new) (out.old, out.new) (host.old, host.new)) }
    ensures host { mode ≡ RunMode.Bare → host.new ≡ host.old }
    ensures ends { FaultsEnd F.Files S.Sink (files.old, files.new) (out.old, out.new) result }
{
    match runnable_in_files(alloc, words.image, words.script, files) {
        Err(halt) => end(&halt, out),
        Ok(found) => {
            let ran = run_found(alloc, mode, &found, words.frames, words.n, host, out);
            tell_run(alloc, ran, out)
        }
    }
}

// Runs what was found, and answers how the run ended.
fn run_found<S: Sink, H: Host>(
    alloc: Global,
    mode: RunMode,
    found: &Runnable,
    frames: u32,
    n: u64,
    host: &mut H,
    out: &mut S,
) -> Result<Ended, RunFault>
    requires script { is_script found.now.script.list ≡ true }
    requires limits { (2048 ≤ frames) × (frames ≤ 16384) × (n ≤ 2 ^ 40) }
    requires room { H.retired host.old ≤ 2 ^ 63 }
    ensures answers { AnswersOn mode frames n found.now.image found.now.script.list
        (around H.Host S.Sink host.old host.new out.old out.new) (H.bytes host.new) result }
    ensures host { mode ≡ RunMode.Bare → host.new ≡ host.old }
{
    match mode {
        RunMode::Bare => run_bare(alloc, &found.image, &found.script, frames, n, out),
        RunMode::Wedge => patched_run(alloc, &found.image, &found.script, frames, n, host, out),
    }
}
