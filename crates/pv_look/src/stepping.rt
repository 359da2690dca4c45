//! The form `steps`.

ghost use Rattle.std.specs.Prelude.{◌≡◌, ◌≤◌, ◌^◌, ℕ, List, true};
ghost use Rattle.board.specs.ScriptForm.{is_script};
ghost use Rattle.wedge_core.specs.Counts.{Counts as HostCounts};
ghost use Rattle.pv_tasks.specs.Beside.{beside};
ghost use Rattle.pv_tasks.specs.Faulting.{FaultsEnd};
ghost use Rattle.pv_tasks.specs.Tasks.{Means, FaultCounts};
ghost use Rattle.look_words.specs.View.{IsRun, run_view, only_view};
ghost use Rattle.pv_look.specs.Stepping.{steps_task};

use look_words::{LookedRun, Only};
use pv_build::{Status, end, runnable_in_files, tell_run};
use pv_io::{Files, Sink};
use std::alloc::Global;
use step_trace::trace_steps;

/// Runs an image under a script up to the step `to`, and prints its trace, with the lines of its steps from `from` on that
/// are asked for.
pub fn steps<F: Files, S: Sink>(
    alloc: Global,
    run: LookedRun<'_>,
    from: u64,
    to: u64,
    only: Only,
    files: &mut F,
    out: &mut S,
) -> Status
    requires run { IsRun run }
    requires bound { to ≤ 2 ^ 40 }
    ensures meaning { (completed : HostCounts) (memory : List ℕ)
        → Means (steps_task (run_view run.entry) from to (only_view only))
        (beside F.Files S.Sink (files.old, files.new) (out.old, out.new) completed memory) result }
    ensures counts { (completed : HostCounts) (memory : List ℕ)
        → FaultCounts (steps_task (run_view run.entry) from to (only_view only))
        (beside F.Files S.Sink (files.old, files.new) (out.old, out.new) completed memory) }
    ensures ends { FaultsEnd F.Files S.Sink (files.old, files.new) (out.old, out.new) result }
{
    match runnable_in_files(alloc, run.image, run.script, files) {
        Err(halt) => end(&halt, out),
        Ok(found) => {
            let ran = trace_steps(
                alloc,
                &found.image,
                &found.script,
                run.frames,
                to,
                from,
                &only,
                out,
            );
            tell_run(alloc, ran, out)
        }
    }
}
