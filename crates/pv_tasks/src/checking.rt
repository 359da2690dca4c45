//! The command `check`.

ghost use Rattle.std.specs.Prelude.{List, ℕ};
ghost use Rattle.wedge_core.specs.Counts.{Counts as HostCounts};
ghost use Rattle.pv_tasks.specs.Beside.{beside};
ghost use Rattle.pv_tasks.specs.Faulting.{FaultsEnd};
ghost use Rattle.pv_tasks.specs.Checking.{check_task};
ghost use Rattle.pv_tasks.specs.Tasks.{Means, FaultCounts};

use pv_build::{Status, accepted, accepted_line, end, print};
use pv_io::{Files, Sink};
use std::alloc::Global;

/// Prints what an image has, or why it is not accepted.
pub fn check<F: Files, S: Sink>(alloc: Global, name: &str, files: &mut F, out: &mut S) -> Status
    ensures meaning { (completed : HostCounts) (memory : List ℕ)
        → Means (check_task name.now) (beside F.Files S.Sink (files.old, files.new) (out.old, out.new) completed memory) result }
    ensures counts { (completed : HostCounts) (memory : List ℕ)
        → FaultCounts (check_task name.now) (beside F.Files S.Sink (files.old, files.new) (out.old, out.new) completed memory) }
    ensures ends { FaultsEnd F.Files S.Sink (files.old, files.new) (out.old, out.new) result }
{
    match accepted(alloc, name, files) {
        Err(halt) => end(&halt, out),
        Ok(image) => match accepted_line(alloc, &image) {
            Err(_) => Status::Memory,
            Ok(line) => print(&line, Status::Done, out),
        },
    }
}
