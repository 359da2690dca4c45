//! What a command makes is delivered to the outside.

ghost use Rattle.std.specs.Prelude.{List, ℕ};
ghost use Rattle.wedge_core.specs.Counts.{Counts as HostCounts};
ghost use Rattle.pv_tasks.specs.Beside.{beside};
ghost use Rattle.pv_tasks.specs.Unread.{NotRead};
ghost use Rattle.pv_tasks.specs.Faulting.{FaultsEnd};
ghost use Rattle.pv_tasks.specs.Delivery.{Delivers};

use pv_build::{Made, Status, print};
use pv_io::{Files, IoAnswer, Sink};

/// Stores what was made, and then prints its line. The status is the one that is meant unless that fails.
#[tactic(auto, using(crate::proofs::Faults::ends_same, crate::proofs::Faults::ends_written))]
pub fn deliver<F: Files, S: Sink>(
    made: &Made,
    name: &str,
    meant: Status,
    files: &mut F,
    out: &mut S,
) -> Status
    ensures delivers { (completed : HostCounts) (memory : List ℕ)
        → Delivers name.now made.now.file.items made.now.line meant
        (beside F.Files S.Sink (files.old, files.new) (out.old, out.new) completed memory) result }
    ensures stored { NotRead F.Files files.old files.new }
    ensures ends { FaultsEnd F.Files S.Sink (files.old, files.new) (out.old, out.new) result }
{
    match files.store(name, &made.file) {
        Ok(()) => print(&made.line, meant, out),
        Err(IoAnswer::Failed) => Status::WriteFault,
        Err(IoAnswer::Memory) => Status::Memory,
    }
}
