//! The command `burn`.

ghost use Rattle.std.specs.Prelude.{◌≡◌, List, ℕ, IfOk, IfErr};
ghost use Rattle.pv_io.specs.Files.{IsHeld};
ghost use Rattle.elf_form.specs.ObjectParts.{ObjectParts};
ghost use Rattle.elf_form.specs.ObjectLayout.{object_bytes};
ghost use Rattle.pv_build.specs.Readings.{OnlyRead};
ghost use Rattle.pv_build.specs.Failures.{NoneFailedIn};
ghost use Rattle.pv_build.specs.Telling.{HaltsOverFiles};
ghost use Rattle.pv_build.specs.Objects.{ReadsBack, object_made_line};
ghost use Rattle.wedge_core.specs.Counts.{Counts as HostCounts};
ghost use Rattle.pv_tasks.specs.Beside.{beside};
ghost use Rattle.pv_tasks.specs.Faulting.{FaultsEnd};
ghost use Rattle.pv_tasks.specs.Outcome.{refused};
ghost use Rattle.pv_tasks.specs.Burning.{Burns, HasBurnt, burn_task};
ghost use Rattle.pv_tasks.specs.Tasks.{Means, FaultCounts};

use crate::delivery::deliver;
use afterburner::{BurnFault, burn as burn_source};
use pv_build::{Halt, Made, Status, end, object_file, refusal_at_line, refused, source_in_file};
use pv_io::{Files, Sink};
use std::alloc::Global;

/// Makes an object of a source, stores it and prints what it has.
pub fn burn<F: Files, S: Sink>(
    alloc: Global,
    source: &str,
    object: &str,
    files: &mut F,
    out: &mut S,
) -> Status
    ensures meaning { (completed : HostCounts) (memory : List ℕ)
        → Means (burn_task source.now object.now) (beside F.Files S.Sink (files.old, files.new) (out.old, out.new) completed memory) result }
    ensures counts { (completed : HostCounts) (memory : List ℕ)
        → FaultCounts (burn_task source.now object.now) (beside F.Files S.Sink (files.old, files.new) (out.old, out.new) completed memory) }
    ensures leaves { result ≡ Status.Done → (burn_task source.now object.now).leaves (F.held files.old) (F.held files.new) }
    ensures ends { FaultsEnd F.Files S.Sink (files.old, files.new) (out.old, out.new) result }
{
    match made(alloc, source, files) {
        Err(halt) => end(&halt, out),
        Ok(made) => deliver(&made, object, Status::Done, files, out),
    }
}

// The object of a source that a file holds, as a file, and its line.
fn made<F: Files>(alloc: Global, name: &str, files: &mut F) -> Result<Made, Halt>
    ensures made { IfOk result (λ m. (o : ObjectParts) × HasBurnt (F.held files.old) name.now o × (m.file.items ≡ object_bytes o)
        × (m.line ≡ object_made_line o) × ReadsBack o) }
    ensures halted { IfErr result (HaltsOverFiles F.Files (IsHeld (F.held files.old) name.now) files.old files.new
        (λ line. (object : List ℕ) → Burns (F.held files.old) name.now object (refused line))) }
    ensures read { OnlyRead F.Files (IsHeld (F.held files.old) name.now) files.old files.new }
    ensures kept { NoneFailedIn F.Files files.old files.new result }
{
    let source = source_in_file(alloc, name, files)?;
    match burn_source(alloc, &source) {
        Ok(object) => Ok(object_file(alloc, &object)?),
        Err(BurnFault::Memory) => Err(Halt::Memory),
        Err(BurnFault::At { line, cause }) => {
            Err(refused(refusal_at_line(alloc, cause.number() as u32, line as u64)))
        }
    }
}
