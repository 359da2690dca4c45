//! The command `link`.

ghost use Rattle.std.specs.Prelude.{◌≡◌, ◌≤◌, List, ℕ, IfOk, IfErr, length, map, string_bytes};
ghost use Rattle.elf_form.specs.ImageParts.{ImageParts};
ghost use Rattle.elf_form.specs.ImageLayout.{image_bytes};
ghost use Rattle.pv_build.specs.Readings.{OnlyRead};
ghost use Rattle.pv_build.specs.Failures.{NoneFailedIn};
ghost use Rattle.pv_build.specs.Telling.{HaltsOverFiles};
ghost use Rattle.pv_build.specs.Objects.{FindsObjects};
ghost use Rattle.pv_build.specs.Images.{image_made_line};
ghost use Rattle.wedge_core.specs.Counts.{Counts as HostCounts};
ghost use Rattle.pv_tasks.specs.Beside.{beside};
ghost use Rattle.pv_tasks.specs.Faulting.{FaultsEnd};
ghost use Rattle.pv_tasks.specs.Outcome.{refused};
ghost use Rattle.pv_tasks.specs.Linking.{Links, HasLinked, link_task};
ghost use Rattle.pv_tasks.specs.Tasks.{Means, FaultCounts};

use crate::delivery::deliver;
use elf_link::{LinkFault, linked};
use pv_build::{Halt, Made, Status, end, image_file, link_line, objects_in, refused};
use pv_io::{Files, Sink};
use std::alloc::Global;

/// Makes an image of objects, stores it and prints what it has.
pub fn link<F: Files, S: Sink>(
    alloc: Global,
    image: &str,
    objects: &[String],
    files: &mut F,
    out: &mut S,
) -> Status
    requires { length objects.now ≤ 64 }
    ensures meaning { (completed : HostCounts) (memory : List ℕ)
        → Means (link_task image.now (map string_bytes objects.now))
        (beside F.Files S.Sink (files.old, files.new) (out.old, out.new) completed memory) result }
    ensures counts { (completed : HostCounts) (memory : List ℕ)
        → FaultCounts (link_task image.now (map string_bytes objects.now))
        (beside F.Files S.Sink (files.old, files.new) (out.old, out.new) completed memory) }
    ensures leaves { result ≡ Status.Done
        → (link_task image.now (map string_bytes objects.now)).leaves (F.held files.old) (F.held files.new) }
    ensures ends { FaultsEnd F.Files S.Sink (files.old, files.new) (out.old, out.new) result }
{
    match made(alloc, objects, files) {
        Err(halt) => end(&halt, out),
        Ok(made) => deliver(&made, image, Status::Done, files, out),
    }
}

// The image of the objects that files hold, as a file, and its line.
fn made<F: Files>(alloc: Global, names: &[String], files: &mut F) -> Result<Made, Halt>
    requires { length names.now ≤ 64 }
    ensures made { IfOk result (λ m. (p : ImageParts) × HasLinked (F.held files.old) (map string_bytes names.now) p
        × (m.file.items ≡ image_bytes p) × (m.line ≡ image_made_line p)) }
    ensures halted { IfErr result (HaltsOverFiles F.Files
        (FindsObjects (F.held files.old) (map string_bytes names.now)) files.old files.new
        (λ line. (image : List ℕ) → Links (F.held files.old) image (map string_bytes names.now) (refused line))) }
    ensures read { OnlyRead F.Files (FindsObjects (F.held files.old) (map string_bytes names.now)) files.old files.new }
    ensures kept { NoneFailedIn F.Files files.old files.new result }
{
    let objects = objects_in(alloc, names, files)?;
    match linked(alloc, &objects) {
        Ok(image) => Ok(image_file(alloc, &image)?),
        Err(LinkFault::Memory) => Err(Halt::Memory),
        Err(LinkFault::At { object, cause }) => Err(refused(link_line(alloc, object, &cause))),
    }
}
