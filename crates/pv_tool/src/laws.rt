//! How one command goes on from what another has left.

ghost use Rattle.std.specs.Prelude.{◌≡◌, ◌≤◌, ℕ, false, List, Option, Some, Ok, length, bytes_eq};
ghost use Rattle.pv_io.specs.Files.{FileMap, Stores};
ghost use Rattle.elf_form.specs.declared.segments.TheConstants.{FILE_LIMIT};
ghost use Rattle.elf_form.specs.ObjectParts.{ObjectParts};
ghost use Rattle.elf_form.specs.ImageParts.{ImageParts};
ghost use Rattle.elf_form.specs.ImageLayout.{image_bytes};
ghost use Rattle.image_check.specs.Image.{Image};
ghost use Rattle.image_check.specs.Checking.{image_from};
ghost use Rattle.pv_build.specs.Objects.{HasObjects};
ghost use Rattle.pv_build.specs.Images.{HasImage, ImageReadsBack};
ghost use Rattle.pv_words.specs.Words.{Command};
ghost use Rattle.pv_tasks.specs.Outcome.{Outcome};
ghost use Rattle.pv_tool.specs.Asked.{task_of};
ghost use Rattle.pv_tool.specs.HeldObjects.{HoldObjects};
ghost use Rattle.pv_tool.specs.Moving.{MovesAreOneRun};

use checkpoint::legs_are_a_run;

/// Where the work of a command has an outcome over the files, each file that it reaches is held. After a store the name
/// holds what was stored, and each other name what it held. Names at which objects were stored hold these objects, whatever
/// else is held. A name at which a linked image was stored holds the image that its parts are checked as, with its text, data
/// and entry: `check` and `run` go on with that.
pub fn chains()
    ensures found { (command : Command) (told : FileMap) (w : Outcome) → (task_of command).gives (Some told) w
        → (task_of command).finds (Some told) }
    ensures objects { (told : FileMap) (names : List (List ℕ)) (os : List ObjectParts) → HoldObjects told names os
        → HasObjects (Some told) names os }
    ensures image { (told : FileMap) (name : List ℕ) (p : ImageParts) (program : Image) → told name ≡ Some (image_bytes p)
        → length (image_bytes p) ≤ FILE_LIMIT → ImageReadsBack p →
        image_from p ≡ Ok program → HasImage (Some told) name program }
    ensures stored { (told : FileMap) (new : Option FileMap) (name bytes : List ℕ) → Stores (Some told) new name bytes →
        (later : FileMap) × (new ≡ Some later) × (later name ≡ Some bytes) × ((q : List ℕ) → bytes_eq q name ≡ false → later q ≡ told q) }
    ensures parts { (p : ImageParts) (program : Image) → image_from p ≡ Ok program →
        (program.text ≡ p.text) × (program.init ≡ p.init) × (program.bss ≡ p.bss) × (program.entry ≡ p.entry) }
{}

/// A kernel that is saved, goes on and is saved again, any number of times and on either machine each time, and at last
/// goes on to its end, or to a stop before it could be saved again, has one run from boot. What its commands print, but for
/// the lines about a file, is that run's text. Each command has a part of it: steps of its own machine, from where
/// the command before ended, in which is seen what it printed itself. That of one that saves ends after as many steps in
/// all as it names.
pub fn moved()
    ensures { MovesAreOneRun }
{
    legs_are_a_run();
}
