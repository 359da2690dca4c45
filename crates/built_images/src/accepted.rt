//! What is burnt and linked is accepted.

ghost use Rattle.std.specs.Prelude.{◌≡◌, ◌≤◌, List, length, Ok};
ghost use Rattle.elf_form.specs.declared.segments.TheConstants.{FILE_LIMIT};
ghost use Rattle.elf_form.specs.ObjectParts.{ObjectParts};
ghost use Rattle.elf_form.specs.ImageParts.{ImageParts};
ghost use Rattle.elf_form.specs.ImageLayout.{image_bytes};
ghost use Rattle.elf_link.specs.Linked.{linked_image};
ghost use Rattle.image_check.specs.Image.{Image};
ghost use Rattle.image_check.specs.Accepts.{Accepts};
ghost use Rattle.built_images.specs.Sources.{AreBurnt, AreBurntAlone, IsAcceptedOrForTarget};

/// The file of an image that is linked of the objects of sources, where a file may be so long, is accepted, or it
/// is refused for the target of a branch. Where no direct branch of the sources names a symbol plus or minus a number, it
/// is accepted.
pub fn burnt_and_linked()
    ensures accepted_or_target { (os : List ObjectParts) (parts : ImageParts) → AreBurnt os
        → linked_image os ≡ Ok parts → length (image_bytes parts) ≤ FILE_LIMIT
        → IsAcceptedOrForTarget (image_bytes parts) }
    ensures accepted { (os : List ObjectParts) (parts : ImageParts) → AreBurntAlone os → linked_image os ≡ Ok parts
        → length (image_bytes parts) ≤ FILE_LIMIT → (image : Image) × Accepts (image_bytes parts) image }
{}
