//! Linked images of objects whose texts are padded instructions.

ghost use Rattle.std.specs.Prelude.{◌≡◌, ℕ, List, Ok};
ghost use Rattle.elf_form.specs.ObjectParts.{ObjectParts};
ghost use Rattle.elf_form.specs.ImageParts.{ImageParts};
ghost use Rattle.elf_link.specs.Linked.{linked_image};
ghost use Rattle.built_images.specs.Chunks.{Chunk};
ghost use Rattle.built_images.specs.Built.{IsBuilt, LeadsRight};
ghost use Rattle.built_images.specs.Padded.{ArePadded, AreAlone, AnyChunks};

/// What is linked of padded objects is an image of padded instructions; and where no branch names a symbol with a number,
/// each branch leads to where one of them begins.
pub fn linking()
    ensures built { (os : List ObjectParts) (parts : ImageParts) → ArePadded AnyChunks os
        → linked_image os ≡ Ok parts → (cs : List Chunk) × IsBuilt parts cs }
    ensures branches { (os : List ObjectParts) (parts : ImageParts) → ArePadded AreAlone os
        → linked_image os ≡ Ok parts → (cs : List Chunk) × IsBuilt parts cs × LeadsRight cs }
{}
