//! Which images are accepted of those that are made of padded instructions.

ghost use Rattle.std.specs.Prelude.{◌≡◌, ℕ, List, Ok};
ghost use Rattle.elf_form.specs.ImageParts.{ImageParts};
ghost use Rattle.image_check.specs.Checking.{image_with, image_from};
ghost use Rattle.built_images.specs.Chunks.{Chunk, chunk_sites};
ghost use Rattle.built_images.specs.Built.{IsBuilt, LeadsRight, IsAcceptedButForTargets};

/// An image whose text is made of padded instructions is accepted, or it is refused for the target of a branch; and it is
/// accepted where each branch leads to where one of them begins.
pub fn acceptance()
    ensures accepted_or_target { (parts : ImageParts) (cs : List Chunk) → IsBuilt parts cs → IsAcceptedButForTargets parts cs }
    ensures accepted { (parts : ImageParts) (cs : List Chunk) → IsBuilt parts cs → LeadsRight cs
        → image_from parts ≡ Ok (image_with parts (chunk_sites 0 cs)) }
{}
