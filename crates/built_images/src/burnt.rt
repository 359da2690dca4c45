//! What is burnt is padded.

ghost use Rattle.std.specs.Prelude.{List};
ghost use Rattle.elf_form.specs.ObjectParts.{ObjectParts};
ghost use Rattle.built_images.specs.Chunks.{Chunk};
ghost use Rattle.built_images.specs.Padded.{IsPadded, AreAlone};
ghost use Rattle.built_images.specs.Sources.{IsBurnt, NameNoNumbers};

/// The object of a source is made of padded instructions; and where no direct branch of it names a symbol plus or minus a
/// number, the fields of its branches hold -4.
pub fn burning()
    ensures { (o : ObjectParts) (b : IsBurnt o) → (cs : List Chunk) × IsPadded o cs × (NameNoNumbers b.items → AreAlone cs) }
{}
