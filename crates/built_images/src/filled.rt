//! Padded texts whose fields are filled by relocations.

ghost use Rattle.std.specs.Prelude.{◌≡◌, ℕ, List, length, fold};
ghost use Rattle.elf_form.specs.declared.object.Reloc.{Reloc};
ghost use Rattle.built_images.specs.Chunks.{Chunk, AreChunks, chunks_text, chunk_sites};
ghost use Rattle.built_images.specs.Filled.{HaveFields, chunks_relocs, fill, MakesWords, AreFilled};

/// A padded text whose relocations stand in fields is, when these are filled one after the other, a padded text again, of
/// instructions of the same rows and lengths; and then it has the same sites.
pub fn relocation()
    ensures filled { (made : Reloc → ℕ → ℕ) (cs : List Chunk) → MakesWords made → AreChunks cs → HaveFields cs
        → (ds : List Chunk) × AreChunks ds × AreFilled made 0 cs ds
        × (fold (fill made) (chunks_text cs) (chunks_relocs 0 cs) ≡ chunks_text ds) }
    ensures same_length { (made : Reloc → ℕ → ℕ) (cs ds : List Chunk) → AreFilled made 0 cs ds
        → length (chunks_text ds) ≡ length (chunks_text cs) }
    ensures same_sites { (made : Reloc → ℕ → ℕ) (cs ds : List Chunk) → AreFilled made 0 cs ds → chunk_sites 0 ds ≡ chunk_sites 0 cs }
{}
