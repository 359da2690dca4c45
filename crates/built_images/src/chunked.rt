//! The sites of padded texts.

ghost use Rattle.std.specs.Prelude.{◌≡◌, ℕ, List, map, Some};
ghost use Rattle.image_check.specs.SweptTexts.{Sweep};
ghost use Rattle.image_check.specs.Accepts.{IsEntrance, sites_of};
ghost use Rattle.image_check.specs.Pieces.{piece_of};
ghost use Rattle.built_images.specs.Chunks.{Chunk, AreChunks, Begins, chunks_text, chunk_sites, chunks_swept};

/// A text of instructions, where each sensitive one is followed by NOPs up to five bytes, or is STI with HLT and three
/// NOPs, has the sweep of these and their sites, and control may come in where one begins.
pub fn padded()
    ensures sweep { (cs : List Chunk) → AreChunks cs → Sweep (chunks_text cs) (chunks_swept 0 cs) }
    ensures sites { (cs : List Chunk) → AreChunks cs → sites_of (map piece_of (chunks_swept 0 cs)) ≡ Some (chunk_sites 0 cs) }
    ensures entrances { (cs : List Chunk) → AreChunks cs → (at : ℕ) → Begins cs at → IsEntrance (chunks_swept 0 cs) (chunk_sites 0 cs) at }
{}
