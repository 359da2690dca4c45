//! What every source has.

ghost use Rattle.std.specs.Prelude.{◌≡◌, List, ℕ};
ghost use Rattle.asm_source.specs.declared.tree.SourceItem.{SourceItem};
ghost use Rattle.asm_lex.specs.declared.fault.SourceCause.{SourceCause};
ghost use Rattle.asm_parse.specs.Source.{SourceAs};
ghost use Rattle.asm_parse.specs.Reads.{HasReading};
ghost use Rattle.asm_parse.specs.Refusals.{Refused};
ghost use Rattle.asm_source.specs.Readable.{IsReadable};

/// The items that some text is the source of fit into an object, whoever read them.
pub fn sources_are_readable()
    ensures { (text : List ℕ) (items : List SourceItem) → SourceAs text items → IsReadable items }
{}

/// In the grammar's words a text is refused in one line and for one cause alone.
pub fn one_cause_fits()
    ensures { (text : List ℕ) (line other : ℕ) (cause second : SourceCause) → Refused text line cause →
        Refused text other second → (line ≡ other) × (cause ≡ second) }
{}

/// What is refused in the grammar's words has no reading.
pub fn refused_has_no_reading()
    ensures { (text : List ℕ) (line : ℕ) (cause : SourceCause) → Refused text line cause → HasReading text → ⊥ }
{}
