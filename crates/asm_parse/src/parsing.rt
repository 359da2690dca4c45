//! The items of a source.

ghost use Rattle.std.specs.Prelude.{◌≡◌, ◌≤◌, ◌<◌, ℕ, length, List, IfOk};
ghost use Rattle.asm_source.specs.declared.tree.SourceItem.{SourceItem};
ghost use Rattle.asm_parse.specs.Source.{SourceAs};
ghost use Rattle.asm_parse.specs.Reads.{ReadsAs, DeadAt, AliveBefore};
ghost use Rattle.asm_source.specs.Readable.{IsReadable};
ghost use Rattle.asm_source.specs.Size.{items_size, items_count};
ghost use Rattle.asm_lex.specs.declared.fault.SourceCause.TheVariants.{TooLong};
ghost use Rattle.asm_lex.specs.declared.fault.SourceFault.TheVariants.{At};
ghost use Rattle.asm_lex.specs.declared.fault.SourceCause.{SourceCause as CauseView};
ghost use Rattle.asm_lex.specs.Refused.{RefusesAs};
ghost use Rattle.asm_parse.specs.Refusals.{Refused};
ghost use Rattle.asm_parse.specs.Answers.{RefusedFor};
ghost use Rattle.asm_statement.specs.Running as run;

use asm_lex::{LIMIT, SourceFault};
use asm_source::Source;
use asm_statement::read_text;
use std::alloc::Global;

/// The items of the source.
pub fn parse(alloc: Global, text: &[u8]) -> Result<Source, SourceFault>
    ensures long { LIMIT < length text.now → result ≡ Err (At 1 TooLong) }

    // What is read is a source with these items.
    ensures read { IfOk result (λ s. SourceAs text.now s) }

    // All names and strings of the items together are no longer than the text, and items and arguments no more than its bytes.
    ensures size { IfOk result (λ s. items_size s ≤ length text.now) }
    ensures count { IfOk result (λ s. items_count s ≤ length text.now) }

    // So they fit into an object: they name at most 65,536 symbols, none with a zero byte.
    ensures readable { IfOk result IsReadable }

    // A source is read, unless memory runs out.
    ensures only { (items : List SourceItem) → SourceAs text.now items → ReadsAs items result }

    // What is read from left to right, with the first fault and its line.
    ensures exact { length text.now ≤ LIMIT → run.Parses result (run.read text.now) }

    // No text that begins with the lines up to the fault's has a reading.
    ensures dead { length text.now ≤ LIMIT → DeadAt text.now result }

    // The lines before it go on.
    ensures alive { length text.now ≤ LIMIT → AliveBefore text.now result }

    // The cause is that of the first word with which no source goes on, or of what ends the words: by cases, in the grammar's words.
    ensures cause { length text.now ≤ LIMIT → RefusedFor text.now result }

    // Where these words say a line and a cause of the text, it is refused so, unless memory runs out.
    ensures cause_only { length text.now ≤ LIMIT → (line : ℕ) (cause : CauseView) → Refused text.now line cause →
        RefusesAs line cause result }
{
    read_text(alloc, text)
}
