//! A source, byte by byte, by any reader of its tokens.

ghost use Rattle.std.specs.Prelude.{◌≡◌, ◌<◌, [], length, IfOk};
ghost use Rattle.asm_lex.specs.declared.machine.Mode.TheVariants.{Between};
ghost use Rattle.asm_lex.specs.declared.machine.Next.TheVariants.{Goes};
ghost use Rattle.asm_lex.specs.Readers.{Fits, ReadsTo};

use crate::fault::SourceFault;
use crate::lexing::line_after;
use crate::machine::{Mode, Stepped, step};

/// A reader of a source's tokens, which takes them as the bytes close and end them.
pub trait Reader: Sized {
    ghost use Rattle.std.specs.Prelude.{ℕ, List, Result};
    ghost use Rattle.asm_lex.specs.declared.fault.SourceFault.{SourceFault};
    ghost use Rattle.asm_lex.specs.declared.machine.Mode.{Mode};
    ghost use Rattle.asm_lex.specs.declared.machine.Stepped.{Stepped};

    /// The result of one byte: with the bytes up to and including it, its line, and what it does.
    ghost takes: { Self → List ℕ → ℕ → Stepped → Result (Self × Mode) SourceFault → Type 0 };

    /// Takes the tokens that a byte of this line closes or ends, and says what the byte leaves open. `seen` has the
    /// bytes up to and including it.
    fn take(self, seen: &[u8], line: u32, stepped: Stepped) -> Result<(Self, Mode), SourceFault>
        requires first { Fits seen.now stepped.first }
        requires second { Fits seen.now stepped.second }
        ensures takes { takes self seen.now line stepped result }
        ensures next { IfOk result (λ x. stepped.next ≡ Goes x.1) };
}

/// The reader after a source, and what is open at its end; or the first fault.
pub fn read_bytes<R: Reader>(reader: R, source: &[u8]) -> Result<(R, Mode), SourceFault>
    requires { length source.now < 4294967295 }
    ensures { ReadsTo R.takes reader Between [] 0 1 source.now result }
{
    let mut reader = reader;
    let mut mode = Mode::Between;
    let mut line = 1u32;
    for (i, b) in source.iter().enumerate() {
        let stepped = step(mode, i as u32, line, *b);
        match reader.take(&source[..i + 1], line, stepped) {
            Err(fault) => return Err(fault),
            Ok((next_reader, next_mode)) => {
                reader = next_reader;
                mode = next_mode;
            }
        }
        line = line_after(line, *b);
    }
    Ok((reader, mode))
}
