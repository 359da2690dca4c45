//! The tokens of a source.

ghost use Rattle.std.specs.Prelude.{◌≡◌, ◌<◌, ◌≤◌, ◌++◌, ◌∷◌, [], length, List, IfOk, OnOk, ℕ};
ghost use Rattle.std.specs.Option.{option_to_list};
ghost use Rattle.asm_lex.specs.declared.token.Token.{Token};
ghost use Rattle.asm_lex.specs.declared.fault.SourceCause.{SourceCause as CauseView};
ghost use Rattle.asm_lex.specs.declared.fault.SourceCause.TheVariants.{TooLong};
ghost use Rattle.asm_lex.specs.declared.fault.SourceFault.TheVariants.{At};
ghost use Rattle.asm_lex.specs.Tokens as spec;
ghost use Rattle.asm_lex.specs.Lines.{RefusedAt};
ghost use Rattle.asm_lex.specs.Refused.{RefusedFor, IsRefused, RefusesAs};
ghost use Rattle.asm_lex.specs.Spans.{AreSpans};
ghost use Rattle.asm_lex.specs.Words as words;

use crate::fault::{SourceCause, SourceFault};
use crate::machine::{Mode, Next, Stepped};
use crate::reader::{Reader, read_bytes};
use crate::token::Token;
use std::alloc::{AllocError, Global};

fn push<T: Drop>(list: &mut Vec<T>, item: Option<T>) -> Result<(), AllocError>
    ensures { OnOk result (list.new.items ≡ list.old.items ++ option_to_list item) }
{
    if let Some(item) = item {
        list.push(item)?;
    }
    Ok(())
}

/// Adds the items that are there, at most two.
pub fn push_both<T: Drop>(
    list: &mut Vec<T>,
    first: Option<T>,
    second: Option<T>,
) -> Result<(), AllocError>
    ensures { OnOk result (list.new.items ≡ list.old.items ++ (option_to_list first ++ option_to_list second)) }
{
    push(list, first)?;
    push(list, second)?;
    Ok(())
}

/// The line after a byte.
#[tactic(auto, unfolding(crate::specs::Words::line_after))]
pub fn line_after(line: u32, b: u8) -> u32
    requires { line < 4294967295 }
    ensures { result ≡ words.line_after line b }
{
    if b == b'\n' { line + 1 } else { line }
}

impl Reader for Vec<Token> {
    ghost use Rattle.asm_lex.specs.Readers.{Lists};

    ghost takes = { λ v seen line s x. Lists v s x };

    fn take(
        self,
        _seen: &[u8],
        _line: u32,
        stepped: Stepped,
    ) -> Result<(Vec<Token>, Mode), SourceFault> {
        let mut tokens = self;
        match push_both(&mut tokens, stepped.first, stepped.second) {
            Err(_) => return Err(SourceFault::Memory),
            Ok(()) => {}
        }
        match stepped.next {
            Next::Stops(line, cause) => Err(SourceFault::At { line, cause }),
            Next::Goes(mode) => Ok((tokens, mode)),
        }
    }
}

/// The tokens of a source that ends with a newline, and what is open at its end.
pub fn tokens(alloc: Global, source: &[u8]) -> Result<(Vec<Token>, Mode), SourceFault>
    requires { length source.now < 4294967295 }
    ensures { spec.ScansTo result (spec.token_scan spec.between 0 1 source.now) }
{
    read_bytes(Vec::new(alloc), source)
}

/// The longest source.
pub const LIMIT: usize = 4194304;

/// The text with a newline at its end.
pub fn with_newline(alloc: Global, text: &[u8]) -> Result<Vec<u8>, AllocError>
    ensures { IfOk result (λ v. v.items ≡ text.now ++ 10 ∷ []) }
{
    let mut source = Vec::from_slice(alloc, text)?;
    source.push(b'\n')?;
    Ok(source)
}

/// The tokens of a text that isn't too long.
fn lexed(alloc: Global, text: &[u8]) -> Result<Vec<Token>, SourceFault>
    requires { length text.now ≤ LIMIT }
    ensures { spec.LexesTo result (spec.token_scan spec.between 0 1 (text.now ++ 10 ∷ [])) }
{
    let source = match with_newline(alloc, text) {
        Err(_) => return Err(SourceFault::Memory),
        Ok(source) => source,
    };
    match tokens(alloc, &source) {
        Err(fault) => Err(fault),
        Ok((mut tokens, mode)) => match mode {
            Mode::Block(line) => Err(SourceFault::At {
                line,
                cause: SourceCause::OpenComment,
            }),
            _ => {
                let _ = tokens.pop();
                Ok(tokens)
            }
        },
    }
}

/// The tokens of the text. A last line that lacks its newline is read as if it had one.
#[tactic(auto, using(crate::proofs::Readings::readings))]
pub fn lex(alloc: Global, text: &[u8]) -> Result<Vec<Token>, SourceFault>
    ensures long { LIMIT < length text.now → result ≡ Err (At 1 TooLong) }

    // Each is as long as it can be, and between them stand blanks and comments alone.
    ensures read { IfOk result (λ v. spec.AreTokens text.now v.items) }

    // They rise, and lie within the text.
    ensures spans { IfOk result (λ v. AreSpans 0 (length text.now) v.items) }

    // A text that has tokens is read, unless memory runs out.
    ensures only { length text.now ≤ LIMIT → (tokens : List Token) → spec.AreTokens text.now tokens → spec.LexedAs tokens result }

    // The first line from which no text that has tokens goes on; that of a comment that doesn't end is where it begins.
    ensures line { length text.now ≤ LIMIT → RefusedAt text.now result }

    // The cause is that of the first thing that is wrong: by cases, one for each way in which a text can't go on.
    ensures cause { length text.now ≤ LIMIT → RefusedFor text.now result }

    // Where these words say a line and a cause of the text, it is refused so, unless memory runs out.
    ensures cause_only { length text.now ≤ LIMIT → (line : ℕ) (cause : CauseView) → IsRefused text.now line cause →
        RefusesAs line cause result }

    // The scan from left to right, with the first fault and its line.
    ensures exact { length text.now ≤ LIMIT → spec.LexesTo result (spec.token_scan spec.between 0 1 (text.now ++ 10 ∷ [])) }
{
    if text.len() > LIMIT {
        return Err(SourceFault::At {
            line: 1,
            cause: SourceCause::TooLong,
        });
    }
    lexed(alloc, text)
}
