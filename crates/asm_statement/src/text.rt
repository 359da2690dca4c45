//! A whole text.

ghost use Rattle.std.specs.Prelude.{◌≡◌, ◌≤◌, ◌<◌, length};
ghost use Rattle.asm_lex.specs.declared.fault.SourceCause.TheVariants.{TooLong};
ghost use Rattle.asm_lex.specs.declared.fault.SourceFault.TheVariants.{At};
ghost use Rattle.asm_statement.specs.Running as run;

use crate::dead::left_open;
use crate::reading::read;
use crate::scope::Scope;
use crate::state::{StatementState, discard};
use asm_lex::{LIMIT, Mode, SourceCause, SourceFault, with_newline};
use asm_source::Source;
use std::alloc::Global;

/// What was read, where no comment is open at the end.
fn ended(scope: Scope, state: StatementState, mode: Mode) -> Result<Source, SourceFault>
    ensures { (r : run.Running) → r.scope ≡ scope → r.state ≡ state → r.mode ≡ mode → run.Parses result (run.closed r mode) }
{
    match mode {
        Mode::Block(began) => {
            let (line, cause) = left_open(&scope, &state, began);
            discard(state);
            scope.discard();
            Err(SourceFault::At { line, cause })
        }
        _ => {
            discard(state);
            Ok(Source {
                items: scope.into_items(),
            })
        }
    }
}

/// Reads a source that isn't too long.
#[tactic(auto, unfolding(crate::specs::Running::read))]
fn parsed(alloc: Global, text: &[u8]) -> Result<Source, SourceFault>
    requires { length text.now ≤ LIMIT }
    ensures { run.Parses result (run.read text.now) }
{
    let source = match with_newline(alloc, text) {
        Err(_) => return Err(SourceFault::Memory),
        Ok(source) => source,
    };
    match read(alloc, &source) {
        Err(fault) => Err(fault),
        Ok((scope, state, mode)) => ended(scope, state, mode),
    }
}

/// The items of the text, read from left to right, or its first fault. `asm_parse` says what they are in the grammar's
/// words.
pub fn read_text(alloc: Global, text: &[u8]) -> Result<Source, SourceFault>
    ensures long { LIMIT < length text.now → result ≡ Err (At 1 TooLong) }

    // What is read from left to right, with the first fault and its line.
    ensures exact { length text.now ≤ LIMIT → run.Parses result (run.read text.now) }
{
    if text.len() > LIMIT {
        return Err(SourceFault::At {
            line: 1,
            cause: SourceCause::TooLong,
        });
    }
    parsed(alloc, text)
}
