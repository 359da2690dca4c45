//! Where no text goes on any more, though the fault shows only at the next token.

ghost use Rattle.std.specs.Prelude.{◌≡◌};
ghost use Rattle.std.specs.Option.{option_copied};
ghost use Rattle.asm_statement.specs.Statement as spec;

use crate::directive::{directive_named, is_defining, is_dotted};
use crate::fault::StepFault;
use crate::scope::Scope;
use crate::state::StatementState;
use crate::statement::step;
use asm_argument::{Terminal, awaits_register};
use asm_lex::SourceCause;
use asm_source::Name;
use std::alloc::Global;

/// Whether a fault at a `%` is that it stands there.
fn is_place(cause: SourceCause) -> bool
    ensures { result ≡ spec.is_place cause }
{
    match cause {
        SourceCause::BadOperand | SourceCause::BadArgument => true,
        _ => false,
    }
}

/// A fault at a `%`. Its cause rests on what follows, and what was said is of no more use.
fn stray(
    alloc: Global,
    scope: &mut Scope,
    line: u32,
    cause: SourceCause,
) -> Result<StatementState, StepFault>
    ensures { spec.Does scope.new result (spec.stray line cause) }
{
    if is_place(cause) {
        std::mem::replace(scope, Scope::new(alloc)).discard();
        Ok(StatementState::Stray { line, cause })
    } else {
        Err(StepFault::Cause(cause))
    }
}

/// The next terminal of a source, where a `%` may be one that may not stand there.
pub fn next_step(
    alloc: Global,
    scope: &mut Scope,
    state: StatementState,
    line: u32,
    terminal: Terminal,
) -> Result<StatementState, StepFault>
    ensures { spec.Does scope.new result (spec.next_step scope.old state line terminal) }
{
    match terminal {
        Terminal::Percent => {
            let at = fault_line(scope, &state, line);
            match step(alloc, scope, state, line, Terminal::Percent) {
                Err(StepFault::Cause(cause)) => stray(alloc, scope, at, cause),
                Err(StepFault::Memory) => Err(StepFault::Memory),
                Ok(state) => Ok(state),
            }
        }
        other => step(alloc, scope, state, line, other),
    }
}

/// Whether the name may begin no directive, so that only a colon can make it a label.
fn is_unknown(scope: &Scope, name: &Name) -> bool
    ensures { result ≡ spec.is_unknown scope.now name.now }
{
    is_dotted(name) && !scope.is_skipping() && directive_named(name).is_none()
}

/// Whether a label may not have the name.
fn is_taken(scope: &Scope, name: &Name) -> bool
    ensures { result ≡ spec.is_taken scope.now name.now }
{
    scope.is_defined(name) || !scope.has_room(name)
}

/// Whether the name begins a directive that defines a name, and none is left to define.
fn lacks_names(scope: &Scope, name: &Name) -> bool
    ensures { result ≡ spec.lacks_names scope.now name.now }
{
    is_dotted(name)
        && !scope.is_skipping()
        && is_defining(directive_named(name))
        && scope.is_spent()
}

/// The line of a token with which no text goes on, where one has been read.
fn doom(scope: &Scope, state: &StatementState) -> Option<u32>
    ensures { result ≡ spec.doom scope.now state.now }
{
    match state {
        StatementState::Stray { line, .. } => Some(*line),
        StatementState::Named { line: begun, name } => {
            ((is_unknown(scope, name) && is_taken(scope, name))
                || lacks_names(scope, name)).then_some(*begun)
        }
        _ => None,
    }
}

/// The line of a fault in this line.
pub fn fault_line(scope: &Scope, state: &StatementState, line: u32) -> u32
    ensures { result ≡ spec.fault_line scope.now state.now line }
{
    doom(scope, state).unwrap_or(line)
}

/// The cause at a token that has been read, where nothing that is a token follows.
fn pending(scope: &Scope, state: &StatementState) -> Option<SourceCause>
    ensures { result ≡ spec.pending scope.now state.now }
{
    match state {
        StatementState::Stray { .. } => Some(SourceCause::BadRegister),
        StatementState::Named { name, .. } => {
            if is_unknown(scope, name) {
                Some(SourceCause::UnknownDirective)
            } else {
                lacks_names(scope, name).then_some(SourceCause::TooManySymbols)
            }
        }
        StatementState::Arguments(begun) => {
            awaits_register(&begun.so_far).then_some(SourceCause::BadRegister)
        }
        _ => None,
    }
}

/// The line and the cause where a character is no token, or none of its kind.
pub fn stopped(
    scope: &Scope,
    state: &StatementState,
    line: u32,
    cause: SourceCause,
) -> (u32, SourceCause)
    ensures { result ≡ spec.stopped scope.now state.now line cause }
{
    let line = fault_line(scope, state, line);
    (line, pending(scope, state).unwrap_or(cause))
}

/// The line and the cause where a comment that began in this line doesn't end.
pub fn left_open(scope: &Scope, state: &StatementState, began: u32) -> (u32, SourceCause)
    ensures { result ≡ spec.left_open scope.now state.now began }
{
    match doom(scope, state) {
        None => (began, SourceCause::OpenComment),
        Some(line) => (
            line,
            pending(scope, state).unwrap_or(SourceCause::OpenComment),
        ),
    }
}
