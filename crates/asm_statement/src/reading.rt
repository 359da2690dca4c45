//! A source, read from left to right.

ghost use Rattle.std.specs.Prelude.{◌≡◌, ◌≤◌, ◌<◌, ◌+◌, ◌^◌, ◌∷◌, ◌++◌, [], length, take, IfOk, Some, None, if◌then◌else◌, nat_lt};
ghost use Rattle.std.specs.List.{list_all};
ghost use Rattle.asm_lex.specs.declared.machine.Next.TheVariants.{Goes};
ghost use Rattle.asm_lex.specs.Readers.{Fits};
ghost use Rattle.asm_statement.specs.Statement.{fault_line, next_step};
ghost use Rattle.asm_statement.specs.Reading as spec;
ghost use Rattle.asm_statement.specs.Items as items;
ghost use Rattle.asm_statement.specs.Running as run;

use crate::dead::{fault_line, next_step, stopped};
use crate::fault::StepFault;
use crate::scope::Scope;
use crate::state::{StatementState, discard};
use asm_argument::{Terminal, terminal_of};
use asm_lex::{Mode, Next, Reader, SourceFault, Stepped, Token, TokenKind, read_bytes};
use asm_source::Name;
use std::alloc::{AllocError, Global};

/// The answer of a step, with its line.
fn at_line(
    line: u32,
    stepped: Result<StatementState, StepFault>,
) -> Result<StatementState, SourceFault>
    ensures { result ≡ spec.at_line line stepped }
{
    match stepped {
        Ok(state) => Ok(state),
        Err(StepFault::Cause(cause)) => Err(SourceFault::At { line, cause }),
        Err(StepFault::Memory) => Err(SourceFault::Memory),
    }
}

/// A token as the grammar sees it, in this line.
fn feed_terminal(
    alloc: Global,
    scope: &mut Scope,
    state: StatementState,
    line: u32,
    terminal: Terminal,
) -> Result<StatementState, SourceFault>
    ensures { spec.Feeds scope.new result (spec.placed (fault_line scope.old state line) (next_step scope.old state line terminal)) }
{
    let at = fault_line(scope, &state, line);
    at_line(at, next_step(alloc, scope, state, line, terminal))
}

/// Whether no comma and no blank is in the token's bytes, and it ends no statement.
fn is_part(kind: TokenKind, bytes: &[u8]) -> bool
    ensures { result ≡ items.is_part kind bytes.now }
{
    match kind {
        TokenKind::End => false,
        TokenKind::Mark(m) => m != b',',
        TokenKind::Name | TokenKind::Number | TokenKind::Text => are_inside(bytes),
    }
}

fn are_inside(bytes: &[u8]) -> bool
    ensures { result ≡ list_all items.is_inside bytes.now }
{
    bytes
        .iter()
        .all(|b| !(*b == b',' || *b == b' ' || *b == b'\t'))
}

/// Whether the token at this place goes on with a section's name.
fn is_longer(state: &StatementState, at: usize, kind: TokenKind, bytes: &[u8]) -> bool
    ensures { result ≡ spec.is_longer state.now at kind bytes.now }
{
    match state {
        StatementState::Sectioned { end, .. } => *end == at && is_part(kind, bytes),
        _ => false,
    }
}

/// A section's name with the token's bytes, which end at this place.
fn longer(state: StatementState, end: usize, bytes: &[u8]) -> Result<StatementState, AllocError>
    ensures { IfOk result (λ st. st ≡ spec.longer state end bytes.now) }
{
    match state {
        StatementState::Sectioned {
            line,
            name,
            section,
            ..
        } => {
            let mut section = section.bytes;
            section.extend_from_slice(bytes)?;
            Ok(StatementState::Sectioned {
                line,
                name,
                section: Name { bytes: section },
                end,
            })
        }
        other => Ok(other),
    }
}

/// The place after the first token of a section's name.
fn ending_at(end: usize, state: StatementState) -> StatementState
    ensures { result ≡ spec.ending_at end state }
{
    match state {
        StatementState::Sectioned {
            line,
            name,
            section,
            ..
        } => StatementState::Sectioned {
            line,
            name,
            section,
            end,
        },
        other => other,
    }
}

/// A word: a token with its place and its bytes.
fn feed_word(
    alloc: Global,
    scope: &mut Scope,
    state: StatementState,
    at: usize,
    line: u32,
    kind: TokenKind,
    bytes: &[u8],
) -> Result<StatementState, SourceFault>
    requires { at + length bytes.now < 2 ^ 63 }
    ensures { spec.Feeds scope.new result (spec.placed (fault_line scope.old state line)
        (spec.next_word scope.old state (record { kind = kind; at = at; line = line; bytes = bytes.now }))) }
{
    let end = at + bytes.len();
    if is_longer(&state, at, kind, bytes) {
        return match longer(state, end, bytes) {
            Err(_) => Err(SourceFault::Memory),
            Ok(state) => Ok(state),
        };
    }
    let terminal = match terminal_of(alloc, kind, bytes) {
        Ok(terminal) => terminal,
        Err(_) => {
            discard(state);
            return Err(SourceFault::Memory);
        }
    };
    match feed_terminal(alloc, scope, state, line, terminal) {
        Err(fault) => Err(fault),
        Ok(state) => Ok(ending_at(end, state)),
    }
}

/// A token.
fn feed_token(
    alloc: Global,
    scope: &mut Scope,
    state: StatementState,
    seen: &[u8],
    line: u32,
    token: Token,
) -> Result<StatementState, SourceFault>
    requires { token.at + token.len ≤ length seen.now }
    ensures { spec.Feeds scope.new result (spec.fed scope.old state seen.now line (Some token)) }
{
    let from = token.at as usize;
    let len = token.len as usize;
    let bytes = &seen[from..from + len];
    feed_word(alloc, scope, state, from, line, token.kind, bytes)
}

/// A token that may be there.
fn feed(
    alloc: Global,
    scope: &mut Scope,
    state: StatementState,
    seen: &[u8],
    line: u32,
    token: Option<Token>,
) -> Result<StatementState, SourceFault>
    requires { Fits seen.now token }
    ensures { spec.Feeds scope.new result (spec.fed scope.old state seen.now line token) }
{
    match token {
        None => Ok(state),
        Some(token) => feed_token(alloc, scope, state, seen, line, token),
    }
}

/// The token that ends with a byte, and what comes after it.
fn second_token(
    alloc: Global,
    scope: &mut Scope,
    state: StatementState,
    seen: &[u8],
    line: u32,
    second: Option<Token>,
    next: Next,
) -> Result<(StatementState, Mode), SourceFault>
    requires { Fits seen.now second }
    ensures does { run.DoesByte scope.new result (run.second_does scope.old state seen.now line second next) }
    ensures next { IfOk result (λ x. next ≡ Goes x.1) }
{
    match feed(alloc, scope, state, seen, line, second) {
        Err(fault) => Err(fault),
        Ok(state) => match next {
            Next::Goes(mode) => Ok((state, mode)),
            Next::Stops(_, cause) => {
                let (line, cause) = stopped(scope, &state, line, cause);
                discard(state);
                Err(SourceFault::At { line, cause })
            }
        },
    }
}

/// The tokens that end in front of a byte or with it.
fn tokens(
    alloc: Global,
    scope: &mut Scope,
    state: StatementState,
    seen: &[u8],
    line: u32,
    stepped: Stepped,
) -> Result<(StatementState, Mode), SourceFault>
    requires first { Fits seen.now stepped.first }
    requires second { Fits seen.now stepped.second }
    ensures does { run.DoesByte scope.new result (run.byte_does scope.old state seen.now line stepped) }
    ensures next { IfOk result (λ x. stepped.next ≡ Goes x.1) }
{
    match feed(alloc, scope, state, seen, line, stepped.first) {
        Err(fault) => Err(fault),
        Ok(state) => second_token(
            alloc,
            scope,
            state,
            seen,
            line,
            stepped.second,
            stepped.next,
        ),
    }
}

/// What has been read of a source.
#[derive(Drop)]
struct Reading {
    alloc: Global,
    scope: Scope,
    state: StatementState,
}

impl Reader for Reading {
    ghost use Rattle.asm_statement.specs.Readings.{Reads};

    ghost takes = { λ reading seen line stepped x. Reads reading seen line stepped x };

    #[tactic(auto, using(crate::proofs::Advancing::comes_failed))]
    fn take(
        self,
        seen: &[u8],
        line: u32,
        stepped: Stepped,
    ) -> Result<(Reading, Mode), SourceFault> {
        let Reading {
            alloc,
            mut scope,
            state,
        } = self;
        match tokens(alloc, &mut scope, state, seen, line, stepped) {
            Err(fault) => {
                scope.discard();
                Err(fault)
            }
            Ok((state, mode)) => Ok((
                Reading {
                    alloc,
                    scope,
                    state,
                },
                mode,
            )),
        }
    }
}

/// Reads a source that ends with a newline.
pub fn read(alloc: Global, source: &[u8]) -> Result<(Scope, StatementState, Mode), SourceFault>
    requires { length source.now < 4294967295 }
    ensures { run.Runs result (run.run run.start source.now) }
{
    let reading = Reading {
        alloc,
        scope: Scope::new(alloc),
        state: StatementState::Start,
    };
    match read_bytes(reading, source) {
        Err(fault) => Err(fault),
        Ok((reading, mode)) => {
            let Reading {
                alloc: _,
                scope,
                state,
            } = reading;
            Ok((scope, state, mode))
        }
    }
}
