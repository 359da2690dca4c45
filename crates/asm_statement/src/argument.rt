//! The arguments of one statement, terminal by terminal.

ghost use Rattle.std.specs.Prelude.{◌≡◌, length};
ghost use Rattle.asm_argument.specs.declared.terminal.Terminal.TheVariants as terminal;
ghost use Rattle.asm_statement.specs.Openings as openings;
ghost use Rattle.asm_statement.specs.Statement as spec;

use crate::directive::{Directive, Head, defines, is_instruction, least, shape_at};
use crate::fault::StepFault;
use crate::scope::Scope;
use crate::state::{Open, StatementState, discard, discard_begun};
use asm_argument::{
    Partial, Terminal, begun, discard as discard_partial, finished, is_finished, is_nothing,
    is_unbegun, name_in, operand_step,
};
use asm_lex::SourceCause;
use asm_source::{Argument, Arguments, Body, Name, SourceItem};
use std::alloc::Global;

/// Whether no argument begins with the terminal.
fn begins_nothing(terminal: &Terminal) -> bool
    ensures { result ≡ openings.begins_nothing terminal.now }
{
    match terminal {
        Terminal::Plus | Terminal::Close | Terminal::Colon | Terminal::At => true,
        _ => false,
    }
}

/// Where an argument of another kind, or none, stands in an argument's place.
pub fn misplaced(terminal: &Terminal) -> SourceCause
    ensures { result ≡ openings.misplaced terminal.now }
{
    if let Terminal::Big = terminal {
        return SourceCause::BadNumber;
    }
    if begins_nothing(terminal) {
        SourceCause::BadOperand
    } else {
        SourceCause::BadArgument
    }
}

/// A fault in an argument of a directive, where nothing of it was read before the terminal, or something.
fn argument_cause(nothing: bool, misplaced: SourceCause, cause: SourceCause) -> SourceCause
    ensures { result ≡ spec.argument_cause nothing misplaced cause }
{
    match cause {
        SourceCause::BadNumber => SourceCause::BadNumber,
        SourceCause::BadArgument => SourceCause::BadArgument,
        _ => {
            if nothing {
                misplaced
            } else {
                SourceCause::BadOperand
            }
        }
    }
}

fn cause_in(head: &Head, nothing: bool, misplaced: SourceCause, cause: SourceCause) -> SourceCause
    ensures { result ≡ spec.cause_in head.now nothing misplaced cause }
{
    if is_instruction(head) {
        cause
    } else {
        argument_cause(nothing, misplaced, cause)
    }
}

/// Notes a name, and that it is defined.
pub fn noting(alloc: Global, scope: &mut Scope, defined: bool, name: &Name) -> Result<(), StepFault>
    ensures { spec.Notes scope.new result (spec.noting scope.old defined name.now) }
{
    if defined && scope.is_defined(name) {
        return Err(StepFault::Cause(SourceCause::DoubledLabel));
    }
    if !scope.has_room(name) {
        return Err(StepFault::Cause(SourceCause::TooManySymbols));
    }
    scope.note(alloc, name)?;
    if !defined {
        return Ok(());
    }
    scope.define(alloc, name)?;
    Ok(())
}

/// The argument with its next terminal.
fn grown(begun: Open, terminal: Terminal) -> Result<Open, SourceCause>
    ensures { result ≡ spec.grown begun terminal }
{
    let other = misplaced(&terminal);
    let Some(shape) = shape_at(&begun.head, begun.arguments.list.len()) else {
        discard(StatementState::Arguments(begun));
        return Err(other);
    };
    let nothing = is_unbegun(&begun.so_far);
    let Open {
        line,
        head,
        arguments,
        star,
        so_far,
    } = begun;
    match operand_step(shape, so_far, terminal) {
        Err(cause) => {
            let cause = cause_in(&head, nothing, other, cause);
            discard_begun(head, arguments);
            Err(cause)
        }
        Ok(so_far) => Ok(Open {
            line,
            head,
            arguments,
            star,
            so_far,
        }),
    }
}

/// Notes the name that an argument has just got, if it has one.
fn note_name(alloc: Global, scope: &mut Scope, begun: &Open) -> Result<(), StepFault>
    ensures { spec.Notes scope.new result (spec.name_noted scope.old begun.now) }
{
    match name_in(&begun.so_far) {
        None => Ok(()),
        Some(name) => noting(
            alloc,
            scope,
            defines(&begun.head, begun.arguments.list.len()),
            name,
        ),
    }
}

/// The next terminal of an argument.
fn within(
    alloc: Global,
    scope: &mut Scope,
    begun: Open,
    terminal: Terminal,
) -> Result<StatementState, StepFault>
    ensures { spec.Does scope.new result (spec.within scope.old begun terminal) }
{
    match grown(begun, terminal) {
        Err(cause) => Err(StepFault::Cause(cause)),
        Ok(begun) => match note_name(alloc, scope, &begun) {
            Ok(()) => Ok(StatementState::Arguments(begun)),
            Err(fault) => {
                discard(StatementState::Arguments(begun));
                Err(fault)
            }
        },
    }
}

/// The argument that has been read, where it may end here.
fn ended(begun: Open) -> Option<(u32, Head, Arguments, Argument)>
    ensures { result ≡ spec.ended begun }
{
    let Open {
        line,
        head,
        arguments,
        star,
        so_far,
    } = begun;
    match finished(so_far) {
        Some(form) => Some((line, head, arguments, Argument { star, form })),
        None => {
            discard_begun(head, arguments);
            None
        }
    }
}

/// A comma after a whole argument.
fn next_argument(
    line: u32,
    head: Head,
    arguments: Arguments,
    last: Argument,
) -> Result<StatementState, StepFault>
    ensures { spec.Makes result (spec.next_argument line head arguments last) }
{
    let Arguments { list } = arguments;
    let mut list = list;
    list.push(last)?;
    let Some(shape) = shape_at(&head, list.len()) else {
        discard_begun(head, Arguments { list });
        return Err(StepFault::Cause(SourceCause::BadArgument));
    };
    Ok(StatementState::Arguments(Open {
        line,
        head,
        arguments: Arguments { list },
        star: false,
        so_far: begun(shape),
    }))
}

/// The end of a directive or an instruction.
fn complete(
    scope: &mut Scope,
    line: u32,
    head: Head,
    arguments: Arguments,
) -> Result<StatementState, StepFault>
    ensures { spec.Does scope.new result (spec.complete scope.old line head arguments) }
{
    if arguments.list.len() < least(&head) {
        discard_begun(head, arguments);
        return Err(StepFault::Cause(SourceCause::BadArgument));
    }
    match head {
        Head::Instruction { rep, name } => {
            let body = Body::Instruction {
                rep,
                name,
                arguments,
            };
            scope.push(SourceItem { line, body })?;
            Ok(StatementState::Start)
        }
        Head::Directive { kind, name } => {
            let body = Body::Directive { name, arguments };
            scope.push(SourceItem { line, body })?;
            if let Directive::Plain = kind {
                scope.set_skipping(false);
            }
            Ok(StatementState::Start)
        }
    }
}

/// The end of a directive or an instruction after a last argument.
fn complete_with(
    scope: &mut Scope,
    line: u32,
    head: Head,
    arguments: Arguments,
    last: Argument,
) -> Result<StatementState, StepFault>
    ensures { spec.Does scope.new result (spec.complete_with scope.old line head arguments last) }
{
    let Arguments { list } = arguments;
    let mut list = list;
    list.push(last)?;
    complete(scope, line, head, Arguments { list })
}

/// Whether no argument has begun, and none is owed.
fn is_bare(begun: &Open) -> bool
    ensures { result ≡ spec.is_bare begun.now }
{
    is_nothing(&begun.so_far) && !begun.star && begun.arguments.list.len() == 0
}

fn takes_star(begun: &Open) -> bool
    ensures { result ≡ spec.takes_star begun.now }
{
    is_nothing(&begun.so_far) && !begun.star && is_instruction(&begun.head)
}

/// A comma after what has been read.
fn comma_step(alloc: Global, scope: &mut Scope, begun: Open) -> Result<StatementState, StepFault>
    ensures { spec.Does scope.new result (spec.argument_step scope.old begun terminal.Comma) }
{
    if !is_finished(&begun.so_far) {
        return within(alloc, scope, begun, Terminal::Comma);
    }
    match ended(begun) {
        Some((line, head, arguments, last)) => next_argument(line, head, arguments, last),
        None => Err(StepFault::Cause(SourceCause::BadOperand)),
    }
}

/// The end of a statement without arguments.
fn bare_end(scope: &mut Scope, begun: Open) -> Result<StatementState, StepFault>
    ensures { spec.Does scope.new result (spec.complete scope.old begun.line begun.head begun.arguments) }
{
    let Open {
        line,
        head,
        arguments,
        star: _,
        so_far,
    } = begun;
    discard_partial(so_far);
    complete(scope, line, head, arguments)
}

/// The end of a statement whose last argument may end here.
fn last_end(scope: &mut Scope, begun: Open) -> Result<StatementState, StepFault>
    ensures { spec.Does scope.new result (spec.end_behind scope.old (spec.ended begun)) }
{
    match ended(begun) {
        Some((line, head, arguments, last)) => complete_with(scope, line, head, arguments, last),
        None => Err(StepFault::Cause(SourceCause::BadOperand)),
    }
}

/// The end of the statement.
fn end_step(alloc: Global, scope: &mut Scope, begun: Open) -> Result<StatementState, StepFault>
    ensures { spec.Does scope.new result (spec.argument_step scope.old begun terminal.End) }
{
    if is_bare(&begun) {
        bare_end(scope, begun)
    } else if is_finished(&begun.so_far) {
        last_end(scope, begun)
    } else {
        within(alloc, scope, begun, Terminal::End)
    }
}

/// A star before an operand.
fn star_step(alloc: Global, scope: &mut Scope, begun: Open) -> Result<StatementState, StepFault>
    ensures { spec.Does scope.new result (spec.argument_step scope.old begun terminal.Star) }
{
    if takes_star(&begun) {
        let mut begun = begun;
        begun.star = true;
        Ok(StatementState::Arguments(begun))
    } else {
        within(alloc, scope, begun, Terminal::Star)
    }
}

/// A terminal of a directive or an instruction.
pub fn argument_step(
    alloc: Global,
    scope: &mut Scope,
    begun: Open,
    terminal: Terminal,
) -> Result<StatementState, StepFault>
    ensures { spec.Does scope.new result (spec.argument_step scope.old begun terminal) }
{
    match terminal {
        Terminal::Comma => comma_step(alloc, scope, begun),
        Terminal::End => end_step(alloc, scope, begun),
        Terminal::Star => star_step(alloc, scope, begun),
        other => within(alloc, scope, begun, other),
    }
}

/// A statement that begins in this line, before its first argument.
pub fn nothing_yet(alloc: Global, line: u32, head: Head) -> Open
    ensures { result ≡ spec.nothing_yet line head }
{
    Open {
        line,
        head,
        arguments: Arguments {
            list: Vec::new(alloc),
        },
        star: false,
        so_far: Partial::Nothing,
    }
}
