//! One statement, terminal by terminal.

ghost use Rattle.std.specs.Prelude.{◌≡◌};
ghost use Rattle.asm_statement.specs.Statement as spec;
ghost use Rattle.asm_statement.specs.Items as items;

use crate::argument::{argument_step, misplaced, nothing_yet, noting};
use crate::directive::{
    Directive, Head, changes_section, directive_named, is_dotted, is_rep, is_section,
    is_skipped_section,
};
use crate::fault::StepFault;
use crate::scope::Scope;
use crate::state::StatementState;
use asm_argument::{Terminal, is_register};
use asm_lex::SourceCause;
use asm_source::{Argument, Arguments, Body, Form, Name, SourceItem};
use std::alloc::Global;

/// The rest of a statement that isn't read.
fn skip(terminal: Terminal) -> StatementState
    ensures { result ≡ spec.skip terminal }
{
    match terminal {
        Terminal::End => StatementState::Start,
        _ => StatementState::Skip,
    }
}

/// A label, and the items that follow it.
fn label(
    alloc: Global,
    scope: &mut Scope,
    line: u32,
    name: Name,
) -> Result<StatementState, StepFault>
    ensures { spec.Does scope.new result (spec.label scope.old line name) }
{
    noting(alloc, scope, true, &name)?;
    let body = Body::Label(name);
    scope.push(SourceItem { line, body })?;
    Ok(StatementState::Start)
}

/// A terminal after `rep`.
fn rep_step(
    alloc: Global,
    scope: &mut Scope,
    line: u32,
    terminal: Terminal,
) -> Result<StatementState, StepFault>
    ensures { spec.Does scope.new result (spec.rep_step scope.old line terminal) }
{
    match terminal {
        Terminal::Name(name) => Ok(StatementState::Arguments(nothing_yet(
            alloc,
            line,
            Head::Instruction { rep: true, name },
        ))),
        Terminal::Big => Err(StepFault::Cause(SourceCause::BadNumber)),
        _ => Err(StepFault::Cause(SourceCause::BadOperand)),
    }
}

/// A terminal after an instruction's name.
fn instruction_step(
    alloc: Global,
    scope: &mut Scope,
    line: u32,
    name: Name,
    terminal: Terminal,
) -> Result<StatementState, StepFault>
    ensures { spec.Does scope.new result (spec.instruction_step scope.old line name terminal) }
{
    if is_rep(&name) {
        rep_step(alloc, scope, line, terminal)
    } else {
        let head = Head::Instruction { rep: false, name };
        argument_step(alloc, scope, nothing_yet(alloc, line, head), terminal)
    }
}

/// Whether the statement of this name is skipped.
fn is_passed(scope: &Scope, name: &Name) -> bool
    ensures { result ≡ items.is_passed scope.now name.now }
{
    scope.is_skipping() && !changes_section(name)
}

fn section_name(line: u32, name: Name, terminal: Terminal) -> Result<StatementState, StepFault>
    ensures { spec.Makes result (spec.section_name line name terminal) }
{
    match terminal {
        Terminal::Name(section) => {
            if is_section(&section) {
                Ok(StatementState::Sectioned {
                    line,
                    name,
                    section,
                    end: 0,
                })
            } else {
                Err(StepFault::Cause(SourceCause::BadArgument))
            }
        }
        other => Err(StepFault::Cause(misplaced(&other))),
    }
}

/// A terminal after a directive's name.
fn directive_step(
    alloc: Global,
    scope: &mut Scope,
    line: u32,
    name: Name,
    terminal: Terminal,
) -> Result<StatementState, StepFault>
    ensures { spec.Does scope.new result (spec.directive_step scope.old line name terminal) }
{
    match directive_named(&name) {
        None => Err(StepFault::Cause(SourceCause::UnknownDirective)),
        Some(kind) => match kind {
            Directive::Skipped => Ok(skip(terminal)),
            Directive::Section => section_name(line, name, terminal),
            _ => {
                let head = Head::Directive { kind, name };
                argument_step(alloc, scope, nothing_yet(alloc, line, head), terminal)
            }
        },
    }
}

/// The end of a change to a named section.
fn end_section(
    alloc: Global,
    scope: &mut Scope,
    line: u32,
    name: Name,
    section: Name,
) -> Result<StatementState, StepFault>
    ensures { spec.Does scope.new result (spec.section scope.old line name section) }
{
    let skipping = is_skipped_section(&section);
    let mut list = Vec::new(alloc);
    list.push(Argument {
        star: false,
        form: Form::Text(section),
    })?;
    let body = Body::Directive {
        name,
        arguments: Arguments { list },
    };
    scope.push(SourceItem { line, body })?;
    scope.set_skipping(skipping);
    Ok(StatementState::Start)
}

fn unless_skipping(skipping: bool, cause: SourceCause) -> Result<StatementState, StepFault>
    ensures { spec.Makes result (spec.unless_skipping skipping cause) }
{
    if skipping {
        Ok(StatementState::Skip)
    } else {
        Err(StepFault::Cause(cause))
    }
}

fn start_step(scope: &Scope, line: u32, terminal: Terminal) -> Result<StatementState, StepFault>
    ensures { spec.Makes result (spec.start_step scope.now line terminal) }
{
    match terminal {
        Terminal::End => Ok(StatementState::Start),
        Terminal::Name(name) => Ok(StatementState::Named { line, name }),
        Terminal::Big => unless_skipping(scope.is_skipping(), SourceCause::BadNumber),
        _ => unless_skipping(scope.is_skipping(), SourceCause::BadOperand),
    }
}

/// A colon after a name.
fn colon_behind(
    alloc: Global,
    scope: &mut Scope,
    begun: u32,
    name: Name,
) -> Result<StatementState, StepFault>
    ensures { spec.Does scope.new result (spec.colon_behind scope.old begun name) }
{
    if scope.is_skipping() {
        Ok(StatementState::Start)
    } else {
        label(alloc, scope, begun, name)
    }
}

/// Another terminal after a name.
fn other_behind(
    alloc: Global,
    scope: &mut Scope,
    begun: u32,
    name: Name,
    terminal: Terminal,
) -> Result<StatementState, StepFault>
    ensures { spec.Does scope.new result (spec.other_behind scope.old begun name terminal) }
{
    if is_passed(scope, &name) {
        Ok(skip(terminal))
    } else if is_dotted(&name) {
        directive_step(alloc, scope, begun, name, terminal)
    } else {
        instruction_step(alloc, scope, begun, name, terminal)
    }
}

fn named_step(
    alloc: Global,
    scope: &mut Scope,
    begun: u32,
    name: Name,
    terminal: Terminal,
) -> Result<StatementState, StepFault>
    ensures { spec.Does scope.new result (spec.named_step scope.old begun name terminal) }
{
    match terminal {
        Terminal::Colon => colon_behind(alloc, scope, begun, name),
        other => other_behind(alloc, scope, begun, name, other),
    }
}

/// A terminal after a section's name.
fn sectioned_step(
    alloc: Global,
    scope: &mut Scope,
    begun: u32,
    directive: Name,
    section: Name,
    terminal: Terminal,
) -> Result<StatementState, StepFault>
    ensures { spec.Does scope.new result (spec.sectioned_step scope.old begun directive section terminal) }
{
    match terminal {
        Terminal::End => end_section(alloc, scope, begun, directive, section),
        Terminal::Comma => Ok(StatementState::Flags {
            line: begun,
            name: directive,
            section,
        }),
        Terminal::Big => Err(StepFault::Cause(SourceCause::BadNumber)),
        _ => Err(StepFault::Cause(SourceCause::BadOperand)),
    }
}

/// A terminal after a section's name and a comma.
fn flags_step(
    alloc: Global,
    scope: &mut Scope,
    begun: u32,
    directive: Name,
    section: Name,
    terminal: Terminal,
) -> Result<StatementState, StepFault>
    ensures { spec.Does scope.new result (spec.flags_step scope.old begun directive section terminal) }
{
    match terminal {
        Terminal::End => end_section(alloc, scope, begun, directive, section),
        _ => Ok(StatementState::Flags {
            line: begun,
            name: directive,
            section,
        }),
    }
}

/// The cause at a `%` that may not stand in its place, with what follows it.
fn stray_cause(cause: SourceCause, terminal: &Terminal) -> SourceCause
    ensures { result ≡ spec.stray_cause cause terminal.now }
{
    match terminal {
        Terminal::Name(name) => {
            if is_register(name) {
                cause
            } else {
                SourceCause::BadRegister
            }
        }
        _ => SourceCause::BadRegister,
    }
}

/// The next terminal of a source.
pub fn step(
    alloc: Global,
    scope: &mut Scope,
    state: StatementState,
    line: u32,
    terminal: Terminal,
) -> Result<StatementState, StepFault>
    ensures { spec.Does scope.new result (spec.step scope.old state line terminal) }
{
    match state {
        StatementState::Start => start_step(scope, line, terminal),
        StatementState::Named { line: begun, name } => {
            named_step(alloc, scope, begun, name, terminal)
        },
        StatementState::Skip => Ok(skip(terminal)),
        StatementState::Sectioned {
            line: begun,
            name: directive,
            section,
            ..
        } => { sectioned_step(alloc, scope, begun, directive, section, terminal) }
        StatementState::Flags {
            line: begun,
            name: directive,
            section,
        } => flags_step(alloc, scope, begun, directive, section, terminal),
        StatementState::Stray { cause, .. } => Err(StepFault::Cause(stray_cause(cause, &terminal))),
        StatementState::Arguments(begun) => argument_step(alloc, scope, begun, terminal),
    }
}
