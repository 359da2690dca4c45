//! What a statement has left open.

use crate::directive::Head;
use asm_argument::{Partial, discard as discard_partial};
use asm_lex::SourceCause;
use asm_source::{Arguments, Name};

/// A directive or an instruction as far as it has been read.
#[derive(Drop)]
pub struct Open {
    /// The line of its first token, counted from 1.
    pub line: u32,
    pub head: Head,
    /// Those that are whole.
    pub arguments: Arguments,
    /// Whether `*` stands before the argument that is read.
    pub star: bool,
    /// The argument that is read.
    pub so_far: Partial,
}

/// What a statement has left open.
#[derive(Drop)]
pub enum StatementState {
    /// Nothing.
    Start,
    /// A name, which may be a label or begin a directive or an instruction, and its line.
    Named {
        line: u32,
        name: Name,
    },
    /// The rest of the statement isn't read.
    Skip,
    /// A change to a named section: the directive, the section's name so far, and the place after it.
    Sectioned {
        line: u32,
        name: Name,
        section: Name,
        end: usize,
    },
    /// A change to a named section after a comma, which its flags follow.
    Flags {
        line: u32,
        name: Name,
        section: Name,
    },
    Arguments(Open),
    /// After a `%` that may not stand in its place: its line, and why.
    Stray {
        line: u32,
        cause: SourceCause,
    },
}

/// Lets go of what a directive or an instruction begins with, and of its arguments.
pub fn discard_begun(_head: Head, _arguments: Arguments) {}

/// Lets go of a directive or an instruction.
fn discard_open(begun: Open) {
    let Open {
        line: _,
        head,
        arguments,
        star: _,
        so_far,
    } = begun;
    discard_begun(head, arguments);
    discard_partial(so_far);
}

/// Lets go of names.
fn discard_names(_name: Name, _section: Name) {}

/// Lets go of what a statement has left open.
pub fn discard(state: StatementState) {
    match state {
        StatementState::Arguments(begun) => discard_open(begun),
        StatementState::Named { line: _, name: _ } => {}
        StatementState::Sectioned {
            line: _,
            name,
            section,
            end: _,
        } => discard_names(name, section),
        StatementState::Flags {
            line: _,
            name,
            section,
        } => discard_names(name, section),
        StatementState::Start
        | StatementState::Skip
        | StatementState::Stray { line: _, cause: _ } => {}
    }
}
