//! Statements, and the bytes that they assemble to.

use self::arithmetic::ARITHMETIC;
use self::control::CONTROL;
use self::moves::MOVES;
use self::others::OTHERS;
use self::own::OWN;
use self::shifts::SHIFTS;
use self::stack::STACK;
use crate::rest::{Rest, told};
use asm_instruction::{Assembled, Named, Refusal, assemble};
use asm_parse::{Body, SourceItem, parse};
use std::alloc::Global;
use std::process::Abort;

mod arithmetic;
mod control;
mod moves;
mod others;
mod own;
mod refusals;
mod shifts;
mod stack;

// A row is a statement, its bytes, and the fields that name symbols: the field, its place, the number of
// its argument, and whether it is relative.

fn take_named(rest: &mut Rest<'_>, alloc: Global, field: &str, named: &Option<Named>) {
    if let Some(named) = named {
        let relative = if named.relative { " relative" } else { "" };
        rest.take_text(format!(in alloc; " {field} {} {}{relative}", named.at, named.argument));
    }
}

/// Whether that stands after the arrow of a row.
fn is_spelling(alloc: Global, found: &Assembled, listed: &str) -> bool {
    let mut rest = Rest::new(listed.as_bytes());
    let len = usize::from(found.spelling.len).min(found.spelling.bytes.len());
    rest.take_bytes(&found.spelling.bytes[..len]);
    take_named(&mut rest, alloc, "disp", &found.disp);
    take_named(&mut rest, alloc, "imm", &found.imm);
    rest.is_done()
}

fn answer(items: &[SourceItem]) -> Option<Result<Assembled, Refusal>> {
    match items {
        [item] => match &item.body {
            Body::Instruction {
                rep,
                name,
                arguments,
            } => Some(assemble(*rep, &name.bytes, &arguments.list)),
            _ => None,
        },
        _ => None,
    }
}

/// What is answered for the only statement of a source.
fn assembled(alloc: Global, text: &str) -> Option<Result<Assembled, Refusal>> {
    match parse(alloc, text.as_bytes()) {
        Ok(source) => answer(&source.items),
        Err(_) => None,
    }
}

fn is_listed(alloc: Global, text: &str, listed: &str) -> bool {
    match assembled(alloc, text) {
        Some(Ok(found)) => is_spelling(alloc, &found, listed),
        _ => false,
    }
}

fn is_assembled(alloc: Global, row: &str) -> bool {
    match row.split_once(" =>") {
        Some((text, listed)) => is_listed(alloc, text, listed),
        None => false,
    }
}

/// Each row is assembled so.
fn are_assembled(rt: &impl Abort, alloc: Global, rows: &str) {
    for row in rows.lines() {
        told(rt, row, is_assembled(alloc, row));
    }
}

static ROWS: [&str; 7] = [ARITHMETIC, CONTROL, MOVES, OTHERS, OWN, SHIFTS, STACK];

#[test]
fn statements_are_assembled(rt: HostRuntime) {
    for rows in ROWS.iter() {
        are_assembled(&rt, rt.alloc(), rows);
    }
}
