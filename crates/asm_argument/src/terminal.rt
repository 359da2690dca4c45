//! A token as the grammar sees it.

ghost use Rattle.std.specs.Prelude.{◌≡◌, IfOk};
ghost use Rattle.asm_argument.specs.Terminals as spec;

use crate::escapes::string_bytes;
use crate::number::number_value;
use asm_lex::TokenKind;
use asm_source::Name;
use std::alloc::{AllocError, Global};

/// A terminal of the grammar: a mark, a name, a number, a string, or the end of a statement.
#[derive(Drop)]
pub enum Terminal {
    Percent,
    Dollar,
    Star,
    Comma,
    Colon,
    Open,
    Close,
    Plus,
    Minus,
    At,
    Name(Name),
    Number(u32),
    /// A number that isn't below 2^32.
    Big,
    Text(Name),
    End,
}

fn mark_terminal(m: u8) -> Terminal
    ensures { result ≡ spec.mark_terminal m }
{
    if m == b'$' {
        Terminal::Dollar
    } else if m == b'%' {
        Terminal::Percent
    } else if m == b'(' {
        Terminal::Open
    } else if m == b')' {
        Terminal::Close
    } else if m == b'*' {
        Terminal::Star
    } else if m == b'+' {
        Terminal::Plus
    } else if m == b',' {
        Terminal::Comma
    } else if m == b'-' {
        Terminal::Minus
    } else if m == b':' {
        Terminal::Colon
    } else {
        Terminal::At
    }
}

fn number_terminal(bytes: &[u8]) -> Terminal
    ensures { result ≡ spec.number_terminal (spec.number_value bytes.now) }
{
    match number_value(bytes) {
        Some(n) => Terminal::Number(n),
        None => Terminal::Big,
    }
}

/// A token as the grammar sees it.
pub fn terminal_of(alloc: Global, kind: TokenKind, bytes: &[u8]) -> Result<Terminal, AllocError>
    ensures { IfOk result (λ s. s ≡ spec.terminal_of kind bytes.now) }
{
    match kind {
        TokenKind::Name => Ok(Terminal::Name(Name {
            bytes: Vec::from_slice(alloc, bytes)?,
        })),
        TokenKind::Number => Ok(number_terminal(bytes)),
        TokenKind::Text => Ok(Terminal::Text(Name {
            bytes: string_bytes(alloc, bytes)?,
        })),
        TokenKind::Mark(m) => Ok(mark_terminal(m)),
        TokenKind::End => Ok(Terminal::End),
    }
}
