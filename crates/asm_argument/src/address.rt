//! The base, index and scale of an argument, terminal by terminal.

ghost use Rattle.std.specs.Prelude.{◌≡◌};
ghost use Rattle.asm_argument.specs.declared.operand.Partial.TheVariants as partial;
ghost use Rattle.asm_argument.specs.Operand as spec;
ghost use Rattle.asm_argument.specs.Shapes as shapes;

use crate::operand::{Partial, discard, of_memory, registered};
use crate::register::is_register;
use crate::terminal::Terminal;
use asm_lex::SourceCause;
use asm_source::{Name, Value};

fn is_scale(n: u32) -> bool
    ensures { result ≡ shapes.is_scale n }
{
    n == 1 || n == 2 || n == 4 || n == 8
}

/// A terminal after an opening parenthesis.
fn open_step(value: Option<Value>, terminal: Terminal) -> Result<Partial, SourceCause>
    ensures { result ≡ spec.address_step (partial.Open value) terminal }
{
    match terminal {
        Terminal::Percent => Ok(Partial::BasePercent(value)),
        Terminal::Comma => Ok(Partial::IndexComma { value, base: None }),
        _ => Err(SourceCause::BadOperand),
    }
}

/// A terminal after the `%` of a base.
fn base_percent_step(value: Option<Value>, terminal: Terminal) -> Result<Partial, SourceCause>
    ensures { result ≡ spec.address_step (partial.BasePercent value) terminal }
{
    match terminal {
        Terminal::Name(name) => {
            let is = is_register(&name);
            registered(is, Partial::Base { value, base: name })
        }
        _ => Err(SourceCause::BadRegister),
    }
}

/// A terminal after a base.
fn base_step(value: Option<Value>, base: Name, terminal: Terminal) -> Result<Partial, SourceCause>
    ensures { result ≡ spec.address_step (partial.Base value base) terminal }
{
    match terminal {
        Terminal::Close => Ok(Partial::Whole(of_memory(value, Some(base), None, 1))),
        Terminal::Comma => Ok(Partial::IndexComma {
            value,
            base: Some(base),
        }),
        _ => Err(SourceCause::BadOperand),
    }
}

/// A terminal after the comma of an index.
fn index_comma_step(
    value: Option<Value>,
    base: Option<Name>,
    terminal: Terminal,
) -> Result<Partial, SourceCause>
    ensures { result ≡ spec.address_step (partial.IndexComma value base) terminal }
{
    match terminal {
        Terminal::Percent => Ok(Partial::IndexPercent { value, base }),
        _ => Err(SourceCause::BadOperand),
    }
}

/// A terminal after the `%` of an index.
fn index_percent_step(
    value: Option<Value>,
    base: Option<Name>,
    terminal: Terminal,
) -> Result<Partial, SourceCause>
    ensures { result ≡ spec.address_step (partial.IndexPercent value base) terminal }
{
    match terminal {
        Terminal::Name(name) => {
            let is = is_register(&name);
            registered(
                is,
                Partial::Index {
                    value,
                    base,
                    index: name,
                },
            )
        }
        _ => Err(SourceCause::BadRegister),
    }
}

/// A terminal after an index.
fn index_step(
    value: Option<Value>,
    base: Option<Name>,
    index: Name,
    terminal: Terminal,
) -> Result<Partial, SourceCause>
    ensures { result ≡ spec.address_step (partial.Index value base index) terminal }
{
    match terminal {
        Terminal::Close => Ok(Partial::Whole(of_memory(value, base, Some(index), 1))),
        Terminal::Comma => Ok(Partial::Scale { value, base, index }),
        _ => Err(SourceCause::BadOperand),
    }
}

/// A terminal after the comma of a scale.
fn scale_step(
    value: Option<Value>,
    base: Option<Name>,
    index: Name,
    terminal: Terminal,
) -> Result<Partial, SourceCause>
    ensures { result ≡ spec.address_step (partial.Scale value base index) terminal }
{
    match terminal {
        Terminal::Number(n) => {
            if is_scale(n) {
                Ok(Partial::Scaled {
                    value,
                    base,
                    index,
                    scale: n as u8,
                })
            } else {
                Err(SourceCause::BadScale)
            }
        }
        _ => Err(SourceCause::BadOperand),
    }
}

/// A terminal after a scale.
fn scaled_step(
    value: Option<Value>,
    base: Option<Name>,
    index: Name,
    scale: u8,
    terminal: Terminal,
) -> Result<Partial, SourceCause>
    ensures { result ≡ spec.address_step (partial.Scaled value base index scale) terminal }
{
    match terminal {
        Terminal::Close => Ok(Partial::Whole(of_memory(value, base, Some(index), scale))),
        _ => Err(SourceCause::BadOperand),
    }
}

/// The next terminal within parentheses.
pub fn address_step(so_far: Partial, terminal: Terminal) -> Result<Partial, SourceCause>
    ensures { result ≡ spec.address_step so_far terminal }
{
    match so_far {
        Partial::Open(value) => open_step(value, terminal),
        Partial::BasePercent(value) => base_percent_step(value, terminal),
        Partial::Base { value, base } => base_step(value, base, terminal),
        Partial::IndexComma { value, base } => index_comma_step(value, base, terminal),
        Partial::IndexPercent { value, base } => index_percent_step(value, base, terminal),
        Partial::Index { value, base, index } => index_step(value, base, index, terminal),
        Partial::Scale { value, base, index } => scale_step(value, base, index, terminal),
        Partial::Scaled {
            value,
            base,
            index,
            scale,
        } => { scaled_step(value, base, index, scale, terminal) }
        other => {
            discard(other);
            Err(SourceCause::BadOperand)
        }
    }
}
