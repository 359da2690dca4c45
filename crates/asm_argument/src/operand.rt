//! One argument, terminal by terminal.

ghost use Rattle.std.specs.Prelude.{◌≡◌};
ghost use Rattle.std.specs.Option.{option_copied};
ghost use Rattle.asm_argument.specs.Operand as spec;
ghost use Rattle.asm_argument.specs.declared.operand.Partial.TheVariants as partial;
ghost use Rattle.asm_argument.specs.Shapes as shapes;
ghost use Rattle.asm_source.specs.declared.tree.Form.TheVariants as form;

use crate::address::address_step;
use crate::register::is_register;
use crate::shape::Shape;
use crate::terminal::Terminal;
use asm_lex::SourceCause;
use asm_source::{Form, Name, Value};

/// Where a value stands.
#[derive(Clone, Copy)]
pub enum ValuePlace {
    Immediate,
    Memory,
}

/// An argument as far as it has been read.
#[derive(Drop)]
pub enum Partial {
    Nothing,
    /// Nothing has been read, and the argument may be absent.
    Absent,
    Percent,
    Dollar,
    Minus(ValuePlace),
    Name {
        place: ValuePlace,
        name: Name,
    },
    /// After a sign.
    Sign {
        place: ValuePlace,
        name: Name,
        negative: bool,
    },
    /// After a sign and a minus.
    SignMinus {
        place: ValuePlace,
        name: Name,
        negative: bool,
    },
    Number {
        place: ValuePlace,
        value: Value,
    },
    Open(Option<Value>),
    BasePercent(Option<Value>),
    Base {
        value: Option<Value>,
        base: Name,
    },
    IndexComma {
        value: Option<Value>,
        base: Option<Name>,
    },
    IndexPercent {
        value: Option<Value>,
        base: Option<Name>,
    },
    Index {
        value: Option<Value>,
        base: Option<Name>,
        index: Name,
    },
    /// After the comma of a scale.
    Scale {
        value: Option<Value>,
        base: Option<Name>,
        index: Name,
    },
    Scaled {
        value: Option<Value>,
        base: Option<Name>,
        index: Name,
        scale: u8,
    },
    Whole(Form),
}

fn signed(negative: bool, n: u32) -> i64
    ensures { result ≡ shapes.signed negative n }
{
    if negative {
        0 - i64::from(n)
    } else {
        i64::from(n)
    }
}

fn named(name: Name, number: i64) -> Value
    ensures { result ≡ shapes.named name number }
{
    Value {
        name: Some(name),
        number,
    }
}

fn plain(number: i64) -> Value
    ensures { result ≡ shapes.plain number }
{
    Value { name: None, number }
}

/// Lets go of a name.
fn discard_name(_name: Name) {}

/// Lets go of the parts of an address.
fn discard_address(_value: Option<Value>, _base: Option<Name>, _index: Option<Name>) {}

/// Lets go of an argument that is whole.
fn discard_form(_form: Form) {}

/// Lets go of what has been read.
pub fn discard(so_far: Partial) {
    match so_far {
        Partial::Name { place: _, name }
        | Partial::Sign {
            place: _,
            name,
            negative: _,
        }
        | Partial::SignMinus {
            place: _,
            name,
            negative: _,
        } => discard_name(name),
        Partial::Number { place: _, value } => discard_address(Some(value), None, None),
        Partial::Open(value) | Partial::BasePercent(value) => discard_address(value, None, None),
        Partial::Base { value, base } => discard_address(value, Some(base), None),
        Partial::IndexComma { value, base } | Partial::IndexPercent { value, base } => {
            discard_address(value, base, None)
        }
        Partial::Index { value, base, index }
        | Partial::Scale { value, base, index }
        | Partial::Scaled {
            value,
            base,
            index,
            scale: _,
        } => discard_address(value, base, Some(index)),
        Partial::Whole(form) => discard_form(form),
        Partial::Nothing
        | Partial::Absent
        | Partial::Percent
        | Partial::Dollar
        | Partial::Minus(_) => {}
    }
}

/// An operand in memory: displacement, base, index, and a scale of 1, 2, 4 or 8.
pub fn of_memory(value: Option<Value>, base: Option<Name>, index: Option<Name>, scale: u8) -> Form
    ensures { result ≡ form.Memory value base index scale }
{
    Form::Memory {
        value,
        base,
        index,
        scale,
    }
}

/// The terminal where it may stand, or a fault.
fn allowed(may: bool, then: Partial) -> Result<Partial, SourceCause>
    ensures { result ≡ spec.allowed may then }
{
    if may {
        Ok(then)
    } else {
        discard(then);
        Err(SourceCause::BadOperand)
    }
}

/// A number where one may stand and it fits, or a fault.
fn counted(may: bool, fits: bool, then: Partial) -> Result<Partial, SourceCause>
    ensures { result ≡ spec.counted may fits then }
{
    if !may {
        discard(then);
        Err(SourceCause::BadOperand)
    } else if fits {
        Ok(then)
    } else {
        discard(then);
        Err(SourceCause::BadArgument)
    }
}

/// The first terminal of an argument.
fn first(shape: Shape, terminal: Terminal) -> Result<Partial, SourceCause>
    ensures { result ≡ spec.first shape terminal }
{
    match terminal {
        Terminal::Percent => allowed(shape.is_operand(), Partial::Percent),
        Terminal::Dollar => allowed(shape.is_operand(), Partial::Dollar),
        Terminal::Open => allowed(shape.is_operand(), Partial::Open(None)),
        Terminal::Minus => allowed(shape.takes_minus(), Partial::Minus(ValuePlace::Memory)),
        Terminal::Number(n) => counted(
            shape.takes_numbers(),
            shape.fits(false, n),
            Partial::Number {
                place: ValuePlace::Memory,
                value: plain(i64::from(n)),
            },
        ),
        Terminal::Name(name) => allowed(
            shape.takes_names(),
            Partial::Name {
                place: ValuePlace::Memory,
                name,
            },
        ),
        Terminal::Text(bytes) => allowed(shape.takes_text(), Partial::Whole(Form::Text(bytes))),
        _ => Err(SourceCause::BadOperand),
    }
}

/// Whether a number may stand after a minus.
fn is_low(n: u32) -> bool
    ensures { result ≡ shapes.is_low n }
{
    n <= 2147483648
}

/// A number after a minus.
fn lowered(n: u32, fits: bool, then: Partial) -> Result<Partial, SourceCause>
    ensures { result ≡ spec.lowered n fits then }
{
    if is_low(n) {
        counted(true, fits, then)
    } else {
        discard(then);
        Err(SourceCause::BadNumber)
    }
}

/// A register's name where it is one.
pub fn registered(is: bool, then: Partial) -> Result<Partial, SourceCause>
    ensures { result ≡ spec.registered is then }
{
    if is {
        Ok(then)
    } else {
        discard(then);
        Err(SourceCause::BadRegister)
    }
}

/// A terminal after the `%` of an operand.
fn percent_step(shape: Shape, terminal: Terminal) -> Result<Partial, SourceCause>
    ensures { result ≡ spec.next_terminal shape partial.Percent terminal }
{
    match terminal {
        Terminal::Name(name) => {
            let is = is_register(&name);
            registered(is, Partial::Whole(Form::Register(name)))
        }
        _ => Err(SourceCause::BadRegister),
    }
}

/// A terminal after a `$`.
fn dollar_step(shape: Shape, terminal: Terminal) -> Result<Partial, SourceCause>
    ensures { result ≡ spec.next_terminal shape partial.Dollar terminal }
{
    match terminal {
        Terminal::Minus => Ok(Partial::Minus(ValuePlace::Immediate)),
        Terminal::Number(n) => Ok(Partial::Number {
            place: ValuePlace::Immediate,
            value: plain(i64::from(n)),
        }),
        Terminal::Name(name) => Ok(Partial::Name {
            place: ValuePlace::Immediate,
            name,
        }),
        _ => Err(SourceCause::BadOperand),
    }
}

/// A terminal after the minus of a number.
fn minus_step(shape: Shape, place: ValuePlace, terminal: Terminal) -> Result<Partial, SourceCause>
    ensures { result ≡ spec.next_terminal shape (partial.Minus place) terminal }
{
    match terminal {
        Terminal::Number(n) => lowered(
            n,
            shape.fits(true, n),
            Partial::Number {
                place,
                value: plain(signed(true, n)),
            },
        ),
        _ => Err(SourceCause::BadOperand),
    }
}

/// A terminal after a name.
fn name_step(
    shape: Shape,
    place: ValuePlace,
    name: Name,
    terminal: Terminal,
) -> Result<Partial, SourceCause>
    ensures { result ≡ spec.next_terminal shape (partial.Name place name) terminal }
{
    match terminal {
        Terminal::Plus => allowed(
            shape.takes_sums(),
            Partial::Sign {
                place,
                name,
                negative: false,
            },
        ),
        Terminal::Minus => allowed(
            shape.takes_sums(),
            Partial::Sign {
                place,
                name,
                negative: true,
            },
        ),
        Terminal::Open => open(shape, place, named(name, 0)),
        _ => Err(SourceCause::BadOperand),
    }
}

/// A terminal after a name and a sign.
fn sign_step(
    shape: Shape,
    place: ValuePlace,
    name: Name,
    negative: bool,
    terminal: Terminal,
) -> Result<Partial, SourceCause>
    ensures { result ≡ spec.next_terminal shape (partial.Sign place name negative) terminal }
{
    match terminal {
        Terminal::Minus => Ok(Partial::SignMinus {
            place,
            name,
            negative,
        }),
        Terminal::Number(n) => Ok(Partial::Number {
            place,
            value: named(name, signed(negative, n)),
        }),
        _ => Err(SourceCause::BadOperand),
    }
}

/// A terminal after a name, a sign and a minus.
fn sign_minus_step(
    shape: Shape,
    place: ValuePlace,
    name: Name,
    negative: bool,
    terminal: Terminal,
) -> Result<Partial, SourceCause>
    ensures { result ≡ spec.next_terminal shape (partial.SignMinus place name negative) terminal }
{
    match terminal {
        Terminal::Number(n) => lowered(
            n,
            true,
            Partial::Number {
                place,
                value: named(name, signed(!negative, n)),
            },
        ),
        _ => Err(SourceCause::BadOperand),
    }
}

/// A terminal after a number.
fn number_step(
    shape: Shape,
    place: ValuePlace,
    value: Value,
    terminal: Terminal,
) -> Result<Partial, SourceCause>
    ensures { result ≡ spec.next_terminal shape (partial.Number place value) terminal }
{
    match terminal {
        Terminal::Open => open(shape, place, value),
        _ => Err(SourceCause::BadOperand),
    }
}

fn next_terminal(shape: Shape, so_far: Partial, terminal: Terminal) -> Result<Partial, SourceCause>
    ensures { result ≡ spec.next_terminal shape so_far terminal }
{
    match so_far {
        Partial::Nothing | Partial::Absent => first(shape, terminal),
        Partial::Percent => percent_step(shape, terminal),
        Partial::Dollar => dollar_step(shape, terminal),
        Partial::Minus(place) => minus_step(shape, place, terminal),
        Partial::Name { place, name } => name_step(shape, place, name, terminal),
        Partial::Sign {
            place,
            name,
            negative,
        } => sign_step(shape, place, name, negative, terminal),
        Partial::SignMinus {
            place,
            name,
            negative,
        } => sign_minus_step(shape, place, name, negative, terminal),
        Partial::Number { place, value } => number_step(shape, place, value, terminal),
        rest => address_step(rest, terminal),
    }
}

/// The next terminal of an argument.
pub fn operand_step(
    shape: Shape,
    so_far: Partial,
    terminal: Terminal,
) -> Result<Partial, SourceCause>
    ensures { result ≡ spec.operand_step shape so_far terminal }
{
    match terminal {
        Terminal::Big => {
            discard(so_far);
            Err(SourceCause::BadNumber)
        }
        other => next_terminal(shape, so_far, other),
    }
}

fn open(shape: Shape, place: ValuePlace, value: Value) -> Result<Partial, SourceCause>
    ensures { result ≡ spec.open_paren shape place value }
{
    match place {
        ValuePlace::Memory => allowed(shape.is_operand(), Partial::Open(Some(value))),
        ValuePlace::Immediate => Err(SourceCause::BadOperand),
    }
}

/// The form that has been read, where it may end here.
pub fn finished(so_far: Partial) -> Option<Form>
    ensures { result ≡ spec.finished so_far }
{
    match so_far {
        Partial::Name {
            place: ValuePlace::Immediate,
            name,
        } => Some(Form::Immediate(named(name, 0))),
        Partial::Name {
            place: ValuePlace::Memory,
            name,
        } => Some(of_memory(Some(named(name, 0)), None, None, 1)),
        Partial::Number {
            place: ValuePlace::Immediate,
            value,
        } => Some(Form::Immediate(value)),
        Partial::Number {
            place: ValuePlace::Memory,
            value,
        } => Some(of_memory(Some(value), None, None, 1)),
        Partial::Whole(form) => Some(form),
        Partial::Absent => Some(Form::Absent),
        other => {
            discard(other);
            None
        }
    }
}

/// Whether the argument may end here.
pub fn is_finished(so_far: &Partial) -> bool
    ensures { result ≡ spec.is_finished so_far.now }
{
    match so_far {
        Partial::Name { .. } | Partial::Number { .. } | Partial::Whole(_) | Partial::Absent => true,
        _ => false,
    }
}

/// Whether nothing was read of an argument that may not be absent.
pub fn is_nothing(so_far: &Partial) -> bool
    ensures { result ≡ spec.is_nothing so_far.now }
{
    match so_far {
        Partial::Nothing => true,
        _ => false,
    }
}

/// Whether no terminal of the argument has been read.
pub fn is_unbegun(so_far: &Partial) -> bool
    ensures { result ≡ spec.is_unbegun so_far.now }
{
    match so_far {
        Partial::Nothing | Partial::Absent => true,
        _ => false,
    }
}

/// An argument of which nothing has been read.
pub fn begun(shape: Shape) -> Partial
    ensures { result ≡ spec.begun shape }
{
    match shape {
        Shape::Fill => Partial::Absent,
        _ => Partial::Nothing,
    }
}

/// Whether a register has to follow.
pub fn awaits_register(so_far: &Partial) -> bool
    ensures { result ≡ spec.awaits_register so_far.now }
{
    match so_far {
        Partial::Percent | Partial::BasePercent(_) | Partial::IndexPercent { .. } => true,
        _ => false,
    }
}

/// The symbol's name that has just been read.
pub fn name_in(so_far: &Partial) -> Option<&Name>
    ensures { option_copied result ≡ spec.name_in so_far.now }
{
    match so_far {
        Partial::Name { name, .. } => Some(name),
        _ => None,
    }
}
