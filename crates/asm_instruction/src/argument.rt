//! What the arguments of a statement say.

ghost use Rattle.std.specs.Prelude.{◌≡◌, ◌∷◌, [], List, ℕ, option_copied, is_some};
ghost use Rattle.asm_source.specs.Names.{symbol_in};
ghost use Rattle.asm_instruction.specs.Argument as spec;

use crate::fields::{field, fits_field};
use crate::register::{
    byte_register, control_register, long_register, segment_register, word_register,
};
use asm_source::{Argument, Form, Name, Value, is_text};
use ia32_types::{Address, Reg, Seg, Size};

/// A number as it is written, and whether a symbol's address is added to it.
#[derive(Clone, Copy)]
pub struct Number {
    pub value: i64,
    pub named: bool,
    /// The number of the argument.
    pub argument: u8,
}

/// A memory operand.
#[derive(Clone, Copy)]
pub struct Memory {
    /// The displacement has the low bits of what is written.
    pub address: Address,
    pub displacement: Number,
}

/// What an argument says.
#[derive(Clone, Copy)]
pub enum Given {
    /// A general register, by its number.
    Register(Size, u8),
    Segment(Seg),
    /// A control register, by its number.
    Control(u8),
    Memory(Memory),
    Immediate(Number),
    /// The port in DX in parentheses.
    Port,
}

/// The operands in the order of the source, in which the source of a move stands before its destination.
#[derive(Clone, Copy)]
pub enum Operands {
    Nothing,
    One(Given),
    /// One, with `*` before it.
    Starred(Given),
    Two(Given, Given),
    Three(Given, Given, Given),
}

#[tactic(auto, unfolding(crate::specs::Argument::named_register))]
fn named_register(name: &Name) -> Option<Given>
    ensures { result ≡ spec.named_register name.now }
{
    let name = name.bytes.as_slice();
    if let Some(register) = long_register(name) {
        return Some(Given::Register(Size::Long, register.number()));
    }
    if let Some(number) = word_register(name) {
        return Some(Given::Register(Size::Word, number));
    }
    if let Some(number) = byte_register(name) {
        return Some(Given::Register(Size::Byte, number));
    }
    if let Some(segment) = segment_register(name) {
        return Some(Given::Segment(segment));
    }
    let number = control_register(name)?;
    Some(Given::Control(number))
}

fn number_in(value: &Value, argument: u8) -> Number
    ensures { result ≡ spec.number_in value.now argument }
{
    Number {
        value: value.number,
        named: value.name.is_some(),
        argument,
    }
}

// A displacement that is not written is 0.
fn displacement(value: &Option<Value>, argument: u8) -> Number
    ensures { result ≡ spec.displacement value.now argument }
{
    match value {
        Some(value) => number_in(value, argument),
        None => Number {
            value: 0,
            named: false,
            argument,
        },
    }
}

/// The base or the index; none inside where it is not there, and none at all where it is no register of
/// 32 bits.
fn address_register(name: &Option<Name>) -> Option<Option<Reg>>
    ensures { result ≡ spec.address_register name.now }
{
    match name {
        None => Some(None),
        Some(name) => match long_register(&name.bytes) {
            Some(register) => Some(Some(register)),
            None => None,
        },
    }
}

fn is_dx(name: &Option<Name>) -> bool
    ensures { result ≡ spec.is_dx name.now }
{
    match name {
        None => false,
        Some(name) => is_text(&name.bytes, b"dx"),
    }
}

fn address(base: Option<Reg>, index: Option<Reg>, scale: u8, displacement: Number) -> Given
    ensures { result ≡ spec.address base index scale displacement }
{
    Given::Memory(Memory {
        address: Address {
            base,
            index,
            scale,
            disp: field(Size::Long, displacement.value),
        },
        displacement,
    })
}

#[tactic(auto, unfolding(crate::specs::Argument::memory_operand))]
fn memory_operand(
    displacement: Number,
    base: &Option<Name>,
    index: &Option<Name>,
    scale: u8,
) -> Option<Given>
    ensures { result ≡ spec.memory_operand displacement base.now index.now scale }
{
    let base = address_register(base)?;
    let index = address_register(index)?;
    Some(address(base, index, scale, displacement))
}

// What an argument says, which is the one of this number.
#[tactic(auto, unfolding(crate::specs::Argument::given_by))]
fn given_by(form: &Form, argument: u8) -> Option<Given>
    ensures { result ≡ spec.given_by form.now argument }
{
    match form {
        Form::Register(name) => named_register(name),
        Form::Immediate(value) => Some(Given::Immediate(number_in(value, argument))),
        Form::Memory {
            value,
            base,
            index,
            scale,
        } => {
            if value.is_none() && is_dx(base) && index.is_none() {
                Some(Given::Port)
            } else {
                memory_operand(displacement(value, argument), base, index, *scale)
            }
        }
        _ => None,
    }
}

#[tactic(auto, unfolding(crate::specs::Argument::single))]
fn single(argument: &Argument) -> Option<Operands>
    ensures { result ≡ spec.single argument.now }
{
    let only = given_by(&argument.form, 0)?;
    if argument.star {
        Some(Operands::Starred(only))
    } else {
        Some(Operands::One(only))
    }
}

// One of several arguments: there `*` stands before none.
#[tactic(auto, unfolding(crate::specs::Argument::unstarred))]
fn unstarred(argument: &Argument, number: u8) -> Option<Given>
    ensures { result ≡ spec.unstarred argument.now number }
{
    if argument.star {
        None
    } else {
        given_by(&argument.form, number)
    }
}

#[tactic(auto, unfolding(crate::specs::Argument::operands_of))]
fn pair(first: &Argument, second: &Argument) -> Option<Operands>
    ensures { result ≡ spec.operands_of (first.now ∷ second.now ∷ []) }
{
    let first = unstarred(first, 0)?;
    let second = unstarred(second, 1)?;
    Some(Operands::Two(first, second))
}

#[tactic(auto, unfolding(crate::specs::Argument::operands_of))]
fn triple(first: &Argument, second: &Argument, third: &Argument) -> Option<Operands>
    ensures { result ≡ spec.operands_of (first.now ∷ second.now ∷ third.now ∷ []) }
{
    let first = unstarred(first, 0)?;
    let second = unstarred(second, 1)?;
    let third = unstarred(third, 2)?;
    Some(Operands::Three(first, second, third))
}

/// The operands, where the arguments are such as an instruction may have.
#[tactic(auto, unfolding(crate::specs::Argument::operands_of))]
pub fn operands_of(arguments: &[Argument]) -> Option<Operands>
    ensures { result ≡ spec.operands_of arguments.now }
{
    match arguments {
        [] => Some(Operands::Nothing),
        [only] => single(only),
        [first, second] => pair(first, second),
        [first, second, third] => triple(first, second, third),
        _ => None,
    }
}

/// Whether the form has a symbol.
fn is_named(form: &Form) -> bool
    ensures { result ≡ is_some (symbol_in form.now) }
{
    match form {
        Form::Immediate(value) => value.name.is_some(),
        Form::Memory {
            value: Some(value),
            base: _,
            index: _,
            scale: _,
        } => value.name.is_some(),
        _ => false,
    }
}

/// Whether the argument of this number, where there is one, names a symbol.
#[tactic(auto, unfolding(crate::specs::Argument::names_symbol))]
pub fn names_symbol(arguments: &[Argument], argument: Option<u8>) -> bool
    ensures { result ≡ spec.names_symbol arguments.now argument }
{
    match argument {
        None => false,
        Some(number) => match arguments.get(usize::from(number)) {
            None => false,
            Some(argument) => is_named(&argument.form),
        },
    }
}
