//! An instruction that is put together from its operands.

ghost use Rattle.std.specs.Prelude.{◌≡◌};
ghost use Rattle.std.specs.Option.{option_map};
ghost use Rattle.asm_instruction.specs.declared.argument.Number.{Number as NumberView};
ghost use Rattle.asm_instruction.specs.Draft as spec;

use crate::argument::{Given, Memory, Number};
use crate::fields::{field, fits_field};
use ia32_types::{Insn, Op, Operand, Size};

/// An operand of an instruction, and the number that it takes.
#[derive(Clone, Copy)]
pub struct NumberedOperand {
    pub operand: Operand,
    pub displacement: Option<Number>,
}

/// An instruction. Its numbers have the low bits of what is written.
#[derive(Clone, Copy)]
pub struct Draft {
    pub insn: Insn,
    /// The argument that gives the displacement.
    pub disp: Option<u8>,
    /// The argument that gives the immediate or distance.
    pub imm: Option<u8>,
    /// Whether the immediate is the distance to a symbol.
    pub relative: bool,
    /// Whether each number fits its field.
    pub fits: bool,
}

/// A source and a destination.
#[derive(Clone, Copy)]
pub enum Pair {
    Immediate(Number, NumberedOperand),
    /// From a register to a register or memory.
    FromRegister(u8, NumberedOperand),
    /// From memory to a register.
    FromMemory(NumberedOperand, u8),
}

/// No operand.
pub const NOTHING: NumberedOperand = NumberedOperand {
    operand: Operand::Absent,
    displacement: None,
};

/// A register, segment or control register.
pub fn of_operand(operand: Operand) -> NumberedOperand
    ensures { result ≡ spec.of_operand operand }
{
    NumberedOperand {
        operand,
        displacement: None,
    }
}

/// A general register, by its number at the instruction's size.
pub fn register_operand(number: u8) -> NumberedOperand
    ensures { result ≡ spec.register_operand number }
{
    of_operand(Operand::Register(number))
}

/// Memory, with the number that its displacement is.
pub fn memory(memory: Memory) -> NumberedOperand
    ensures { result ≡ spec.memory memory }
{
    NumberedOperand {
        operand: Operand::Memory(memory.address),
        displacement: Some(memory.displacement),
    }
}

/// A register or memory.
pub fn register_or_memory(given: Given) -> Option<NumberedOperand>
    ensures { result ≡ spec.register_or_memory given }
{
    match given {
        Given::Register(_, number) => Some(register_operand(number)),
        Given::Memory(at) => Some(memory(at)),
        _ => None,
    }
}

/// The size of a register.
pub fn said(given: Given) -> Option<Size>
    ensures { result ≡ spec.said given }
{
    match given {
        Given::Register(size, _) => Some(size),
        _ => None,
    }
}

/// Source and destination, of which at most one is in memory.
#[tactic(auto, unfolding(crate::specs::Draft::paired))]
pub fn paired(source: Given, destination: Given) -> Option<Pair>
    ensures { result ≡ spec.paired source destination }
{
    match source {
        Given::Immediate(number) => {
            let place = register_or_memory(destination)?;
            Some(Pair::Immediate(number, place))
        }
        Given::Register(_, number) => {
            let place = register_or_memory(destination)?;
            Some(Pair::FromRegister(number, place))
        }
        Given::Memory(at) => match destination {
            Given::Register(_, number) => Some(Pair::FromMemory(memory(at), number)),
            _ => None,
        },
        _ => None,
    }
}

fn displaced(a: NumberedOperand, b: NumberedOperand) -> Option<Number>
    ensures { result ≡ spec.displaced a b }
{
    a.displacement.or(b.displacement)
}

fn argument(number: Option<Number>) -> Option<u8>
    ensures { result ≡ option_map (λ (n : NumberView). n.argument) number }
{
    match number {
        Some(number) => Some(number.argument),
        None => None,
    }
}

fn fits_displacement(number: Option<Number>) -> bool
    ensures { result ≡ spec.fits_displacement number }
{
    match number {
        Some(number) => fits_field(Size::Long, number.value),
        None => true,
    }
}

/// An instruction without an immediate.
#[tactic(auto, unfolding(crate::specs::Draft::instruction))]
pub fn instruction(op: Op, size: Size, a: NumberedOperand, b: NumberedOperand) -> Draft
    ensures { result ≡ spec.instruction op size a b }
{
    let displacement = displaced(a, b);
    Draft {
        insn: Insn {
            op,
            size,
            a: a.operand,
            b: b.operand,
            imm: 0,
            sel: 0,
            rep: false,
        },
        disp: argument(displacement),
        imm: None,
        relative: false,
        fits: fits_displacement(displacement),
    }
}

/// The instruction with an immediate of this size.
#[tactic(auto, unfolding(crate::specs::Draft::with_number))]
pub fn with_number(draft: Draft, size: Size, number: Number) -> Draft
    ensures { result ≡ spec.with_number draft size number }
{
    Draft {
        insn: Insn {
            imm: field(size, number.value),
            ..draft.insn
        },
        imm: Some(number.argument),
        fits: draft.fits && fits_field(size, number.value),
        ..draft
    }
}

/// An instruction with one operand.
pub fn unary(op: Op, size: Size, a: NumberedOperand) -> Draft
    ensures { result ≡ spec.unary op size a }
{
    instruction(op, size, a, NOTHING)
}

/// An instruction without operands.
pub fn alone(op: Op) -> Draft
    ensures { result ≡ spec.alone op }
{
    instruction(op, Size::Long, NOTHING, NOTHING)
}
