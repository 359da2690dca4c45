//! Moves between registers and memory.

ghost use Rattle.std.specs.Prelude.{◌≡◌};
ghost use Rattle.asm_instruction.specs.Names.{found};
ghost use Rattle.asm_instruction.specs.Arithmetic.{of_two};
ghost use Rattle.asm_instruction.specs.Moves as spec;

use crate::argument::{Given, Operands};
use crate::arithmetic::{to_register, two};
use crate::bytes::look_up;
use crate::draft::{
    Draft, NumberedOperand, Pair, instruction, of_operand, paired, register_operand,
    register_or_memory, said,
};
use crate::mnemonic::Family;
use crate::sizes::agreed;
use ia32_types::{Op, Operand, Size};

/// The kinds of moves, by the operands that they take.
#[derive(Clone, Copy)]
pub enum Moves {
    Move,
    /// MOVZX and MOVSX from this size to 32 bits.
    Extend(Op, Size),
    Lea,
    Exchange,
}

const MOVE_NAMES: [(&[u8], Family); 3] = [
    (b"mov", Family::Moves(Moves::Move)),
    (b"lea", Family::Moves(Moves::Lea)),
    (b"xchg", Family::Moves(Moves::Exchange)),
];

/// The names of moves that take a suffix.
#[tactic(auto, unfolding(crate::specs::Moves::move_names))]
pub fn move_name(name: &[u8]) -> Option<Family>
    ensures { result ≡ found spec.move_names name.now }
{
    look_up(&MOVE_NAMES, name)
}

const EXTEND_NAMES: [(&[u8], Family); 4] = [
    (
        b"movzbl",
        Family::Moves(Moves::Extend(Op::Movzx, Size::Byte)),
    ),
    (
        b"movzwl",
        Family::Moves(Moves::Extend(Op::Movzx, Size::Word)),
    ),
    (
        b"movsbl",
        Family::Moves(Moves::Extend(Op::Movsx, Size::Byte)),
    ),
    (
        b"movswl",
        Family::Moves(Moves::Extend(Op::Movsx, Size::Word)),
    ),
];

/// The names of moves that widen, with both sizes in the name.
#[tactic(auto, unfolding(crate::specs::Moves::extend_names))]
pub fn extend_name(name: &[u8]) -> Option<Family>
    ensures { result ≡ found spec.extend_names name.now }
{
    look_up(&EXTEND_NAMES, name)
}

// A move of 32 bits between a special register and a register or memory.
#[tactic(auto, unfolding(crate::specs::Moves::special))]
fn special(
    op: Op,
    suffix: Option<Size>,
    given: Given,
    a: NumberedOperand,
    b: NumberedOperand,
) -> Option<Draft>
    ensures { result ≡ spec.special op suffix given a b }
{
    let size = agreed(suffix, said(given), Some(Size::Long))?;
    Some(instruction(op, size, a, b))
}

#[tactic(auto, unfolding(crate::specs::Moves::from_special))]
fn from_special(
    op: Op,
    suffix: Option<Size>,
    register: Operand,
    destination: Given,
) -> Option<Draft>
    ensures { result ≡ spec.from_special op suffix register destination }
{
    let to = register_or_memory(destination)?;
    special(op, suffix, destination, to, of_operand(register))
}

#[tactic(auto, unfolding(crate::specs::Moves::to_special))]
fn to_special(op: Op, suffix: Option<Size>, source: Given, register: Operand) -> Option<Draft>
    ensures { result ≡ spec.to_special op suffix source register }
{
    let from = register_or_memory(source)?;
    special(op, suffix, source, of_operand(register), from)
}

#[tactic(auto, unfolding(crate::specs::Moves::moved))]
fn moved(suffix: Option<Size>, source: Given, destination: Given) -> Option<Draft>
    ensures { result ≡ spec.moved suffix source destination }
{
    match (source, destination) {
        (Given::Segment(segment), to) => {
            from_special(Op::ReadSeg, suffix, Operand::Segment(segment), to)
        }
        (Given::Control(control), to) => {
            from_special(Op::ReadControl, suffix, Operand::Control(control), to)
        }
        (from, Given::Segment(segment)) => {
            to_special(Op::LoadSeg, suffix, from, Operand::Segment(segment))
        }
        (from, Given::Control(control)) => {
            to_special(Op::WriteControl, suffix, from, Operand::Control(control))
        }
        (from, to) => two(Op::Mov, suffix, from, to),
    }
}

// The size is that of the source.
#[tactic(auto, unfolding(crate::specs::Moves::extended))]
fn extended(op: Op, size: Size, source: Given, destination: Given) -> Option<Draft>
    ensures { result ≡ spec.extended op size source destination }
{
    match destination {
        Given::Register(Size::Long, number) => {
            let from = register_or_memory(source)?;
            let size = agreed(Some(size), said(source), None)?;
            Some(instruction(op, size, register_operand(number), from))
        }
        _ => None,
    }
}

#[tactic(auto, unfolding(crate::specs::Moves::effective))]
fn effective(suffix: Option<Size>, source: Given, destination: Given) -> Option<Draft>
    ensures { result ≡ spec.effective suffix source destination }
{
    match source {
        Given::Memory(_) => to_register(Op::Lea, suffix, source, destination),
        _ => None,
    }
}

fn two_registers(size: Size, number: u8, other: NumberedOperand) -> Draft
    ensures { result ≡ spec.with_register size number other other.operand }
{
    match other.operand {
        Operand::Register(second) => {
            instruction(
                Op::Xchg,
                size,
                register_operand(number.min(second)),
                register_operand(number.max(second)),
            )
        }
        _ => instruction(Op::Xchg, size, other, register_operand(number)),
    }
}

// Of two registers the one of the lower number stands first, else memory.
#[tactic(auto, unfolding(crate::specs::Arithmetic::of_two))]
fn exchanged(suffix: Option<Size>, source: Given, destination: Given) -> Option<Draft>
    ensures { result ≡ of_two spec.exchange suffix source destination }
{
    let pair = paired(source, destination)?;
    let size = agreed(suffix, said(source), said(destination))?;
    match pair {
        Pair::Immediate(_, _) => None,
        Pair::FromRegister(number, place) => Some(two_registers(size, number, place)),
        Pair::FromMemory(place, number) => Some(instruction(
            Op::Xchg,
            size,
            place,
            register_operand(number),
        )),
    }
}

/// The instruction of this kind with these operands, which stand in AT&T order. None where the kind has no such form.
#[tactic(auto, unfolding(crate::specs::Moves::move_draft))]
pub fn move_draft(kind: Moves, suffix: Option<Size>, operands: Operands) -> Option<Draft>
    ensures { result ≡ spec.move_draft kind suffix operands }
{
    match operands {
        Operands::Two(source, destination) => match kind {
            Moves::Move => moved(suffix, source, destination),
            Moves::Extend(op, size) => extended(op, size, source, destination),
            Moves::Lea => effective(suffix, source, destination),
            Moves::Exchange => exchanged(suffix, source, destination),
        },
        _ => None,
    }
}
