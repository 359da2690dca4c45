//! Jumps, calls, returns, interrupts and conditions.

ghost use Rattle.std.specs.Prelude.{◌≡◌};
ghost use Rattle.asm_instruction.specs.Names.{found};
ghost use Rattle.asm_instruction.specs.declared.control.Control.TheVariants as called;
ghost use Rattle.asm_instruction.specs.Control as spec;

use crate::argument::{Given, Memory, Number, Operands};
use crate::arithmetic::{of_one, one};
use crate::bytes::look_up;
use crate::condition::condition;
use crate::draft::{Draft, alone, with_number};
use crate::fields::{field, fits_field};
use crate::mnemonic::Family;
use crate::sizes::agreed;
use ia32_types::{Insn, Op, Size};

/// The kinds of instructions that go elsewhere, and SETcc.
#[derive(Clone, Copy)]
pub enum Control {
    /// A jump or a call: the direct and the indirect one.
    Branch(Op, Op),
    /// A jump on the condition of this number.
    Conditional(u8),
    /// SETcc.
    Set(u8),
    Interrupt,
    Return,
    FarJump,
}

const BRANCH_NAMES: [(&[u8], Family); 3] = [
    (
        b"jmp",
        Family::Control(Control::Branch(Op::Jmp, Op::JumpTo)),
    ),
    (
        b"call",
        Family::Control(Control::Branch(Op::Call, Op::CallTo)),
    ),
    (b"ret", Family::Control(Control::Return)),
];

/// The names of instructions that take a suffix.
#[tactic(auto, unfolding(crate::specs::Control::branch_names))]
pub fn branch_name(name: &[u8]) -> Option<Family>
    ensures { result ≡ found spec.branch_names name.now }
{
    look_up(&BRANCH_NAMES, name)
}

const CONTROL_NAMES: [(&[u8], Family); 5] = [
    (b"int", Family::Control(Control::Interrupt)),
    (b"int3", Family::Plain(Op::Int3)),
    (b"ud2", Family::Plain(Op::Ud2)),
    (b"iret", Family::Plain(Op::Iret)),
    (b"ljmp", Family::Control(Control::FarJump)),
];

/// The names of instructions that take none.
#[tactic(auto, unfolding(crate::specs::Control::control_names))]
pub fn control_name(name: &[u8]) -> Option<Family>
    ensures { result ≡ found spec.control_names name.now }
{
    look_up(&CONTROL_NAMES, name)
}

/// The names that end with a condition.
#[tactic(auto, unfolding(crate::specs::Control::conditional_name))]
pub fn conditional_name(name: &[u8]) -> Option<Family>
    ensures { result ≡ spec.conditional_name name.now }
{
    match name {
        [b'j', rest @ ..] => {
            let number = condition(rest)?;
            Some(Family::Control(Control::Conditional(number)))
        }
        [b's', b'e', b't', rest @ ..] => {
            let number = condition(rest)?;
            Some(Family::Control(Control::Set(number)))
        }
        _ => None,
    }
}

/// The distance is from the end of the field, which is that of the instruction.
fn distance(displacement: u32) -> u32
    ensures { result ≡ spec.distance displacement }
{
    displacement.wrapping_sub(4)
}

#[tactic(auto, unfolding(crate::specs::Control::to_symbol))]
fn to_symbol(op: Op, condition: u8, memory: Memory) -> Draft
    ensures { result ≡ spec.to_symbol op condition memory }
{
    let draft = alone(op);
    Draft {
        insn: Insn {
            imm: distance(memory.address.disp),
            sel: u16::from(condition),
            ..draft.insn
        },
        imm: Some(memory.displacement.argument),
        relative: true,
        fits: fits_field(Size::Long, memory.displacement.value),
        ..draft
    }
}

// Whether the operand is a symbol, with or without a constant.
fn is_symbol(memory: Memory) -> bool
    ensures { result ≡ spec.is_symbol memory }
{
    memory.displacement.named && memory.address.base.is_none() && memory.address.index.is_none()
}

#[tactic(auto, unfolding(crate::specs::Control::direct))]
fn direct(op: Op, condition: u8, suffix: Option<Size>, given: Given) -> Option<Draft>
    ensures { result ≡ spec.direct op condition suffix given }
{
    match given {
        Given::Memory(memory) => {
            if !is_symbol(memory) {
                return None;
            }
            agreed(suffix, Some(Size::Long), None)?;
            Some(to_symbol(op, condition, memory))
        }
        _ => None,
    }
}

#[tactic(auto, unfolding(crate::specs::Control::control_draft))]
fn returned(suffix: Option<Size>, operands: Operands) -> Option<Draft>
    ensures { result ≡ spec.control_draft called.Return suffix operands }
{
    agreed(suffix, Some(Size::Long), None)?;
    match operands {
        Operands::Nothing => Some(alone(Op::Return)),
        Operands::One(Given::Immediate(number)) => {
            Some(with_number(alone(Op::Return), Size::Word, number))
        }
        _ => None,
    }
}

#[tactic(auto, unfolding(crate::specs::Control::far))]
fn far(selector: Number, offset: Number) -> Option<Draft>
    ensures { result ≡ spec.far selector offset }
{
    if selector.named {
        return None;
    }
    let draft = with_number(alone(Op::FarJump), Size::Long, offset);
    Some(Draft {
        insn: Insn {
            sel: field(Size::Word, selector.value) as u16,
            ..draft.insn
        },
        fits: draft.fits && fits_field(Size::Word, selector.value),
        ..draft
    })
}

/// The instruction of this kind with these operands, which stand in AT&T order. None where the kind has no such form.
#[tactic(auto, unfolding(crate::specs::Control::control_draft))]
pub fn control_draft(kind: Control, suffix: Option<Size>, operands: Operands) -> Option<Draft>
    ensures { result ≡ spec.control_draft kind suffix operands }
{
    match (kind, operands) {
        (Control::Branch(op, _), Operands::One(given)) => direct(op, 0, suffix, given),
        (Control::Branch(_, op), Operands::Starred(given)) => {
            of_one(Some(Size::Long), op, suffix, given)
        }
        (Control::Conditional(number), Operands::One(given)) => {
            direct(Op::Jcc, number, suffix, given)
        }
        (Control::Set(number), Operands::One(given)) => set(number, given),
        (Control::Interrupt, Operands::One(Given::Immediate(number))) => {
            Some(with_number(alone(Op::Int), Size::Byte, number))
        }
        (Control::Return, operands) => returned(suffix, operands),
        (Control::FarJump, Operands::Two(Given::Immediate(selector), Given::Immediate(offset))) =>
            far(selector, offset),
        _ => None,
    }
}

#[tactic(auto, unfolding(crate::specs::Control::set))]
fn set(condition: u8, given: Given) -> Option<Draft>
    ensures { result ≡ spec.set condition given }
{
    let draft = one(Op::Setcc, Some(Size::Byte), given)?;
    Some(Draft {
        insn: Insn {
            sel: u16::from(condition),
            ..draft.insn
        },
        ..draft
    })
}
