//! The stack.

ghost use Rattle.std.specs.Prelude.{◌≡◌};
ghost use Rattle.asm_instruction.specs.Names.{found};
ghost use Rattle.asm_instruction.specs.Stack as spec;

use crate::argument::{Given, Operands};
use crate::arithmetic::of_one;
use crate::bytes::look_up;
use crate::draft::{Draft, alone, of_operand, unary, with_number};
use crate::mnemonic::Family;
use crate::sizes::agreed;
use ia32_types::{Op, Operand, Seg, Size};

/// The kinds of instructions that push and pop an operand.
#[derive(Clone, Copy)]
pub enum Stack {
    Push,
    Pop,
}

const STACK_NAMES: [(&[u8], Family); 3] = [
    (b"push", Family::Stack(Stack::Push)),
    (b"pop", Family::Stack(Stack::Pop)),
    (b"leave", Family::Plain(Op::Leave)),
];

/// The names of instructions that take a suffix.
#[tactic(auto, unfolding(crate::specs::Stack::stack_names))]
pub fn stack_name(name: &[u8]) -> Option<Family>
    ensures { result ≡ found spec.stack_names name.now }
{
    look_up(&STACK_NAMES, name)
}

const FRAME_NAMES: [(&[u8], Family); 8] = [
    (b"pusha", Family::Plain(Op::Pusha)),
    (b"pushal", Family::Plain(Op::Pusha)),
    (b"popa", Family::Plain(Op::Popa)),
    (b"popal", Family::Plain(Op::Popa)),
    (b"pushf", Family::Plain(Op::PushFlags)),
    (b"pushfl", Family::Plain(Op::PushFlags)),
    (b"popf", Family::Plain(Op::PopFlags)),
    (b"popfl", Family::Plain(Op::PopFlags)),
];

/// The names of instructions without operands.
#[tactic(auto, unfolding(crate::specs::Stack::frame_names))]
pub fn frame_name(name: &[u8]) -> Option<Family>
    ensures { result ≡ found spec.frame_names name.now }
{
    look_up(&FRAME_NAMES, name)
}

// The stack holds 32 bits an operand.
#[tactic(auto, unfolding(crate::specs::Stack::of_segment))]
fn of_segment(op: Op, suffix: Option<Size>, segment: Seg) -> Option<Draft>
    ensures { result ≡ spec.of_segment op suffix segment }
{
    let size = agreed(suffix, None, Some(Size::Long))?;
    Some(unary(op, size, of_operand(Operand::Segment(segment))))
}

#[tactic(auto, unfolding(crate::specs::Stack::pushed))]
fn pushed(suffix: Option<Size>, given: Given) -> Option<Draft>
    ensures { result ≡ spec.pushed suffix given }
{
    match given {
        Given::Immediate(number) => {
            let size = agreed(suffix, Some(Size::Long), None)?;
            Some(with_number(alone(Op::Push), size, number))
        }
        Given::Segment(segment) => of_segment(Op::PushSeg, suffix, segment),
        _ => of_one(Some(Size::Long), Op::Push, suffix, given),
    }
}

#[tactic(auto, unfolding(crate::specs::Stack::popped))]
fn popped(suffix: Option<Size>, given: Given) -> Option<Draft>
    ensures { result ≡ spec.popped suffix given }
{
    match given {
        Given::Segment(segment) => of_segment(Op::PopSeg, suffix, segment),
        _ => of_one(Some(Size::Long), Op::Pop, suffix, given),
    }
}

/// PUSH or POP of one operand. None where there is no such form.
#[tactic(auto, unfolding(crate::specs::Stack::stack_draft))]
pub fn stack_draft(kind: Stack, suffix: Option<Size>, operands: Operands) -> Option<Draft>
    ensures { result ≡ spec.stack_draft kind suffix operands }
{
    match (kind, operands) {
        (Stack::Push, Operands::One(given)) => pushed(suffix, given),
        (Stack::Pop, Operands::One(given)) => popped(suffix, given),
        _ => None,
    }
}
