//! Shifts and rotations.

ghost use Rattle.std.specs.Prelude.{◌≡◌};
ghost use Rattle.asm_instruction.specs.Names.{found};
ghost use Rattle.asm_instruction.specs.Shift as spec;

use crate::argument::{Given, Operands};
use crate::arithmetic::one;
use crate::bytes::look_up;
use crate::draft::{Draft, instruction, register_operand, register_or_memory, said, with_number};
use crate::mnemonic::Family;
use crate::sizes::agreed;
use ia32_types::{Insn, Op, Size};

const SHIFT_NAMES: [(&[u8], Family); 6] = [
    (b"rol", Family::Shift(Op::Rol)),
    (b"ror", Family::Shift(Op::Ror)),
    (b"shl", Family::Shift(Op::Shl)),
    (b"sal", Family::Shift(Op::Shl)),
    (b"shr", Family::Shift(Op::Shr)),
    (b"sar", Family::Shift(Op::Sar)),
];

/// The names of the shifts and rotations. SAL is another name of SHL.
#[tactic(auto, unfolding(crate::specs::Shift::shift_names))]
pub fn shift_name(name: &[u8]) -> Option<Family>
    ensures { result ≡ found spec.shift_names name.now }
{
    look_up(&SHIFT_NAMES, name)
}

// By CL, which says nothing of the size.
#[tactic(auto, unfolding(crate::specs::Shift::by_register))]
fn by_register(op: Op, suffix: Option<Size>, given: Given) -> Option<Draft>
    ensures { result ≡ spec.by_register op suffix given }
{
    let place = register_or_memory(given)?;
    let size = agreed(suffix, said(given), None)?;
    Some(instruction(op, size, place, register_operand(1)))
}

/// The shift by 1, by a number or by CL, with these operands. None where there is no such form.
#[tactic(auto, unfolding(crate::specs::Shift::shift_draft))]
pub fn shift_draft(op: Op, suffix: Option<Size>, operands: Operands) -> Option<Draft>
    ensures { result ≡ spec.shift_draft op suffix operands }
{
    match operands {
        Operands::One(given) => {
            let draft = one(op, suffix, given)?;
            Some(Draft {
                insn: Insn {
                    imm: 1,
                    ..draft.insn
                },
                ..draft
            })
        }
        Operands::Two(Given::Immediate(count), given) => {
            let draft = one(op, suffix, given)?;
            Some(with_number(draft, Size::Byte, count))
        }
        Operands::Two(Given::Register(Size::Byte, number), given) => {
            if number == 1 {
                by_register(op, suffix, given)
            } else {
                None
            }
        }
        _ => None,
    }
}
