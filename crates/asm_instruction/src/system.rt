//! System instructions and ports.

ghost use Rattle.std.specs.Prelude.{◌≡◌};
ghost use Rattle.asm_instruction.specs.Names.{found};
ghost use Rattle.asm_instruction.specs.System as spec;

use crate::argument::{Given, Operands};
use crate::bytes::look_up;
use crate::draft::{
    Draft, NOTHING, instruction, memory, register_operand, register_or_memory, said, unary,
    with_number,
};
use crate::mnemonic::Family;
use crate::sizes::agreed;
use ia32_types::{Insn, Op, Size};

/// The kinds of system instructions, by the operands that they take.
#[derive(Clone, Copy)]
pub enum System {
    In,
    Out,
    /// LGDT, LIDT and INVLPG, of memory.
    Memory(Op),
    /// LTR.
    LoadTask,
}

const SYSTEM_NAMES: [(&[u8], Family); 5] = [
    (b"in", Family::System(System::In)),
    (b"out", Family::System(System::Out)),
    (b"lgdt", Family::System(System::Memory(Op::LoadGdt))),
    (b"lidt", Family::System(System::Memory(Op::LoadIdt))),
    (b"ltr", Family::System(System::LoadTask)),
];

/// The names of instructions that take a suffix.
#[tactic(auto, unfolding(crate::specs::System::system_names))]
pub fn system_name(name: &[u8]) -> Option<Family>
    ensures { result ≡ found spec.system_names name.now }
{
    look_up(&SYSTEM_NAMES, name)
}

const PAGE_NAMES: [(&[u8], Family); 1] = [(
    b"invlpg",
    Family::System(System::Memory(Op::DropPage)),
)];

/// The names of instructions that take none.
#[tactic(auto, unfolding(crate::specs::System::page_names))]
pub fn page_name(name: &[u8]) -> Option<Family>
    ensures { result ≡ found spec.page_names name.now }
{
    look_up(&PAGE_NAMES, name)
}

// A port in DX, or as a byte.
#[tactic(auto, unfolding(crate::specs::System::through))]
fn through(op: Op, size: Size, port: Given) -> Option<Draft>
    ensures { result ≡ spec.through op size port }
{
    match port {
        Given::Immediate(number) => {
            Some(with_number(instruction(op, size, NOTHING, NOTHING), Size::Byte, number))
        }
        Given::Port => Some(instruction(op, size, NOTHING, register_operand(2))),
        Given::Register(Size::Word, number) => {
            if number == 2 {
                Some(instruction(op, size, NOTHING, register_operand(2)))
            } else {
                None
            }
        }
        _ => None,
    }
}

// Between AL or EAX and a port.
#[tactic(auto, unfolding(crate::specs::System::ported))]
fn ported(op: Op, suffix: Option<Size>, port: Given, accumulator: Given) -> Option<Draft>
    ensures { result ≡ spec.ported op suffix port accumulator }
{
    match accumulator {
        Given::Register(own, number) => {
            if number != 0 {
                return None;
            }
            let size = agreed(suffix, Some(own), None)?;
            through(op, size, port)
        }
        _ => None,
    }
}

// The selector has 16 bits.
#[tactic(auto, unfolding(crate::specs::System::task))]
fn task(suffix: Option<Size>, given: Given) -> Option<Draft>
    ensures { result ≡ spec.task suffix given }
{
    let place = register_or_memory(given)?;
    agreed(suffix, said(given), Some(Size::Word))?;
    Some(unary(Op::LoadTask, Size::Long, place))
}

/// The instruction of this kind with these operands, which stand in AT&T order. None where the kind has no such form.
#[tactic(auto, unfolding(crate::specs::System::system_draft))]
pub fn system_draft(kind: System, suffix: Option<Size>, operands: Operands) -> Option<Draft>
    ensures { result ≡ spec.system_draft kind suffix operands }
{
    match (kind, operands) {
        (System::In, Operands::Two(port, to)) => ported(Op::PortIn, suffix, port, to),
        (System::Out, Operands::Two(from, port)) => ported(Op::PortOut, suffix, port, from),
        (System::Memory(op), Operands::One(Given::Memory(at))) => {
            let size = agreed(suffix, Some(Size::Long), None)?;
            Some(unary(op, size, memory(at)))
        }
        (System::LoadTask, Operands::One(given)) => task(suffix, given),
        _ => None,
    }
}
