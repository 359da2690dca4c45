//! Instructions that work in registers alone.

ghost use Rattle.std.specs.Prelude.{◌≡◌, true};
ghost use Rattle.host_cpl3.specs.Nothing.{AccessesNothing, is_memory, is_by_operands};

use ia32_types::{Insn, Op, Operand};

fn is_memory(operand: &Operand) -> bool
    ensures { result ≡ is_memory operand.now }
{
    matches!(operand, Operand::Memory(_))
}

// Whether an instruction of this name accesses no memory but its operands.
#[inline(always)]
fn is_by_operands(op: Op) -> bool
    ensures { result ≡ is_by_operands op }
{
    match op {
        Op::Add
        | Op::Or
        | Op::Adc
        | Op::Sbb
        | Op::And
        | Op::Sub
        | Op::Xor
        | Op::Not
        | Op::Neg
        | Op::Inc
        | Op::Dec
        | Op::Cmp
        | Op::Test => true,
        Op::Mul
        | Op::Imul
        | Op::ImulBy
        | Op::Div
        | Op::Idiv
        | Op::Rol
        | Op::Ror
        | Op::Shl
        | Op::Shr
        | Op::Sar => true,
        Op::Mov | Op::Movzx | Op::Movsx | Op::Xchg | Op::Setcc | Op::Jcc | Op::Jmp => true,
        _ => false,
    }
}

/// Whether an instruction is known to access no memory.
#[inline(always)]
pub fn accesses_nothing(insn: &Insn) -> bool
    ensures { result ≡ true → AccessesNothing insn.now }
{
    if !is_by_operands(insn.op) || is_memory(&insn.a) || is_memory(&insn.b) {
        return false;
    }
    true
}
