//! What instructions have in common: how their names end, and how their operands stand.

ghost use Rattle.std.specs.Prelude.{◌≡◌};
ghost use Rattle.ia32_text.specs.Kinds as spec;

use ia32_types::Op;

/// What stands at the end of a name.
#[derive(Clone, Copy)]
pub enum Ending {
    Nothing,
    /// The letter of the size.
    Sized,
    /// The letters of the size and of 32 bits.
    Widened,
    /// The condition.
    Condition,
}

/// How the operands stand.
#[derive(Clone, Copy)]
pub enum Layout {
    Nothing,
    /// The one operand, or the number.
    One,
    /// The source, or the number, and the destination.
    Two,
    /// IMUL: one operand, or source and destination.
    Product,
    /// IMUL by a number: the number, source and destination.
    ProductBy,
    /// The source at its size, and the destination of 32 bits.
    Widened,
    /// The count, and what is shifted.
    Shift,
    /// The one operand, of 16 bits.
    Task,
    /// The port, and AL or EAX.
    In,
    /// AL or EAX, and the port.
    Out,
    /// The number, unless it is 0.
    Return,
    /// The operand, with `*` before it.
    Starred,
    /// The selector and the offset.
    Far,
    /// The place to which a direct branch leads.
    Label,
}

/// How the name ends.
pub fn ending_of(op: Op) -> Ending
    ensures { result ≡ spec.ending_of op }
{
    match op {
        Op::Movzx | Op::Movsx => Ending::Widened,
        Op::Pusha
        | Op::Popa
        | Op::Cwde
        | Op::Cdq
        | Op::Leave
        | Op::Nop
        | Op::Jmp
        | Op::Call
        | Op::Int
        | Op::Int3
        | Op::Ud2
        | Op::Clc
        | Op::Stc
        | Op::Cld
        | Op::Std
        | Op::Cli
        | Op::Sti
        | Op::Hlt
        | Op::PushFlags
        | Op::PopFlags
        | Op::Iret
        | Op::LoadTask
        | Op::DropPage
        | Op::FarJump
        | Op::Return
        | Op::JumpTo
        | Op::CallTo => Ending::Nothing,
        Op::ReadControl | Op::WriteControl | Op::ReadSeg | Op::LoadSeg => Ending::Nothing,
        Op::Jcc | Op::Setcc => Ending::Condition,
        _ => Ending::Sized,
    }
}

/// How the operands stand.
pub fn layout_of(op: Op) -> Layout
    ensures { result ≡ spec.layout_of op }
{
    match op {
        Op::Add
        | Op::Or
        | Op::Adc
        | Op::Sbb
        | Op::And
        | Op::Sub
        | Op::Xor
        | Op::Cmp
        | Op::Test
        | Op::Mov
        | Op::Lea
        | Op::Xchg
        | Op::ReadControl
        | Op::WriteControl
        | Op::ReadSeg
        | Op::LoadSeg => Layout::Two,
        Op::Not
        | Op::Neg
        | Op::Mul
        | Op::Div
        | Op::Idiv
        | Op::Inc
        | Op::Dec
        | Op::Push
        | Op::Pop
        | Op::Setcc
        | Op::Int
        | Op::LoadGdt
        | Op::LoadIdt
        | Op::DropPage
        | Op::PushSeg
        | Op::PopSeg => Layout::One,
        Op::Imul => Layout::Product,
        Op::ImulBy => Layout::ProductBy,
        Op::Rol | Op::Ror | Op::Shl | Op::Shr | Op::Sar => Layout::Shift,
        Op::Movzx | Op::Movsx => Layout::Widened,
        Op::Jcc | Op::Jmp | Op::Call => Layout::Label,
        Op::LoadTask => Layout::Task,
        Op::FarJump => Layout::Far,
        Op::PortIn => Layout::In,
        Op::PortOut => Layout::Out,
        Op::Return => Layout::Return,
        Op::JumpTo | Op::CallTo => Layout::Starred,
        _ => Layout::Nothing,
    }
}
