//! The names of instructions in AT&T syntax, without what a size or a condition adds.

ghost use Rattle.std.specs.Prelude.{◌≡◌, ◌≤◌, length};
ghost use Rattle.ia32_text.specs.Names as spec;

use ia32_types::Op;

/// The name, or its front where a size or a condition ends it.
#[tactic(auto, unfolding(crate::specs::Names::stem))]
pub fn stem(op: Op) -> &'static [u8]
    ensures name { result.now ≡ spec.stem op }
    ensures len { length result.now ≤ 8 }
{
    match op {
        Op::Add => b"add",
        Op::Or => b"or",
        Op::Adc => b"adc",
        Op::Sbb => b"sbb",
        Op::And => b"and",
        Op::Sub => b"sub",
        Op::Xor => b"xor",
        Op::Cmp => b"cmp",
        Op::Test => b"test",
        Op::Not => b"not",
        Op::Neg => b"neg",
        Op::Mul => b"mul",
        Op::Imul => b"imul",
        Op::ImulBy => b"imul",
        Op::Div => b"div",
        Op::Idiv => b"idiv",
        Op::Inc => b"inc",
        Op::Dec => b"dec",
        Op::Rol => b"rol",
        Op::Ror => b"ror",
        Op::Shl => b"shl",
        Op::Shr => b"shr",
        Op::Sar => b"sar",
        Op::Mov => b"mov",
        Op::Movzx => b"movz",
        Op::Movsx => b"movs",
        Op::Lea => b"lea",
        Op::Xchg => b"xchg",
        Op::Push => b"push",
        Op::Pop => b"pop",
        Op::Pusha => b"pushal",
        Op::Popa => b"popal",
        Op::Cwde => b"cwtl",
        Op::Cdq => b"cltd",
        Op::Leave => b"leave",
        Op::Nop => b"nop",
        Op::Jcc => b"j",
        Op::Setcc => b"set",
        Op::Jmp => b"jmp",
        Op::Call => b"call",
        Op::Int => b"int",
        Op::Int3 => b"int3",
        Op::Ud2 => b"ud2",
        Op::Movs => b"movs",
        Op::Stos => b"stos",
        Op::Lods => b"lods",
        Op::Clc => b"clc",
        Op::Stc => b"stc",
        Op::Cld => b"cld",
        Op::Std => b"std",
        Op::Cli => b"cli",
        Op::Sti => b"sti",
        Op::Hlt => b"hlt",
        Op::PushFlags => b"pushfl",
        Op::PopFlags => b"popfl",
        Op::Iret => b"iret",
        Op::ReadControl => b"mov",
        Op::WriteControl => b"mov",
        Op::LoadGdt => b"lgdt",
        Op::LoadIdt => b"lidt",
        Op::LoadTask => b"ltr",
        Op::DropPage => b"invlpg",
        Op::ReadSeg => b"mov",
        Op::LoadSeg => b"mov",
        Op::PushSeg => b"push",
        Op::PopSeg => b"pop",
        Op::FarJump => b"ljmp",
        Op::PortIn => b"in",
        Op::PortOut => b"out",
        Op::Return => b"ret",
        Op::JumpTo => b"jmp",
        Op::CallTo => b"call",
    }
}

/// A condition of this number. Of several names it has the first in the manual's list.
#[tactic(auto, unfolding(crate::specs::Names::condition_name))]
pub fn condition_name(number: u16) -> &'static [u8]
    ensures name { result.now ≡ spec.condition_name number }
    ensures len { length result.now ≤ 2 }
{
    match number {
        0 => b"o",
        1 => b"no",
        2 => b"b",
        3 => b"ae",
        4 => b"e",
        5 => b"ne",
        6 => b"be",
        7 => b"a",
        8 => b"s",
        9 => b"ns",
        10 => b"p",
        11 => b"np",
        12 => b"l",
        13 => b"ge",
        14 => b"le",
        _ => b"g",
    }
}
