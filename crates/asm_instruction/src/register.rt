//! The names of registers.

ghost use Rattle.std.specs.Prelude.{◌≡◌};
ghost use Rattle.asm_instruction.specs.Names.{found};
ghost use Rattle.asm_instruction.specs.Register.{long_registers, word_registers, byte_registers, segment_registers, control_registers};

use crate::bytes::look_up;
use ia32_types::{Reg, Seg};

const LONG_REGISTERS: [(&[u8], Reg); 8] = [
    (b"eax", Reg::Eax),
    (b"ecx", Reg::Ecx),
    (b"edx", Reg::Edx),
    (b"ebx", Reg::Ebx),
    (b"esp", Reg::Esp),
    (b"ebp", Reg::Ebp),
    (b"esi", Reg::Esi),
    (b"edi", Reg::Edi),
];

/// A register of 32 bits.
#[tactic(auto, unfolding(crate::specs::Register::long_registers))]
pub fn long_register(name: &[u8]) -> Option<Reg>
    ensures { result ≡ found long_registers name.now }
{
    look_up(&LONG_REGISTERS, name)
}

const WORD_REGISTERS: [(&[u8], u8); 8] = [
    (b"ax", 0),
    (b"cx", 1),
    (b"dx", 2),
    (b"bx", 3),
    (b"sp", 4),
    (b"bp", 5),
    (b"si", 6),
    (b"di", 7),
];

/// The number of a register of 16 bits.
#[tactic(auto, unfolding(crate::specs::Register::word_registers))]
pub fn word_register(name: &[u8]) -> Option<u8>
    ensures { result ≡ found word_registers name.now }
{
    look_up(&WORD_REGISTERS, name)
}

const BYTE_REGISTERS: [(&[u8], u8); 8] = [
    (b"al", 0),
    (b"cl", 1),
    (b"dl", 2),
    (b"bl", 3),
    (b"ah", 4),
    (b"ch", 5),
    (b"dh", 6),
    (b"bh", 7),
];

/// The number of a register of 8 bits.
#[tactic(auto, unfolding(crate::specs::Register::byte_registers))]
pub fn byte_register(name: &[u8]) -> Option<u8>
    ensures { result ≡ found byte_registers name.now }
{
    look_up(&BYTE_REGISTERS, name)
}

const SEGMENT_REGISTERS: [(&[u8], Seg); 4] = [
    (b"es", Seg::Es),
    (b"cs", Seg::Cs),
    (b"ss", Seg::Ss),
    (b"ds", Seg::Ds),
];

/// The segment register of a name, without its `%`. FS and GS have none (profile).
#[tactic(auto, unfolding(crate::specs::Register::segment_registers))]
pub fn segment_register(name: &[u8]) -> Option<Seg>
    ensures { result ≡ found segment_registers name.now }
{
    look_up(&SEGMENT_REGISTERS, name)
}

const CONTROL_REGISTERS: [(&[u8], u8); 4] = [(b"cr0", 0), (b"cr2", 2), (b"cr3", 3), (b"cr4", 4)];

/// The number of a control register.
#[tactic(auto, unfolding(crate::specs::Register::control_registers))]
pub fn control_register(name: &[u8]) -> Option<u8>
    ensures { result ≡ found control_registers name.now }
{
    look_up(&CONTROL_REGISTERS, name)
}
