//! Instructions that have no spelling.

use super::{NARROW, has_no_form};
use crate::spelled::{Spelled, bytes};
use ia32_decode::{Decoded, decode};
use ia32_encode::Wide;
use ia32_types::{Address, Insn, Op, Operand, Reg, Seg, Size};

const ABSENT: Operand = Operand::Absent;

macro_rules! insn {
    ($op:ident $size:ident, $a:expr, $b:expr, $imm:literal $sel:literal $rep:literal) => {
        Insn { op: Op::$op, size: Size::$size, a: $a, b: $b, imm: $imm, sel: $sel, rep: $rep }
    };
}

macro_rules! memory {
    ($base:expr, $index:expr, $scale:literal) => {
        Operand::Memory(Address { base: $base, index: $index, scale: $scale, disp: 0 })
    };
}

/// Instructions that no row spells.
const UNSPELLED: [Insn; 38] = [
    // Control registers that no row names, and memory in their place.
    insn!(WriteControl Long, Operand::Control(1), Operand::Register(0), 0 0 false),
    insn!(ReadControl Long, Operand::Register(0), Operand::Control(5), 0 0 false),
    insn!(ReadControl Long, memory!(Some(Reg::Eax), None, 1), Operand::Control(0), 0 0 false),
    // Registers beyond 7.
    insn!(Inc Long, Operand::Register(8), ABSENT, 0 0 false),
    insn!(Add Long, Operand::Register(0), Operand::Register(9), 0 0 false),
    // Addresses that no ModRM and SIB bytes name.
    insn!(Inc Long, memory!(Some(Reg::Eax), Some(Reg::Esp), 1), ABSENT, 0 0 false),
    insn!(Inc Long, memory!(Some(Reg::Eax), Some(Reg::Ecx), 3), ABSENT, 0 0 false),
    insn!(Inc Long, memory!(Some(Reg::Eax), None, 2), ABSENT, 0 0 false),
    insn!(Inc Long, memory!(None, None, 4), ABSENT, 0 0 false),
    insn!(Mov Long, Operand::Register(0), memory!(None, None, 2), 0 0 false),
    // Two operands in memory.
    insn!(Mov Long, memory!(Some(Reg::Esi), None, 1), memory!(Some(Reg::Edi), None, 1), 0 0 false),
    // Sizes that no row has.
    insn!(Add Word, Operand::Register(0), Operand::Register(1), 0 0 false),
    insn!(Push Word, Operand::Register(0), ABSENT, 0 0 false),
    insn!(Lea Word, Operand::Register(0), memory!(Some(Reg::Eax), None, 1), 0 0 false),
    insn!(Movzx Long, Operand::Register(0), Operand::Register(1), 0 0 false),
    insn!(PortIn Word, ABSENT, Operand::Register(2), 0 0 false),
    insn!(Nop Byte, ABSENT, ABSENT, 0 0 false),
    insn!(Setcc Long, Operand::Register(0), ABSENT, 0 4 false),
    insn!(ReadSeg Word, Operand::Register(0), Operand::Segment(Seg::Ds), 0 0 false),
    // Immediates that are too large, or that no row has.
    insn!(Add Byte, Operand::Register(0), ABSENT, 0x100 0 false),
    insn!(Mov Byte, Operand::Register(1), ABSENT, 0xffff_ffff 0 false),
    insn!(Mov Word, Operand::Register(1), ABSENT, 0x1_0000 0 false),
    insn!(Shl Long, Operand::Register(0), ABSENT, 0x100 0 false),
    insn!(Int Long, ABSENT, ABSENT, 0x100 0 false),
    insn!(Return Long, ABSENT, ABSENT, 0x1_0000 0 false),
    insn!(PortOut Byte, ABSENT, ABSENT, 0x100 0 false),
    insn!(Nop Long, ABSENT, ABSENT, 1 0 false),
    // Conditions beyond 15, and fields that are not used.
    insn!(Jcc Long, ABSENT, ABSENT, 0 16 false),
    insn!(Setcc Byte, Operand::Register(0), ABSENT, 0 16 false),
    insn!(Nop Long, ABSENT, ABSENT, 0 1 false),
    insn!(Nop Long, ABSENT, ABSENT, 0 0 true),
    insn!(Nop Long, Operand::Register(0), ABSENT, 0 0 false),
    // A register where memory is asked for, and segment registers that no row takes.
    insn!(Lea Long, Operand::Register(0), Operand::Register(1), 0 0 false),
    insn!(LoadGdt Long, Operand::Register(0), ABSENT, 0 0 false),
    insn!(LoadSeg Long, Operand::Segment(Seg::Cs), Operand::Register(0), 0 0 false),
    insn!(PopSeg Long, Operand::Segment(Seg::Cs), ABSENT, 0 0 false),
    // XCHG names the lower register first, and memory first.
    insn!(Xchg Long, Operand::Register(3), Operand::Register(1), 0 0 false),
    insn!(Xchg Long, Operand::Register(3), memory!(Some(Reg::Eax), None, 1), 0 0 false),
];

/// Spellings of instructions that have no field of four bytes: for a displacement, for an immediate.
struct Narrow {
    bytes: Spelled,
    wide: Wide,
}

macro_rules! narrow {
    ([$($byte:literal),*] $disp:literal $imm:literal) => {
        Narrow { bytes: bytes!($($byte),*), wide: Wide { disp: $disp, imm: $imm } }
    };
}

const WITHOUT: [Narrow; 22] = [
    // No displacement.
    narrow!([0x90] true false),
    narrow!([0x89, 0xd8] true false),
    narrow!([0x83, 0xc0, 0x01] true false),
    narrow!([0xa4] true false),
    narrow!([0xe8, 0x00, 0x00, 0x00, 0x00] true false),
    narrow!([0x0f, 0x20, 0xc0] true false),
    narrow!([0xea, 0x10, 0x00, 0x00, 0x10, 0x08, 0x00] true false),
    // No immediate, or one that has one or two bytes.
    narrow!([0x90] false true),
    narrow!([0x01, 0xd8] false true),
    narrow!([0x8b, 0x43, 0x04] false true),
    narrow!([0x04, 0x01] false true),
    narrow!([0x80, 0xc1, 0x01] false true),
    narrow!([0xb0, 0x01] false true),
    narrow!([0x66, 0xb8, 0x01, 0x00] false true),
    narrow!([0xc1, 0xe0, 0x03] false true),
    narrow!([0xd1, 0xe0] false true),
    narrow!([0xcd, 0x80] false true),
    narrow!([0xe4, 0x60] false true),
    narrow!([0xc2, 0x04, 0x00] false true),
    narrow!([0xc3] false true),
    // One field is there and the other is not.
    narrow!([0x8b, 0x43, 0x04] true true),
    narrow!([0x83, 0xc0, 0x01] true true),
];

#[test]
fn nothing_spells_these(rt: HostRuntime) {
    for (k, insn) in UNSPELLED.iter().enumerate() {
        assert!(rt; has_no_form(insn, NARROW), "row {k}");
    }
}

fn has_no_wide_form(narrow: &Narrow) -> bool {
    match decode(narrow.bytes.as_slice()) {
        Decoded::Insn(insn, _) => has_no_form(&insn, narrow.wide),
        Decoded::Short | Decoded::Outside => false,
    }
}

#[test]
fn nothing_spells_these_in_four_bytes(rt: HostRuntime) {
    for (k, narrow) in WITHOUT.iter().enumerate() {
        assert!(rt; has_no_wide_form(narrow), "row {k}");
    }
}
