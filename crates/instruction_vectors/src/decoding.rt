//! Bytes, and the instructions that GNU objdump shows for them.

use crate::spelled::Spelled;
use ia32_decode::{Decoded, decode};
use ia32_types::{Insn, same_insn};
use std::process::Abort;

mod arithmetic;
mod control;
mod moves;
mod refusals;
mod sites;
mod unary;

/// The bytes of one instruction, and the instruction.
struct Spelling {
    bytes: Spelled,
    insn: Insn,
}

// How GNU objdump shows the bytes, which is for the reader; the bytes; name, size, destination, source,
// immediate, selector or condition, and whether it repeats.
macro_rules! spelling {
    (@ (-)) => { ia32_types::Operand::Absent };
    (@ (reg $number:literal)) => { ia32_types::Operand::Register($number) };
    (@ (control $number:literal)) => { ia32_types::Operand::Control($number) };
    (@ (seg $name:ident)) => { ia32_types::Operand::Segment(ia32_types::Seg::$name) };
    (@ (mem - - $scale:literal $disp:literal)) => { spelling!(@@ None, None, $scale, $disp) };
    (@ (mem - $index:ident $scale:literal $disp:literal)) => {
        spelling!(@@ None, Some(ia32_types::Reg::$index), $scale, $disp)
    };
    (@ (mem $base:ident - $scale:literal $disp:literal)) => {
        spelling!(@@ Some(ia32_types::Reg::$base), None, $scale, $disp)
    };
    (@ (mem $base:ident $index:ident $scale:literal $disp:literal)) => {
        spelling!(@@ Some(ia32_types::Reg::$base), Some(ia32_types::Reg::$index), $scale, $disp)
    };
    (@@ $base:expr, $index:expr, $scale:literal, $disp:literal) => {
        ia32_types::Operand::Memory(ia32_types::Address { base: $base, index: $index, scale: $scale, disp: $disp })
    };
    ($text:literal, [$($byte:literal),*], $op:ident $size:ident $a:tt $b:tt $imm:literal $sel:literal $rep:literal) => {
        Spelling {
            bytes: crate::spelled::bytes!($($byte),*),
            insn: ia32_types::Insn {
                op: ia32_types::Op::$op,
                size: ia32_types::Size::$size,
                a: spelling!(@ $a),
                b: spelling!(@ $b),
                imm: $imm,
                sel: $sel,
                rep: $rep,
            },
        }
    };
}

use spelling;

/// The bytes are decoded to the instruction, and to their number.
fn is_decoded(spelling: &Spelling) -> bool {
    match decode(spelling.bytes.as_slice()) {
        Decoded::Insn(insn, len) => {
            same_insn(&insn, &spelling.insn) && usize::from(len) == spelling.bytes.len
        }
        Decoded::Short | Decoded::Outside => false,
    }
}

/// Each of these is decoded.
fn are_decoded(rt: &impl Abort, spellings: &[Spelling]) {
    for (k, spelling) in spellings.iter().enumerate() {
        assert!(rt; is_decoded(spelling), "row {k}");
    }
}
