//! The tables hold what an x86-64 processor gave for the instruction, run by a program of assembler
//! statements. Of the flags those are the processor's that the manual defines for the instruction;
//! the others are as they were before it, as this project chooses.

mod logic;
mod products;
mod quotients;
mod shifts;
mod single;
mod sums;

use ia32_alu::{alu, divide, shift};
use ia32_types::{Flags, Op, Size};
use std::process::Abort;

/// Instruction, size, operands and flags; the result and the flags after it.
type Row = (Op, Size, u32, u32, u32, u32, u32);

fn outcome(op: Op, size: Size, a: u32, b: u32, bits: u32) -> Option<(u32, u32)> {
    let flags = Flags { bits };
    let (value, after) = match op {
        Op::Add | Op::Adc | Op::Sub | Op::Sbb | Op::Cmp => alu(op, size, a, b, flags),
        Op::And | Op::Or | Op::Xor | Op::Test => alu(op, size, a, b, flags),
        Op::Inc | Op::Dec | Op::Neg | Op::Not => alu(op, size, a, b, flags),
        Op::Rol | Op::Ror | Op::Shl | Op::Shr | Op::Sar => {
            shift(op, size, a, (b % 256) as u8, flags)
        }
        _ => return None,
    };
    Some((value, after.bits))
}

/// The row is the instruction's outcome.
fn agrees(row: &Row) -> bool {
    let (op, size, a, b, bits, value, after) = *row;
    match outcome(op, size, a, b, bits) {
        Some((found, flags)) => found == value && flags == after,
        None => false,
    }
}

/// Each row is.
fn agree(rt: &impl Abort, rows: &[Row]) {
    for (k, row) in rows.iter().enumerate() {
        assert!(rt; agrees(row), "row {k}");
    }
}

#[test]
fn a_quotient_that_does_not_fit(rt: HostRuntime) {
    assert!(rt; divide(false, Size::Long, 1, 0, 1).is_none());
}

const WRAPS: Row = (Op::Add, Size::Byte, 0xff, 1, 2, 0, 0x57);

#[test]
fn a_sum_that_wraps(rt: HostRuntime) {
    assert!(rt; agrees(&WRAPS));
}
