//! SETcc and Jcc over flags.

use super::{Flat, PLAIN, START, step};
use ia32_types::{Flags, Insn, Op, Operand, Regs};

/// A condition's number, the flags, and what SETcc gave on a processor.
type Condition = (u16, u32, bool);

const CONDITIONS: [Condition; 112] = [
    (0, 0x202, false),
    (0, 0x203, false),
    (0, 0x242, false),
    (0, 0x282, false),
    (0, 0xa02, true),
    (0, 0x206, false),
    (0, 0xac6, true),
    (1, 0x202, true),
    (1, 0x203, true),
    (1, 0x242, true),
    (1, 0x282, true),
    (1, 0xa02, false),
    (1, 0x206, true),
    (1, 0xac6, false),
    (2, 0x202, false),
    (2, 0x203, true),
    (2, 0x242, false),
    (2, 0x282, false),
    (2, 0xa02, false),
    (2, 0x206, false),
    (2, 0xac6, false),
    (3, 0x202, true),
    (3, 0x203, false),
    (3, 0x242, true),
    (3, 0x282, true),
    (3, 0xa02, true),
    (3, 0x206, true),
    (3, 0xac6, true),
    (4, 0x202, false),
    (4, 0x203, false),
    (4, 0x242, true),
    (4, 0x282, false),
    (4, 0xa02, false),
    (4, 0x206, false),
    (4, 0xac6, true),
    (5, 0x202, true),
    (5, 0x203, true),
    (5, 0x242, false),
    (5, 0x282, true),
    (5, 0xa02, true),
    (5, 0x206, true),
    (5, 0xac6, false),
    (6, 0x202, false),
    (6, 0x203, true),
    (6, 0x242, true),
    (6, 0x282, false),
    (6, 0xa02, false),
    (6, 0x206, false),
    (6, 0xac6, true),
    (7, 0x202, true),
    (7, 0x203, false),
    (7, 0x242, false),
    (7, 0x282, true),
    (7, 0xa02, true),
    (7, 0x206, true),
    (7, 0xac6, false),
    (8, 0x202, false),
    (8, 0x203, false),
    (8, 0x242, false),
    (8, 0x282, true),
    (8, 0xa02, false),
    (8, 0x206, false),
    (8, 0xac6, true),
    (9, 0x202, true),
    (9, 0x203, true),
    (9, 0x242, true),
    (9, 0x282, false),
    (9, 0xa02, true),
    (9, 0x206, true),
    (9, 0xac6, false),
    (10, 0x202, false),
    (10, 0x203, false),
    (10, 0x242, false),
    (10, 0x282, false),
    (10, 0xa02, false),
    (10, 0x206, true),
    (10, 0xac6, true),
    (11, 0x202, true),
    (11, 0x203, true),
    (11, 0x242, true),
    (11, 0x282, true),
    (11, 0xa02, true),
    (11, 0x206, false),
    (11, 0xac6, false),
    (12, 0x202, false),
    (12, 0x203, false),
    (12, 0x242, false),
    (12, 0x282, true),
    (12, 0xa02, true),
    (12, 0x206, false),
    (12, 0xac6, false),
    (13, 0x202, true),
    (13, 0x203, true),
    (13, 0x242, true),
    (13, 0x282, false),
    (13, 0xa02, false),
    (13, 0x206, true),
    (13, 0xac6, true),
    (14, 0x202, false),
    (14, 0x203, false),
    (14, 0x242, true),
    (14, 0x282, true),
    (14, 0xa02, true),
    (14, 0x206, false),
    (14, 0xac6, true),
    (15, 0x202, true),
    (15, 0x203, true),
    (15, 0x242, false),
    (15, 0x282, false),
    (15, 0xa02, false),
    (15, 0x206, true),
    (15, 0xac6, false),
];

/// SETcc gives that, and Jcc uses it; neither changes a flag.
fn agrees(row: &Condition) -> bool {
    let (sel, bits, holds) = *row;
    let set = Insn {
        op: Op::Setcc,
        a: Operand::Register(2),
        sel,
        ..PLAIN
    };
    let jump = Insn {
        op: Op::Jcc,
        imm: 0x10,
        sel,
        ..PLAIN
    };
    let flags = Flags { bits };
    let mut regs = Regs { flags, ..START };
    let mut mem = Flat { bytes: [0; 256] };
    let _ = step(&set, 3, &mut regs, &mut mem);
    let given = regs.r[2] == u32::from(holds);
    let _ = step(&jump, 2, &mut regs, &mut mem);
    let eip = if holds { 0x1015 } else { 0x1005 };
    given && regs.eip == eip && regs.flags.bits == bits
}

#[test]
fn conditions_agree_with_a_processor(rt: HostRuntime) {
    for (k, row) in CONDITIONS.iter().enumerate() {
        assert!(rt; agrees(row), "row {k}");
    }
}
