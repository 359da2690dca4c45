//! MUL, IMUL, DIV and IDIV of registers and of memory.

use super::{AT_EDI, AT_ESI, AT_ESI_PLUS_4, Case, REGISTERS, agree};
use ia32_types::{Op, Operand, Size};

const CASES: [Case; 11] = [
    // mulb %bl
    Case {
        op: Op::Mul,
        size: Size::Byte,
        a: Operand::Register(3),
        b: Operand::Absent,
        imm: 0,
        rep: false,
        before: REGISTERS,
        flags: 0x202,
        after: [0x80033c80, 5, 0, 0x40, 0x10080, 0x10090, 0x10020, 0x10030],
        flags_after: 0xa03,
        memory: 0x2b977d73,
    },
    // mull (%esi)
    Case {
        op: Op::Mul,
        size: Size::Long,
        a: AT_ESI,
        b: Operand::Absent,
        imm: 0,
        rep: false,
        before: REGISTERS,
        flags: 0x202,
        after: [
            0x7cb56d96, 5, 0x7c7c5ea4, 0x40, 0x10080, 0x10090, 0x10020, 0x10030,
        ],
        flags_after: 0xa03,
        memory: 0x2b977d73,
    },
    // imulb %ah
    Case {
        op: Op::Imul,
        size: Size::Byte,
        a: Operand::Register(4),
        b: Operand::Absent,
        imm: 0,
        rep: false,
        before: REGISTERS,
        flags: 0x202,
        after: [0x800306f2, 5, 0, 0x40, 0x10080, 0x10090, 0x10020, 0x10030],
        flags_after: 0xa03,
        memory: 0x2b977d73,
    },
    // imull %ecx
    Case {
        op: Op::Imul,
        size: Size::Long,
        a: Operand::Register(1),
        b: Operand::Absent,
        imm: 0,
        rep: false,
        before: REGISTERS,
        flags: 0x202,
        after: [
            0x801189ba, 5, 0xfffffffd, 0x40, 0x10080, 0x10090, 0x10020, 0x10030,
        ],
        flags_after: 0xa03,
        memory: 0x2b977d73,
    },
    // imull 4(%esi),%ebx
    Case {
        op: Op::Imul,
        size: Size::Long,
        a: Operand::Register(3),
        b: AT_ESI_PLUS_4,
        imm: 0,
        rep: false,
        before: REGISTERS,
        flags: 0x202,
        after: [
            0x800381f2, 5, 0, 0x341bfc0, 0x10080, 0x10090, 0x10020, 0x10030,
        ],
        flags_after: 0xa03,
        memory: 0x2b977d73,
    },
    // imull $-7,%ecx,%edx
    Case {
        op: Op::ImulBy,
        size: Size::Long,
        a: Operand::Register(2),
        b: Operand::Register(1),
        imm: 0xfffffff9,
        rep: false,
        before: REGISTERS,
        flags: 0x202,
        after: [
            0x800381f2, 5, 0xffffffdd, 0x40, 0x10080, 0x10090, 0x10020, 0x10030,
        ],
        flags_after: 0x202,
        memory: 0x2b977d73,
    },
    // imull $1000000,(%edi),%edx
    Case {
        op: Op::ImulBy,
        size: Size::Long,
        a: Operand::Register(2),
        b: AT_EDI,
        imm: 0xf4240,
        rep: false,
        before: REGISTERS,
        flags: 0x202,
        after: [
            0x800381f2, 5, 0x7c7cfac0, 0x40, 0x10080, 0x10090, 0x10020, 0x10030,
        ],
        flags_after: 0xa03,
        memory: 0x2b977d73,
    },
    // divl %ebx
    Case {
        op: Op::Div,
        size: Size::Long,
        a: Operand::Register(3),
        b: Operand::Absent,
        imm: 0,
        rep: false,
        before: [0x800381f2, 5, 3, 0x40, 0x10080, 0x10090, 0x10020, 0x10030],
        flags: 0x202,
        after: [0xe000e07, 5, 0x32, 0x40, 0x10080, 0x10090, 0x10020, 0x10030],
        flags_after: 0x202,
        memory: 0x2b977d73,
    },
    // divb %cl
    Case {
        op: Op::Div,
        size: Size::Byte,
        a: Operand::Register(1),
        b: Operand::Absent,
        imm: 0,
        rep: false,
        before: [0x123404f2, 5, 0, 0x40, 0x10080, 0x10090, 0x10020, 0x10030],
        flags: 0x202,
        after: [0x123401fd, 5, 0, 0x40, 0x10080, 0x10090, 0x10020, 0x10030],
        flags_after: 0x202,
        memory: 0x2b977d73,
    },
    // idivl %ecx
    Case {
        op: Op::Idiv,
        size: Size::Long,
        a: Operand::Register(1),
        b: Operand::Absent,
        imm: 0,
        rep: false,
        before: [
            0xfffffff6, 3, 0xffffffff, 0x40, 0x10080, 0x10090, 0x10020, 0x10030,
        ],
        flags: 0x202,
        after: [
            0xfffffffd, 3, 0xffffffff, 0x40, 0x10080, 0x10090, 0x10020, 0x10030,
        ],
        flags_after: 0x202,
        memory: 0x2b977d73,
    },
    // idivb %bl
    Case {
        op: Op::Idiv,
        size: Size::Byte,
        a: Operand::Register(3),
        b: Operand::Absent,
        imm: 0,
        rep: false,
        before: [0xabcdf0f2, 5, 0, 0x40, 0x10080, 0x10090, 0x10020, 0x10030],
        flags: 0x202,
        after: [0xabcdf2c4, 5, 0, 0x40, 0x10080, 0x10090, 0x10020, 0x10030],
        flags_after: 0x202,
        memory: 0x2b977d73,
    },
];

#[test]
fn products_and_quotients_agree_with_a_processor(rt: HostRuntime) {
    agree(&rt, &CASES);
}
