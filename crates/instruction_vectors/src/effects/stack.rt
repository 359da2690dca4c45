//! PUSH, POP, PUSHA, POPA, LEAVE, PUSHF and POPF.

use super::{AT_ESP_PLUS_4, AT_ESP_PLUS_8, Case, REGISTERS, agree};
use ia32_types::{Op, Operand, Size};

const CASES: [Case; 11] = [
    // pushl %esp
    Case {
        op: Op::Push,
        size: Size::Long,
        a: Operand::Register(4),
        b: Operand::Absent,
        imm: 0,
        rep: false,
        before: REGISTERS,
        flags: 0x202,
        after: [0x800381f2, 5, 0, 0x40, 0x1007c, 0x10090, 0x10020, 0x10030],
        flags_after: 0x202,
        memory: 0x2b488194,
    },
    // pushl 4(%esp)
    Case {
        op: Op::Push,
        size: Size::Long,
        a: AT_ESP_PLUS_4,
        b: Operand::Absent,
        imm: 0,
        rep: false,
        before: REGISTERS,
        flags: 0x202,
        after: [0x800381f2, 5, 0, 0x40, 0x1007c, 0x10090, 0x10020, 0x10030],
        flags_after: 0x202,
        memory: 0x2bcd54e3,
    },
    // pushl $-2
    Case {
        op: Op::Push,
        size: Size::Long,
        a: Operand::Absent,
        b: Operand::Absent,
        imm: 0xfffffffe,
        rep: false,
        before: REGISTERS,
        flags: 0x202,
        after: [0x800381f2, 5, 0, 0x40, 0x1007c, 0x10090, 0x10020, 0x10030],
        flags_after: 0x202,
        memory: 0x2c1f2adc,
    },
    // popl %esp
    Case {
        op: Op::Pop,
        size: Size::Long,
        a: Operand::Register(4),
        b: Operand::Absent,
        imm: 0,
        rep: false,
        before: REGISTERS,
        flags: 0x202,
        after: [
            0x800381f2, 5, 0, 0x40, 0x98918a83, 0x10090, 0x10020, 0x10030,
        ],
        flags_after: 0x202,
        memory: 0x2b977d73,
    },
    // popl 8(%esp)
    Case {
        op: Op::Pop,
        size: Size::Long,
        a: AT_ESP_PLUS_8,
        b: Operand::Absent,
        imm: 0,
        rep: false,
        before: REGISTERS,
        flags: 0x202,
        after: [0x800381f2, 5, 0, 0x40, 0x10084, 0x10090, 0x10020, 0x10030],
        flags_after: 0x202,
        memory: 0x2b30d34b,
    },
    // popl %ebx
    Case {
        op: Op::Pop,
        size: Size::Long,
        a: Operand::Register(3),
        b: Operand::Absent,
        imm: 0,
        rep: false,
        before: REGISTERS,
        flags: 0x202,
        after: [
            0x800381f2, 5, 0, 0x98918a83, 0x10084, 0x10090, 0x10020, 0x10030,
        ],
        flags_after: 0x202,
        memory: 0x2b977d73,
    },
    // pushal
    Case {
        op: Op::Pusha,
        size: Size::Long,
        a: Operand::Absent,
        b: Operand::Absent,
        imm: 0,
        rep: false,
        before: REGISTERS,
        flags: 0x202,
        after: [0x800381f2, 5, 0, 0x40, 0x10060, 0x10090, 0x10020, 0x10030],
        flags_after: 0x202,
        memory: 0x29783ad7,
    },
    // popal
    Case {
        op: Op::Popa,
        size: Size::Long,
        a: Operand::Absent,
        b: Operand::Absent,
        imm: 0,
        rep: false,
        before: REGISTERS,
        flags: 0x202,
        after: [
            0x5c554e47, 0x4039322b, 0x241d160f, 0x801faf3, 0x100a0, 0xd0c9c2bb, 0xb4ada69f,
            0x98918a83,
        ],
        flags_after: 0x202,
        memory: 0x2b977d73,
    },
    // leave
    Case {
        op: Op::Leave,
        size: Size::Long,
        a: Operand::Absent,
        b: Operand::Absent,
        imm: 0,
        rep: false,
        before: REGISTERS,
        flags: 0x202,
        after: [0x800381f2, 5, 0, 0x40, 0x10094, 0x801faf3, 0x10020, 0x10030],
        flags_after: 0x202,
        memory: 0x2b977d73,
    },
    // pushfl
    Case {
        op: Op::PushFlags,
        size: Size::Long,
        a: Operand::Absent,
        b: Operand::Absent,
        imm: 0,
        rep: false,
        before: REGISTERS,
        flags: 0xed7,
        after: [0x800381f2, 5, 0, 0x40, 0x1007c, 0x10090, 0x10020, 0x10030],
        flags_after: 0xed7,
        memory: 0x2b6003e2,
    },
    // popfl
    Case {
        op: Op::PopFlags,
        size: Size::Long,
        a: Operand::Absent,
        b: Operand::Absent,
        imm: 0,
        rep: false,
        before: [0x800381f2, 5, 0, 0x40, 0x100f0, 0x10090, 0x10020, 0x10030],
        flags: 0x202,
        after: [0x800381f2, 5, 0, 0x40, 0x100f4, 0x10090, 0x10020, 0x10030],
        flags_after: 0xed7,
        memory: 0x2b977d73,
    },
];

#[test]
fn the_stack_agrees_with_a_processor(rt: HostRuntime) {
    agree(&rt, &CASES);
}
