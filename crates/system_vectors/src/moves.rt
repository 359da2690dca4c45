//! Segment registers that are read and pushed, and loads from memory.

use crate::world::{
    Case, NONE, OPERAND, Words, comes_out, cpu_at, null, past, refused, segment, with, with_segment,
};
use descriptors::Cpu;
use sys_exec::SysEffect;

/// MOV of a segment register to EBX, MOV of it to A002, PUSH of it, and the selector that it has here: ES, CS, SS, DS.
type Row = ([u8; 8], [u8; 8], [u8; 8], u16);

const ROWS: [Row; 4] = [
    (
        [0x8C, 0xC3, 0, 0, 0, 0, 0, 0],
        [0x8C, 0x05, 0x02, 0xA0, 0, 0, 0, 0],
        [0x06, 0, 0, 0, 0, 0, 0, 0],
        0x0020,
    ),
    (
        [0x8C, 0xCB, 0, 0, 0, 0, 0, 0],
        [0x8C, 0x0D, 0x02, 0xA0, 0, 0, 0, 0],
        [0x0E, 0, 0, 0, 0, 0, 0, 0],
        0x0008,
    ),
    (
        [0x8C, 0xD3, 0, 0, 0, 0, 0, 0],
        [0x8C, 0x15, 0x02, 0xA0, 0, 0, 0, 0],
        [0x16, 0, 0, 0, 0, 0, 0, 0],
        0x0010,
    ),
    (
        [0x8C, 0xDB, 0, 0, 0, 0, 0, 0],
        [0x8C, 0x1D, 0x02, 0xA0, 0, 0, 0, 0],
        [0x1E, 0, 0, 0, 0, 0, 0, 0],
        0xABCB,
    ),
];

fn cpu() -> Cpu {
    with_segment(
        with_segment(cpu_at(0), 0, segment(0x0020, 3)),
        3,
        segment(0xABCB, 3),
    )
}

fn ones() -> Words {
    let mut words = NONE;
    words[0] = (OPERAND, 0xFFFF_FFFF);
    words[1] = (OPERAND + 4, 0xFFFF_FFFF);
    words[2] = (0x6FF8, 0xFFFF_FFFF);
    words[3] = (0x6FFC, 0xFFFF_FFFF);
    words
}

// The upper half of the register is cleared.
fn to_register(row: Row) -> Case {
    let mut case = refused(cpu(), ones(), row.0, SysEffect::Next);
    case.then = with(past(cpu(), 2), 3, u32::from(row.3));
    case
}

// Two bytes are written.
fn to_memory(row: Row) -> Case {
    let mut case = refused(cpu(), ones(), row.1, SysEffect::Next);
    case.then = past(cpu(), 6);
    case.after[0] = (OPERAND, u32::from(row.3) << 16 | 0xFFFF);
    case
}

// Four bytes are pushed, the upper two of them 0.
fn pushed(row: Row) -> Case {
    let mut case = refused(cpu(), ones(), row.2, SysEffect::Next);
    case.then = with(past(cpu(), 1), 4, 0x6FFC);
    case.after[0] = (0x6FFC, u32::from(row.3));
    case
}

#[test]
fn selectors_are_told(rt: HostRuntime) {
    let alloc = rt.alloc();
    for (k, row) in ROWS.iter().enumerate() {
        comes_out(&rt, alloc, k, &to_register(*row));
        comes_out(&rt, alloc, k, &to_memory(*row));
        comes_out(&rt, alloc, k, &pushed(*row));
    }
}

// An instruction whose operand in memory uses DS, which is null.
fn through_null(bytes: [u8; 8]) -> Case {
    let cpu = with_segment(cpu_at(0), 3, null(0));
    refused(
        cpu,
        NONE,
        bytes,
        SysEffect::Raise {
            vector: 13,
            code: 0,
        },
    )
}

// MOV to ES of the last two bytes that are present.
fn from_memory() -> Case {
    let mut before = NONE;
    before[0] = (0xEFFC, 0x0023_0000);
    let mut case = refused(
        cpu_at(0),
        before,
        [0x8E, 0x05, 0xFE, 0xEF, 0, 0, 0, 0],
        SysEffect::Next,
    );
    case.then = with_segment(past(cpu_at(0), 6), 0, segment(0x0023, 3));
    case
}

// MOV to SS from memory holds external interrupts off, whether or not they were held.
fn stack_from_memory(held: bool) -> Case {
    let mut cpu = cpu_at(0);
    cpu.held = held;
    let mut before = NONE;
    before[0] = (OPERAND, 0xFFFF_0010);
    let mut case = refused(
        cpu,
        before,
        [0x8E, 0x15, 0x00, 0xA0, 0, 0, 0, 0],
        SysEffect::Next,
    );
    case.then = past(cpu, 6);
    case.then.held = true;
    case
}

#[test]
fn selectors_are_read_from_memory(rt: HostRuntime) {
    let alloc = rt.alloc();
    // MOV of ES to memory, MOV to ES from memory, LTR of memory
    for bytes in [
        [0x8C, 0x05, 0x00, 0xA0, 0, 0, 0, 0],
        [0x8E, 0x05, 0x00, 0xA0, 0, 0, 0, 0],
        [0x0F, 0x00, 0x1D, 0x00, 0xA0, 0, 0, 0],
    ] {
        comes_out(&rt, alloc, 0, &through_null(bytes));
    }
    comes_out(&rt, alloc, 0, &from_memory());
    for held in [false, true] {
        comes_out(&rt, alloc, 0, &stack_from_memory(held));
    }
}
