//! CLI, STI, HLT and PUSHF, and what holds external interrupts off.

use crate::world::{Case, NONE, comes_out, cpu_at, past, refused, with, with_flags};
use sys_exec::SysEffect;

const PROTECTION: SysEffect = SysEffect::Raise {
    vector: 13,
    code: 0,
};

const CLI: [u8; 8] = [0xFA, 0, 0, 0, 0, 0, 0, 0];

const STI: [u8; 8] = [0xFB, 0, 0, 0, 0, 0, 0, 0];

const HLT: [u8; 8] = [0xF4, 0, 0, 0, 0, 0, 0, 0];

const PUSHF: [u8; 8] = [0x9C, 0, 0, 0, 0, 0, 0, 0];

/// The level, the flags, whether it may, the flags after CLI, those after STI, and whether STI holds.
type Row = (u8, u32, bool, u32, u32, bool);

const ROWS: [Row; 14] = [
    (0, 0x0000_0002, true, 0x0000_0002, 0x0000_0202, true),
    (0, 0x0000_0202, true, 0x0000_0002, 0x0000_0202, false),
    (0, 0x0000_3002, true, 0x0000_3002, 0x0000_3202, true),
    (0, 0x0000_0CD7, true, 0x0000_0CD7, 0x0000_0ED7, true),
    (0, 0x0000_0ED7, true, 0x0000_0CD7, 0x0000_0ED7, false),
    (0, 0x0000_1202, true, 0x0000_1002, 0x0000_1202, false),
    (3, 0x0000_0002, false, 0, 0, false),
    (3, 0x0000_0202, false, 0, 0, false),
    (3, 0x0000_1002, false, 0, 0, false),
    (3, 0x0000_1202, false, 0, 0, false),
    (3, 0x0000_2002, false, 0, 0, false),
    (3, 0x0000_2202, false, 0, 0, false),
    (3, 0x0000_3002, true, 0x0000_3002, 0x0000_3202, true),
    (3, 0x0000_3202, true, 0x0000_3002, 0x0000_3202, false),
];

fn cleared(row: Row) -> Case {
    let (cpl, flags, may, cleared, _set, _held) = row;
    let cpu = with_flags(cpu_at(cpl), flags);
    if !may {
        return refused(cpu, NONE, CLI, PROTECTION);
    }
    let mut case = refused(cpu, NONE, CLI, SysEffect::Next);
    case.then = with_flags(past(cpu, 1), cleared);
    case
}

fn set(row: Row) -> Case {
    let (cpl, flags, may, _cleared, set, held) = row;
    let cpu = with_flags(cpu_at(cpl), flags);
    if !may {
        return refused(cpu, NONE, STI, PROTECTION);
    }
    let mut case = refused(cpu, NONE, STI, SysEffect::Next);
    case.then = with_flags(past(cpu, 1), set);
    case.then.held = held;
    case
}

#[test]
fn the_interrupt_flag_is_set_by_level(rt: HostRuntime) {
    let alloc = rt.alloc();
    for (k, row) in ROWS.iter().enumerate() {
        comes_out(&rt, alloc, k, &cleared(*row));
        comes_out(&rt, alloc, k, &set(*row));
    }
}

fn halted() -> Case {
    let cpu = cpu_at(0);
    let mut case = refused(cpu, NONE, HLT, SysEffect::Halted);
    case.then = past(cpu, 1);
    case.then.halted = true;
    case
}

// Not a user, whatever IOPL is.
fn not_halted(flags: u32) -> Case {
    refused(with_flags(cpu_at(3), flags), NONE, HLT, PROTECTION)
}

// PUSHF, with the place below the stack.
fn pushed(cpl: u8, flags: u32, at: u32) -> Case {
    let cpu = with_flags(cpu_at(cpl), flags);
    let mut case = refused(cpu, NONE, PUSHF, SysEffect::Next);
    case.then = with(past(cpu, 1), 4, at);
    case.after[0] = (at, flags);
    case
}

#[test]
fn the_kernel_halts_and_flags_are_pushed(rt: HostRuntime) {
    let alloc = rt.alloc();
    comes_out(&rt, alloc, 0, &halted());
    for flags in [0x0000_0002, 0x0000_3202] {
        comes_out(&rt, alloc, 0, &not_halted(flags));
    }
    for (cpl, flags, at) in [
        (0, 0x0000_3ED7, 0x6FFC),
        (3, 0x0000_0202, 0x8FFC),
        (3, 0x0000_3002, 0x8FFC),
    ] {
        comes_out(&rt, alloc, 0, &pushed(cpl, flags, at));
    }
}
