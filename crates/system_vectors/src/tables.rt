//! LGDT, LIDT and INVLPG.

use crate::world::{
    ABSENT, Case, NONE, OPERAND, comes_out, cpu_at, null, past, refused, with, with_cr2,
    with_flags, with_segment,
};
use descriptors::{Cpu, Table};
use ia32_types::Stop;
use sys_exec::SysEffect;

const PROTECTION: SysEffect = SysEffect::Raise {
    vector: 13,
    code: 0,
};

// LGDT and LIDT of A000, LGDT through EBP, and INVLPG of 12345FFF
const LGDT: [u8; 8] = [0x0F, 0x01, 0x15, 0x00, 0xA0, 0x00, 0x00, 0];

const LIDT: [u8; 8] = [0x0F, 0x01, 0x1D, 0x00, 0xA0, 0x00, 0x00, 0];

const LGDT_EBP: [u8; 8] = [0x0F, 0x01, 0x55, 0x00, 0, 0, 0, 0];

const INVLPG: [u8; 8] = [0x0F, 0x01, 0x3D, 0xFF, 0x5F, 0x34, 0x12, 0];

fn with_table(cpu: Cpu, bytes: [u8; 8], table: Table) -> Cpu {
    let mut then = cpu;
    if bytes[2] == 0x1D {
        then.idt = table;
    } else {
        then.gdt = table;
    }
    then
}

fn loaded(bytes: [u8; 8]) -> Case {
    let cpu = cpu_at(0);
    let mut before = NONE;
    before[0] = (OPERAND, 0xCDEF_1234);
    before[1] = (OPERAND + 4, 0xFFFF_89AB);
    let mut case = refused(cpu, before, bytes, SysEffect::Next);
    let table = Table {
        base: 0x89AB_CDEF,
        limit: 0x1234,
    };
    case.then = with_table(past(cpu, 7), bytes, table);
    case
}

// Not a user, whatever IOPL is; and not through a null segment.
fn by_user(bytes: [u8; 8]) -> Case {
    refused(with_flags(cpu_at(3), 0x0000_3002), NONE, bytes, PROTECTION)
}

fn through_null(bytes: [u8; 8]) -> Case {
    refused(with_segment(cpu_at(0), 3, null(0)), NONE, bytes, PROTECTION)
}

#[test]
fn tables_are_loaded(rt: HostRuntime) {
    let alloc = rt.alloc();
    for bytes in [LGDT, LIDT] {
        comes_out(&rt, alloc, 0, &loaded(bytes));
        comes_out(&rt, alloc, 0, &by_user(bytes));
        comes_out(&rt, alloc, 0, &through_null(bytes));
    }
}

/// EBP, the outcome of LGDT through it, and CR2 then. Its six bytes are one range.
type Reach = (u32, SysEffect, u32);

const REACHES: [Reach; 5] = [
    (OPERAND, SysEffect::Next, 0xBAD0_0000),
    (0xEFFA, SysEffect::Next, 0xBAD0_0000),
    (
        0xEFFB,
        SysEffect::Raise {
            vector: 14,
            code: 0,
        },
        ABSENT,
    ),
    (
        ABSENT,
        SysEffect::Raise {
            vector: 14,
            code: 0,
        },
        ABSENT,
    ),
    (0xFFFF_FFFB, SysEffect::Stop(Stop::WrapAccess), 0xBAD0_0000),
];

// EBP uses SS, and DS may be null.
fn reached(row: Reach) -> Case {
    let (at, effect, cr2) = row;
    let cpu = with(with_segment(cpu_at(0), 3, null(0)), 5, at);
    let mut case = refused(cpu, NONE, LGDT_EBP, effect);
    case.then = with_cr2(cpu, cr2);
    if effect == SysEffect::Next {
        case.then = with_table(past(cpu, 4), LGDT_EBP, Table { base: 0, limit: 0 });
    }
    case
}

#[test]
fn tables_are_read_in_one_range(rt: HostRuntime) {
    let alloc = rt.alloc();
    for (k, row) in REACHES.iter().enumerate() {
        comes_out(&rt, alloc, k, &reached(*row));
    }
}

// The address is mapped by nothing, and its segment may be null.
fn dropped(cpu: Cpu) -> Case {
    let mut case = refused(cpu, NONE, INVLPG, SysEffect::DropPage(0x12345));
    case.then = past(cpu, 7);
    case
}

#[test]
fn a_page_is_dropped_without_an_access(rt: HostRuntime) {
    let alloc = rt.alloc();
    comes_out(&rt, alloc, 0, &dropped(cpu_at(0)));
    comes_out(&rt, alloc, 0, &dropped(with_segment(cpu_at(0), 3, null(0))));
    comes_out(&rt, alloc, 0, &by_user(INVLPG));
}

// With pages of 4 MB every page of the directory index is dropped.
fn dropped_with_pse() -> Case {
    let cpu = Cpu {
        cr4: 0x10,
        ..cpu_at(0)
    };
    let mut case = refused(cpu, NONE, INVLPG, SysEffect::DropDir(0x48));
    case.then = past(cpu, 7);
    case
}

#[test]
fn a_directory_is_dropped_with_pse(rt: HostRuntime) {
    let alloc = rt.alloc();
    comes_out(&rt, alloc, 0, &dropped_with_pse());
}
