//! Loads of segment registers and of the task register: each test at its first failing place.

use crate::world::{
    ABSENT, ALL, Answer, Case, GDT, GDT_ABSENT, GDT_ENTRY, GDT_READ_ONLY, MORE, NONE, READ_ONLY,
    What, Words, accessed, comes_out, cpu_at, null, past, refused, segment, with, with_cr2,
    with_limit, with_segment,
};
use descriptors::{Cpu, Task};
use ia32_types::Stop;
use sys_exec::SysEffect;

/// The level, the limit of the global table, the selector, and the outcome of the load.
type Row = (u8, u16, u16, Load);

/// The outcome of a load.
#[derive(Clone, Copy)]
pub enum Load {
    /// The register is null.
    Null,
    /// It has this selector and level; byte 5 of the descriptor is then this.
    Loads(u16, u8, u8),
    /// This exception, with this error code.
    Raises(u8, u32),
    /// A form of segment that is not described.
    Form,
}

/// What an instruction with this load asks of the machine.
pub fn effect_of(load: Load) -> SysEffect {
    match load {
        Load::Null | Load::Loads(..) => SysEffect::Next,
        Load::Raises(vector, code) => SysEffect::Raise { vector, code },
        Load::Form => SysEffect::Stop(Stop::SegmentForm),
    }
}

// selector below 4; local table; limit; TSS or system; foreign or code; level below CPL or RPL; not present; loads
const DATA: [Row; 40] = [
    (0, ALL, 0x00, Load::Null),
    (0, ALL, 0x03, Load::Null),
    (3, ALL, 0x01, Load::Null),
    (0, ALL, 0x04, Load::Form),
    (0, ALL, 0x14, Load::Form),
    (3, ALL, 0x27, Load::Form),
    (0, ALL, 0xFFFF, Load::Form),
    (0, ALL, 0xB0, Load::Raises(13, 0xB0)),
    (3, ALL, 0xB3, Load::Raises(13, 0xB0)),
    (0, 0x46, 0x40, Load::Raises(13, 0x40)),
    (0, 0x40, 0x40, Load::Raises(13, 0x40)),
    (0, ALL, 0x68, Load::Raises(13, 0x68)),
    (0, ALL, 0x71, Load::Raises(13, 0x70)),
    (3, ALL, 0x7B, Load::Raises(13, 0x78)),
    (0, ALL, 0x80, Load::Raises(13, 0x80)),
    (0, ALL, 0x88, Load::Raises(13, 0x88)),
    (0, ALL, 0xA8, Load::Raises(13, 0xA8)),
    (0, ALL, 0x90, Load::Form),
    (3, ALL, 0x93, Load::Form),
    (0, ALL, 0x98, Load::Form),
    (0, ALL, 0x08, Load::Form),
    (3, ALL, 0x0B, Load::Form),
    (3, ALL, 0x1B, Load::Form),
    (0, ALL, 0x48, Load::Form),
    (3, ALL, 0x10, Load::Raises(13, 0x10)),
    (0, ALL, 0x11, Load::Raises(13, 0x10)),
    (0, ALL, 0x13, Load::Raises(13, 0x10)),
    (3, ALL, 0x13, Load::Raises(13, 0x10)),
    (3, ALL, 0x50, Load::Raises(13, 0x50)),
    (0, ALL, 0x51, Load::Raises(13, 0x50)),
    (0, ALL, 0x50, Load::Raises(11, 0x50)),
    (3, ALL, 0x63, Load::Raises(11, 0x60)),
    (0, ALL, 0x61, Load::Raises(11, 0x60)),
    (0, ALL, 0x10, Load::Loads(0x10, 0, 0x93)),
    (0, ALL, 0x20, Load::Loads(0x20, 3, 0xF3)),
    (0, ALL, 0x23, Load::Loads(0x23, 3, 0xF3)),
    (3, ALL, 0x20, Load::Loads(0x20, 3, 0xF3)),
    (0, ALL, 0x30, Load::Loads(0x30, 0, 0x93)),
    (3, 0x47, 0x41, Load::Loads(0x41, 3, 0xF3)),
    (0, 0x47, 0x43, Load::Loads(0x43, 3, 0xF3)),
];

// selector below 4; local table; limit; TSS or system; foreign; RPL, code or level; not present; loads
const STACK: [Row; 34] = [
    (0, ALL, 0x00, Load::Raises(13, 0)),
    (3, ALL, 0x03, Load::Raises(13, 0)),
    (0, ALL, 0x04, Load::Form),
    (0, ALL, 0x14, Load::Form),
    (3, ALL, 0x27, Load::Form),
    (3, ALL, 0xFFFF, Load::Form),
    (0, ALL, 0xB0, Load::Raises(13, 0xB0)),
    (3, ALL, 0xB3, Load::Raises(13, 0xB0)),
    (0, 0x36, 0x30, Load::Raises(13, 0x30)),
    (0, ALL, 0x68, Load::Raises(13, 0x68)),
    (3, ALL, 0x73, Load::Raises(13, 0x70)),
    (0, ALL, 0x78, Load::Raises(13, 0x78)),
    (0, ALL, 0x88, Load::Raises(13, 0x88)),
    (0, ALL, 0xA8, Load::Raises(13, 0xA8)),
    (0, ALL, 0x90, Load::Form),
    (0, ALL, 0x93, Load::Form),
    (3, ALL, 0x98, Load::Form),
    (0, ALL, 0x11, Load::Raises(13, 0x10)),
    (0, ALL, 0x13, Load::Raises(13, 0x10)),
    (0, ALL, 0x23, Load::Raises(13, 0x20)),
    (3, ALL, 0x20, Load::Raises(13, 0x20)),
    (3, ALL, 0x22, Load::Raises(13, 0x20)),
    (0, ALL, 0x08, Load::Raises(13, 0x08)),
    (3, ALL, 0x1B, Load::Raises(13, 0x18)),
    (0, ALL, 0x48, Load::Raises(13, 0x48)),
    (0, ALL, 0x20, Load::Raises(13, 0x20)),
    (3, ALL, 0x13, Load::Raises(13, 0x10)),
    (0, ALL, 0x53, Load::Raises(13, 0x50)),
    (0, ALL, 0x50, Load::Raises(12, 0x50)),
    (3, ALL, 0x63, Load::Raises(12, 0x60)),
    (0, ALL, 0x10, Load::Loads(0x10, 0, 0x93)),
    (3, ALL, 0x23, Load::Loads(0x23, 3, 0xF3)),
    (0, 0x37, 0x30, Load::Loads(0x30, 0, 0x93)),
    (3, ALL, 0x43, Load::Loads(0x43, 3, 0xF3)),
];

// selector below 4; local table; limit; TSS, system or foreign; data, RPL or level; not present; loads
const JUMP: [Row; 36] = [
    (0, ALL, 0x00, Load::Raises(13, 0)),
    (3, ALL, 0x03, Load::Raises(13, 0)),
    (0, ALL, 0x04, Load::Form),
    (0, ALL, 0x0C, Load::Form),
    (3, ALL, 0xFFFF, Load::Form),
    (0, ALL, 0xB0, Load::Raises(13, 0xB0)),
    (3, ALL, 0xB3, Load::Raises(13, 0xB0)),
    (0, 0x2E, 0x28, Load::Raises(13, 0x28)),
    (0, ALL, 0x68, Load::Form),
    (0, ALL, 0x70, Load::Form),
    (3, ALL, 0x73, Load::Form),
    (0, ALL, 0x78, Load::Form),
    (0, ALL, 0x80, Load::Form),
    (0, ALL, 0x88, Load::Form),
    (0, ALL, 0xA8, Load::Form),
    (0, ALL, 0x90, Load::Form),
    (0, ALL, 0x98, Load::Form),
    (3, ALL, 0x9B, Load::Form),
    (0, ALL, 0x10, Load::Raises(13, 0x10)),
    (3, ALL, 0x23, Load::Raises(13, 0x20)),
    (0, ALL, 0x50, Load::Raises(13, 0x50)),
    (0, ALL, 0x09, Load::Raises(13, 0x08)),
    (0, ALL, 0x0B, Load::Raises(13, 0x08)),
    (0, ALL, 0x18, Load::Raises(13, 0x18)),
    (0, ALL, 0x1B, Load::Raises(13, 0x18)),
    (3, ALL, 0x08, Load::Raises(13, 0x08)),
    (3, ALL, 0x0B, Load::Raises(13, 0x08)),
    (0, ALL, 0x49, Load::Raises(13, 0x48)),
    (0, ALL, 0x48, Load::Raises(11, 0x48)),
    (3, ALL, 0x58, Load::Raises(11, 0x58)),
    (3, ALL, 0x5B, Load::Raises(11, 0x58)),
    (0, ALL, 0x08, Load::Loads(0x08, 0, 0x9B)),
    (0, 0x2F, 0x28, Load::Loads(0x28, 0, 0x9B)),
    (3, ALL, 0x18, Load::Loads(0x1B, 3, 0xFB)),
    (3, ALL, 0x1A, Load::Loads(0x1B, 3, 0xFB)),
    (3, ALL, 0x38, Load::Loads(0x3B, 3, 0xFB)),
];

// selector below 4; local table; limit; type 1; not available; not present
const TASKS: [Row; 22] = [
    (3, ALL, 0x70, Load::Raises(13, 0)),
    (0, ALL, 0x00, Load::Raises(13, 0)),
    (0, ALL, 0x03, Load::Raises(13, 0)),
    (0, ALL, 0x07, Load::Raises(13, 0x04)),
    (0, ALL, 0x74, Load::Raises(13, 0x74)),
    (0, ALL, 0xFFFF, Load::Raises(13, 0xFFFC)),
    (0, ALL, 0xB0, Load::Raises(13, 0xB0)),
    (0, 0x76, 0x70, Load::Raises(13, 0x70)),
    (0, ALL, 0x88, Load::Form),
    (0, ALL, 0x8B, Load::Form),
    (0, MORE, 0xB8, Load::Form),
    (0, ALL, 0x78, Load::Raises(13, 0x78)),
    (0, ALL, 0x7B, Load::Raises(13, 0x78)),
    (0, MORE, 0xB0, Load::Raises(13, 0xB0)),
    (0, ALL, 0x68, Load::Raises(13, 0x68)),
    (0, ALL, 0x08, Load::Raises(13, 0x08)),
    (0, ALL, 0x10, Load::Raises(13, 0x10)),
    (0, ALL, 0x90, Load::Raises(13, 0x90)),
    (0, ALL, 0x98, Load::Raises(13, 0x98)),
    (0, ALL, 0xA0, Load::Raises(13, 0xA0)),
    (0, ALL, 0xA8, Load::Raises(13, 0xA8)),
    (0, ALL, 0x80, Load::Raises(11, 0x80)),
];

// An instruction that loads the register of this place, done or refused: `then` is the processor where it is done but
// for that register.
fn loading(
    cpu: Cpu,
    before: Words,
    bytes: [u8; 8],
    then: Cpu,
    place: usize,
    sel: u16,
    load: Load,
) -> Case {
    let mut case = refused(cpu, before, bytes, effect_of(load));
    match load {
        Load::Null => case.then = with_segment(then, place, null(sel)),
        Load::Loads(sel, dpl, byte) => {
            case.then = with_segment(then, place, segment(sel, dpl));
            case.after[0] = accessed(sel, byte);
        }
        _ => {}
    }
    case
}

// MOV of AX to the register of this place.
fn moved(place: usize, row: Row) -> Case {
    let (cpl, limit, sel, load) = row;
    let cpu = with(
        with_limit(cpu_at(cpl), limit),
        0,
        0xA0A0_0000 | u32::from(sel),
    );
    let mut then = past(cpu, 2);
    then.held = place == 2;
    let name = match place {
        0 => 0xC0,
        2 => 0xD0,
        _ => 0xD8,
    };
    loading(
        cpu,
        NONE,
        [0x8E, name, 0, 0, 0, 0, 0, 0],
        then,
        place,
        sel,
        load,
    )
}

// POP of the register of this place.
fn popped(place: usize, row: Row) -> Case {
    let (cpl, limit, sel, load) = row;
    let top = if cpl == 3 { 0x8FF0 } else { 0x6FF0 };
    let cpu = with(with_limit(cpu_at(cpl), limit), 4, top);
    let mut before = NONE;
    before[0] = (top, 0xA0A0_0000 | u32::from(sel));
    let mut then = with(past(cpu, 1), 4, top + 4);
    then.held = place == 2;
    let name = match place {
        0 => 0x07,
        2 => 0x17,
        _ => 0x1F,
    };
    loading(
        cpu,
        before,
        [name, 0, 0, 0, 0, 0, 0, 0],
        then,
        place,
        sel,
        load,
    )
}

// A far JMP to sel:87654321.
fn jumped(row: Row) -> Case {
    let (cpl, limit, sel, load) = row;
    let cpu = with_limit(cpu_at(cpl), limit);
    let mut then = cpu;
    then.regs.eip = 0x8765_4321;
    let name = sel.to_le_bytes();
    loading(
        cpu,
        NONE,
        [0xEA, 0x21, 0x43, 0x65, 0x87, name[0], name[1], 0],
        then,
        1,
        sel,
        load,
    )
}

// LTR of CX, refused.
fn task_refused(row: Row) -> Case {
    let (cpl, limit, sel, load) = row;
    let cpu = with(
        with_limit(cpu_at(cpl), limit),
        1,
        0xA1A1_0000 | u32::from(sel),
    );
    refused(
        cpu,
        NONE,
        [0x0F, 0x00, 0xD9, 0, 0, 0, 0, 0],
        effect_of(load),
    )
}

// LTR of CX where the table's page has another entry: a page fault with this code at this place.
fn task_denied(entry: u32, code: u32, at: u32) -> Case {
    let mut case = task_refused((0, ALL, 0x70, Load::Raises(14, code)));
    case.before[0] = (GDT_ENTRY, entry);
    case.then = with_cr2(case.then, at);
    case
}

// LTR of CX, after which the TSS is busy.
fn task_loaded() -> Case {
    let mut cpu = with(with_limit(cpu_at(0), 0x77), 1, 0x70);
    cpu.task.loaded = false;
    let mut then = past(cpu, 3);
    then.task = Task {
        sel: 0x70,
        base: 0x5000,
        limit: 0x67,
        loaded: true,
    };
    let mut after = NONE;
    after[0] = (GDT + 0x74, 0x0000_8B00);
    Case {
        cpu,
        before: NONE,
        what: What::Insn([0x0F, 0x00, 0xD9, 0, 0, 0, 0, 0]),
        answer: Answer::Asks(SysEffect::Next),
        then,
        after,
    }
}

#[test]
fn data_segments_meet_their_tests(rt: HostRuntime) {
    let alloc = rt.alloc();
    for (k, row) in DATA.iter().enumerate() {
        for place in [0usize, 3] {
            comes_out(&rt, alloc, k, &moved(place, *row));
            comes_out(&rt, alloc, k, &popped(place, *row));
        }
    }
}

#[test]
fn stacks_meet_their_tests(rt: HostRuntime) {
    let alloc = rt.alloc();
    for (k, row) in STACK.iter().enumerate() {
        comes_out(&rt, alloc, k, &moved(2, *row));
        comes_out(&rt, alloc, k, &popped(2, *row));
    }
}

#[test]
fn far_jumps_meet_their_tests(rt: HostRuntime) {
    let alloc = rt.alloc();
    for (k, row) in JUMP.iter().enumerate() {
        comes_out(&rt, alloc, k, &jumped(*row));
    }
}

#[test]
fn tasks_meet_their_tests(rt: HostRuntime) {
    let alloc = rt.alloc();
    for (k, row) in TASKS.iter().enumerate() {
        comes_out(&rt, alloc, k, &task_refused(*row));
    }
    comes_out(&rt, alloc, 0, &task_loaded());
    // the descriptor is read, and the TSS made busy, by the supervisor
    comes_out(&rt, alloc, 0, &task_denied(GDT_ABSENT, 0, 0x3070));
    comes_out(&rt, alloc, 0, &task_denied(GDT_READ_ONLY, 3, 0x3075));
}

/// The level, the table's base, CR0, the outcome of MOV of 30 or 43 to ES, and CR2 then.
type Reach = (u8, u32, u32, SysEffect, u32);

// The supervisor reads the table, and marks it, at each level.
const REACHES: [Reach; 5] = [
    (
        0,
        ABSENT,
        0x8001_0011,
        SysEffect::Raise {
            vector: 14,
            code: 0,
        },
        0xF030,
    ),
    (
        3,
        ABSENT,
        0x8001_0011,
        SysEffect::Raise {
            vector: 14,
            code: 0,
        },
        0xF040,
    ),
    (
        0,
        READ_ONLY,
        0x8001_0011,
        SysEffect::Raise {
            vector: 14,
            code: 3,
        },
        0xD035,
    ),
    (
        3,
        READ_ONLY,
        0x8001_0011,
        SysEffect::Raise {
            vector: 14,
            code: 3,
        },
        0xD045,
    ),
    // without write protection
    (0, READ_ONLY, 0x8000_0011, SysEffect::Next, 0xBAD0_0000),
];

fn reached(row: Reach) -> Case {
    let (cpl, base, cr0, effect, cr2) = row;
    let sel = if cpl == 3 { 0x43 } else { 0x30 };
    let mut cpu = with(cpu_at(cpl), 0, sel);
    cpu.gdt.base = base;
    cpu.cr0 = cr0;
    let mut before = NONE;
    before[0] = (0xD030, 0x0000_FFFF);
    before[1] = (0xD034, 0x00CF_9200);
    before[2] = (0xD040, 0x0000_FFFF);
    before[3] = (0xD044, 0x00CF_F200);
    let mut case = refused(cpu, before, [0x8E, 0xC0, 0, 0, 0, 0, 0, 0], effect);
    case.then = with_cr2(cpu, cr2);
    if effect == SysEffect::Next {
        case.then = with_segment(past(cpu, 2), 0, segment(0x30, 0));
        case.after[0] = (0xD034, 0x00CF_9300);
    }
    case
}

#[test]
fn descriptors_are_reached_by_the_supervisor(rt: HostRuntime) {
    let alloc = rt.alloc();
    for (k, row) in REACHES.iter().enumerate() {
        comes_out(&rt, alloc, k, &reached(*row));
    }
}
