//! IRET and POPF: each test at its first failing place, the flags that are taken, and the segments that become null.

use crate::loads::{Load, effect_of};
use crate::world::{
    ABSENT, ALL, Case, EIP, GDT_ENTRY, GDT_READ_ONLY, NONE, READ_ONLY, Words, accessed, comes_out,
    cpu_at, null, past, refused, segment, with, with_cr2, with_flags, with_limit, with_segment,
};
use descriptors::{Cpu, Hidden};
use ia32_types::Stop;
use sys_exec::SysEffect;

const IRET: [u8; 8] = [0xCF, 0, 0, 0, 0, 0, 0, 0];

const POPF: [u8; 8] = [0x9D, 0, 0, 0, 0, 0, 0, 0];

// Where the frame of an IRET lies.
fn top_at(cpl: u8) -> u32 {
    if cpl == 3 { 0x8FE0 } else { 0x6FE0 }
}

// EIP, CS, EFLAGS, and the outer ESP and SS. The upper halves of the selectors don't count.
fn frame(at: u32, code: u16, flags: u32, stack: u16) -> Words {
    let mut words = NONE;
    words[0] = (at, 0x8765_4321);
    words[1] = (at.wrapping_add(4), 0xA1A1_0000 | u32::from(code));
    words[2] = (at.wrapping_add(8), flags);
    words[3] = (at.wrapping_add(12), 0x0000_8F00);
    words[4] = (at.wrapping_add(16), 0xA2A2_0000 | u32::from(stack));
    words
}

fn at_top(cpl: u8) -> Cpu {
    with(cpu_at(cpl), 4, top_at(cpl))
}

// Back at the same level.
fn inner(cpu: Cpu, before: Words, code: u16) -> Case {
    let mut case = refused(cpu, before, IRET, SysEffect::Next);
    case.then = with(cpu, 4, cpu.regs.r[4].wrapping_add(12));
    case.then.regs.eip = 0x8765_4321;
    case.then = with_segment(case.then, 1, segment(code, cpu.cpl));
    case.after[0] = accessed(code, if cpu.cpl == 3 { 0xFB } else { 0x9B });
    case
}

// Out from level 0 to level 3; DS and ES of level 0 are null.
fn outer(cpu: Cpu, before: Words, code: u16, stack: u16) -> Case {
    let mut case = refused(cpu, before, IRET, SysEffect::Next);
    case.then = with(cpu, 4, 0x0000_8F00);
    case.then.regs.eip = 0x8765_4321;
    case.then.cpl = 3;
    case.then = with_data(case.then, null(0), null(0));
    case.then = with_segment(case.then, 1, segment(code, 3));
    case.then = with_segment(case.then, 2, segment(stack, 3));
    case.after[0] = accessed(code, 0xFB);
    case.after[1] = accessed(stack, 0xF3);
    case
}

/// The level, the limit of the global table, CS, SS, and what comes.
type Refused = (u8, u16, u16, u16, Load);

// CS: selector below 4; local table; limit; TSS or
// system; foreign; data, RPL or level; not present. Then SS, at the level that is returned to.
const TESTS: [Refused; 51] = [
    (0, ALL, 0x00, 0x23, Load::Raises(13, 0)),
    (3, ALL, 0x03, 0x23, Load::Raises(13, 0)),
    (0, ALL, 0x04, 0x23, Load::Form),
    (0, ALL, 0x0C, 0x23, Load::Form),
    (0, ALL, 0xFFFF, 0x23, Load::Form),
    (0, ALL, 0xB0, 0x23, Load::Raises(13, 0xB0)),
    (3, ALL, 0xB3, 0x23, Load::Raises(13, 0xB0)),
    (0, 0x2E, 0x28, 0x23, Load::Raises(13, 0x28)),
    (0, ALL, 0x68, 0x23, Load::Raises(13, 0x68)),
    (0, ALL, 0x73, 0x23, Load::Raises(13, 0x70)),
    (3, ALL, 0x7B, 0x23, Load::Raises(13, 0x78)),
    (0, ALL, 0x80, 0x23, Load::Raises(13, 0x80)),
    (0, ALL, 0x88, 0x23, Load::Raises(13, 0x88)),
    (0, ALL, 0xA8, 0x23, Load::Raises(13, 0xA8)),
    (0, ALL, 0x90, 0x23, Load::Form),
    (0, ALL, 0x98, 0x23, Load::Form),
    (3, ALL, 0x98, 0x23, Load::Form),
    (0, ALL, 0x10, 0x23, Load::Raises(13, 0x10)),
    (0, ALL, 0x23, 0x23, Load::Raises(13, 0x20)),
    (3, ALL, 0x23, 0x23, Load::Raises(13, 0x20)),
    (3, ALL, 0x18, 0x23, Load::Raises(13, 0x18)),
    (3, ALL, 0x1A, 0x23, Load::Raises(13, 0x18)),
    (3, ALL, 0x08, 0x23, Load::Raises(13, 0x08)),
    (0, ALL, 0x09, 0x23, Load::Raises(13, 0x08)),
    (0, ALL, 0x0B, 0x23, Load::Raises(13, 0x08)),
    (0, ALL, 0x18, 0x23, Load::Raises(13, 0x18)),
    (3, ALL, 0x0B, 0x23, Load::Raises(13, 0x08)),
    (0, ALL, 0x4B, 0x23, Load::Raises(13, 0x48)),
    (0, ALL, 0x48, 0x23, Load::Raises(11, 0x48)),
    (3, ALL, 0x5B, 0x23, Load::Raises(11, 0x58)),
    (0, ALL, 0x5B, 0x00, Load::Raises(11, 0x58)),
    (0, ALL, 0x1B, 0x00, Load::Raises(13, 0)),
    (0, ALL, 0x1B, 0x03, Load::Raises(13, 0)),
    (0, ALL, 0x1B, 0x07, Load::Form),
    (0, ALL, 0x1B, 0x27, Load::Form),
    (0, ALL, 0x1B, 0xB3, Load::Raises(13, 0xB0)),
    (0, 0x46, 0x1B, 0x43, Load::Raises(13, 0x40)),
    (0, ALL, 0x1B, 0x6B, Load::Raises(13, 0x68)),
    (0, ALL, 0x1B, 0x73, Load::Raises(13, 0x70)),
    (0, ALL, 0x1B, 0x78, Load::Raises(13, 0x78)),
    (0, ALL, 0x1B, 0x8B, Load::Raises(13, 0x88)),
    (0, ALL, 0x1B, 0xAB, Load::Raises(13, 0xA8)),
    (0, ALL, 0x1B, 0x93, Load::Form),
    (0, ALL, 0x1B, 0x98, Load::Form),
    (0, ALL, 0x1B, 0x20, Load::Raises(13, 0x20)),
    (0, ALL, 0x1B, 0x10, Load::Raises(13, 0x10)),
    (0, ALL, 0x1B, 0x1B, Load::Raises(13, 0x18)),
    (0, ALL, 0x1B, 0x13, Load::Raises(13, 0x10)),
    (0, ALL, 0x1B, 0x60, Load::Raises(13, 0x60)),
    (0, ALL, 0x1B, 0x63, Load::Raises(12, 0x60)),
    (0, ALL, 0x3B, 0x63, Load::Raises(12, 0x60)),
];

// The image of the flags would be the test after these.
fn tested(row: Refused) -> Case {
    let (cpl, limit, code, stack, load) = row;
    let cpu = with_limit(at_top(cpl), limit);
    refused(
        cpu,
        frame(top_at(cpl), code, 0x0000_0102, stack),
        IRET,
        effect_of(load),
    )
}

#[test]
fn returns_meet_their_tests(rt: HostRuntime) {
    let alloc = rt.alloc();
    for (k, row) in TESTS.iter().enumerate() {
        comes_out(&rt, alloc, k, &tested(*row));
    }
}

/// The level, the limit of the global table, CS and SS.
type Goes = (u8, u16, u16, u16);

const GOES: [Goes; 7] = [
    (0, ALL, 0x08, 0x00),
    (0, 0x2F, 0x28, 0x00),
    (3, ALL, 0x1B, 0x00),
    (3, ALL, 0x3B, 0x00),
    (0, ALL, 0x1B, 0x23),
    (0, ALL, 0x3B, 0x43),
    (0, 0x47, 0x1B, 0x43),
];

fn gone(row: Goes) -> Case {
    let (cpl, limit, code, stack) = row;
    let cpu = with_limit(at_top(cpl), limit);
    let before = frame(top_at(cpl), code, 0x0000_0002, stack);
    if code % 4 == u16::from(cpl) {
        inner(cpu, before, code)
    } else {
        outer(cpu, before, code, stack)
    }
}

#[test]
fn returns_load_code_and_stack(rt: HostRuntime) {
    let alloc = rt.alloc();
    for (k, row) in GOES.iter().enumerate() {
        comes_out(&rt, alloc, k, &gone(*row));
    }
}

/// The level, the flags before, the image that is popped, and the flags then.
type Taken = (u8, u32, u32, u32);

const FLAGS: [Taken; 17] = [
    // level 0 takes all that is kept: 0, 2, 4, 6, 7, 9 to 13; bits 1, 3, 5, 15, 16 and those above 21 don't count
    (0, 0x0000_0002, 0xFFC1_BEFF, 0x0000_3ED7),
    (0, 0x0000_0002, 0x0000_3ED7, 0x0000_3ED7),
    (0, 0x0000_3ED7, 0x0000_0000, 0x0000_0002),
    (0, 0x0000_3ED7, 0x0000_8028, 0x0000_0002),
    (0, 0x0000_0002, 0x0000_0200, 0x0000_0202),
    (0, 0x0000_0202, 0x0000_0002, 0x0000_0002),
    (0, 0x0000_0002, 0x0000_1002, 0x0000_1002),
    (0, 0x0000_0002, 0x0000_2002, 0x0000_2002),
    // level 3 takes neither IF nor IOPL where IOPL is below it
    (3, 0x0000_0202, 0x0000_3ED5, 0x0000_0ED7),
    (3, 0x0000_0202, 0x0000_0000, 0x0000_0202),
    (3, 0x0000_0002, 0x0000_3202, 0x0000_0002),
    (3, 0x0000_1202, 0x0000_0002, 0x0000_1202),
    (3, 0x0000_2202, 0x0000_0002, 0x0000_2202),
    (3, 0x0000_2002, 0x0000_0202, 0x0000_2002),
    // and IF alone at IOPL 3
    (3, 0x0000_3002, 0x0000_0202, 0x0000_3202),
    (3, 0x0000_3202, 0x0000_0000, 0x0000_3002),
    (3, 0x0000_3202, 0x0000_0CD5, 0x0000_3CD7),
];

fn taken_by_iret(row: Taken) -> Case {
    let (cpl, flags, image, then) = row;
    let code = if cpl == 3 { 0x1B } else { 0x08 };
    let cpu = with_flags(at_top(cpl), flags);
    let mut case = inner(cpu, frame(top_at(cpl), code, image, 0), code);
    case.then = with_flags(case.then, then);
    case
}

fn taken_by_popf(row: Taken) -> Case {
    let (cpl, flags, image, then) = row;
    let cpu = with_flags(at_top(cpl), flags);
    let mut before = NONE;
    before[0] = (top_at(cpl), image);
    let mut case = refused(cpu, before, POPF, SysEffect::Next);
    case.then = with_flags(with(past(cpu, 1), 4, top_at(cpl).wrapping_add(4)), then);
    case
}

// An outer return takes IF and IOPL by the level before.
fn taken_outwards() -> Case {
    let cpu = at_top(0);
    let mut case = outer(cpu, frame(0x6FE0, 0x1B, 0x0000_3202, 0x23), 0x1B, 0x23);
    case.then = with_flags(case.then, 0x0000_3202);
    case
}

#[test]
fn flags_are_taken_by_level(rt: HostRuntime) {
    let alloc = rt.alloc();
    for (k, row) in FLAGS.iter().enumerate() {
        comes_out(&rt, alloc, k, &taken_by_iret(*row));
        comes_out(&rt, alloc, k, &taken_by_popf(*row));
    }
    comes_out(&rt, alloc, 0, &taken_outwards());
}

// TF, NT, VM, AC, VIF, VIP, ID
const IMAGES: [u32; 7] = [
    0x0000_0102,
    0x0000_4002,
    0x0002_0002,
    0x0004_0002,
    0x0008_0002,
    0x0010_0002,
    0x0020_0002,
];

/// The level, the selector of an IRET, 0 for POPF, and the instruction.
const POPPING: [(u8, u16, [u8; 8]); 6] = [
    (0, 0x08, IRET),
    (3, 0x1B, IRET),
    (0, 0x1B, IRET),
    (0, 0x3B, IRET),
    (0, 0, POPF),
    (3, 0, POPF),
];

fn stopped(cpl: u8, code: u16, image: u32, bytes: [u8; 8]) -> Case {
    let before = if code == 0 {
        let mut words = NONE;
        words[0] = (top_at(cpl), image);
        words
    } else {
        frame(top_at(cpl), code, image, 0x43)
    };
    refused(at_top(cpl), before, bytes, SysEffect::Stop(Stop::FlagBits))
}

#[test]
fn images_of_other_flags_stop(rt: HostRuntime) {
    let alloc = rt.alloc();
    for image in &IMAGES {
        for (k, row) in POPPING.iter().enumerate() {
            let (cpl, code, bytes) = *row;
            comes_out(&rt, alloc, k, &stopped(cpl, code, *image, bytes));
        }
    }
}

fn level_0(sel: u16) -> Hidden {
    segment(sel, 0)
}

fn level_3(sel: u16) -> Hidden {
    segment(sel, 3)
}

// ES or DS before an outer return and then; a return at the same level leaves it.
fn data_segments() -> [(Hidden, Hidden); 6] {
    [
        (level_0(0x10), null(0)),
        (level_0(0x30), null(0)),
        (level_3(0x23), level_3(0x23)),
        (level_3(0x20), level_3(0x20)),
        (null(0), null(0)),
        (null(2), null(0)),
    ]
}

fn with_data(cpu: Cpu, extra: Hidden, data: Hidden) -> Cpu {
    with_segment(with_segment(cpu, 0, extra), 3, data)
}

fn outwards(extra: (Hidden, Hidden), data: (Hidden, Hidden)) -> Case {
    let cpu = with_data(at_top(0), extra.0, data.0);
    let mut case = outer(cpu, frame(0x6FE0, 0x1B, 0x0000_0002, 0x23), 0x1B, 0x23);
    case.then = with_data(case.then, extra.1, data.1);
    case
}

fn within(extra: Hidden, data: Hidden) -> Case {
    let cpu = with_data(at_top(0), extra, data);
    inner(cpu, frame(0x6FE0, 0x08, 0x0000_0002, 0x23), 0x08)
}

#[test]
fn outer_returns_make_segments_null(rt: HostRuntime) {
    let alloc = rt.alloc();
    for extra in data_segments() {
        for data in data_segments() {
            comes_out(&rt, alloc, usize::from(extra.0.sel), &outwards(extra, data));
            comes_out(
                &rt,
                alloc,
                usize::from(extra.0.sel),
                &within(extra.0, data.0),
            );
        }
    }
}

/// The level, ESP, CS, what comes, and CR2 then.
type Reach = (u8, u32, u16, SysEffect, u32);

const REACHES: [Reach; 7] = [
    // the twelve bytes: the supervisor's page for a user, and a page that is absent
    (
        3,
        0x6FE0,
        0x1B,
        SysEffect::Raise {
            vector: 14,
            code: 5,
        },
        0x6FE0,
    ),
    (
        0,
        0xEFF8,
        0x1B,
        SysEffect::Raise {
            vector: 14,
            code: 0,
        },
        ABSENT,
    ),
    (
        3,
        ABSENT,
        0x1B,
        SysEffect::Raise {
            vector: 14,
            code: 4,
        },
        ABSENT,
    ),
    // CS is tested before the next eight bytes are read
    (
        0,
        0xEFF4,
        0x13,
        SysEffect::Raise {
            vector: 13,
            code: 0x10,
        },
        0xBAD0_0000,
    ),
    (
        0,
        0xEFF4,
        0x1B,
        SysEffect::Raise {
            vector: 14,
            code: 0,
        },
        ABSENT,
    ),
    (
        0,
        0xEFF0,
        0x1B,
        SysEffect::Raise {
            vector: 14,
            code: 0,
        },
        ABSENT,
    ),
    // past the end of the addresses
    (
        0,
        0xFFFF_FFF8,
        0x08,
        SysEffect::Stop(Stop::WrapAccess),
        0xBAD0_0000,
    ),
];

fn reached(row: Reach) -> Case {
    let (cpl, top, code, effect, cr2) = row;
    let cpu = with(cpu_at(cpl), 4, top);
    let mut before = NONE;
    before[0] = (top, EIP);
    before[1] = (top.wrapping_add(4), u32::from(code));
    before[2] = (top.wrapping_add(8), 0x0000_0002);
    let mut case = refused(cpu, before, IRET, effect);
    case.then = with_cr2(cpu, cr2);
    case
}

#[test]
fn returns_read_with_the_rights_of_their_level(rt: HostRuntime) {
    let alloc = rt.alloc();
    for (k, row) in REACHES.iter().enumerate() {
        comes_out(&rt, alloc, k, &reached(*row));
    }
    // a return at the same level reads no more than twelve
    let cpu = with(cpu_at(0), 4, 0xEFF4);
    let case = inner(cpu, frame(0xEFF4, 0x08, 0x0000_0002, 0), 0x08);
    comes_out(&rt, alloc, 0, &case);
}

/// The level, CS, SS, the image of the flags, what comes, and CR2 then.
type Mark = (u8, u16, u16, u32, SysEffect, u32);

const DENIED: SysEffect = SysEffect::Raise {
    vector: 14,
    code: 3,
};

const FOREIGN: SysEffect = SysEffect::Stop(Stop::FlagBits);

// The table's page may not be written. Accessed bits are written after all tests, CS's first, by the supervisor.
const MARKS: [Mark; 6] = [
    (0, 0x28, 0x00, 0x0000_0002, DENIED, 0x302D),
    (3, 0x3B, 0x00, 0x0000_0002, DENIED, 0x303D),
    (0, 0x3B, 0x43, 0x0000_0002, DENIED, 0x303D),
    (0, 0x1B, 0x43, 0x0000_0002, DENIED, 0x3045),
    (0, 0x28, 0x00, 0x0000_0102, FOREIGN, 0xBAD0_0000),
    (0, 0x3B, 0x43, 0x0000_0102, FOREIGN, 0xBAD0_0000),
];

fn not_marking(row: Mark) -> Case {
    let (cpl, code, stack, image, effect, cr2) = row;
    let mut before = frame(top_at(cpl), code, image, stack);
    before[5] = (GDT_ENTRY, GDT_READ_ONLY);
    let mut case = refused(at_top(cpl), before, IRET, effect);
    case.then = with_cr2(at_top(cpl), cr2);
    case
}

// SS's descriptor alone lies in such a page: CS is marked before it.
fn half_marking() -> Case {
    let cpu = with_limit(at_top(0), 0xFFFF);
    let mut before = frame(top_at(0), 0x3B, 0x0000_0002, 0xA003);
    before[5] = (READ_ONLY, 0x0000_FFFF);
    before[6] = (READ_ONLY + 4, 0x00CF_F200);
    let mut case = refused(cpu, before, IRET, DENIED);
    case.then = with_cr2(cpu, READ_ONLY + 5);
    case.after[0] = accessed(0x38, 0xFB);
    case
}

#[test]
fn accessed_bits_are_written_last(rt: HostRuntime) {
    let alloc = rt.alloc();
    for (k, row) in MARKS.iter().enumerate() {
        comes_out(&rt, alloc, k, &not_marking(*row));
    }
    comes_out(&rt, alloc, 0, &half_marking());
}
