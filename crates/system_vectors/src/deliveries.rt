//! Deliveries: each test at its first failing place, the frame that is pushed, and the processor in the handler.

use crate::world::{
    ABSENT, Answer, Case, EIP, GDT_ABSENT, GDT_ENTRY, GDT_READ_ONLY, IDT, NONE, READ_ONLY, TASK,
    What, accessed, comes_out, cpu_at, segment,
};
use descriptors::Cpu;
use event_entry::{Kind, NotDelivered};
use ia32_types::Stop;
use sys_exec::SysEffect;

const FAILED: Result<(), NotDelivered> = Err(NotDelivered::Stop(Stop::DeliveryFailed));

const WRAPPED: Result<(), NotDelivered> = Err(NotDelivered::Stop(Stop::WrapAccess));

const PRIVILEGE: Result<(), NotDelivered> = Err(NotDelivered::Privilege);

/// Where the gate of vector 0x21 lies.
const GATE: u32 = IDT + 0x108;

// A delivery by an interrupt gate of level 0, whose handler is 08:12345678, with the inner stack 10:00006F00.
fn refused(cpl: u8, kind: Kind, code: Option<u32>, answer: Result<(), NotDelivered>) -> Case {
    let mut cpu = cpu_at(cpl);
    cpu.halted = true;
    let mut before = NONE;
    before[0] = (GATE, 0x0008_5678);
    before[1] = (GATE + 4, 0x1234_8E00);
    before[2] = (TASK + 4, 0x0000_6F00);
    before[3] = (TASK + 8, 0xFFFF_0010);
    Case {
        cpu,
        before,
        what: What::Event(kind, code),
        answer: Answer::Delivered(answer),
        then: cpu,
        after: NONE,
    }
}

// A change before the delivery: a word of memory, or a register that the tests look at.
#[derive(Clone, Copy)]
enum But {
    Word(u32, u32),
    GateLimit(u16),
    Limit(u16),
    TaskLimit(u32),
    NoTask,
    Stack(u32),
    Task(u32),
    Gates(u32),
    Table(u32),
    /// A descriptor beyond the table's page, for the inner stack.
    FarStack(u16),
}

fn changed(case: Case, but: But) -> Case {
    let mut case = case;
    match but {
        But::Word(at, v) => case.before[4] = (at, v),
        But::GateLimit(limit) => case.cpu.idt.limit = limit,
        But::Limit(limit) => case.cpu.gdt.limit = limit,
        But::TaskLimit(limit) => case.cpu.task.limit = limit,
        But::NoTask => case.cpu.task.loaded = false,
        But::Stack(at) => case.cpu.regs.r[4] = at,
        But::Task(at) => case.cpu.task.base = at,
        But::Gates(at) => case.cpu.idt.base = at,
        But::Table(at) => case.cpu.gdt.base = at,
        But::FarStack(sel) => {
            case.cpu.gdt.limit = 0xFFFF;
            case.before[3] = (TASK + 8, u32::from(sel));
        }
    }
    case.then = case.cpu;
    case
}

/// The level, and what is otherwise than in a delivery that succeeds.
type Row = (u8, But);

const REFUSED: [Row; 61] = [
    // the gate lies within the limit, and is read
    (0, But::GateLimit(0x10E)),
    (0, But::GateLimit(0x108)),
    (3, But::GateLimit(0x000)),
    (0, But::Gates(ABSENT)),
    (3, But::Gates(0xEF00)),
    (0, But::Gates(0xFFFF_FEF0)),
    (3, But::Gates(0xFFFF_FF00)),
    // its form: a task gate, a call gate, 16 bits, bit 4; and it is present
    (0, But::Word(GATE + 4, 0x1234_8500)),
    (0, But::Word(GATE + 4, 0x1234_8C00)),
    (0, But::Word(GATE + 4, 0x1234_8600)),
    (0, But::Word(GATE + 4, 0x1234_8700)),
    (0, But::Word(GATE + 4, 0x1234_9E00)),
    (0, But::Word(GATE + 4, 0x1234_0E00)),
    (3, But::Word(GATE + 4, 0x1234_0F00)),
    // its selector: below 4, a local table, the limit
    (0, But::Word(GATE, 0x0000_5678)),
    (0, But::Word(GATE, 0x0003_5678)),
    (0, But::Word(GATE, 0x000C_5678)),
    (0, But::Word(GATE, 0x00B0_5678)),
    (0, But::Limit(0x0E)),
    // its descriptor is read: the page, its second half's page, or that of the table is absent
    (0, But::Table(ABSENT)),
    (3, But::Table(0xEFF4)),
    (0, But::Word(GDT_ENTRY, GDT_ABSENT)),
    (3, But::Word(GDT_ENTRY, GDT_ABSENT)),
    // data, of level 3, not present, a TSS, conforming
    (0, But::Word(GATE, 0x0010_5678)),
    (0, But::Word(GATE, 0x0018_5678)),
    (3, But::Word(GATE, 0x001B_5678)),
    (0, But::Word(GATE, 0x0048_5678)),
    (0, But::Word(GATE, 0x0070_5678)),
    (0, But::Word(GATE, 0x0098_5678)),
    (0, But::Word(GATE, 0x0068_5678)),
    // the TSS
    (3, But::NoTask),
    (3, But::TaskLimit(8)),
    (3, But::TaskLimit(0)),
    (3, But::Task(ABSENT)),
    (3, But::Task(0xEFF8)),
    (3, But::Task(0xEFFC)),
    // the inner stack's selector: below 4, a local table, the limit, RPL
    (3, But::Word(TASK + 8, 0x0000_0000)),
    (3, But::Word(TASK + 8, 0x0000_0003)),
    (3, But::Word(TASK + 8, 0x0000_0014)),
    (3, But::Word(TASK + 8, 0x0000_00B0)),
    (3, But::Word(TASK + 8, 0x0000_0011)),
    (3, But::Word(TASK + 8, 0x0000_0013)),
    // its descriptor is read: the first absent page, the last place of the table, and one of zeros
    (3, But::FarStack(0xC000)),
    (3, But::FarStack(0xFFF8)),
    (3, But::FarStack(0xA000)),
    // level 3, code, not present, a TSS, one that expands down
    (3, But::Word(TASK + 8, 0x0000_0020)),
    (3, But::Word(TASK + 8, 0x0000_0008)),
    (3, But::Word(TASK + 8, 0x0000_0050)),
    (3, But::Word(TASK + 8, 0x0000_0078)),
    (3, But::Word(TASK + 8, 0x0000_0090)),
    (3, But::Word(TASK + 8, 0x0000_0068)),
    // what is pushed: the page is absent or may not be written, up to the last address and from the first
    (0, But::Stack(0x00)),
    (0, But::Stack(0x0C)),
    (3, But::Word(TASK + 4, 0x0000_0000)),
    (3, But::Word(TASK + 4, 0x0000_0014)),
    (0, But::Stack(ABSENT + 0x10)),
    (0, But::Stack(READ_ONLY + 0x10)),
    (0, But::Stack(READ_ONLY + 0x1008)),
    (3, But::Word(TASK + 4, ABSENT + 0x14)),
    (3, But::Word(TASK + 4, READ_ONLY + 0x14)),
    (3, But::Word(TASK + 4, READ_ONLY + 0x1010)),
];

#[test]
fn deliveries_meet_their_tests(rt: HostRuntime) {
    let alloc = rt.alloc();
    for (k, row) in REFUSED.iter().enumerate() {
        let (cpl, but) = *row;
        for kind in [Kind::Raised, Kind::External] {
            let case = changed(refused(cpl, kind, None, FAILED), but);
            comes_out(&rt, alloc, k, &case);
        }
    }
}

// A range that passes the last address, which is reported as such: the gate, a descriptor, the TSS, what is pushed.
const WRAPS: [Row; 8] = [
    (0, But::Gates(0xFFFF_FEF4)),
    (0, But::Table(0xFFFF_FFF4)),
    (3, But::Task(0xFFFF_FFFA)),
    (0, But::Stack(0x01)),
    (0, But::Stack(0x04)),
    (0, But::Stack(0x0B)),
    (3, But::Word(TASK + 4, 0x0000_0004)),
    (3, But::Word(TASK + 4, 0x0000_0013)),
];

#[test]
fn deliveries_stop_at_the_last_address(rt: HostRuntime) {
    let alloc = rt.alloc();
    for (k, row) in WRAPS.iter().enumerate() {
        let (cpl, but) = *row;
        for code in [None, Some(0)] {
            let case = changed(refused(cpl, Kind::External, code, WRAPPED), but);
            comes_out(&rt, alloc, k, &case);
        }
    }
}

// In the handler.
fn entered(cpu: Cpu, top: u32, flags: u32, code: u16, stack: u16) -> Cpu {
    let mut then = cpu;
    then.cpl = 0;
    then.seg[1] = segment(code, 0);
    then.seg[2] = segment(stack, 0);
    then.regs.eip = 0x1234_5678;
    then.regs.r[4] = top;
    then.regs.flags.bits = flags;
    then.halted = false;
    then
}

// The frame from `at` on: EIP, CS, EFLAGS, and from level 3 ESP and SS.
fn framed(case: Case, at: u32) -> Case {
    let mut case = case;
    let user = case.cpu.cpl == 3;
    case.after[0] = (at, EIP);
    case.after[1] = (at.wrapping_add(4), if user { 0x1B } else { 0x08 });
    case.after[2] = (at.wrapping_add(8), case.cpu.regs.flags.bits);
    if user {
        case.after[3] = (at.wrapping_add(12), case.cpu.regs.r[4]);
        case.after[4] = (at.wrapping_add(16), 0x23);
    }
    case
}

// A delivery that succeeds, with the flags in the handler.
fn taken(case: Case, then: u32) -> Case {
    let at = if case.cpu.cpl == 3 { 0x6EEC } else { 0x6FF4 };
    let mut case = framed(case, at);
    case.answer = Answer::Delivered(Ok(()));
    case.then = entered(case.cpu, at, then, 0x08, 0x10);
    case
}

// A delivery that succeeds, with an error code below the frame, and with the flags in the handler.
fn taken_with(case: Case, code: u32, then: u32) -> Case {
    let at = if case.cpu.cpl == 3 { 0x6EE8 } else { 0x6FF0 };
    let mut case = taken(case, then);
    case.after[5] = (at, code);
    case.then.regs.r[4] = at;
    case
}

/// The level, the kind, the gate's upper word, and the answer.
type Soft = (u8, Kind, u32, Result<(), NotDelivered>);

// The gate's level is tested before its form and P, and by INT alone.
const SOFT: [Soft; 14] = [
    (0, Kind::Soft, 0x1234_8E00, Ok(())),
    (0, Kind::Soft, 0x1234_EE00, Ok(())),
    (3, Kind::Soft, 0x1234_EE00, Ok(())),
    (3, Kind::Soft, 0x1234_EF00, Ok(())),
    (3, Kind::Soft, 0x1234_8E00, PRIVILEGE),
    (3, Kind::Soft, 0x1234_AE00, PRIVILEGE),
    (3, Kind::Soft, 0x1234_CF00, PRIVILEGE),
    (3, Kind::Soft, 0x1234_0E00, PRIVILEGE),
    (3, Kind::Soft, 0x1234_8500, PRIVILEGE),
    (3, Kind::Soft, 0x1234_6E00, FAILED),
    (3, Kind::Soft, 0x1234_E500, FAILED),
    (0, Kind::Soft, 0x1234_0E00, FAILED),
    (3, Kind::Raised, 0x1234_8E00, Ok(())),
    (3, Kind::External, 0x1234_8E00, Ok(())),
];

fn soft(row: Soft) -> Case {
    let (cpl, kind, high, answer) = row;
    let mut case = refused(cpl, kind, None, answer);
    case.before[1] = (GATE + 4, high);
    if answer == Ok(()) {
        return taken(case, 0x0000_0002);
    }
    case
}

#[test]
fn software_events_are_tested_by_the_gates_level(rt: HostRuntime) {
    let alloc = rt.alloc();
    for (k, row) in SOFT.iter().enumerate() {
        comes_out(&rt, alloc, k, &soft(*row));
    }
}

// The least that a delivery needs, and where a test is not made.
const TAKEN: [Row; 8] = [
    (0, But::GateLimit(0x10F)),
    (0, But::Limit(0x0F)),
    (0, But::NoTask),
    (0, But::TaskLimit(0)),
    (3, But::TaskLimit(9)),
    (3, But::Limit(0x17)),
    (3, But::Word(GATE + 4, 0x1234_8EFF)),
    (3, But::Stack(ABSENT)),
];

#[test]
fn deliveries_need_no_more(rt: HostRuntime) {
    let alloc = rt.alloc();
    for (k, row) in TAKEN.iter().enumerate() {
        let (cpl, but) = *row;
        let case = taken(
            changed(refused(cpl, Kind::External, None, FAILED), but),
            0x0000_0002,
        );
        comes_out(&rt, alloc, k, &case);
    }
}

/// The gate's upper word, the flags before, and the flags in the handler.
type Entry = (u32, u32, u32);

const FLAGS: [Entry; 8] = [
    (0x1234_8E00, 0x0000_0002, 0x0000_0002),
    (0x1234_8E00, 0x0000_0202, 0x0000_0002),
    (0x1234_8E00, 0x0000_3ED7, 0x0000_3CD7),
    (0x1234_8E00, 0x0000_4302, 0x0000_0002),
    (0x1234_8F00, 0x0000_0202, 0x0000_0202),
    (0x1234_8F00, 0x0000_0002, 0x0000_0002),
    (0x1234_8F00, 0x0000_3ED7, 0x0000_3ED7),
    (0x1234_8F00, 0x0000_4302, 0x0000_0202),
];

fn entering(row: Entry, cpl: u8, code: Option<u32>) -> Case {
    let (high, flags, then) = row;
    let mut case = refused(cpl, Kind::Raised, code, FAILED);
    case.before[1] = (GATE + 4, high);
    case.cpu.regs.flags.bits = flags;
    case.cpu.held = true;
    match code {
        None => taken(case, then),
        Some(code) => taken_with(case, code, then),
    }
}

#[test]
fn frames_are_pushed(rt: HostRuntime) {
    let alloc = rt.alloc();
    for (k, row) in FLAGS.iter().enumerate() {
        for cpl in [0u8, 3] {
            for code in [None, Some(0x5A5A_0001)] {
                comes_out(&rt, alloc, k, &entering(*row, cpl, code));
            }
        }
    }
}

/// The level, the gate's selector, the inner stack's, and CS in the handler.
type Marks = (u8, u16, u16, u16);

const MARKS: [Marks; 5] = [
    (0, 0x28, 0x10, 0x28),
    (0, 0x2B, 0x10, 0x28),
    (3, 0x29, 0x10, 0x28),
    (3, 0x28, 0x30, 0x28),
    (3, 0x0B, 0x30, 0x08),
];

fn marking(row: Marks) -> Case {
    let (cpl, gate, stack, code) = row;
    let mut case = refused(cpl, Kind::External, None, FAILED);
    case.before[0] = (GATE, u32::from(gate) << 16 | 0x5678);
    case.before[3] = (TASK + 8, u32::from(stack));
    let mut case = taken(case, 0x0000_0002);
    case.then.seg[1] = segment(code, 0);
    case.then.seg[2] = segment(stack, 0);
    case.after[6] = accessed(code, 0x9B);
    case.after[7] = accessed(stack, 0x93);
    case
}

#[test]
fn accessed_bits_are_written(rt: HostRuntime) {
    let alloc = rt.alloc();
    for (k, row) in MARKS.iter().enumerate() {
        comes_out(&rt, alloc, k, &marking(*row));
    }
}

// The table's page may not be written: the frame is pushed, and the delivery fails.
fn not_marking(row: Marks) -> Case {
    let mut case = marking(row);
    case.before[4] = (GDT_ENTRY, GDT_READ_ONLY);
    case.answer = Answer::Delivered(FAILED);
    case.then = case.cpu;
    case.after[6] = (0, 0);
    case.after[7] = (0, 0);
    case
}

// The inner stack's descriptor alone lies in such a page: CS is marked before it.
fn half_marking() -> Case {
    let mut case = marking((3, 0x28, 0xA000, 0x28));
    case.cpu.gdt.limit = 0xFFFF;
    case.before[4] = (READ_ONLY, 0x0000_FFFF);
    case.before[5] = (READ_ONLY + 4, 0x00CF_9200);
    case.answer = Answer::Delivered(FAILED);
    case.then = case.cpu;
    case.after[7] = (0, 0);
    case
}

#[test]
fn accessed_bits_that_may_not_be_written_end_a_delivery(rt: HostRuntime) {
    let alloc = rt.alloc();
    for (k, row) in MARKS.iter().enumerate() {
        comes_out(&rt, alloc, k, &not_marking(*row));
    }
    comes_out(&rt, alloc, 0, &half_marking());
}

/// The level, the gate's upper word, the gate's selector, the inner stack's, and the flags.
type Round = (u8, u32, u16, u16, u32);

const ROUNDS: [Round; 8] = [
    (0, 0x1234_8E00, 0x08, 0x10, 0x0000_0002),
    (0, 0x1234_8E00, 0x28, 0x10, 0x0000_3ED7),
    (0, 0x1234_8F00, 0x2B, 0x10, 0x0000_0202),
    (3, 0x1234_8E00, 0x08, 0x10, 0x0000_0202),
    (3, 0x1234_8E00, 0x28, 0x30, 0x0000_0ED7),
    (3, 0x1234_8F00, 0x08, 0x30, 0x0000_3ED7),
    (3, 0x1234_EE00, 0x2A, 0x30, 0x0000_1246),
    (3, 0x1234_EF00, 0x08, 0x10, 0x0000_0002),
];

// Where the handler leaves its stack, IRET gives the processor back. The frame and the accessed bits stay in memory.
fn back(row: Round) -> Case {
    let (cpl, high, gate, stack, flags) = row;
    let mut case = refused(cpl, Kind::External, None, FAILED);
    case.what = What::Back(Kind::External);
    case.before[0] = (GATE, u32::from(gate) << 16 | 0x5678);
    case.before[1] = (GATE + 4, high);
    case.before[3] = (TASK + 8, u32::from(stack));
    case.cpu.regs.flags.bits = flags;
    let mut case = taken(case, flags);
    case.answer = Answer::Asks(SysEffect::Next);
    case.then = case.cpu;
    case.then.halted = false;
    case.after[6] = accessed(gate, 0x9B);
    case.after[7] = accessed(stack, 0x93);
    case
}

#[test]
fn a_return_gives_the_processor_back(rt: HostRuntime) {
    let alloc = rt.alloc();
    for (k, row) in ROUNDS.iter().enumerate() {
        comes_out(&rt, alloc, k, &back(*row));
    }
}
