//! A processor with memory, in which one instruction is done or one event is delivered.

ghost use Rattle.std.specs.Prelude.{◌≡◌};
ghost use Rattle.step_mem.specs.Sound.{IsSoundOver};

use bare_mem::Cached;
use descriptors::{Cpu, Hidden, Table, Task};
use event_entry::{Kind, NotDelivered, deliver};
use guest_ram::Ram;
use ia32_decode::{Decoded, decode};
use ia32_types::{Flags, Insn, Op, Operand, Regs, Size};
use machine_step::{begin_again, first_state};
use paging::GuestMem;
use std::alloc::{AllocError, Global};
use std::process::Abort;
use step_exec::Memory;
use step_mem::{Guard, Own, StepState, Text, Translations};
use sys_exec::{SysEffect, sys};
use xlate_buffer::Buffer;

/// Where the tables, the stacks and an operand lie. Each page is mapped to the frame of its number.
pub const GDT: u32 = 0x3000;

/// The interrupt descriptor table.
pub const IDT: u32 = 0x4000;

/// The task-state segment (TSS).
pub const TASK: u32 = 0x5000;

/// The top of the stack of level 0.
pub const KERNEL_STACK: u32 = 0x7000;

/// The top of the stack of level 3.
pub const USER_STACK: u32 = 0x9000;

/// An operand in memory.
pub const OPERAND: u32 = 0xA000;
/// The user may read this page and not write it.
pub const READ_ONLY: u32 = 0xD000;
/// The first page that is not present.
pub const ABSENT: u32 = 0xF000;

/// Where the instruction begins.
pub const EIP: u32 = 0x1234_5600;
/// The limit of the global table, past which two descriptors lie.
pub const ALL: u16 = 0xAF;

/// Its limit with those two.
pub const MORE: u16 = 0xBF;

/// The entry that maps the page of the global table, and its values where that page is not present or may not be written.
pub const GDT_ENTRY: u32 = 0x200C;

pub const GDT_ABSENT: u32 = 0x0000_3062;

pub const GDT_READ_ONLY: u32 = 0x0000_3061;

/// Byte 5 of the flat descriptors, from selector 8 on.
const FLAT: [u32; 12] = [
    0x9B, 0x93, 0xFB, 0xF3, // 08 code, 10 data, 18 code for users, 20 data for users
    0x9A, 0x92, 0xFA, 0xF2, // 28, 30, 38, 40: the same, not accessed
    0x1B, 0x13, 0x7B, 0x73, // 48, 50, 58, 60: the same, not present
];

/// The two words of the other descriptors, from selector 68 on.
const OTHER: [(u32, u32); 11] = [
    (0x5000_0067, 0x0000_8200), // 68 a local table
    (0x5000_0067, 0x0000_8900), // 70 a TSS
    (0x5000_0067, 0x0000_8B00), // 78 a busy TSS
    (0x5000_0067, 0x0000_0900), // 80 a TSS that is not present
    (0x5000_002B, 0x0000_8100), // 88 a TSS of 16 bits
    (0x0000_FFFF, 0x00CF_9600), // 90 data that expands down
    (0x0000_FFFF, 0x00CF_9E00), // 98 conforming code
    (0x5000_002B, 0x0000_8300), // A0 a busy TSS of 16 bits
    (0x0008_0000, 0x0000_8C00), // A8 a call gate
    (0x5000_0067, 0x0000_0B00), // B0 a busy TSS that is not present
    (0x5000_002B, 0x0000_0100), // B8 a TSS of 16 bits that is not present
];

/// What is done: the instruction that begins the bytes, or an event with its error code, by vector 0x21; or such an
/// event and then the IRET that ends its handler.
#[derive(Clone, Copy)]
pub enum What {
    Insn([u8; 8]),
    Event(Kind, Option<u32>),
    Back(Kind),
}

/// What comes of it.
#[derive(Clone, Copy, PartialEq, Eq)]
pub enum Answer {
    Asks(SysEffect),
    Delivered(Result<(), NotDelivered>),
    NotRead,
}

/// Words of memory, each with its place. What isn't used is the word 0 at 0, which is 0 anyway.
pub type Words = [(u32, u32); 8];

/// No word.
pub const NONE: Words = [(0, 0); 8];

/// One row: a processor, what stands in memory besides the tables, what is done, and what comes of it: the answer, the
/// processor, and the words of memory that have changed.
#[derive(Clone, Copy)]
pub struct Case {
    pub cpu: Cpu,
    pub before: Words,
    pub what: What,
    pub answer: Answer,
    pub then: Cpu,
    pub after: Words,
}

/// How a row came out: as it says, or what was otherwise.
#[derive(Clone, Copy, PartialEq, Eq)]
enum Seen {
    Right,
    Answer(Answer),
    Processor,
    Memory,
}

/// Writes a word, where there is memory.
pub fn put32(ram: &mut Ram, at: u32, v: u32) {
    if ram.len() >= 4 && at <= ram.len() - 4 {
        ram.write32(at, v);
    }
}

/// A segment register that was loaded.
pub fn segment(sel: u16, dpl: u8) -> Hidden {
    Hidden {
        sel,
        null: false,
        dpl,
    }
}

/// A segment register that is null.
pub fn null(sel: u16) -> Hidden {
    Hidden {
        sel,
        null: true,
        dpl: 0,
    }
}

fn put_tables(ram: &mut Ram) {
    put32(ram, 0x1000, 0x2027);
    // accessed and dirty, for all; pages 3 to 6 and 14 are the supervisor's
    for page in 1..15u32 {
        let rights = match page {
            3 | 4 | 5 | 6 | 14 => 0x63,
            13 => 0x65,
            _ => 0x67,
        };
        put32(ram, 0x2000 + 4 * page, page * 0x1000 + rights);
    }
    let mut at = GDT + 8;
    for byte in &FLAT {
        put32(ram, at, 0x0000_FFFF);
        put32(ram, at.wrapping_add(4), 0x00CF_0000 | *byte << 8);
        at = at.wrapping_add(8);
    }
    for row in &OTHER {
        let (low, high) = *row;
        put32(ram, at, low);
        put32(ram, at.wrapping_add(4), high);
        at = at.wrapping_add(8);
    }
}

const IRET: Insn = Insn {
    op: Op::Iret,
    size: Size::Long,
    a: Operand::Absent,
    b: Operand::Absent,
    imm: 0,
    sel: 0,
    rep: false,
};

/// A processor at a level, with flat segments of that level, and write protection on.
pub fn cpu_at(cpl: u8) -> Cpu {
    let user = cpl == 3;
    let data = if user {
        segment(0x23, 3)
    } else {
        segment(0x10, 0)
    };
    let code = if user {
        segment(0x1B, 3)
    } else {
        segment(0x08, 0)
    };
    let top = if user { USER_STACK } else { KERNEL_STACK };
    Cpu {
        regs: Regs {
            r: [
                0xA0A0_A0A0,
                0xA1A1_A1A1,
                0xA2A2_A2A2,
                0xA3A3_A3A3,
                top,
                0xA5A5_A5A5,
                0xA6A6_A6A6,
                0xA7A7_A7A7,
            ],
            eip: EIP,
            flags: Flags { bits: 0x0000_0002 },
        },
        cpl,
        seg: [data, code, data, data],
        cr0: 0x8001_0011,
        cr2: 0xBAD0_0000,
        cr3: 0x1000,
        cr4: 0,
        gdt: Table {
            base: GDT,
            limit: ALL,
        },
        idt: Table {
            base: IDT,
            limit: 0x7FF,
        },
        task: Task {
            sel: 0x78,
            base: TASK,
            limit: 0x67,
            loaded: true,
        },
        halted: false,
        held: false,
    }
}

fn put_all(ram: &mut Ram, words: &Words) {
    for (at, v) in words {
        put32(ram, *at, *v);
    }
}

/// Memory of 15 frames with the tables and these words.
pub fn memory(alloc: Global, words: &Words) -> Result<Ram, AllocError> {
    let mut ram = Ram::new(alloc, 15)?;
    put_tables(&mut ram);
    put_all(&mut ram, words);
    Ok(ram)
}

/// Nothing was read yet.
pub const UNREAD: Own = Own {
    front: 0,
    front_len: 0,
    back: 0,
    back_len: 0,
};

fn performed(cpu: &mut Cpu, ram: &mut Ram, what: &What) -> Answer {
    let kept = Cached {
        cache: Buffer::new(),
    };
    let text: Option<Text> = None;
    let guard = Guard {
        text: &text,
        own: UNREAD,
    };
    let frames = ram.len() / 4096;
    let mut state = first_state(&text);
    begin_again(cpu, ram, &kept, frames, guard, &mut state);
    performed_over(cpu, ram, &kept, &mut state, what)
}

fn performed_over<B: Translations>(
    cpu: &mut Cpu,
    ram: &mut Ram,
    kept: &B,
    state: &mut StepState,
    what: &What,
) -> Answer
    requires sound { IsSoundOver B.Translations kept.now ram.old state.old }
    requires pages { state.old.pages ≡ 0 }
{
    performed_in(cpu, &mut Memory { ram, kept, state }, what)
}

/// What comes of it in a memory of which nothing was used yet.
fn performed_in<M: GuestMem>(cpu: &mut Cpu, mem: &mut M, what: &What) -> Answer
    requires { (M.space mem.old).pages ≡ 0 }
{
    match what {
        What::Insn(bytes) => match decode(bytes) {
            Decoded::Insn(insn, len) => Answer::Asks(sys(&insn, len, cpu, mem)),
            _ => Answer::NotRead,
        },
        What::Event(kind, code) => Answer::Delivered(deliver(cpu, mem, 0x21, *kind, *code)),
        What::Back(kind) => match deliver(cpu, mem, 0x21, *kind, None) {
            Ok(()) => Answer::Asks(sys(&IRET, 1, cpu, mem)),
            refused => Answer::Delivered(refused),
        },
    }
}

/// Whether two memories have the same bytes.
fn same(a: &Ram, b: &Ram) -> bool {
    let n = a.len();
    n == b.len() && a.part(0, n) == b.part(0, n)
}

/// Does what a row says.
fn run(alloc: Global, case: &Case) -> Result<Seen, AllocError> {
    let mut ram = memory(alloc, &case.before)?;
    let mut cpu = case.cpu;
    let answer = performed(&mut cpu, &mut ram, &case.what);
    if answer != case.answer {
        return Ok(Seen::Answer(answer));
    }
    if cpu != case.then {
        return Ok(Seen::Processor);
    }
    let mut want = memory(alloc, &case.before)?;
    put_all(&mut want, &case.after);
    if !same(&ram, &want) {
        return Ok(Seen::Memory);
    }
    Ok(Seen::Right)
}

/// A case comes out as it says. `row` names it where it doesn't.
pub fn comes_out(rt: &impl Abort, alloc: Global, row: usize, case: &Case) {
    let seen = run(alloc, case).expect(rt, "memory");
    assert!(rt; seen == Seen::Right, "row {row}");
}

/// An instruction that raises or stops: the processor and memory stay.
pub fn refused(cpu: Cpu, before: Words, bytes: [u8; 8], effect: SysEffect) -> Case {
    Case {
        cpu,
        before,
        what: What::Insn(bytes),
        answer: Answer::Asks(effect),
        then: cpu,
        after: NONE,
    }
}

/// The processor after an instruction of so many bytes.
pub fn past(cpu: Cpu, len: u32) -> Cpu {
    let mut then = cpu;
    then.regs.eip = cpu.regs.eip.wrapping_add(len);
    then
}

/// With another value in a general register.
pub fn with(cpu: Cpu, k: usize, v: u32) -> Cpu {
    let mut then = cpu;
    if k < 8 {
        then.regs.r[k] = v;
    }
    then
}

/// With another value in the flags.
pub fn with_flags(cpu: Cpu, bits: u32) -> Cpu {
    let mut then = cpu;
    then.regs.flags.bits = bits;
    then
}

/// With another segment register, in the order ES, CS, SS, DS.
pub fn with_segment(cpu: Cpu, place: usize, hidden: Hidden) -> Cpu {
    let mut then = cpu;
    if place < 4 {
        then.seg[place] = hidden;
    }
    then
}

/// With another limit of the global table.
pub fn with_limit(cpu: Cpu, limit: u16) -> Cpu {
    let mut then = cpu;
    then.gdt.limit = limit;
    then
}

/// With CR2 after a page fault.
pub fn with_cr2(cpu: Cpu, at: u32) -> Cpu {
    let mut then = cpu;
    then.cr2 = at;
    then
}

/// The upper word of a flat descriptor with this byte 5, at its place.
pub fn accessed(sel: u16, byte: u8) -> (u32, u32) {
    (
        GDT + u32::from(sel) / 8 * 8 + 4,
        0x00CF_0000 | u32::from(byte) << 8,
    )
}
