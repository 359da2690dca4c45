//! Which bytes each family of instructions reads and writes, and through which segment. Intel SDM volume 2, the
//! operation of each instruction, and volume 1, the chapters of procedure calls and of string operations.

use crate::spelled::{Spelled, bytes};
use ia32_decode::{Decoded, decode};
use ia32_exec::{Range, Ranges, ranges};
use ia32_types::{Flags, Regs, Seg};
use std::process::Abort;

const REGS: Regs = Regs {
    r: [
        0x0100_0000,
        3,
        0x0200_0000,
        0x0300_0000,
        0x0400_0000,
        0x0500_0000,
        0x0600_0000,
        0x0700_0000,
    ],
    eip: 0x1000,
    flags: Flags { bits: 2 },
};

/// By EBX: bytes of data.
const DATA_1: Option<Range> = Some(Range {
    at: 0x0300_0010,
    len: 1,
    seg: Seg::Ds,
});

const DATA_2: Option<Range> = Some(Range {
    at: 0x0300_0010,
    len: 2,
    seg: Seg::Ds,
});

const DATA_4: Option<Range> = Some(Range {
    at: 0x0300_0010,
    len: 4,
    seg: Seg::Ds,
});

/// By EBP: bytes of the stack.
const LOCAL_4: Option<Range> = Some(Range {
    at: 0x0500_000c,
    len: 4,
    seg: Seg::Ss,
});

/// The number on top of the stack, and the place of the next.
const TOP: Option<Range> = Some(Range {
    at: 0x0400_0000,
    len: 4,
    seg: Seg::Ss,
});

const BELOW: Option<Range> = Some(Range {
    at: 0x03ff_fffc,
    len: 4,
    seg: Seg::Ss,
});

/// 8 bytes above ESP, before a pop has raised it and after.
const ABOVE: Option<Range> = Some(Range {
    at: 0x0400_0008,
    len: 4,
    seg: Seg::Ss,
});

const HIGHER: Option<Range> = Some(Range {
    at: 0x0400_000c,
    len: 4,
    seg: Seg::Ss,
});

/// Eight registers on the stack.
const EIGHT: Option<Range> = Some(Range {
    at: 0x0400_0000,
    len: 32,
    seg: Seg::Ss,
});

const EIGHT_BELOW: Option<Range> = Some(Range {
    at: 0x03ff_ffe0,
    len: 32,
    seg: Seg::Ss,
});

/// What EBP points to.
const FRAME: Option<Range> = Some(Range {
    at: 0x0500_0000,
    len: 4,
    seg: Seg::Ss,
});

/// By ESI and EDI.
const SOURCE_1: Option<Range> = Some(Range {
    at: 0x0600_0000,
    len: 1,
    seg: Seg::Ds,
});

const SOURCE_4: Option<Range> = Some(Range {
    at: 0x0600_0000,
    len: 4,
    seg: Seg::Ds,
});

const TARGET_1: Option<Range> = Some(Range {
    at: 0x0700_0000,
    len: 1,
    seg: Seg::Es,
});

const TARGET_4: Option<Range> = Some(Range {
    at: 0x0700_0000,
    len: 4,
    seg: Seg::Es,
});

/// The bytes of an instruction; what it reads, and what it writes or reads and writes.
struct Row {
    bytes: Spelled,
    read: Option<Range>,
    write: Option<Range>,
}

// How GNU as writes the instruction is for the reader.
macro_rules! row {
    ($text:literal, [$($byte:literal),*], $read:expr, $write:expr) => {
        Row { bytes: bytes!($($byte),*), read: $read, write: $write }
    };
}

static DATA: [Row; 26] = [
    row!("addl %eax,0x10(%ebx)", [0x01, 0x43, 0x10], None, DATA_4),
    row!("subb %al,0x10(%ebx)", [0x28, 0x43, 0x10], None, DATA_1),
    row!(
        "xorl (%ebp,%ecx,4),%eax",
        [0x33, 0x44, 0x8d, 0x00],
        LOCAL_4,
        None
    ),
    row!(
        "andl $1,(%ebp,%ecx,4)",
        [0x83, 0x64, 0x8d, 0x00, 0x01],
        None,
        LOCAL_4
    ),
    row!("addl %ecx,%eax", [0x01, 0xc8], None, None),
    row!(
        "incl (%ebp,%ecx,4)",
        [0xff, 0x44, 0x8d, 0x00],
        None,
        LOCAL_4
    ),
    row!("notb 0x10(%ebx)", [0xf6, 0x53, 0x10], None, DATA_1),
    row!("cmpl %eax,0x10(%ebx)", [0x39, 0x43, 0x10], DATA_4, None),
    row!("cmpb 0x10(%ebx),%al", [0x3a, 0x43, 0x10], DATA_1, None),
    row!(
        "testl %eax,(%ebp,%ecx,4)",
        [0x85, 0x44, 0x8d, 0x00],
        LOCAL_4,
        None
    ),
    row!("shll %cl,0x10(%ebx)", [0xd3, 0x63, 0x10], None, DATA_4),
    row!("rorb $2,0x10(%ebx)", [0xc0, 0x4b, 0x10, 0x02], None, DATA_1),
    row!("mulb 0x10(%ebx)", [0xf6, 0x63, 0x10], DATA_1, None),
    row!(
        "idivl (%ebp,%ecx,4)",
        [0xf7, 0x7c, 0x8d, 0x00],
        LOCAL_4,
        None
    ),
    row!(
        "imull 0x10(%ebx),%eax",
        [0x0f, 0xaf, 0x43, 0x10],
        DATA_4,
        None
    ),
    row!(
        "imull $3,0x10(%ebx),%eax",
        [0x6b, 0x43, 0x10, 0x03],
        DATA_4,
        None
    ),
    row!("movb %al,0x10(%ebx)", [0x88, 0x43, 0x10], None, DATA_1),
    row!(
        "movl (%ebp,%ecx,4),%eax",
        [0x8b, 0x44, 0x8d, 0x00],
        LOCAL_4,
        None
    ),
    row!(
        "movl $1,0x10(%ebx)",
        [0xc7, 0x43, 0x10, 0x01, 0x00, 0x00, 0x00],
        None,
        DATA_4
    ),
    row!(
        "movzbl 0x10(%ebx),%eax",
        [0x0f, 0xb6, 0x43, 0x10],
        DATA_1,
        None
    ),
    row!(
        "movswl 0x10(%ebx),%eax",
        [0x0f, 0xbf, 0x43, 0x10],
        DATA_2,
        None
    ),
    row!("leal 0x10(%ebx),%eax", [0x8d, 0x43, 0x10], None, None),
    row!("xchgl %eax,0x10(%ebx)", [0x87, 0x43, 0x10], None, DATA_4),
    row!("sete 0x10(%ebx)", [0x0f, 0x94, 0x43, 0x10], None, DATA_1),
    row!("movw %ss,0x10(%ebx)", [0x8c, 0x53, 0x10], None, DATA_2),
    row!("cltd", [0x99], None, None),
];

static STACK: [Row; 21] = [
    row!("pushl %eax", [0x50], None, BELOW),
    row!("pushl $1", [0x6a, 0x01], None, BELOW),
    row!("pushl 0x10(%ebx)", [0xff, 0x73, 0x10], DATA_4, BELOW),
    row!("pushl 8(%esp)", [0xff, 0x74, 0x24, 0x08], ABOVE, BELOW),
    row!("popl %eax", [0x58], TOP, None),
    row!("popl 0x10(%ebx)", [0x8f, 0x43, 0x10], TOP, DATA_4),
    row!("popl 8(%esp)", [0x8f, 0x44, 0x24, 0x08], TOP, HIGHER),
    row!("pushal", [0x60], None, EIGHT_BELOW),
    row!("popal", [0x61], EIGHT, None),
    row!("leave", [0xc9], FRAME, None),
    row!("pushfl", [0x9c], None, BELOW),
    row!("popfl", [0x9d], TOP, None),
    row!("pushl %ds", [0x1e], None, BELOW),
    row!("call", [0xe8, 0x00, 0x00, 0x00, 0x00], None, BELOW),
    row!("call *%eax", [0xff, 0xd0], None, BELOW),
    row!(
        "call *(%ebp,%ecx,4)",
        [0xff, 0x54, 0x8d, 0x00],
        LOCAL_4,
        BELOW
    ),
    row!("ret", [0xc3], TOP, None),
    row!("ret $8", [0xc2, 0x08, 0x00], TOP, None),
    row!("jmp", [0xe9, 0x00, 0x00, 0x00, 0x00], None, None),
    row!("jmp *0x10(%ebx)", [0xff, 0x63, 0x10], DATA_4, None),
    row!("jne", [0x0f, 0x85, 0x00, 0x00, 0x00, 0x00], None, None),
];

static STRINGS: [Row; 8] = [
    row!("movsl", [0xa5], SOURCE_4, TARGET_4),
    row!("movsb", [0xa4], SOURCE_1, TARGET_1),
    row!("rep movsb", [0xf3, 0xa4], SOURCE_1, TARGET_1),
    row!("stosl", [0xab], None, TARGET_4),
    row!("stosb", [0xaa], None, TARGET_1),
    row!("rep stosl", [0xf3, 0xab], None, TARGET_4),
    row!("lodsl", [0xad], SOURCE_4, None),
    row!("rep lodsb", [0xf3, 0xac], SOURCE_1, None),
];

/// What concerns flags alone; and system instructions, for which registers give no access, not even of an
/// operand or the stack (profile).
static NOTHING: [Row; 18] = [
    row!("clc", [0xf8], None, None),
    row!("stc", [0xf9], None, None),
    row!("cld", [0xfc], None, None),
    row!("std", [0xfd], None, None),
    row!("cli", [0xfa], None, None),
    row!("sti", [0xfb], None, None),
    row!("hlt", [0xf4], None, None),
    row!("popl %ds", [0x1f], None, None),
    row!("iret", [0xcf], None, None),
    row!("inb %dx,%al", [0xec], None, None),
    row!("outb %al,$0x20", [0xe6, 0x20], None, None),
    row!("lgdt (%ebx)", [0x0f, 0x01, 0x13], None, None),
    row!("lidt (%ebx)", [0x0f, 0x01, 0x1b], None, None),
    row!("ltr (%ebx)", [0x0f, 0x00, 0x1b], None, None),
    row!("invlpg (%ebx)", [0x0f, 0x01, 0x3b], None, None),
    row!("movl (%ebx),%ds", [0x8e, 0x1b], None, None),
    row!("movl %cr0,%eax", [0x0f, 0x20, 0xc0], None, None),
    row!("movl %eax,%cr3", [0x0f, 0x22, 0xd8], None, None),
];

fn accesses(bytes: &[u8], regs: &Regs) -> Option<Ranges> {
    match decode(bytes) {
        Decoded::Insn(insn, _) => Some(ranges(&insn, regs)),
        _ => None,
    }
}

fn are_accessed(row: &Row) -> bool {
    match accesses(row.bytes.as_slice(), &REGS) {
        Some(found) => found.read == row.read && found.write == row.write,
        None => false,
    }
}

fn all_are_accessed(rt: &impl Abort, rows: &[Row]) {
    for (k, row) in rows.iter().enumerate() {
        assert!(rt; are_accessed(row), "row {k}");
    }
}

#[test]
fn operands_are_accessed(rt: HostRuntime) {
    all_are_accessed(&rt, &DATA);
}

#[test]
fn the_stack_is_accessed(rt: HostRuntime) {
    all_are_accessed(&rt, &STACK);
}

#[test]
fn strings_are_accessed(rt: HostRuntime) {
    all_are_accessed(&rt, &STRINGS);
}

#[test]
fn flags_and_the_system_access_nothing(rt: HostRuntime) {
    all_are_accessed(&rt, &NOTHING);
}

fn accesses_nothing(bytes: &[u8], regs: &Regs) -> bool {
    match accesses(bytes, regs) {
        Some(found) => found.read.is_none() && found.write.is_none(),
        None => false,
    }
}

/// A string instruction that repeats does nothing more where ECX is 0.
#[test]
fn repeated_strings_that_are_over_access_nothing(rt: HostRuntime) {
    let mut over = REGS;
    over.r[1] = 0;
    assert!(rt; accesses_nothing(&[0xf3, 0xa4], &over));
    assert!(rt; accesses_nothing(&[0xf3, 0xab], &over));
    assert!(rt; accesses_nothing(&[0xf3, 0xac], &over));
}
