//! Which sources are read, by the number of their items, and the faults of the others. A newline is written `~`.

use crate::rest::{add, holds, is_fault, put_times, sides, told, unmarked};
use asm_lex::SourceFault;
use asm_parse::parse;
use std::alloc::Global;
use std::process::Abort;

/// Whether a source is refused at this line, by this number.
fn is_refused(alloc: Global, text: &[u8], line: u32, number: u8) -> bool {
    match parse(alloc, text) {
        Err(SourceFault::At { line: at, cause }) => at == line && cause.number() == number,
        _ => false,
    }
}

/// Whether a source has so many items.
pub fn has_items(alloc: Global, text: &[u8], count: usize) -> bool {
    match parse(alloc, text) {
        Ok(source) => source.items.len() == count,
        Err(_) => false,
    }
}

/// Sources, and the number of their items.
const READ: &str = "\
.text~.data~.bss~ => 3
.section .rodata.str1.1,\"aMS\",@progbits,1~ => 1
.globl a; .global b; .local c => 3
.byte 1,-1,'a,0x1f,017 => 1
.short 1; .word 2; .value 3 => 3
.long a+4,b-8,c,-5; .int a => 2
.ascii \"a\",\"b\"; .asciz \"\"; .string \"c\" => 3
.zero 4; .skip 4; .space -0 => 3
.p2align 4~.p2align 4,~.p2align 4,,10~.p2align 4,144,10~.p2align 12,-1 => 5
.align 4096; .balign 1 => 2
.comm a,4; .comm b,4,16; .lcomm c,8 => 3
.file \"k\"; .type a,@function; .size a,.-a; .ident \"x\" => 0
.code32; .loc 1 2; .cfi_startproc => 0
.section .note~foo: .data~a: => 3
.section .note,\"\"~ 5 5 ( %zz~.text~nop => 3
_start: cli; hlt => 3
rep movsl; ljmp $8,$a+1; in (%dx),%al => 3
push %eax; push $a; push $-1; push a; push 4 => 5
push 4(%eax); push (%eax); push a-4(%eax,%ebx,8) => 3
push (,%eax,2); push (%eax,%ebx); push a(,%eax) => 3
jmp *%eax; call *4(%eax); call a+4; ret; ret $4 => 5
a b /* c~ */ # d~ e : f => 3
";

fn is_read(rt: &impl Abort, alloc: Global, row: &str) {
    let (text, count) = sides(row);
    let text = unmarked(rt, alloc, text);
    let count = count.parse().expect(rt, "a number of items");
    told(rt, row, has_items(alloc, &text, count));
}

#[test]
fn each_directive_is_read(rt: HostRuntime) {
    for row in READ.lines() {
        is_read(&rt, rt.alloc(), row);
    }
}

/// Sources, and the line and the number of their fault.
const FAULTS: &str = "\
nop~\u{1} => 2 1
nop \u{e9} => 1 1
nop~ ! => 2 2
nop~/* a~ => 2 3
nop~.ascii \"a => 2 4
.ascii \"a\\~\" => 1 4
.ascii \"\\q\" => 1 5
\"a\\q => 1 5
push 08 => 1 6
.long 4294967296 => 1 6
.long -2147483649 => 1 6
.long 0X1F => 1 6
.text 99999999999 => 1 6
push %zz => 1 7
.byte %zz => 1 7
%zz => 1 7
push %eax % => 1 7
push %\u{1} => 1 7
.byte %/*~*/ 1 => 1 7
.byte %/*~ => 1 7
%eax => 1 8
.byte + => 1 8
.byte 1 2 => 1 8
.byte /*~*/ 5( => 2 8
.globl a+1 => 1 8
rep; movsl => 1 8
.section .data foo => 1 8
.section .note.GNU -stack => 1 8
.section .note.GNU- stack => 1 8
.section .note.GNU/**/-stack => 1 8
.section .text\"a b\" => 1 8
.section .text 99999999999 => 1 6
push 4(,%eax,3) => 1 9
~~.foo 1 => 3 10
.foo /*~*/ x => 2 10
.foo:~.foo /*~*/ x => 2 10
.foo \u{1} => 1 10
.zero -1 => 1 11
.byte => 1 11
.byte 1,,2 => 1 11
.byte foo => 1 11
.byte %eax => 1 11
.byte %/*~*/ eax => 1 11
.text 1 => 1 11
.align 3 => 1 11
.p2align 13 => 1 11
.p2align 4,5, => 1 11
.p2align 4,5,-1 => 1 11
.section .init => 1 11
.section \".text\" => 1 11
.comm a => 1 11
.comm a,4,3 => 1 11
a:~a: b => 2 12
a:~~.comm a,4 => 3 12
.comm a,4~.lcomm a,4 => 2 12
";

/// Whether a source is refused as it is listed.
fn has_fault(alloc: Global, text: &[u8], listed: &str) -> bool {
    match parse(alloc, text) {
        Err(SourceFault::At { line, cause }) => is_fault(alloc, listed, line, cause.number()),
        _ => false,
    }
}

fn has_its_fault(rt: &impl Abort, alloc: Global, row: &str) {
    let (text, listed) = sides(row);
    let text = unmarked(rt, alloc, text);
    told(rt, row, has_fault(alloc, &text, listed));
}

#[test]
fn faults_have_their_lines_and_causes(rt: HostRuntime) {
    for row in FAULTS.lines() {
        has_its_fault(&rt, rt.alloc(), row);
    }
}

#[test]
fn longest_source_is_read(rt: HostRuntime) {
    let alloc = rt.alloc();
    let mut text = Vec::new(alloc);
    put_times(&rt, &mut text, b"\n", 4_194_304);
    assert!(rt; has_items(alloc, &text, 0));
    add(&rt, &mut text, b"\n");
    assert!(rt; is_refused(alloc, &text, 1, 13));
}

/// A label for each number below this, each in a line, and what follows the last.
fn labels(rt: &impl Abort, alloc: Global, count: u32, end: &str) -> Vec<u8> {
    let mut text = Vec::new(alloc);
    for i in 0..count {
        let line = format!(in alloc; "x{i}:\n").expect(rt, "memory");
        add(rt, &mut text, line.as_bytes());
    }
    add(rt, &mut text, end.as_bytes());
    text
}

/// How many labels, what follows the last, and the line and the number of the fault.
type Full = (u32, &'static str, u32, u8);

static NO_NAME_IS_LEFT: [Full; 4] = [
    (65537, "", 65537, 14),
    (65536, ".comm /*\n*/ y,4", 65537, 14),
    (65536, ".lcomm /*\n*/ %zz", 65537, 7),
    (65536, ".globl /*\n*/ y", 65538, 14),
];

fn is_full(rt: &impl Abort, alloc: Global, row: &Full) -> bool {
    let (count, end, line, number) = *row;
    let text = labels(rt, alloc, count, end);
    is_refused(alloc, &text, line, number)
}

#[test]
fn symbols_are_limited(rt: HostRuntime) {
    let text = labels(&rt, rt.alloc(), 65536, "");
    assert!(rt; has_items(rt.alloc(), &text, 65536));
    for (k, row) in NO_NAME_IS_LEFT.iter().enumerate() {
        holds(&rt, k, is_full(&rt, rt.alloc(), row));
    }
}
