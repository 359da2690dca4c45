//! What sources are burnt to. A newline is written `~`.

use crate::gcc::FROM_GCC;
use crate::rest::{Rest, holds, put_times, sides, told, unmarked};
use afterburner::{BurnFault, burn};
use asm_parse::parse;
use elf_form::{Object, Place, Reloc, Symbol};
use std::alloc::Global;
use std::process::Abort;

/// Sources, and what is made of them.
const BURNT: &str = "\
-- sensitive instructions are padded
_start: movl $0x3f8,%edx; movb $0x48,%al; outb %al,%dx; hlt => text ba f8 03 00 00 b0 48 ee 90 90 90 90 f4 90 90 90 90 sites 2
_start: cli; .p2align 4; hlt => text fa 90 90 90 90 90 90 90 90 90 90 90 90 90 90 90 f4 90 90 90 90 sites 2
 => text sites 0
cli => text fa 90 90 90 90 sites 1
lidt 0x11000010 => text 0f 01 1d 10 00 00 11 sites 1
call *%eax => text ff d0 90 90 90 sites 1
call *%eax => sites 50 56 53 31 01 00 00 00 00 00 00 00 17 02 05 00
sti; hlt => text fb f4 90 90 90 sites 1
sti; .file \"a\"; hlt => text fb f4 90 90 90 sites 1
sti; a: hlt => text fb 90 90 90 90 f4 90 90 90 90 sites 2
sti; .text; hlt; hlt => text fb 90 90 90 90 f4 90 90 90 90 f4 90 90 90 90 sites 3
-- each directive makes its data
.data; .byte 1,-1,'a,255,-128 => data 01 ff 61 ff 80 bss 0
.data; .short 1; .word -2; .value 0x1234 => data 01 00 fe ff 34 12 bss 0
.data; .long -1, a+4; .int 0x12345678 => data ff ff ff ff 04 00 00 00 78 56 34 12 bss 0
.data; .ascii \"a\",\"b\"; .asciz \"c\"; .string \"\" => data 61 62 63 00 00 bss 0
.section .rodata.str1.1,\"aMS\",@progbits,1; .zero 2; .byte 7; .skip 1; .space 1 => data 00 00 07 00 00 bss 0
.data; .byte 1; .align 4; .byte 2 => data 01 00 00 00 02 bss 0
.data; .byte 1; .balign 2; .byte 2 => data 01 00 02 bss 0
.data; .byte 1; .p2align 2; .byte 2 => data 01 00 00 00 02 bss 0
.data; .byte 1; .p2align 2,,2; .byte 2 => data 01 02 bss 0
.data; .byte 1; .p2align 2,,3; .byte 2 => data 01 00 00 00 02 bss 0
.bss; .zero 3; .p2align 3; a: .skip 8; .space 1 => data bss 17
.comm a,4; .comm b,4,16; .lcomm c,8 => data bss 28
.data; .byte 1; .bss; .p2align 12; pg: .zero 4096; .text; movl $pg,%eax => data 01 bss 4096
.section .bss.x; .zero 1; .section .data.y; .byte 1 => data 01 bss 1
.data; .section .note; .byte 9; .data; .byte 1 => data 01 bss 0
-- refusals
nop~nope => line 2 20
nop~~rdtsc => line 3 21
addl $1,%al => line 1 22
addb $256,%al => line 1 23
.data; .byte 256 => line 1 23
.data; .byte -129 => line 1 23
.data; .short 65536 => line 1 23
.data; .long a-4294967295 => line 1 23
.byte 256 => line 1 23
.zero 4194304; nop => line 1 26
.data; .zero 33554432; nop => line 1 26
.data; .zero 33554432~.byte 1 => line 2 25
.data~.zero 4294967295 => line 2 25
.bss; .zero 33554433 => line 1 25
.comm a,33554433 => line 1 25
.data; cli => line 1 26
.data; rdtsc => line 1 21
.byte 1 => line 1 26
.bss~.byte 1 => line 2 26
.bss; .ascii \"\" => line 1 26
-- names reach as far as directives say
.comm a,4; .local b; .comm b,4; .lcomm c,4; .globl c; .global d; .local d; e: call f-1; .data; d: .long e, f; g: => symbols \
    b bss 4;e text 0;g data 8;a bss 0 global;c bss 8 global;d data 0 global;f none 0 global; relocs text 1 6 relative;data 0 1;data 4 6;
-- symbols stand in the order in which they are seen
movl $a+4,b-8 => symbols a none 0 global;b none 0 global; relocs text 2 1;text 6 0;
-- the first worked source
_start:~movl $0x3f8,%edx~movb $0x48,%al~outb %al,%dx~hlt => sites 50 56 53 31 02 00 00 00 07 00 00 00 14 01 05 00 0c 00 00 00 04 01 05 00
-- a relocation by a name stands over the number beside it
_start: pushl $2; pushl $2; pushl $2; pushl $2; pushl $bad+1; ret; bad: movl $0x9d9d9d9d,%eax => text \
    6a 02 6a 02 6a 02 6a 02 68 01 00 00 00 c3 90 90 90 90 b8 9d 9d 9d 9d sites 1
";

/// What is made of the source of GCC.
const MADE_OF_GCC: &str = "\
text b8 01 00 00 00 ff 24 85 00 00 00 00 90 90 90 90 b8 21 00 00 00 e6 80 90 90 90 f4 90 90 90 90 sites 3
data 00 00 00 00 00 00 00 00 bss 0
symbols .LFB0 text 0;.L4 data 0;.L2 text 26;.L3 text 16;_start text 0 global; relocs text 8 1;data 0 2;data 4 3;
";

fn place_of(symbol: &Symbol) -> &'static str {
    match symbol.place {
        Place::Undefined => "none",
        Place::Text => "text",
        Place::Init => "data",
        Place::Bss => "bss",
    }
}

fn take_symbols(rest: &mut Rest<'_>, alloc: Global, symbols: &[Symbol]) {
    for symbol in symbols {
        let (place, value) = (place_of(symbol), symbol.value);
        let global = if symbol.global { " global" } else { "" };
        rest.take(&symbol.name.list);
        rest.take_text(format!(in alloc; " {place} {value}{global};"));
    }
}

fn take_relocs(rest: &mut Rest<'_>, alloc: Global, relocs: &[Reloc]) {
    for reloc in relocs {
        let part = if reloc.in_text { "text" } else { "data" };
        let relative = if reloc.relative { " relative" } else { "" };
        rest.take_text(format!(in alloc; "{part} {} {}{relative};", reloc.at, reloc.symbol));
    }
}

/// The parts of an object that are listed come next.
fn take_object(rest: &mut Rest<'_>, alloc: Global, object: &Object, listed: &str) {
    if listed.starts_with("text") {
        rest.take(b"text");
        rest.take_bytes(&object.text);
        let sites = object.sites.len().wrapping_sub(8) / 8;
        rest.take_text(format!(in alloc; " sites {sites}"));
    } else if listed.starts_with("data") {
        rest.take(b"data");
        rest.take_bytes(&object.init);
        rest.take_text(format!(in alloc; " bss {}", object.bss));
    } else if listed.starts_with("sites") {
        rest.take(b"sites");
        rest.take_bytes(&object.sites);
    } else {
        rest.take(b"symbols ");
        take_symbols(rest, alloc, &object.symbols);
        rest.take(b" relocs ");
        take_relocs(rest, alloc, &object.relocs);
    }
}

/// Whether that is made of a source.
fn is_made(alloc: Global, source: &[u8], listed: &str) -> bool {
    let mut rest = Rest::new(listed.as_bytes());
    match parse(alloc, source) {
        Err(_) => return false,
        Ok(source) => match burn(alloc, &source) {
            Ok(object) => take_object(&mut rest, alloc, &object, listed),
            Err(BurnFault::At { line, cause }) => {
                rest.take_text(format!(in alloc; "line {line} {}", cause.number()));
            }
            Err(BurnFault::Memory) => return false,
        },
    }
    rest.is_done()
}

fn is_burnt(rt: &impl Abort, alloc: Global, row: &str) {
    let (text, listed) = sides(row);
    let text = unmarked(rt, alloc, text);
    told(rt, row, is_made(alloc, &text, listed));
}

#[test]
fn sources_are_burnt(rt: HostRuntime) {
    for row in BURNT.lines() {
        if !row.starts_with("-- ") {
            is_burnt(&rt, rt.alloc(), row);
        }
    }
    for listed in MADE_OF_GCC.lines() {
        told(
            &rt,
            listed,
            is_made(rt.alloc(), FROM_GCC.as_bytes(), listed),
        );
    }
}

/// The first line, how many pages of text follow, and what is made of them.
static LONG: [(&str, u32, &str); 3] = [
    ("", 4097, "line 4097 24"),
    (
        "cli\n",
        1024,
        "sites 50 56 53 31 01 00 00 00 00 00 00 00 01 01 05 00",
    ),
    (
        "cli\n",
        1025,
        "sites 50 56 53 32 01 00 00 00 00 00 00 01 01",
    ),
];

#[test]
fn long_texts_have_gaps_and_a_limit(rt: HostRuntime) {
    for (k, (first, pages, made)) in LONG.iter().enumerate() {
        let mut source = unmarked(&rt, rt.alloc(), first);
        put_times(&rt, &mut source, b"nop; .p2align 12\n", *pages);
        holds(&rt, k, is_made(rt.alloc(), &source, made));
    }
}
