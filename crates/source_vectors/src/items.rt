//! The items of sources, written out: a number is a value without a name, `a+4` one with it, and in
//! parentheses stand base, index and scale. In both a newline is written `~`.

use crate::gcc::FROM_GCC;
use crate::rest::{Rest, sides, told, unmarked};
use asm_parse::{Arguments, Body, Form, Name, SourceItem, Value, parse};
use std::alloc::Global;
use std::process::Abort;

impl<'a> Rest<'a> {
    fn take_number(&mut self, alloc: Global, number: i64) {
        self.take_text(format!(in alloc; "{number}"));
    }

    fn take_value(&mut self, alloc: Global, value: &Value) {
        if let Some(name) = &value.name {
            self.take(&name.bytes);
            self.take(b"+");
        }
        self.take_number(alloc, value.number);
    }

    fn take_name(&mut self, name: &Option<Name>) {
        if let Some(name) = name {
            self.take(&name.bytes);
        }
    }

    /// The parts with these marks before, between and after them.
    fn take_form(&mut self, alloc: Global, form: &Form) {
        match form {
            Form::Absent => self.take(b"_"),
            Form::Register(name) => {
                self.take(b"%");
                self.take(&name.bytes);
            }
            Form::Immediate(value) => {
                self.take(b"$");
                self.take_value(alloc, value);
            }
            Form::Memory {
                value,
                base,
                index,
                scale,
            } => {
                if let Some(value) = value {
                    self.take_value(alloc, value);
                }
                self.take(b"(");
                self.take_name(base);
                self.take(b",");
                self.take_name(index);
                self.take(b",");
                self.take_number(alloc, i64::from(*scale));
                self.take(b")");
            }
            Form::Text(text) => {
                self.take(b"\"");
                self.take(&text.bytes);
                self.take(b"\"");
            }
        }
    }

    fn take_arguments(&mut self, alloc: Global, arguments: &Arguments) {
        for argument in arguments.list.iter() {
            self.take(b" ");
            if argument.star {
                self.take(b"*");
            }
            self.take_form(alloc, &argument.form);
        }
    }

    fn take_body(&mut self, alloc: Global, body: &Body) {
        match body {
            Body::Label(name) => {
                self.take(&name.bytes);
                self.take(b":");
            }
            Body::Directive { name, arguments } => {
                self.take(&name.bytes);
                self.take_arguments(alloc, arguments);
            }
            Body::Instruction {
                rep,
                name,
                arguments,
            } => {
                if *rep {
                    self.take(b"rep ");
                }
                self.take(&name.bytes);
                self.take_arguments(alloc, arguments);
            }
        }
    }

    /// Each item with its line and a `;` after it.
    fn take_items(&mut self, alloc: Global, items: &[SourceItem]) {
        for item in items {
            self.take_number(alloc, i64::from(item.line));
            self.take(b" ");
            self.take_body(alloc, &item.body);
            self.take(b";");
        }
    }
}

fn reads_as(alloc: Global, text: &[u8], items: &[u8]) -> bool {
    let mut rest = Rest::new(items);
    match parse(alloc, text) {
        Ok(source) => rest.take_items(alloc, &source.items),
        Err(_) => return false,
    }
    rest.is_done()
}

const ITEMS_OF_GCC: &str = "2 .text;3 .p2align 4(,,1);4 .globl _start+0(,,1);6 _start:;7 .LFB0:;\
9 movl $1 %eax;10 jmp *.L4+0(,eax,4);11 .section \".rodata\";12 .align 4(,,1);13 .L4:;\
14 .long .L2+0(,,1);15 .long .L3+0(,,1);16 .text;17 .p2align 4(,,1) _ 10(,,1);18 .p2align 3(,,1);\
19 .L3:;20 movl $33 %eax;21 outb %al $128;22 .L2:;23 hlt;27 .section \".note.GNU-stack\";";

/// Sources, and their items.
const ITEMS: &str = "\
-- directives
.text~.data~.bss => 1 .text;2 .data;3 .bss;
.section .rodata.str1.1,\"aMS\",@progbits,1 => 1 .section \".rodata.str1.1\";
.section .debug-x~nop~a: nop~.text~nop => 1 .section \".debug-x\";4 .text;5 nop;
.globl a; .global b; .local c => 1 .globl a+0(,,1);1 .global b+0(,,1);1 .local c+0(,,1);
.byte 1,-1,'a,0x1f,017 => 1 .byte 1(,,1) -1(,,1) 97(,,1) 31(,,1) 15(,,1);
.short 1; .word 2~.value 3 => 1 .short 1(,,1);1 .word 2(,,1);2 .value 3(,,1);
.long a+4,b-8,c,-5 => 1 .long a+4(,,1) b+-8(,,1) c+0(,,1) -5(,,1);
.int a--2,4294967295 => 1 .int a+2(,,1) 4294967295(,,1);
.long -2147483648,-0 => 1 .long -2147483648(,,1) 0(,,1);
.ascii \"a\\n\",\"\\101\"; .asciz \"\" => 1 .ascii \"a~\" \"A\";1 .asciz \"\";
.string \"c\" => 1 .string \"c\";
.zero 4; .skip 8; .space -0 => 1 .zero 4(,,1);1 .skip 8(,,1);1 .space 0(,,1);
.p2align 4 => 1 .p2align 4(,,1);
.p2align 4, => 1 .p2align 4(,,1) _;
.p2align 4,,10 => 1 .p2align 4(,,1) _ 10(,,1);
.p2align 12,-1,0 => 1 .p2align 12(,,1) -1(,,1) 0(,,1);
.align 4096; .balign 1 => 1 .align 4096(,,1);1 .balign 1(,,1);
.comm a,4 => 1 .comm a+0(,,1) 4(,,1);
.comm b,4,16 => 1 .comm b+0(,,1) 4(,,1) 16(,,1);
.lcomm c,8 => 1 .lcomm c+0(,,1) 8(,,1);
.file \"k\"; .type a,@function; .size a,.-a; .ident \"x\" =>
.code32; .loc 1 2; .cfi_startproc~.cfi_def_cfa_offset 8 =>
a: b:~.L1: nop => 1 a:;1 b:;2 .L1:;2 nop;
a /* x~ y */ : # z~~;b: => 1 a:;4 b:;
.note: nop; .: nop => 1 .note:;1 nop;1 .:;1 nop;
-- operands
hlt => 1 hlt;
push %eax => 1 push %eax;
mov %cr0,%eax => 1 mov %cr0 %eax;
push $4 => 1 push $4;
push $-4 => 1 push $-4;
push $a => 1 push $a+0;
push $a-3 => 1 push $a+-3;
push 4 => 1 push 4(,,1);
push a => 1 push a+0(,,1);
call foo+4 => 1 call foo+4(,,1);
push (%eax) => 1 push (eax,,1);
push -4(%ebp) => 1 push -4(ebp,,1);
push a+4(%ebp) => 1 push a+4(ebp,,1);
push (%eax,%ebx) => 1 push (eax,ebx,1);
push 8(%eax,%ebx,4) => 1 push 8(eax,ebx,4);
push (,%eax,2) => 1 push (,eax,2);
push a(,%eax) => 1 push a+0(,eax,1);
jmp *%eax => 1 jmp *%eax;
jmp *.L4(,%eax,4) => 1 jmp *.L4+0(,eax,4);
rep movsl; ljmp $8,$a+1 => 1 rep movsl;1 ljmp $8 $a+1;
in (%dx),%al => 1 in (dx,,1) %al;
push a--5(%eax,%ebx,8) => 1 push a+5(eax,ebx,8);
push -0x80000000(,%eax) => 1 push -2147483648(,eax,1);
push 037777777777 => 1 push 4294967295(,,1);
-- strings, and names of sections
.ascii \"a\\n\\\"b\\101\\11c\\7\" => 1 .ascii \"a~\"bA\tc\u{7}\";
.string \"\\t\\r\\b\\f\\\\\\'\" => 1 .string \"\t\r\u{8}\u{c}\\'\";
.section .note.GNU-stack,\"\",@progbits => 1 .section \".note.GNU-stack\";
.section .text-1 => 1 .section \".text-1\";
.section .text.a--2 , 5 => 1 .section \".text.a--2\";
.section .data.a+b:c(~ => 1 .section \".data.a+b:c(\";
.section .bss-99999999999;nop => 1 .section \".bss-99999999999\";1 nop;
.section .rodata\"a\"'b$%# c => 1 .section \".rodata\"a\"'b$%\";
.section .debug/**/,- => 1 .section \".debug\";
";

fn has_its_items(rt: &impl Abort, alloc: Global, row: &str) {
    let (text, items) = sides(row);
    let text = unmarked(rt, alloc, text);
    let items = unmarked(rt, alloc, items);
    told(rt, row, reads_as(alloc, &text, &items));
}

#[test]
fn sources_have_their_items(rt: HostRuntime) {
    for row in ITEMS.lines() {
        if !row.starts_with("-- ") {
            has_its_items(&rt, rt.alloc(), row);
        }
    }
    assert!(rt; reads_as(rt.alloc(), FROM_GCC.as_bytes(), ITEMS_OF_GCC.as_bytes()));
}
