//! A kernel that is interrupted.

/// Unmasks the timer's line, lets the timer interrupt NOPs, shows where it did, and halts.
pub const IS_INTERRUPTED: &str = "\
.data
idt_register:
.word 0x7ff
.long idt
.bss
.p2align 3
idt:
.zero 2048
.text
.globl _start
_start:
movl $on_timer,%eax
movl %eax,idt+0x100
movw $0x08,idt+0x102
movl %eax,idt+0x104
movw $0x8e00,idt+0x104
lidt idt_register
movb $0x11,%al
outb %al,$0x20
movb $0x20,%al
outb %al,$0x21
movb $4,%al
outb %al,$0x21
movb $1,%al
outb %al,$0x21
movb $0xfe,%al
outb %al,$0x21
movl $0x40,%edx
movb $0x34,%al
outb %al,$0x43
movb $2,%al
outb %al,%dx
sti
movb $0,%al
outb %al,%dx
nop
nop
nop
nop
nop
nop
nop
nop
pushf
movb $0x55,%al
outb %al,$0x80
rest:
jmp rest
on_timer:
popl %eax
outl %eax,$0x80
pushl %eax
iret
";
