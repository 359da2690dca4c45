//! Statements that are refused, and those at the limits.

use super::assembled;
use crate::rest::told;
use asm_instruction::Refusal;
use std::alloc::Global;
use std::process::Abort;

/// Names that are none of the table's.
const UNKNOWN: &str = "\
foo
stos
stosw
movsw
lods
cmpsb
scasl
pushfw
pushaw
popfw
ljmpl
lcall $8,$foo
lret
iretl
hltl
intl $5
int3l
nopl
invlpgl (%eax)
seteb %al
jel foo
jx foo
set %al
j foo
cwde
cdq
cltdl
movzx %al,%eax
movzbw %al,%ax
movsww %ax,%ax
ud2a
cbtw
b
l
rdtscl
sgdtl (%eax)
ADD %eax,%eax
addd %eax,%eax
enter $5,$5
cmovel %eax,%eax
bswap %eax
rep foo
loop foo
cli.
";

/// Names of instructions that are refused, whatever follows them.
const REFUSED: &str = "\
rdtsc
cpuid
sgdt (%eax)
sidt foo
sldt %ax
str %ax
smsw %ax
lmsw %ax
lldt %ax
verr %ax
verw %ax
lar %ax,%eax
lsl %ax,%eax
clts
rdmsr
wrmsr
rep clts
cpuid $99999,%al,%al,%al
";

/// Operands that no row has.
const OPERANDS: &str = "\
addw %ax,%ax
addw $99999,%ax
add %al,%eax
addl %al,%bl
addb %eax,%ecx
add $5,(%eax)
add (%eax),(%ecx)
add %eax,$5
add %eax
add
add $1,$2
addl $1,%eax,%eax
addl %eax,%ds
addl %cr0,%eax
addb $foo,%al
cmpb $foo,(%eax)
test (%eax),(%eax)
testw %ax,%ax
test $1,(%eax)
not (%eax)
notw %ax
not $5
imull $3,%eax
imull %eax,(%ecx)
imulb %al,%cl
imull %eax,$3,%ecx
imulw %ax,%ax
incw %ax
inc (%eax)
inc $5
inc %ds
shl %cl,(%eax)
shll %eax,%ecx
shll %ch,%eax
shll %cx,%eax
shlw $1,%ax
shll $foo,%eax
shl $1,%al,%al
sarl $1,$1
mov (%eax),(%eax)
mov $5,(%eax)
movb %eax,%ecx
mov %al,%eax
movw %ax,%ds
mov %ax,%ds
movw %ds,%ax
mov %ds,%ax
movb %ds,(%eax)
movw %ds,(%eax)
mov %eax,%cs
mov %ds,%es
mov $5,%ds
mov %cr0,%ax
mov %cr0,(%eax)
movb %al,%cr0
mov %cr0,%ds
movw $foo,%ax
movb $foo,(%eax)
mov *%eax,%ecx
mov %eax,*foo
movzbl %ax,%eax
movzwl %al,%eax
movsbl %al,%ax
movzbl $5,%eax
movzbl %al,(%eax)
lea %eax,%ecx
leab (%eax),%al
leaw (%eax),%ax
lea $5,%eax
lea (%eax),(%ecx)
xchg $5,%eax
xchgw %ax,%cx
xchg (%eax),(%ecx)
xchg %al,%ecx
pushw %ax
push %ax
pushb $5
push %al
push %cr0
pop $5
pop %cs
pop %ax
popw %ds
pusha %eax
leavew
leave $5
jmp 5
jmp $foo
jmp %eax
jmp foo(%eax)
jmp foo(,%eax,4)
jmp foo,foo
jmpw foo
jmpb foo
jmp *%ax
jmp *$5
jmpw *%eax
jne *foo
jne 5
jne $5
jne
call 5
call %eax
calll *%ax
call *%ds
sete %eax
sete $5
sete *%al
int $foo
int %eax
int
retb
retw $4
ret $foo
ret %eax
ret 4
ljmp $foo,$foo
ljmp foo
ljmp $8,foo
inw %dx,%ax
inb %dx
inb %al,%dx
in %dx,%cl
in %dx,%ax
inl $5,%al
inb $foo,%al
outb %al,$foo
outb %al,5
outw %ax,%dx
out %eax,%cx
out %eax,(%edx)
outb %al
in 4(%dx),%al
lgdt %eax
lgdtw (%eax)
lidt $foo
lidtb (%eax)
invlpg %eax
invlpg
ltr %eax
ltrl (%eax)
ltrb %al
ltr $8
ltr %ds
movsb %al
stosb %al
rep movsb %al
rep nop
rep add %eax,%eax
rep cli
rep ret
cli %eax
nop %eax
hlt $1
iret $1
cwtl %eax
mov 4(%ax),%eax
mov (%ds),%eax
mov (%dx),%eax
mov (,%esp),%eax
mov (%eax,%esp,2),%eax
mov (%eax,%cx),%eax
mov (%cr0),%eax
addl %eax,%eax,%eax,%eax
int *$5
push *%eax
";

/// Numbers beyond their fields.
const RANGES: &str = "\
addb $256,%al
addb $-129,%al
addb $4294967295,(%eax)
addl $-2147483648,foo-2147483649
movw $65536,%ax
movw $-32769,(%eax)
movb $256,%cl
shll $256,%eax
sarb $-129,(%eax)
rorl $1000,foo
int $256
int $-129
ret $65536
retl $-32769
ljmp $65536,$foo
ljmp $-32769,$5
ljmp $8,$foo-2147483649
inb $256,%al
in $-129,%eax
outb %al,$256
outl %eax,$1000
jmp foo-2147483649
call foo-4294967295
jne foo-2147483649
movl $foo-2147483649,%eax
movl foo-2147483649,%eax
movl foo-2147483649(%eax),%ecx
pushl $foo-4294967295
lgdt foo-2147483649
imull $foo-3000000000,%eax,%eax
testb $256,%al
jmp *foo-2147483649
";

/// Numbers at the ends of their fields.
const FITTING: &str = "\
addb $255,%al
addb $-128,%al
addl $-2147483648,foo-2147483648
movw $65535,%ax
movw $-32768,(%eax)
movb $255,%cl
shll $255,%eax
sarb $-128,(%eax)
int $255
int $-128
ret $65535
retl $-32768
ljmp $65535,$foo
ljmp $-32768,$4294967295
inb $255,%al
outb %al,$-128
jmp foo-2147483648
call foo+4294967295
movl $foo-2147483648,%eax
pushl $4294967295
";

fn is_refused(alloc: Global, text: &str, refusal: Refusal) -> bool {
    match assembled(alloc, text) {
        Some(Err(found)) => found == refusal,
        _ => false,
    }
}

/// Each statement is refused so.
fn are_refused(rt: &impl Abort, alloc: Global, texts: &str, refusal: Refusal) {
    for text in texts.lines() {
        told(rt, text, is_refused(alloc, text, refusal));
    }
}

static REFUSALS: [(&str, Refusal); 4] = [
    (UNKNOWN, Refusal::UnknownInstruction),
    (REFUSED, Refusal::RefusedInstruction),
    (OPERANDS, Refusal::Operands),
    (RANGES, Refusal::ValueRange),
];

#[test]
fn statements_are_refused_by_their_cause(rt: HostRuntime) {
    for (texts, refusal) in REFUSALS.iter() {
        are_refused(&rt, rt.alloc(), texts, *refusal);
    }
}

fn is_taken(alloc: Global, text: &str) -> bool {
    match assembled(alloc, text) {
        Some(Ok(_)) => true,
        _ => false,
    }
}

#[test]
fn numbers_at_the_ends_of_their_fields_are_taken(rt: HostRuntime) {
    for text in FITTING.lines() {
        told(&rt, text, is_taken(rt.alloc(), text));
    }
}
