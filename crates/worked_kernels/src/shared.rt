//! Kernels that share a host in turns.

/// What a line shows; the kernels, `s` one that sends a byte, and `t` one that reads its text; the call of the sink that fails,
/// counted from 0, or `-` for none; what is printed; of each kernel its steps, `bound` or its stop, and its fills; and the
/// turns. Lines of a text end at each `/`. Where a sink fails no end is printed. A kernel goes through the page of its text
/// alone, which its first step fills; a step that stops fills none.
pub const SHARES: &str = "\
each line has its kernel's number|ss|-|0 2 out8 03f8 48/0 2 tx 48/1 2 out8 03f8 48/1 2 tx 48/\
0 end steps 8/1 end steps 8/|8 bound 1/8 bound 1/|0 3/1 8/0 5/
a kernel stops in its turn|st|-|1 end steps 0 stop 9 TextTouched/0 2 out8 03f8 48/0 2 tx 48/0 end steps 8/|\
8 bound 1/0 TextTouched 0/|1 4/0 8/
a stopped kernel goes no further|ts|-|0 end steps 0 stop 9 TextTouched/\
1 2 out8 03f8 48/1 2 tx 48/1 end steps 8/|0 TextTouched 0/8 bound 1/|0 1/1 4/0 9/1 4/
one image is there four times|ssss|-|3 2 out8 03f8 48/3 2 tx 48/1 2 out8 03f8 48/1 2 tx 48/\
0 end steps 0/1 end steps 3/2 end steps 2/3 end steps 4/|0 bound 0/3 bound 1/2 bound 1/4 bound 1/|3 3/2 2/1 3/3 1/
a sink fails at a number|ss|2|0 2 out8 03f8 48/||0 3/1 8/0 5/
a sink fails between a number and its line|ss|3|0 2 out8 03f8 48/0 ||0 3/1 8/0 5/
";

/// Counts down at level 3 and turns interrupts off there, for which nothing is prepared.
pub const COUNTS_AT_LEVEL_3: &str = "\
_start: movl $0x20007,0xC0001114
movl $0x21007,0xC0020000
movl $0x000005B9,0xC0021000
movl $0xFD754900,0xC0021004
movl $0xFA,0xC0021008
pushl $0x23
pushl $0
pushl $0x202
pushl $0x1b
pushl $0x11400000
iret
";

/// Twice adds 1 to a page that 166 PDEs lead to, by each of them, and loads CR3 after each round. So it holds more
/// than 166 frames, and three of it leave fewer than 16 of the pool's 512.
pub const GOES_OVER_MANY_TABLES: &str = "\
_start: movl $0xC0001200,%edi
movl $0x20007,%eax
movl $166,%ecx
a: movl %eax,(%edi)
addl $4,%edi
decl %ecx
jnz a
movl $0x400007,0xC0020000
movl $2,%ebx
b: movl $166,%ecx
movl $0x20000000,%edi
c: incl (%edi)
addl $0x400000,%edi
decl %ecx
jnz c
movl 0x20000000,%eax
outl %eax,$0x80
movl %cr3,%eax
movl %eax,%cr3
decl %ebx
jnz b
hlt
";

/// A kernel as I, with its script B, whose interrupts come while they are held off. STI is step 35, at 0x10000050, and a MOV to
/// SS is step 53, at 0x10000055. A NOP after each is a step still, so the interrupt is the step but one after, and the saved
/// EIP, which is shown, that of the NOP after the first or of the next one.
pub const IS_HELD_OFF: &str = "\
$ build
.data
idt_register: .word 0x7ff
.long idt
.bss
.p2align 3
idt: .zero 2048
.text
_start: movl $on_line,%eax
movl %eax,idt+0x108
movw $0x08,idt+0x10a
movl %eax,idt+0x10c
movw $0x8e00,idt+0x10c
lidt idt_register
movb $0x11,%al
outb %al,$0x20
movb $0x20,%al
outb %al,$0x21
movb $4,%al
outb %al,$0x21
movb $1,%al
outb %al,$0x21
movb $0xfd,%al
outb %al,$0x21
movl %ss,%ebx
sti
movl %ebx,%ss
hlt
on_line: popl %eax
outl %eax,$0x80
pushl %eax
movb $0x20,%al
outb %al,$0x20
iret
$ store B
35 line 1
54 line 1
$ runs 0 70
7 out8 0020 11
12 out8 0021 20
17 out8 0021 04
22 out8 0021 01
27 out8 0021 fd
37 irq 21
39 out32 0080 10000052
45 out8 0020 20
55 irq 21
57 out32 0080 10000058
63 out8 0020 20
end steps 70
";

/// It shares a host with a kernel that sends a byte, J. One of its turns ends after STI, and one after the MOV.
pub const TURNS_END_HELD_OFF: &str = "\
$ store S
_start: movl $0x3f8,%edx; movb $0x48,%al; outb %al,%dx; hlt
$ 0 burn S O
object text 17 data 0 bss 0 sites 2
$ 0 link J O
image text 19 data 0 bss 0 sites 2
$ store E
$ store C
0 36
1 3
0 18
1 5
0 16
$ 0 share C 2048 I B J E
0 7 out8 0020 11
0 12 out8 0021 20
0 17 out8 0021 04
0 22 out8 0021 01
0 27 out8 0021 fd
1 2 out8 03f8 48
1 2 tx 48
0 37 irq 21
0 39 out32 0080 10000052
0 45 out8 0020 20
0 55 irq 21
0 57 out32 0080 10000058
0 63 out8 0020 20
0 end steps 70
1 end steps 8
";

/// Turns in which it shares a host with itself, four times: those of the first end after STI, of the second after the NOP, of
/// the third before STI, of the last after the MOV.
pub const FOUR_IN_TURNS: &str = "\
0 36
1 37
2 35
3 54
0 34
1 33
2 35
3 16
";

/// What is printed of these turns.
pub const FOUR_TIMES: &str = "\
0 7 out8 0020 11
0 12 out8 0021 20
0 17 out8 0021 04
0 22 out8 0021 01
0 27 out8 0021 fd
1 7 out8 0020 11
1 12 out8 0021 20
1 17 out8 0021 04
1 22 out8 0021 01
1 27 out8 0021 fd
2 7 out8 0020 11
2 12 out8 0021 20
2 17 out8 0021 04
2 22 out8 0021 01
2 27 out8 0021 fd
3 7 out8 0020 11
3 12 out8 0021 20
3 17 out8 0021 04
3 22 out8 0021 01
3 27 out8 0021 fd
3 37 irq 21
3 39 out32 0080 10000052
3 45 out8 0020 20
0 37 irq 21
0 39 out32 0080 10000052
0 45 out8 0020 20
0 55 irq 21
0 57 out32 0080 10000058
0 63 out8 0020 20
1 37 irq 21
1 39 out32 0080 10000052
1 45 out8 0020 20
1 55 irq 21
1 57 out32 0080 10000058
1 63 out8 0020 20
2 37 irq 21
2 39 out32 0080 10000052
2 45 out8 0020 20
2 55 irq 21
2 57 out32 0080 10000058
2 63 out8 0020 20
3 55 irq 21
3 57 out32 0080 10000058
3 63 out8 0020 20
0 end steps 70
1 end steps 70
2 end steps 70
3 end steps 70
";

/// Images that need 2,305 and 2,306 frames, L and M, and a small one, I: the first one that has too few is named, in one put, and
/// nothing else is written. What the schedule says is tested before.
pub const ARE_TOO_LARGE: &str = "\
$ build
.bss
.zero 8388608
$ copy L I
$ build
.bss
.zero 8392704
$ copy M I
$ build
nop
$ store C
1 1
0 2
$ 3 share C 2048 I B L B M B
refused 90 need 2305 have 2048
$ 3 share C 2048 M B I B L B
refused 90 need 2306 have 2048
$ 3 share C 2305 I B L B I B M B
refused 90 need 2306 have 2305
$ cut 1 3 share C 2048 I B L B
refused 90 need 2305 have 2048
$ cut 0 6 share C 2048 I B L B
$ 0 share C 2306 L B M B
0 end steps 2
1 end steps 1
$ store C
1 1
2 1
$ 3 share C 2048 L B M B
refused 101 line 2
";

/// Turns of a kernel that sends a byte, I, by itself, twice, and beside one that reads its own text, J.
pub const SHARED: &str = "\
$ build
_start:
movl $0x3f8,%edx
movb $0x48,%al
outb %al,%dx
hlt
$ store S
_start: movl 0x10000000,%eax
$ 0 burn S O
object text 5 data 0 bss 0 sites 0
$ 0 link J O
image text 7 data 0 bss 0 sites 0
$ store C
0 3
1 8
0 5
$ 0 share C 2048 I B I B
0 2 out8 03f8 48
0 2 tx 48
1 2 out8 03f8 48
1 2 tx 48
0 end steps 8
1 end steps 8
$ store C
1 4
0 8
$ 4 share C 2048 I B J B
1 end steps 0 stop 9 TextTouched
0 2 out8 03f8 48
0 2 tx 48
0 end steps 8
$ : a kernel that has stopped has a turn left
$ store C
1 4
0 8
1 9
$ 4 share C 2048 I B J B
1 end steps 0 stop 9 TextTouched
0 2 out8 03f8 48
0 2 tx 48
0 end steps 8
$ store C
2 5
$ 3 share C 2048 I B I B
refused 101 line 1
$ : lines without words are skipped, and one with two spaces has no form
$ store C
# 0 1

0  3
$ 3 share C 2048 I B I B
refused 100 line 3
$ 5 share X 2048 I B
$ : the image is read before the schedule
$ 3 share C 2048 B B
refused 40 at 0
$ : all steps of a kernel are at most 2 to the 40th
$ store C
0 1099511627775
0 1
$ 0 share C 2048 I B
0 2 out8 03f8 48
0 2 tx 48
0 end steps 1099511627776
$ store C
0 1099511627775
0 2
$ 3 share C 2048 I B
refused 101 line 2
$ store C
$ 0 share C 2048 I B
0 end steps 0
$ : what a parked kernel has kept still leads it to the old frame of a page in its next turn
$ store S
_start:
leal 0xc0000000(%ebx),%edi
movl $0xaaaaaaaa,0x1000(%edi)
movl $0xbbbbbbbb,0x2000(%edi)
leal 0x1003(%ebx),%eax
movl %eax,0x14(%edi)
leal 3(%ebx),%eax
movl %eax,0xc0001400
movl 0x40005000,%eax
outl %eax,$0x80
addl $0x1000,0x14(%edi)
movl 0x40005000,%eax
outl %eax,$0x80
hlt
$ 0 burn S O
object text 75 data 0 bss 0 sites 3
$ 0 link K O
image text 77 data 0 bss 0 sites 3
$ store C
0 10
1 3
0 30
$ 0 share C 2048 K B I B
0 8 out32 0080 aaaaaaaa
1 2 out8 03f8 48
1 2 tx 48
0 14 out32 0080 aaaaaaaa
0 end steps 40
1 end steps 3
";

/// Parked kernels are released where a kernel's turn would have fewer than 16 frames. A kernel K of a number N reads a page under
/// each of N directory indices, and then gives the first of them another frame, without INVLPG; in its next two steps it reads
/// this page again and shows what it finds. What it kept leads it to the first frame, with aaaaaaaa; a walk leads it to the other,
/// with bbbbbbbb. It makes 8 N + 9 steps up to there. It holds 5 + N frames of the pool's 512: two, and one for each directory
/// index, of its text, its data, its own memory and the N. One that hasn't begun holds two.
pub const RELEASES: &str = "\
$ build
nop
$ store S
_start: movl $0xaaaaaaaa,0xC0300000
movl $0xbbbbbbbb,0xC0301000
movl $0xC0001200,%edi
movl $0x20003,%eax
movl count,%ecx
a: movl %eax,(%edi)
addl $4,%edi
decl %ecx
jnz a
movl $0x300003,0xC0020000
movl count,%ecx
movl $0x20000000,%edi
c: movl (%edi),%eax
addl $0x400000,%edi
decl %ecx
jnz c
movl $0x301003,0xC0020000
movl 0x20000000,%eax
outl %eax,$0x80
hlt
$ 0 burn S K
object text 109 data 0 bss 0 sites 2
$ store S
.data
.globl count
count: .long 1
$ 0 burn S P
object text 0 data 4 bss 0 sites 0
$ 0 link K1 P K
image text 111 data 4 bss 0 sites 2
$ store S
.data
.globl count
count: .long 489
$ 0 burn S P
object text 0 data 4 bss 0 sites 0
$ 0 link K489 P K
image text 111 data 4 bss 0 sites 2
$ store S
.data
.globl count
count: .long 490
$ 0 burn S P
object text 0 data 4 bss 0 sites 0
$ 0 link K490 P K
image text 111 data 4 bss 0 sites 2
$ store S
.data
.globl count
count: .long 491
$ 0 burn S P
object text 0 data 4 bss 0 sites 0
$ 0 link K491 P K
image text 111 data 4 bss 0 sites 2
$ store S
.data
.globl count
count: .long 492
$ 0 burn S P
object text 0 data 4 bss 0 sites 0
$ 0 link K492 P K
image text 111 data 4 bss 0 sites 2
$ : 16 frames, of which its own are 6: none is released
$ store C
0 17
1 3937
0 2
1 2
$ 0 share C 2048 K1 B K491 B
0 18 out32 0080 aaaaaaaa
1 3938 out32 0080 aaaaaaaa
0 end steps 19
1 end steps 3939
$ : 15, of which its own are 6: the parked one is released, and it keeps its own
$ store C
0 17
1 3945
0 2
1 2
$ 0 share C 2048 K1 B K492 B
0 18 out32 0080 aaaaaaaa
1 3946 out32 0080 bbbbbbbb
0 end steps 19
1 end steps 3947
$ : 12, and 16 once the first is released: the second keeps its own
$ store C
0 17
1 3921
2 1
1 2
0 2
$ 0 share C 2048 K1 B K489 B I B
1 3922 out32 0080 aaaaaaaa
0 18 out32 0080 bbbbbbbb
0 end steps 19
1 end steps 3923
2 end steps 1
$ : 11, and 15 once the first is released: so is the second
$ store C
0 17
1 3929
2 1
1 2
0 2
$ 0 share C 2048 K1 B K490 B I B
1 3930 out32 0080 bbbbbbbb
0 18 out32 0080 bbbbbbbb
0 end steps 19
1 end steps 3931
2 end steps 1
$ : 16 and then 12: the first is released, though the second would give frames enough
$ store C
0 3921
1 17
2 1
0 2
1 2
$ 0 share C 2048 K489 B K1 B I B
0 3922 out32 0080 bbbbbbbb
1 18 out32 0080 aaaaaaaa
0 end steps 3923
1 end steps 19
2 end steps 1
";
