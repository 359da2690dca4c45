//! Images made by hand: the bytes are those of GNU as, with each sensitive instruction padded.

/// Kernels at level 0 that run to their bound.
pub const PLAIN: &str = "\
$ : movl $0x3f8,%edx; movb $0x48,%al; outb %al,%dx; hlt
$ image 0
text ba f8 03 00 00 b0 48 ee 90 90 90 90 f4 90 90 90 90 eb fe
site 07 00 00 00 14 01 05 00
site 0c 00 00 00 04 01 05 00
$ store B
$ runs 0 8
2 out8 03f8 48
2 tx 48
end steps 8
$ : the same, for no step
$ image 0
text ba f8 03 00 00 b0 48 ee 90 90 90 90 f4 90 90 90 90 eb fe
site 07 00 00 00 14 01 05 00
site 0c 00 00 00 04 01 05 00
$ store B
$ runs 0 0
end steps 0
$ : what the link gives of an empty source
$ image 0
text eb fe
$ store B
$ runs 0 5
end steps 5
$ : movl 0xC0014000,%eax: the table word of the text's first page, whose accessed flag the fetch has set
$ image 0
text a1 00 40 01 c0 ba 80 00 00 00 ee 90 90 90 90 f4 90 90 90 90 eb fe
site 0a 00 00 00 14 01 05 00
site 0f 00 00 00 04 01 05 00
$ store B
$ runs 0 8
2 out8 0080 21
end steps 8
$ : sti; pushf; popl %eax; outl %eax,$0x80; hlt
$ image 0
text fb 90 90 90 90 9c 90 90 90 90 58 e7 80 90 90 90 f4 90 90 90 90 eb fe
site 00 00 00 00 02 01 05 00
site 05 00 00 00 05 01 05 00
site 0b 00 00 00 14 02 05 00
site 10 00 00 00 04 01 05 00
$ store B
$ runs 0 12
11 out32 0080 00000202
end steps 12
$ : call *%eax; its RET comes back inside the padding
$ image 0
text b8 16 00 00 10 ff d0 90 90 90 b0 07 e6 80 90 90 90 f4 90 90 90 90 c3 90 90 90 90 eb fe
site 05 00 00 00 17 02 05 00
site 0c 00 00 00 14 02 05 00
site 11 00 00 00 04 01 05 00
site 16 00 00 00 15 01 05 00
$ store B
$ runs 0 12
7 out8 0080 07
end steps 12
$ : RET to the second byte of a MOV
$ image 0
text 6a 02 6a 02 6a 02 6a 02 68 13 00 00 10 c3 90 90 90 90 b8 9d 9d 9d 9d eb fe
site 0d 00 00 00 15 01 05 00
$ store B
$ bare 0 20
end steps 20
$ wedge 4 20
end steps 6 stop 12 NotAStart
$ : movl 0x10000000,%eax
$ image 0
text a1 00 00 00 10 eb fe
$ store B
$ bare 0 2
end steps 2
$ wedge 4 2
end steps 0 stop 9 TextTouched
$ : movl 0xC0100000,%eax
$ image 0
text a1 00 00 10 c0 eb fe
$ store B
$ bare 0 2
end steps 2
$ wedge 4 2
end steps 0 stop 13 TextMapped
$ : the table word of the data's page: accessed after a read, dirty after a write
$ image 0
text a1 00 00 00 11 a1 00 80 01 c0 e7 80 90 90 90 a3 00 00 00 11 a1 00 80 01 c0 e7 80 90 90 90 eb fe
data 00 00 00 00
site 0a 00 00 00 14 02 05 00
site 19 00 00 00 14 02 05 00
$ store B
$ runs 0 9
2 out32 0080 00101023
8 out32 0080 00101063
end steps 9
$ : rep stosb of three bytes: three steps
$ image 0
text b9 03 00 00 00 bf 00 00 00 11 f3 aa e6 80 90 90 90 eb fe
data 00 00 00 00
site 0c 00 00 00 14 02 05 00
$ store B
$ runs 0 6
5 out8 0080 00
end steps 6
$ : movl %cr3,%eax; movl %eax,%cr3; movb $1,%al; outb %al,$0x80
$ image 0
text 0f 20 d8 90 90 0f 22 d8 90 90 b0 01 e6 80 90 90 90 eb fe
site 00 00 00 00 08 03 05 00
site 05 00 00 00 09 03 05 00
site 0c 00 00 00 14 02 05 00
$ store B
$ runs 0 12
7 out8 0080 01
end steps 12
$ : ud2, whose exception finds no gate
$ image 0
text 0f 0b eb fe
$ store B
$ runs 4 3
end steps 0 stop 4 DeliveryFailed
$ : rdtsc, which is refused
$ image 0
text 0f 31 eb fe
$ store B
$ runs 3 1
refused 65 at 0
";

/// Interrupts, holds, halts and the serial line.
pub const EVENTS: &str = "\
$ : a request waits before STI; the interrupt comes after HLT, and the saved EIP is behind it
$ image 8192
text c7 05 08 11 00 11 5d 00 08 00 c7 05 0c 11 00 11 00 8e 00 10 c7 05 00 00 00 11 ff 07 00 10 c7 05
text 04 00 00 11 00 11 00 00 0f 01 1d 00 00 00 11 b0 11 e6 20 90 90 90 b0 20 e6 21 90 90 90 b0 04 e6
text 21 90 90 90 b0 01 e6 21 90 90 90 b0 fd e6 21 90 90 90 90 90 90 90 fb f4 90 90 90 eb fe 58 e7 80
text 90 90 90 eb fe
site 28 00 00 00 0b 07 07 00
site 31 00 00 00 14 02 05 00
site 38 00 00 00 14 02 05 00
site 3f 00 00 00 14 02 05 00
site 46 00 00 00 14 02 05 00
site 4d 00 00 00 14 02 05 00
site 56 00 00 00 03 02 05 00
site 5e 00 00 00 14 02 05 00
$ store B
32 line 1
$ runs 0 39
6 out8 0020 11
11 out8 0021 20
16 out8 0021 04
21 out8 0021 01
26 out8 0021 fd
36 irq 21
38 out32 0080 10000058
end steps 39
$ : a count of 2: the first edge is seen 16 steps after its high byte, inside the padding of PUSHF, and IRET comes back there
$ image 8192
text c7 05 00 11 00 11 87 00 08 00 c7 05 04 11 00 11 00 8e 00 10 c7 05 00 00 00 11 ff 07 00 10 c7 05
text 04 00 00 11 00 11 00 00 0f 01 1d 00 00 00 11 b0 11 e6 20 90 90 90 b0 20 e6 21 90 90 90 b0 04 e6
text 21 90 90 90 b0 01 e6 21 90 90 90 b0 fe e6 21 90 90 90 ba 40 00 00 00 b0 34 e6 43 90 90 90 b0 02
text ee 90 90 90 90 fb 90 90 90 90 b0 00 ee 90 90 90 90 90 90 90 90 90 90 90 90 9c 90 90 90 90 b0 55
text e6 80 90 90 90 eb fe 58 e7 80 90 90 90 50 cf 90 90 90 90 eb fe
site 28 00 00 00 0b 07 07 00
site 31 00 00 00 14 02 05 00
site 38 00 00 00 14 02 05 00
site 3f 00 00 00 14 02 05 00
site 46 00 00 00 14 02 05 00
site 4d 00 00 00 14 02 05 00
site 59 00 00 00 14 02 05 00
site 60 00 00 00 14 01 05 00
site 65 00 00 00 02 01 05 00
site 6c 00 00 00 14 01 05 00
site 79 00 00 00 05 01 05 00
site 80 00 00 00 14 02 05 00
site 88 00 00 00 14 02 05 00
site 8e 00 00 00 07 01 05 00
$ store B
$ runs 0 79
6 out8 0020 11
11 out8 0021 20
16 out8 0021 04
21 out8 0021 01
26 out8 0021 fe
32 out8 0043 34
37 out8 0040 02
48 out8 0040 00
64 irq 20
66 out32 0080 1000007c
75 out8 0080 55
end steps 79
$ : POPF turns IF on with a request waiting; the interrupt comes in the next step
$ image 8192
text c7 05 08 11 00 11 60 00 08 00 c7 05 0c 11 00 11 00 8e 00 10 c7 05 00 00 00 11 ff 07 00 10 c7 05
text 04 00 00 11 00 11 00 00 0f 01 1d 00 00 00 11 b0 11 e6 20 90 90 90 b0 20 e6 21 90 90 90 b0 04 e6
text 21 90 90 90 b0 01 e6 21 90 90 90 b0 fd e6 21 90 90 90 90 90 68 02 02 00 00 9d 90 90 90 90 eb fe
text 58 e7 80 90 90 90 eb fe
site 28 00 00 00 0b 07 07 00
site 31 00 00 00 14 02 05 00
site 38 00 00 00 14 02 05 00
site 3f 00 00 00 14 02 05 00
site 46 00 00 00 14 02 05 00
site 4d 00 00 00 14 02 05 00
site 59 00 00 00 06 01 05 00
site 61 00 00 00 14 02 05 00
$ store B
32 line 1
$ runs 0 37
6 out8 0020 11
11 out8 0021 20
16 out8 0021 04
21 out8 0021 01
26 out8 0021 fd
34 irq 21
36 out32 0080 1000005a
end steps 37
$ : movl $0x3fd,%edx; inb %dx,%al; inb %dx,%al, with a byte that comes between
$ image 0
text ba fd 03 00 00 ec 90 90 90 90 ec 90 90 90 90 eb fe
site 05 00 00 00 13 01 05 00
site 0a 00 00 00 13 01 05 00
$ store B
4 rx 41
$ runs 0 7
1 in8 03fd 60
6 in8 03fd 61
end steps 7
$ : sti; hlt, with nothing that comes
$ image 0
text fb f4 90 90 90 90 eb fe
site 00 00 00 00 03 02 05 00
$ store B
$ runs 0 1000
end steps 1000
$ : the same, for the greatest bound: a processor that waits costs no time
$ image 0
text fb f4 90 90 90 90 eb fe
site 00 00 00 00 03 02 05 00
$ store B
$ runs 0 1099511627776
end steps 1099511627776
$ : IF 0 and an edge of the timer every 16 steps; hlt: a processor that no edge wakes costs no time either
$ image 0
text b0 34 e6 43 90 90 90 b0 02 e6 40 90 90 90 b0 00 e6 40 90 90 90 f4 90 90 90 90 eb fe
site 02 00 00 00 14 02 05 00
site 09 00 00 00 14 02 05 00
site 10 00 00 00 14 02 05 00
site 15 00 00 00 04 01 05 00
$ store B
$ runs 0 1099511627776
1 out8 0043 34
6 out8 0040 02
11 out8 0040 00
end steps 1099511627776
";

/// Code at level 3: what it may not do, and the gates that it may use.
pub const USER: &str = "\
$ : CLI, INT 0x80 through a gate of level 3, INT 0x20 through one of level 0, and a read of the text
$ image 8192
text c7 05 00 00 02 c0 bb 01 00 00 c7 05 04 00 02 c0 00 fa cd 80 c7 05 08 00 02 c0 bb 02 00 00 c7 05
text 0c 00 02 c0 00 cd 20 a1 c7 05 10 00 02 c0 00 00 00 10 c7 05 14 11 00 c0 07 10 02 00 c7 05 00 10
text 02 c0 07 00 02 00 c7 05 28 20 00 c0 67 00 00 20 c7 05 2c 20 00 c0 02 89 00 c0 c7 05 04 20 02 c0
text 00 00 10 c0 c7 05 08 20 02 c0 10 00 00 00 c7 05 08 00 00 11 2f 00 00 20 c7 05 0c 00 00 11 00 c0
text 00 00 0f 01 15 08 00 00 11 b8 28 00 00 00 0f 00 d8 90 90 c7 05 68 10 00 11 1f 01 08 00 c7 05 6c
text 10 00 11 00 8e 00 10 c7 05 70 10 00 11 39 01 08 00 c7 05 74 10 00 11 00 8e 00 10 c7 05 00 11 00
text 11 1d 01 08 00 c7 05 04 11 00 11 00 8e 00 10 c7 05 00 14 00 11 2d 01 08 00 c7 05 04 14 00 11 00
text ee 00 10 c7 05 00 00 00 11 ff 07 00 10 c7 05 04 00 00 11 00 11 00 00 0f 01 1d 00 00 00 11 b8 23
text 00 00 00 8e d8 90 90 90 6a 23 6a 00 68 02 02 00 00 6a 1b 68 00 00 40 11 cf 90 90 90 90 eb fe 58
text e7 80 90 90 90 01 1c 24 cf 90 90 90 90 b0 77 e6 80 90 90 90 cf 90 90 90 90 58 e7 80 90 90 90 0f
text 20 d0 90 90 e7 80 90 90 90 f4 90 90 90 90 eb fe
site 82 00 00 00 0a 07 07 00
site 8e 00 00 00 0c 03 05 00
site f7 00 00 00 0b 07 07 00
site 03 01 00 00 0f 02 05 00
site 18 01 00 00 07 01 05 00
site 20 01 00 00 14 02 05 00
site 28 01 00 00 07 01 05 00
site 2f 01 00 00 14 02 05 00
site 34 01 00 00 07 01 05 00
site 3a 01 00 00 14 02 05 00
site 3f 01 00 00 08 03 05 00
site 44 01 00 00 14 02 05 00
site 49 01 00 00 04 01 05 00
$ store B
$ runs 0 78
43 out32 0080 00000000
51 out8 0080 77
59 out32 0080 00000102
67 out32 0080 00000005
74 out32 0080 10000000
end steps 78
";
