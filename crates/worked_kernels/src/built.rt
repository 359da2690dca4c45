//! Kernels from their sources: `burn`, `link`, `check`, and runs of the image on both machines.

/// Each source is burnt, linked and checked, and its image runs.
pub const BUILT: &str = "\
$ : sends a byte
$ store S
_start:
movl $0x3f8,%edx
movb $0x48,%al
outb %al,%dx
hlt
$ store B
$ 0 burn S O
object text 17 data 0 bss 0 sites 2
$ 0 link I O
image text 19 data 0 bss 0 sites 2
$ text ba f8 03 00 00 b0 48 ee 90 90 90 90 f4 90 90 90 90 eb fe
$ 0 check I
accepted text 19 data 0 bss 0 sites 2 format 1
$ runs 0 8
2 out8 03f8 48
2 tx 48
end steps 8
$ : no step
$ store S
_start:
movl $0x3f8,%edx
movb $0x48,%al
outb %al,%dx
hlt
$ store B
$ 0 burn S O
object text 17 data 0 bss 0 sites 2
$ 0 link I O
image text 19 data 0 bss 0 sites 2
$ 0 check I
accepted text 19 data 0 bss 0 sites 2 format 1
$ runs 0 0
end steps 0
$ : empty source
$ store S
$ store B
$ 0 burn S O
object text 0 data 0 bss 0 sites 0
$ 0 link I O
image text 2 data 0 bss 0 sites 0
$ text eb fe
$ entry 268435456
$ 0 check I
accepted text 2 data 0 bss 0 sites 0 format 1
$ runs 0 5
end steps 5
$ : call through a register
$ store S
_start: movl $f,%eax
call *%eax
movb $1,%al
outb %al,$0x80
hlt
f: ret
$ store B
$ 0 burn S O
object text 27 data 0 bss 0 sites 4
$ 0 link I O
image text 29 data 0 bss 0 sites 4
$ 0 check I
accepted text 29 data 0 bss 0 sites 4 format 1
$ runs 0 9
7 out8 0080 01
end steps 9
$ : return into an immediate
$ store S
_start: pushl $2
pushl $2
pushl $2
pushl $2
pushl $bad+1
ret
bad: movl $0x9d9d9d9d,%eax
$ store B
$ 0 burn S O
object text 23 data 0 bss 0 sites 1
$ 0 link I O
image text 25 data 0 bss 0 sites 1
$ text 6a 02 6a 02 6a 02 6a 02 68 13 00 00 10 c3 90 90 90 90 b8 9d 9d 9d 9d eb fe
$ 0 check I
accepted text 25 data 0 bss 0 sites 1 format 1
$ bare 0 20
end steps 20
$ wedge 4 20
end steps 6 stop 12 NotAStart
$ : text is read
$ store S
_start: movl 0x10000000,%eax
$ store B
$ 0 burn S O
object text 5 data 0 bss 0 sites 0
$ 0 link I O
image text 7 data 0 bss 0 sites 0
$ 0 check I
accepted text 7 data 0 bss 0 sites 0 format 1
$ bare 0 3
end steps 3
$ wedge 4 3
end steps 0 stop 9 TextTouched
$ : text is read in the direct map
$ store S
_start: movl 0xC0100000,%eax
$ store B
$ 0 burn S O
object text 5 data 0 bss 0 sites 0
$ 0 link I O
image text 7 data 0 bss 0 sites 0
$ 0 check I
accepted text 7 data 0 bss 0 sites 0 format 1
$ bare 0 3
end steps 3
$ wedge 4 3
end steps 0 stop 13 TextMapped
$ : wedge is read
$ store S
_start: movl 0x04F4F4F9,%eax
$ store B
$ 0 burn S O
object text 5 data 0 bss 0 sites 0
$ 0 link I O
image text 7 data 0 bss 0 sites 0
$ 0 check I
accepted text 7 data 0 bss 0 sites 0 format 1
$ bare 4 3
end steps 0 stop 4 DeliveryFailed
$ wedge 4 3
end steps 0 stop 10 WedgeTouched
$ : flags of a page
$ store S
.data
.long 0
.text
_start: movl 0x11000000,%eax
movl 0xC0018000,%eax
outl %eax,$0x80
movl %eax,0x11000000
movl 0xC0018000,%eax
outl %eax,$0x80
$ store B
$ 0 burn S O
object text 30 data 4 bss 0 sites 2
$ 0 link I O
image text 32 data 4 bss 0 sites 2
$ 0 check I
accepted text 32 data 4 bss 0 sites 2 format 1
$ runs 0 9
2 out32 0080 00101023
8 out32 0080 00101063
end steps 9
$ : by gcc
$ store S
\t.file \"k.c\"
\t.text
\t.p2align 4
\t.globl _start
\t.type _start, @function
_start:
.LFB0:
\t.cfi_startproc
\tmovl $1, %eax
\tjmp *.L4(,%eax,4)
\t.section .rodata
\t.align 4
.L4:
\t.long .L2
\t.long .L3
\t.text
\t.p2align 4,,10
\t.p2align 3
.L3:
\tmovl $33, %eax
\toutb %al, $128
.L2:
\thlt
\t.cfi_endproc
\t.size _start, .-_start
\t.ident \"GCC: (GNU) 12.2.0\"
\t.section .note.GNU-stack,\"\",@progbits
$ store B
$ 0 burn S O
object text 31 data 8 bss 0 sites 3
$ 0 link I O
image text 33 data 8 bss 0 sites 3
$ data 1a 00 00 10 10 00 00 10
$ 0 check I
accepted text 33 data 8 bss 0 sites 3 format 1
$ runs 0 8
3 out8 0080 21
end steps 8
$ : serial line
$ store S
_start: movl $0x3fd,%edx
inb %dx,%al
inb %dx,%al
$ store B
4 rx 41
$ 0 burn S O
object text 15 data 0 bss 0 sites 2
$ 0 link I O
image text 17 data 0 bss 0 sites 2
$ 0 check I
accepted text 17 data 0 bss 0 sites 2 format 1
$ runs 0 7
1 in8 03fd 60
6 in8 03fd 61
end steps 7
$ : halts for long: Nothing comes, so a halted processor waits.
$ store S
_start: sti; hlt; nop
$ store B
$ 0 burn S O
object text 6 data 0 bss 0 sites 1
$ 0 link I O
image text 8 data 0 bss 0 sites 1
$ 0 check I
accepted text 8 data 0 bss 0 sites 1 format 1
$ runs 0 1000
end steps 1000
$ : loads cr3
$ store S
_start: movl %cr3,%eax; movl %eax,%cr3; movb $1,%al; outb %al,$0x80
$ store B
$ 0 burn S O
object text 17 data 0 bss 0 sites 3
$ 0 link I O
image text 19 data 0 bss 0 sites 3
$ 0 check I
accepted text 19 data 0 bss 0 sites 3 format 1
$ runs 0 12
7 out8 0080 01
end steps 12
$ : repeated store
$ store S
.data
.long 0
.text
_start: movl $3,%ecx
movl $0x11000000,%edi
rep stosb
outb %al,$0x80
$ store B
$ 0 burn S O
object text 17 data 4 bss 0 sites 1
$ 0 link I O
image text 19 data 4 bss 0 sites 1
$ 0 check I
accepted text 19 data 4 bss 0 sites 1 format 1
$ runs 0 6
5 out8 0080 00
end steps 6
$ : aligned text
$ store S
_start: cli
.p2align 4
hlt
$ store B
$ 0 burn S O
object text 21 data 0 bss 0 sites 2
$ 0 link I O
image text 23 data 0 bss 0 sites 2
$ 0 check I
accepted text 23 data 0 bss 0 sites 2 format 1
$ runs 0 20
end steps 20
$ : zeroed page
$ store S
.data
.byte 1
.bss
.p2align 12
pg: .zero 4096
.text
movl $pg,%eax
$ store B
$ 0 burn S O
object text 5 data 1 bss 4096 sites 0
$ 0 link I O
image text 7 data 1 bss 8191 sites 0
$ text b8 00 10 00 11 eb fe
$ 0 check I
accepted text 7 data 1 bss 8191 sites 0 format 1
$ runs 0 2
end steps 2
";
