//! Kernels that use the machine wrongly, a row for each stop, and kernels with large pages, each from its source with the
//! machine's 2,048 frames and an empty script.

/// What follows `_start:`, with 12 steps: what both machines print, or each its own.
pub const HOSTILE: &str = "\
$ : A RET to the bytes of RDTSC, which no sweep of the text meets.
$ build
_start: pushl $bad+1; ret; bad: movl $0x310f,%eax
$ bare 4 12
end steps 2 stop 1 Unsupported
$ wedge 4 12
end steps 2 stop 12 NotAStart
$ : The table of a directory word lies beyond RAM, and then the directory itself.
$ build
_start: movl $0x7ffff003,0xC0001114; movl 0x11400000,%eax
$ runs 4 12
end steps 1 stop 2 BeyondRam
$ build
_start: movl $0x7ffff000,%eax; movl %eax,%cr3
$ runs 4 12
end steps 2 stop 2 BeyondRam
$ build
_start: movl 0xFFFFFFFE,%eax
$ runs 4 12
end steps 0 stop 3 WrapAccess
$ : There is no interrupt descriptor table.
$ build
_start: ud2
$ runs 4 12
end steps 0 stop 4 DeliveryFailed
$ build
_start: movl $0x100,%eax; movl %eax,%cr4
$ runs 4 12
end steps 1 stop 5 ControlBits
$ : A first initialisation word of another kind.
$ build
_start: movb $0x10,%al; outb %al,$0x20
$ runs 4 12
end steps 1 stop 6 DeviceUse
$ : A count before any control byte.
$ build
_start: movl $0x40,%edx; movb $0,%al; outb %al,%dx
$ runs 4 12
end steps 2 stop 6 DeviceUse
$ : The trap flag, by POPF and by IRET.
$ build
_start: pushl $0x100; popf
$ runs 4 12
end steps 1 stop 7 FlagBits
$ build
_start: pushl $0x102; pushl $8; pushl $0x10000000; iret
$ runs 4 12
end steps 3 stop 7 FlagBits
$ : A selector of a local table.
$ build
_start: movl $0x14,%eax; movl %eax,%ds
$ runs 4 12
end steps 1 stop 8 SegmentForm
$ : Text is read where it is linked, and in the direct map; it may be, without a wedge.
$ build
_start: movl 0x10000000,%eax
$ bare 0 12
end steps 12
$ wedge 4 12
end steps 0 stop 9 TextTouched
$ build
_start: movl 0xC0100000,%eax
$ bare 0 12
end steps 12
$ wedge 4 12
end steps 0 stop 13 TextMapped
$ : It is written, behind its last instruction.
$ build
_start: movl $0x10000100,%esp; pushl %eax
$ bare 0 12
end steps 12
$ wedge 4 12
end steps 1 stop 9 TextTouched
$ build
_start: movl %eax,0xC0100100
$ bare 0 12
end steps 12
$ wedge 4 12
end steps 0 stop 13 TextMapped
$ : The processor reads a descriptor of its own accord; what stands there is no segment.
$ build
_start: .data; register: .word 0x27; .long 0x10000000; .text; lgdt register; movl $0x10,%eax; movl %eax,%ds
$ bare 4 12
end steps 2 stop 4 DeliveryFailed
$ wedge 4 12
end steps 2 stop 9 TextTouched
$ : The window of a wedge, and low memory, are not mapped.
$ build
_start: movl 0x04F4F4F9,%eax
$ bare 4 12
end steps 0 stop 4 DeliveryFailed
$ wedge 4 12
end steps 0 stop 10 WedgeTouched
$ build
_start: movl 0x1000,%eax
$ bare 4 12
end steps 0 stop 4 DeliveryFailed
$ wedge 4 12
end steps 0 stop 11 LowTouched
$ : So are gates.
$ build
_start: .data; register: .word 0x7ff; .long 0x1000; .text; lidt register; int3
$ bare 4 12
end steps 1 stop 4 DeliveryFailed
$ wedge 4 12
end steps 1 stop 11 LowTouched
$ : A RET into an immediate of NOPs and POPFs: what is there runs.
$ build
_start: pushl $2; pushl $2; pushl $2; pushl $2; pushl $bad+1; ret; bad: movl $0x9d9d9d9d,%eax
$ bare 0 12
end steps 12
$ wedge 4 12
end steps 6 stop 12 NotAStart
$ : A handler within an instruction.
$ build
_start: .data; register: .word 0x1f; .long gates; gates: .zero 32; .text; movl $bad+1,%eax; movl %eax,gates+24; \
    movw $8,gates+26; movl %eax,gates+28; movw $0x8e00,gates+28; lidt register; int3; bad: movl $0x90909090,%eax
$ bare 0 12
end steps 12
$ wedge 4 12
end steps 6 stop 12 NotAStart
$ : The text's page gets another frame, of zeros, which are an ADD to memory that is not mapped.
$ build
_start: movl $0x20003,0xC0014000; movl %cr3,%eax; movl %eax,%cr3
$ bare 4 12
end steps 5 stop 4 DeliveryFailed
$ wedge 4 12
end steps 5 stop 13 TextMapped
$ : User code in the text, which uses a null segment.
$ build
_start: movl $0x20007,0xC0001114; movl $0x100007,0xC0020000; pushl $0x23; pushl $0; pushl $0x202; pushl $0x1b; pushl $0x11400000; iret
$ bare 4 12
end steps 8 stop 4 DeliveryFailed
$ wedge 4 12
end steps 8 stop 13 TextMapped
$ : A table in the text: its first word names a frame beyond RAM.
$ build
_start: movl $0x00100003,0xC0001114; movl 0x11400000,%eax
$ bare 4 12
end steps 1 stop 2 BeyondRam
$ wedge 4 12
end steps 1 stop 14 TableInText
$ : A directory in the text, whose word of the text's own addresses is zero.
$ build
_start: movl $0x100000,%eax; movl %eax,%cr3
$ bare 4 12
end steps 2 stop 4 DeliveryFailed
$ wedge 4 12
end steps 2 stop 14 TableInText
$ : An outer IRET that clears IF, or sets IOPL, to a page that is not mapped.
$ build
_start: pushl $0x23; pushl $0; pushl $2; pushl $0x1b; pushl $0; iret
$ bare 4 12
end steps 6 stop 4 DeliveryFailed
$ wedge 4 12
end steps 5 stop 15 UserFlags
$ build
_start: pushl $0x23; pushl $0; pushl $0x3202; pushl $0x1b; pushl $0; iret
$ bare 4 12
end steps 6 stop 4 DeliveryFailed
$ wedge 4 12
end steps 5 stop 15 UserFlags
$ : User code in a frame that is also the table of the page that it writes.
$ build
_start: movl $0x004085C7,0xC0020000; movl $0x1180,0xC0020004; movl $0x20007,0xC0021000; movl $0x21007,0xC0001114; \
    movl $0x20007,0xC0001118; pushl $0x23; pushl $0; pushl $0x202; pushl $0x1b; pushl $0x11400000; iret
$ bare 0 12
end steps 12
$ wedge 4 12
end steps 11 stop 16 CodeIsTable
$ : MOVS with ES null and a source that passes the end: null segments are tested first.
$ build
_start: xorl %eax,%eax; movl %eax,%es; movl $0xFFFFFFFE,%esi; movsl
$ runs 4 12
end steps 6 stop 4 DeliveryFailed
$ build
_start:
$ runs 0 12
end steps 12
$ build
_start: .bss; .zero 8388608
$ runs 3 12
refused 90 need 2305 have 2048
";

/// The first and last bytes of what a monitor keeps for itself, and of what lies beside it, none of which is mapped.
pub const BORDERS: &str = "\
$ build
_start: movb 0,%al
$ bare 4 12
end steps 0 stop 4 DeliveryFailed
$ wedge 4 12
end steps 0 stop 11 LowTouched
$ build
_start: movb 0x03FFFFFF,%al
$ bare 4 12
end steps 0 stop 4 DeliveryFailed
$ wedge 4 12
end steps 0 stop 11 LowTouched
$ build
_start: movb 0x04000000,%al
$ bare 4 12
end steps 0 stop 4 DeliveryFailed
$ wedge 4 12
end steps 0 stop 10 WedgeTouched
$ build
_start: movb 0x05FFFFFF,%al
$ bare 4 12
end steps 0 stop 4 DeliveryFailed
$ wedge 4 12
end steps 0 stop 10 WedgeTouched
$ build
_start: movb 0x06000000,%al
$ bare 4 12
end steps 0 stop 4 DeliveryFailed
$ wedge 4 12
end steps 0 stop 11 LowTouched
$ build
_start: movl 0x0FFFFFFF,%eax
$ bare 4 12
end steps 0 stop 4 DeliveryFailed
$ wedge 4 12
end steps 0 stop 11 LowTouched
$ build
_start: movl 0x10FFFFFF,%eax
$ bare 4 12
end steps 0 stop 4 DeliveryFailed
$ wedge 4 12
end steps 0 stop 9 TextTouched
$ build
_start: movb 0x11000000,%al
$ bare 4 12
end steps 0 stop 4 DeliveryFailed
$ wedge 4 12
end steps 0 stop 4 DeliveryFailed
";

/// Kernels with pages of 4 MB, which CR4.PSE admits.
pub const LARGE: &str = "\
$ : The one word of such a page has the accessed and the dirty flag.
$ build
_start: movl $16,%eax; movl %eax,%cr4; movl $0x400083,0xC0001114; movl $0x5a,0x11400010; movl 0xC0001114,%eax; \
    outl %eax,$0x80; movl 0xC0400010,%eax; outl %eax,$0x80
$ runs 0 13
7 out32 0080 004000e3
12 out32 0080 0000005a
end steps 13
$ : Bit 13 of it is reserved.
$ build
_start: movl $16,%eax; movl %eax,%cr4; movl $0x402083,0xC0001114; movl $0x5a,0x11400010; movl 0xC0001114,%eax; \
    outl %eax,$0x80; movl 0xC0400010,%eax; outl %eax,$0x80
$ runs 4 13
end steps 5 stop 5 ControlBits
$ : Without PSE bit 7 of a directory word is ignored, and the word names a table.
$ build
_start: movl $0x20087,0xC0001114; movl $0x21007,0xC0020000; movl $0x5a,0x11400010; movl 0xC0021010,%eax; outl %eax,$0x80
$ runs 0 10
4 out32 0080 0000005a
end steps 10
$ : With PSE an INVLPG of the last page of a directory index drops the first one too.
$ build
_start: movl $16,%eax; movl %eax,%cr4; movl $0x400083,0xC0001114; movl $0x5a,0xC0400010; movl $0x66,0xC0000010; \
    movl 0x11400010,%eax; outl %eax,$0x80; movl $0x83,0xC0001114; invlpg 0x117FF000; movl 0x11400010,%eax; \
    outl %eax,$0x80
$ runs 0 17
8 out32 0080 0000005a
15 out32 0080 00000066
end steps 17
";
