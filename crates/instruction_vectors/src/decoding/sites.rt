//! The sensitive instructions.

use super::{Spelling, are_decoded, spelling};

/// The sensitive instructions, as GNU objdump reads the bytes.
const SITES: [Spelling; 51] = [
    spelling!("cli", [0xfa], Cli Long (-) (-) 0 0 false),
    spelling!("sti", [0xfb], Sti Long (-) (-) 0 0 false),
    spelling!("hlt", [0xf4], Hlt Long (-) (-) 0 0 false),
    spelling!("pushfl", [0x9c], PushFlags Long (-) (-) 0 0 false),
    spelling!("popfl", [0x9d], PopFlags Long (-) (-) 0 0 false),
    spelling!("iretl", [0xcf], Iret Long (-) (-) 0 0 false),
    spelling!("movl %cr0,%ecx", [0x0f, 0x20, 0xc1], ReadControl Long (reg 1) (control 0) 0 0 false),
    spelling!("movl %edi,%cr0", [0x0f, 0x22, 0xc7], WriteControl Long (control 0) (reg 7) 0 0 false),
    spelling!("movl %cr2,%ebx", [0x0f, 0x20, 0xd3], ReadControl Long (reg 3) (control 2) 0 0 false),
    spelling!("movl %ebp,%cr2", [0x0f, 0x22, 0xd5], WriteControl Long (control 2) (reg 5) 0 0 false),
    spelling!("movl %cr3,%esp", [0x0f, 0x20, 0xdc], ReadControl Long (reg 4) (control 3) 0 0 false),
    spelling!("movl %esp,%cr3", [0x0f, 0x22, 0xdc], WriteControl Long (control 3) (reg 4) 0 0 false),
    spelling!("movl %cr4,%ebp", [0x0f, 0x20, 0xe5], ReadControl Long (reg 5) (control 4) 0 0 false),
    spelling!("movl %ebx,%cr4", [0x0f, 0x22, 0xe3], WriteControl Long (control 4) (reg 3) 0 0 false),
    spelling!("lgdtl 0x12345678(%edi)", [0x0f, 0x01, 0x97, 0x78, 0x56, 0x34, 0x12], LoadGdt Long (mem Edi - 1 0x12345678) (-) 0 0 false),
    spelling!("lidtl (%eax,%ecx,1)", [0x0f, 0x01, 0x1c, 0x08], LoadIdt Long (mem Eax Ecx 1 0) (-) 0 0 false),
    spelling!("ltr %sp", [0x0f, 0x00, 0xdc], LoadTask Long (reg 4) (-) 0 0 false),
    spelling!("ltr (%ebx,%edx,2)", [0x0f, 0x00, 0x1c, 0x53], LoadTask Long (mem Ebx Edx 2 0) (-) 0 0 false),
    spelling!("invlpg (%edi,%esi,4)", [0x0f, 0x01, 0x3c, 0xb7], DropPage Long (mem Edi Esi 4 0) (-) 0 0 false),
    spelling!("movw %es,(%ecx,%ebp,8)", [0x8c, 0x04, 0xe9], ReadSeg Long (mem Ecx Ebp 8 0) (seg Es) 0 0 false),
    spelling!("movl %cs,%edi", [0x8c, 0xcf], ReadSeg Long (reg 7) (seg Cs) 0 0 false),
    spelling!("movw %ss,(%esp)", [0x8c, 0x14, 0x24], ReadSeg Long (mem Esp - 1 0) (seg Ss) 0 0 false),
    spelling!("movl %ds,%edx", [0x8c, 0xda], ReadSeg Long (reg 2) (seg Ds) 0 0 false),
    spelling!("movl %ebp,%es", [0x8e, 0xc5], LoadSeg Long (seg Es) (reg 5) 0 0 false),
    spelling!("movw 0x201000(,%eax,1),%es", [0x8e, 0x04, 0x05, 0x00, 0x10, 0x20, 0x00], LoadSeg Long (seg Es) (mem - Eax 1 0x201000) 0 0 false),
    spelling!("movl %eax,%ss", [0x8e, 0xd0], LoadSeg Long (seg Ss) (reg 0) 0 0 false),
    spelling!("movw 0x201000(,%edi,4),%ds", [0x8e, 0x1c, 0xbd, 0x00, 0x10, 0x20, 0x00], LoadSeg Long (seg Ds) (mem - Edi 4 0x201000) 0 0 false),
    spelling!("pushl %es", [0x06], PushSeg Long (seg Es) (-) 0 0 false),
    spelling!("pushl %cs", [0x0e], PushSeg Long (seg Cs) (-) 0 0 false),
    spelling!("pushl %ss", [0x16], PushSeg Long (seg Ss) (-) 0 0 false),
    spelling!("pushl %ds", [0x1e], PushSeg Long (seg Ds) (-) 0 0 false),
    spelling!("popl %es", [0x07], PopSeg Long (seg Es) (-) 0 0 false),
    spelling!("popl %ss", [0x17], PopSeg Long (seg Ss) (-) 0 0 false),
    spelling!("popl %ds", [0x1f], PopSeg Long (seg Ds) (-) 0 0 false),
    spelling!("ljmpl $0x8,$0x10000010", [0xea, 0x10, 0x00, 0x00, 0x10, 0x08, 0x00], FarJump Long (-) (-) 0x10000010 8 false),
    spelling!("inb $0xf8,%al", [0xe4, 0xf8], PortIn Byte (-) (-) 0xf8 0 false),
    spelling!("inl $0xf8,%eax", [0xe5, 0xf8], PortIn Long (-) (-) 0xf8 0 false),
    spelling!("outb %al,$0xf8", [0xe6, 0xf8], PortOut Byte (-) (-) 0xf8 0 false),
    spelling!("outl %eax,$0xf8", [0xe7, 0xf8], PortOut Long (-) (-) 0xf8 0 false),
    spelling!("inb (%dx),%al", [0xec], PortIn Byte (-) (reg 2) 0 0 false),
    spelling!("inl (%dx),%eax", [0xed], PortIn Long (-) (reg 2) 0 0 false),
    spelling!("outb %al,(%dx)", [0xee], PortOut Byte (-) (reg 2) 0 0 false),
    spelling!("outl %eax,(%dx)", [0xef], PortOut Long (-) (reg 2) 0 0 false),
    spelling!("retl", [0xc3], Return Long (-) (-) 0 0 false),
    spelling!("retl $0xfff8", [0xc2, 0xf8, 0xff], Return Long (-) (-) 0xfff8 0 false),
    spelling!("jmpl *%ebx", [0xff, 0xe3], JumpTo Long (reg 3) (-) 0 0 false),
    spelling!("jmpl *0x201000(,%eiz,1)", [0xff, 0x24, 0x25, 0x00, 0x10, 0x20, 0x00], JumpTo Long (mem - - 1 0x201000) (-) 0 0 false),
    spelling!("calll *%esi", [0xff, 0xd6], CallTo Long (reg 6) (-) 0 0 false),
    spelling!("calll *(%esp,%ebx,8)", [0xff, 0x14, 0xdc], CallTo Long (mem Esp Ebx 8 0) (-) 0 0 false),
    spelling!("movl %eax,%cr4", [0x0f, 0x22, 0xe0], WriteControl Long (control 4) (reg 0) 0 0 false),
    spelling!("retl $0x0", [0xc2, 0x00, 0x00], Return Long (-) (-) 0 0 false),
];

#[test]
fn sites_are_decoded(rt: HostRuntime) {
    are_decoded(&rt, &SITES);
}
