//! Kernels whose translations stay, or leave.

/// A page is read, its PTE is changed to another frame, and a MOVSL copies within the page.
pub const COPIES_WITHIN_A_STALE_PAGE: &str = "\
movl $1,0xC0400000
movl $2,0xC0401000
movl $0x20007,0xC0001114
movl $0x00400007,0xC0020000
movl 0x11400000,%eax
movl $0x00401007,0xC0020000
movl $0x11400000,%esi
movl $0x11400004,%edi
movsl
";

/// A page is read, its PTE is changed to another frame, and it is read before and after an INVLPG.
pub const READS_A_STALE_PAGE: &str = "\
movl $1,0xC0400000
movl $2,0xC0401000
movl $0x20007,0xC0001114
movl $0x00400007,0xC0020000
movl 0x11400000,%eax
outl %eax,$0x80
movl $0x00401007,0xC0020000
movl 0x11400000,%eax
outl %eax,$0x80
invlpg 0x11400000
movl 0x11400000,%eax
outl %eax,$0x80
";

/// A page is read, changed to another frame and read again, as above. Its place in the TLB of the bare machine, its number
/// modulo 64, no other page of the kernel has.
pub const READS_A_STALE_PAGE_ALONE: &str = "\
movl $1,0xC0400000
movl $2,0xC0401000
movl $0x20007,0xC0001114
movl $0x00400007,0xC0020014
movl 0x11405000,%eax
outl %eax,$0x80
movl $0x00401007,0xC0020014
movl 0x11405000,%eax
outl %eax,$0x80
invlpg 0x11405000
movl 0x11405000,%eax
outl %eax,$0x80
";

/// Three times 1 is added to each of 40 pages that are 4 MB apart.
pub const GOES_OVER_FORTY_TABLES: &str = "\
movl $0xC0001200,%edi
movl $0x20007,%eax
movl $40,%ecx
a: movl %eax,(%edi)
addl $4,%edi
decl %ecx
jnz a
movl $0x400007,0xC0020000
movl $3,%ebx
b: movl $40,%ecx
movl $0x20000000,%edi
c: incl (%edi)
addl $0x400000,%edi
decl %ecx
jnz c
decl %ebx
jnz b
movl 0x20000000,%eax
outl %eax,$0x80
hlt
";

/// What it shows in 2,000 steps.
pub const SHOWN_BEHIND_FORTY_TABLES: &str = "\
658 out32 0080 00000078
end steps 2000
";

/// Three directories, in the frames 0x20 to 0x22, map the text and the first 4 MB by the tables that the boot made, and the
/// page at 0x20000000 by a table of their own, in the frames 0x23 to 0x25, to a frame of their own, 0x30 to 0x32. Three times
/// each space in turn adds 1 to its page and shows it. EBX is what CR3 is loaded with.
pub const GOES_ROUND_THREE_SPACES: &str = "\
_start: movl $0x14003,0xC0020100
movl $0x23003,0xC0020200
movl $0x4003,0xC0020C00
movl $0x30003,0xC0023000
movl $0x14003,0xC0021100
movl $0x24003,0xC0021200
movl $0x4003,0xC0021C00
movl $0x31003,0xC0024000
movl $0x14003,0xC0022100
movl $0x25003,0xC0022200
movl $0x4003,0xC0022C00
movl $0x32003,0xC0025000
movl $0x10,0xC0030000
movl $0x20,0xC0031000
movl $0x30,0xC0032000
movl $0x20000,%ebx
movl $3,%ecx
round: movl $3,%edx
space: movl %ebx,%cr3
incl 0x20000000
movl 0x20000000,%eax
outl %eax,$0x80
addl $0x1000,%ebx
decl %edx
jnz space
";

/// The first space's value of CR3 follows the third's: the same as before.
pub const TO_THE_SAME: &str = "\
addl $-0x3000,%ebx
";

/// Or one that was never loaded, for the same directory: bits 3 and 4 of CR3, of which each round has others, have no
/// effect.
pub const TO_A_NEW_VALUE: &str = "\
addl $-0x2FF8,%ebx
";

/// From the third space the first one's table is changed, so that both have one frame. The first adds 1 to its page and
/// shows it, the third shows it too, and then the word that was changed.
pub const SHARES_A_PAGE: &str = "\
decl %ecx
jnz round
movl $0x32003,0xC0023000
movl %ebx,%cr3
incl 0x20000000
movl 0x20000000,%eax
outl %eax,$0x80
leal 0x2000(%ebx),%eax
movl %eax,%cr3
movl 0x20000000,%eax
outl %eax,$0x80
movl 0xC0023000,%eax
outl %eax,$0x80
";

/// After a load of CR3 stand two NOPs and after an OUT three. So a space takes 12 steps with its OUT as the sixth, a
/// round 1 + 36 + 3, and round r begins at 17 + 40 r: space s shows its page at 23 + 40 r + 12 s. The change is step
/// 137. What is shown then is 0x33 of the third space and 1, and the word with the accessed and the dirty flag, which the
/// first space's walk set in it.
pub const SHOWN_BY_SPACES: &str = "\
23 out32 0080 00000011
35 out32 0080 00000021
47 out32 0080 00000031
63 out32 0080 00000012
75 out32 0080 00000022
87 out32 0080 00000032
103 out32 0080 00000013
115 out32 0080 00000023
127 out32 0080 00000033
143 out32 0080 00000034
152 out32 0080 00000034
157 out32 0080 00032063
end steps 2000
";
