//! Runs whose translations are listed in a certificate.

/// A kernel that a monitor stops.
pub const READS_ITS_TEXT: &str = "_start: movl 0x10000000,%eax\n";

/// The verdict; `s` where the kernel sends a byte, and `t` where it reads its text; the bound; how many choices, and each of
/// them: its step, its page and its kind; and the text, whose lines end at each `/`. A line with `--` says what comes.
pub const JUDGED: &str = "\
Yes|s|8|0|2 out8 03f8 48/2 tx 48/end steps 8/
Differs(1)|s|8|0|2 out8 03f8 49/2 tx 48/end steps 8/
BadEntry(0)|s|8|1;0 262144 2|2 out8 03f8 48/2 tx 48/end steps 8/
-- A bad choice behind a line that differs comes first.
BadEntry(1)|s|8|2;1 0 1;5 262144 2|2 out8 03f8 49/2 tx 48/end steps 8/
-- One of a step that isn't reached has no effect.
Yes|s|8|1;8 262144 2|2 out8 03f8 48/2 tx 48/end steps 8/
-- The text's page was walked for the first fetch, so before step 1 it may be added.
Yes|s|8|2;1 65536 0;1 65536 2|2 out8 03f8 48/2 tx 48/end steps 8/
Differs(3)|s|8|0|2 out8 03f8 48/2 tx 48/end steps 8
Differs(2)|s|8|0|2 out8 03f8 48/
Differs(4)|s|8|0|2 out8 03f8 48/2 tx 48/end steps 8//
Yes|s|1099511627776|0|2 out8 03f8 48/2 tx 48/end steps 1099511627776/
YesBefore(TextTouched)|t|8|0|end steps 0 stop 9 TextTouched/
YesBefore(CodeIsTable)|s|8|0|2 out8 03f8 48/2 tx 48/end steps 3 stop 16 CodeIsTable/
Differs(1)|s|8|0|2 out8 03f8 48/2 tx 48/end steps 2 stop 16 CodeIsTable/
Differs(3)|s|8|0|2 out8 03f8 48/2 tx 48/end steps 9 stop 16 CodeIsTable/
";

/// A page is read in step 4 and shown in step 5. Its PTE is changed in step 9, and CR0.WP in step 14; in step 17 it is read
/// again. An OUT has three NOPs after it, and a MOV of a control register two.
pub const CHANGES_WRITE_PROTECTION: &str = "\
_start: movl $1,0xC0400000
movl $2,0xC0401000
movl $0x20007,0xC0001114
movl $0x00400007,0xC0020000
movl 0x11400000,%eax
outl %eax,$0x80
movl $0x00401007,0xC0020000
movl %cr0,%eax
xorl $0x10000,%eax
movl %eax,%cr0
movl 0x11400000,%eax
outl %eax,$0x80
";

/// What it shows in 20 steps. A monitor drops all translations after the change of CR0.WP, so the second read finds the
/// changed word.
pub const SHOWN_AFTER_THE_CHANGE: &str = "\
5 out32 0080 00000001
18 out32 0080 00000002
end steps 20
";

/// What is said of that text by one entry: its step, its page and its kind. The page is the one that is read, 0x11400. On the bare
/// machine its translation stays, unless it is dropped between the two reads, or all are.
pub const WITH_ONE_DROP: &str = "\
yes|15 0 1
yes|5 0 1
yes|17 0 1
yes|15 70656 0
no line 2|4 0 1
no line 2|18 0 1
no line 2|15 70657 0
";

/// Twice adds 1 to a page that 600 PDEs lead to, by each of them, and shows it. Each PDE's table takes a frame of the
/// monitor's pool. Of its 512 frames the roots hold two, and the text and the first 4 MB one each. So 7 are left after the 501st
/// addition, and all is dropped before the next, which is step 2407 + 4 * 501. At the round's end 99 tables and the text's are
/// held, so that 410 frames are left, and 7 after the 403rd addition of the second round, whose first is step 4811: all is
/// dropped before step 4811 + 4 * 403.
pub const GOES_OVER_600_TABLES: &str = "\
_start: movl $0xC0001200,%edi
movl $0x20007,%eax
movl $600,%ecx
a: movl %eax,(%edi)
addl $4,%edi
decl %ecx
jnz a
movl $0x400007,0xC0020000
movl $2,%ebx
b: movl $600,%ecx
movl $0x20000000,%edi
c: incl (%edi)
addl $0x400000,%edi
decl %ecx
jnz c
decl %ebx
jnz b
movl 0x20000000,%eax
outl %eax,$0x80
hlt
";

/// What it shows in 8,000 steps.
pub const SHOWN_AFTER_600_TABLES: &str = "\
7214 out32 0080 000004b0
end steps 8000
";

/// The place printed for its certificate where the byte there is 255. The first entry's step is 4411, which is 0x113B, and
/// the second's 6423, 0x1917: a step that falls is reported at its first byte, and a page beside kind 1 at the kind.
pub const SPOILED_SECOND: &str = "\
9 24
10 24
15 24
32 36
35 32
36 36
37 37
39 39
";

/// Two directories, in the frames 0x20 and 0x21, map the text and the first 4 MB by the tables that the boot made, and the page
/// at 0x11400000 by a table of their own, in the frames 0x22 and 0x23. In each the page is read, in step 16 and 34, its PTE is
/// changed, and CR0.WP, in step 22 and 40; the page is read again in step 25 and 43, and shown.
pub const CHANGES_IN_TWO_SPACES: &str = "\
_start: movl $0x14003,0xC0020100
movl $0x4003,0xC0020C00
movl $0x22003,0xC0020114
movl $0x14003,0xC0021100
movl $0x4003,0xC0021C00
movl $0x23003,0xC0021114
movl $0x30003,0xC0022000
movl $0x32003,0xC0023000
movl $1,0xC0030000
movl $2,0xC0031000
movl $3,0xC0032000
movl $4,0xC0033000
movl $0x20000,%eax
movl %eax,%cr3
movl 0x11400000,%eax
movl $0x31003,0xC0022000
movl %cr0,%eax
xorl $0x10000,%eax
movl %eax,%cr0
movl 0x11400000,%eax
outl %eax,$0x80
movl $0x21000,%eax
movl %eax,%cr3
movl 0x11400000,%eax
movl $0x33003,0xC0023000
movl %cr0,%eax
xorl $0x10000,%eax
movl %eax,%cr0
movl 0x11400000,%eax
outl %eax,$0x80
";

/// What it shows in 48 steps: the changed words, since a monitor drops all translations after a change of CR0.WP.
pub const SHOWN_IN_TWO_SPACES: &str = "\
26 out32 0080 00000002
44 out32 0080 00000004
end steps 48
";

/// What is said of that text by two entries. On the bare machine the translation of a page that was read stays, unless it, or all,
/// is dropped before the page is read again. A load of CR3, in step 13 and 31, drops all before. A page is added by a walk of the
/// directory that CR3 has then: before step 30 the first space's, in which it was read, and before step 32 the second's, in which
/// it wasn't.
pub const WITH_TWO_DROPS: &str = "\
yes|23 0 1|41 0 1
yes|17 0 1|35 0 1
yes|25 70656 0|43 70656 0
no line 1|26 0 1|41 0 1
no line 2|23 0 1|31 0 1
no line 2|23 0 1|34 0 1
no line 2|23 0 1|44 0 1
no line 2|23 0 1|41 70657 0
no line 2|23 0 1|30 70656 2
no entry 1|23 0 1|32 70656 2
no entry 0|25 70656 2|41 0 1
";

/// The place printed for its certificate where the byte there is 255: a step that falls, a page beside kind 1, a page that is too
/// large, and a kind.
pub const SPOILED_SPACES: &str = "\
8 24
15 24
32 36
35 32
36 36
39 39
";

/// Of an image that needs 2,305 frames and a certificate C: that is read before, and X is none.
pub const NEEDS_MORE_FRAMES: &str = "\
$ build
.bss
.zero 8388608
$ store T
$ 3 prove I B 2048 8 N
refused 90 need 2305 have 2048
$ lost N
$ copy X S
$ 3 replay I B 2048 8 X T
refused 120 at 0
$ 3 replay I B 2048 8 C T
refused 90 need 2305 have 2048
";
