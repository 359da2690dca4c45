//! Annotations by their places and by their gaps, and texts so long that they are written with gaps.

/// The first worked source.
pub const SENDS_A_BYTE: &str = "\
_start:
movl $0x3f8,%edx
movb $0x48,%al
outb %al,%dx
hlt
";

/// An image I with annotations by gaps.
pub const BY_GAPS: &str = "\
$ store B
$ 0 check I
accepted text 19 data 0 bss 0 sites 2 format 2
$ runs 0 8
2 out8 03f8 48
2 tx 48
end steps 8
";

/// With one site of two.
pub const ONE_SITE: &str = "\
$ store B
$ 3 check I
refused 68 at 12
$ runs 3 8
refused 68 at 12
";

/// With annotations of two bytes.
pub const CUT_SITES: &str = "\
$ store B
$ 3 check I
refused 69 at 2
$ runs 3 8
refused 69 at 2
";

/// A source S of 2,000 pages.
pub const LONG: &str = "\
$ store B
$ 0 burn S O
object text 8192000 data 0 bss 0 sites 0
$ 0 link I O
image text 8192002 data 0 bss 0 sites 0
$ 0 check I
accepted text 8192002 data 0 bss 0 sites 0 format 2
$ runs 3 3
refused 90 need 2257 have 2048
$ 0 run --bare I B 4096 3
end steps 3
$ 0 run --wedge I B 4096 3
end steps 3
";
