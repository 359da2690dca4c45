//! Sources, objects and images that are refused, by the line that says why.

/// No object or image is stored where a source or an object is refused; both machines refuse an image or a script.
pub const REFUSED: &str = "\
$ anew an instruction that is refused by its name
$ store S
nop
nop
rdtsc
$ 3 burn S O
refused 21 line 3
$ lost O
$ anew no register
$ store S
movl $1,%eex
$ 3 burn S O
refused 7 line 1
$ lost O
$ anew an instruction in data
$ store S
.data; cli
$ 3 burn S O
refused 26 line 1
$ lost O
$ anew a register that is too short
$ store S
addl $1,%al
$ 3 burn S O
refused 22 line 1
$ lost O
$ anew a number that is too long
$ store S
nop
movw $70000,%ax
$ 3 burn S O
refused 23 line 2
$ lost O
$ anew no instruction
$ store S
nop
frob
$ 3 burn S O
refused 20 line 2
$ lost O
$ anew a name that is defined twice
$ store S
f: nop
f: nop
$ 3 burn S O
refused 12 line 2
$ lost O
$ anew a comment that doesn't end
$ store S
/* never ends
$ 3 burn S O
refused 3 line 1
$ lost O
$ anew a name that is defined nowhere, and one that is defined in two objects
$ store S
call foo
$ store T
.globl f
f: nop
$ 0 burn S O
object text 5 data 0 bss 0 sites 0
$ 0 burn T P
object text 1 data 0 bss 0 sites 0
$ 3 link I O
refused 30 object 0 name foo
$ 3 link I P P
refused 31 object 1 name f
$ lost I
$ anew a jump to the second byte of a site
$ build
_start: jmp f+1
f: cli
$ runs 3 1
refused 70 at 0
$ anew 2,305 frames are needed
$ build
.bss
.zero 8388608
$ runs 3 1
refused 90 need 2305 have 2048
$ anew a script whose steps fall
$ build
nop
$ store B
5 rx 41
3 rx 42
$ runs 3 1
refused 82 line 2
";

/// Of the source S, which has one site more than an object may.
pub const TOO_MANY_SITES: &str = "\
$ 3 burn S O
refused 27 line 262145
$ lost O
";
