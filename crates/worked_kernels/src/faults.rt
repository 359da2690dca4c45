//! Loads, stores and puts that fail or are never made, and words of no form, over a source S, its object O, its image I, an
//! empty script B, which is an empty schedule and text too, a certificate of no entry E, and X, which is no file of these.

/// The source S.
pub const HALTS: &str = "_start: hlt\n";

/// Lines: the call of the files that fails, counted from 0, or `-` for none; the put that fails; the status; how many calls of
/// the files are made; the command. No put fails: where nothing is to be printed the first would, and after a refusal any
/// other. Only `prove` has printed a line where its store fails. A line with `--` says what comes.
pub const CALLS: &str = "\
-- Of each command each of its calls fails, and is the last; the store behind what was saved is tried with checkpoints.
0 0 5 1 burn S P
1 0 6 2 burn S P
0 0 5 1 link P O O
1 0 5 2 link P O O
1 0 6 2 link P O
0 0 5 1 check I
0 0 5 1 run --bare I B 2048 8
1 0 5 2 run --bare I B 2048 8
0 0 5 1 run --wedge I B 2048 8
1 0 5 2 run --wedge I B 2048 8
0 0 5 1 share B 2048 I B
1 0 5 2 share B 2048 I B
2 0 5 3 share B 2048 I B
3 0 5 4 share B 2048 I B I B
4 0 5 5 share B 2048 I B I B
0 0 5 1 save --bare I B 2048 8 P
1 0 5 2 save --bare I B 2048 8 P
2 0 6 3 save --bare I B 2048 8 P
0 0 5 1 save --wedge I B 2048 8 P
1 0 5 2 save --wedge I B 2048 8 P
2 0 6 3 save --wedge I B 2048 8 P
0 0 5 1 save --bare I B from X 8 P
1 0 5 2 save --bare I B from X 8 P
2 0 5 3 save --bare I B from X 8 P
0 0 5 1 save --wedge I B from X 8 P
1 0 5 2 save --wedge I B from X 8 P
2 0 5 3 save --wedge I B from X 8 P
0 0 5 1 continue --bare I B X 8
1 0 5 2 continue --bare I B X 8
2 0 5 3 continue --bare I B X 8
0 0 5 1 continue --wedge I B X 8
1 0 5 2 continue --wedge I B X 8
2 0 5 3 continue --wedge I B X 8
0 0 5 1 prove I B 2048 8 P
1 0 5 2 prove I B 2048 8 P
2 1 6 3 prove I B 2048 8 P
0 0 5 1 replay I B 2048 8 E B
1 0 5 2 replay I B 2048 8 E B
2 0 5 3 replay I B 2048 8 E B
3 0 5 4 replay I B 2048 8 E B
-- Nothing is loaded behind a refusal or a missing name.
- 1 3 1 run --bare X missing 2048 1
- 0 5 1 run --bare missing X 2048 1
- 0 5 2 run --bare I missing 2048 1
- 1 3 2 run --bare I X 2048 1
- 1 3 1 run --wedge X missing 2048 1
- 1 3 2 run --wedge I X 2048 1
- 1 3 1 link P X missing
- 0 5 1 link P missing O
- 0 5 2 link P O missing X
- 1 3 2 link P O X missing
- 0 5 1 check missing
- 0 5 1 burn missing P
- 0 5 1 share missing 2048 X B
- 0 5 2 share B 2048 missing X
- 1 3 2 share B 2048 X missing
- 0 5 3 share B 2048 I missing X B
- 1 3 3 share B 2048 I X missing B
- 0 5 4 share B 2048 I B missing X
- 1 3 4 share B 2048 I B X missing
- 0 5 1 save --bare missing X 2048 1 P
- 1 3 1 save --bare X missing 2048 1 P
- 0 5 2 save --wedge I missing 2048 1 P
- 1 3 2 save --wedge I X 2048 1 P
- 1 3 1 save --bare X missing from missing 1 P
- 1 3 2 save --bare I X from missing 1 P
- 0 5 3 save --bare I B from missing 1 P
- 1 3 3 save --wedge I B from X 1 P
- 1 3 1 continue --bare X missing missing 1
- 0 5 2 continue --bare I missing X 1
- 1 3 2 continue --wedge I X missing 1
- 0 5 3 continue --bare I B missing 1
- 1 3 3 continue --wedge I B X 1
- 1 3 1 prove X missing 2048 1 P
- 0 5 2 prove I missing 2048 1 P
- 1 3 2 prove I X 2048 1 P
- 1 3 1 replay X missing 2048 1 missing missing
- 0 5 2 replay I missing 2048 1 X missing
- 1 3 2 replay I X 2048 1 missing missing
- 0 5 3 replay I B 2048 1 missing missing
- 1 3 3 replay I B 2048 1 X missing
- 0 5 4 replay I B 2048 1 E missing
-- A schedule is read last.
- 0 5 2 share X 2048 missing B
- 0 5 3 share X 2048 I missing
- 1 3 3 share X 2048 I B
- 1 3 5 share X 2048 I B I B
-- Words of no form.
- 0 2 0 burn S
- 0 2 0 burn '' O
- 0 2 0 link I
- 0 2 0 link I O ''
- 0 2 0 check I I
- 0 2 0 check ''
- 0 2 0 run --fast I B 2048 1
- 0 2 0 run --bare I B 2047 1
- 0 2 0 run --bare I B 02048 1
- 0 2 0 run --bare I B 2048 1099511627777
- 0 2 0 run --wedge I B 2048
- 0 2 0 run --wedge I B 16385 1
- 0 2 0 run --wedge I B 2048 01
- 0 2 0 work
- 0 2 0 work 07
- 0 2 0 work 4294967296
- 0 2 0 work 7 7
- 0 2 0 share B 2048
- 0 2 0 share C 2048 I
- 0 2 0 share B 2048 I B I
- 0 2 0 share B 2048 I B I B I B I B I B
- 0 2 0 share B 2047 I B
- 0 2 0 share B 16385 I B
- 0 2 0 share '' 2048 I B
- 0 2 0 share B 2048 I ''
- 0 2 0 save I B 2048 5 N
- 0 2 0 save --fast I B 2048 5 N
- 0 2 0 save --bare I B 2048 5
- 0 2 0 save --bare I B 2047 5 N
- 0 2 0 save --wedge I B 16385 5 N
- 0 2 0 save --bare I B 2048 1099511627777 N
- 0 2 0 save --bare I B 2048 5 ''
- 0 2 0 save --bare I B to C 5 N
- 0 2 0 save --bare I B 2048 C 5 N
- 0 2 0 save --bare I B from C 5
- 0 2 0 save --bare I B from C 5 N N
- 0 2 0 save --fast I B from C 5 N
- 0 2 0 save --bare I B from C 1099511627777 N
- 0 2 0 save --bare I B from '' 5 N
- 0 2 0 save --wedge I B from C 5 ''
- 0 2 0 continue I B C 8
- 0 2 0 continue --fast I B C 8
- 0 2 0 continue --bare I B C
- 0 2 0 continue --bare I B 2048 C 8
- 0 2 0 continue --bare I B from C 8
- 0 2 0 continue --bare I B '' 8
- 0 2 0 continue --wedge I B C 08
- 0 2 0 continue --wedge I B C 1099511627777
- 0 2 0 prove I B 2048 8
- 0 2 0 prove --wedge I B 2048 8 P
- 0 2 0 prove I B 2047 8 P
- 0 2 0 prove I B 2048 1099511627777 P
- 0 2 0 prove I B 2048 8 ''
- 0 2 0 replay I B 2048 8 E
- 0 2 0 replay --bare I B 2048 8 E B
- 0 2 0 replay I B 16385 8 E B
- 0 2 0 replay I B 2048 8 '' B
- 0 2 0 replay I B 2048 8 E ''
- 0 2 0 --help
- 0 2 0
";

/// What the sink takes of each command, by the put that fails.
pub const PUTS: &str = "\
$ store T
_start: movl $0x3f8,%edx; movb $0x48,%al; outb %al,%dx; hlt
$ 0 burn T U
object text 17 data 0 bss 0 sites 2
$ 0 link K U
image text 19 data 0 bss 0 sites 2
$ cut 0 6 burn S P
$ cut 1 0 burn S P
object text 5 data 0 bss 0 sites 1
$ cut 0 6 link P O
$ cut 1 0 link P O
image text 7 data 0 bss 0 sites 1
$ cut 0 6 check I
$ cut 0 6 check X
$ cut 1 3 check X
refused 40 at 1094795585
$ cut 0 6 burn X Q
$ cut 0 6 run --bare K B 2048 8
$ cut 1 6 run --bare K B 2048 8
2 out8 03f8 48
$ cut 2 6 run --bare K B 2048 8
2 out8 03f8 48
2 tx 48
$ cut 3 0 run --bare K B 2048 8
2 out8 03f8 48
2 tx 48
end steps 8
$ store D
0 8
$ cut 0 6 share D 2048 K B
$ cut 2 6 share D 2048 K B
0 2 out8 03f8 48
$ cut 4 6 share D 2048 K B
0 2 out8 03f8 48
0 2 tx 48
$ cut 6 0 share D 2048 K B
0 2 out8 03f8 48
0 2 tx 48
0 end steps 8
$ cut 0 6 prove K B 2048 8 R
$ cut 2 6 prove K B 2048 8 R
2 out8 03f8 48
2 tx 48
$ lost R
$ cut 3 6 prove K B 2048 8 R
2 out8 03f8 48
2 tx 48
end steps 8
$ held R
$ cut 0 6 replay K B 2048 8 R B
$ cut 1 0 replay K B 2048 8 R B
no line 1
$ : What was made is stored before its line is put; what is refused is not.
$ held P
$ lost Q
";

/// What the sink takes of commands that save what is reached, or go on from what was saved, by the put that fails.
pub const SAVED_PUTS: &str = "\
$ build
_start: movl $0x3f8,%edx; movb $0x48,%al; outb %al,%dx; hlt
$ 0 save --bare I B 2048 0 C
saved steps 0
$ cut 0 6 continue --bare I B C 8
$ cut 1 6 continue --wedge I B C 8
2 out8 03f8 48
$ cut 2 6 continue --bare I B C 8
2 out8 03f8 48
2 tx 48
$ cut 3 0 continue --wedge I B C 8
2 out8 03f8 48
2 tx 48
end steps 8
$ cut 0 6 save --bare I B 2048 8 N
$ cut 1 6 save --bare I B 2048 8 N
2 out8 03f8 48
$ lost N
$ cut 2 6 save --bare I B 2048 8 N
2 out8 03f8 48
2 tx 48
$ held N
$ cut 3 0 save --bare I B 2048 8 N
2 out8 03f8 48
2 tx 48
saved steps 8
$ cut 0 6 save --wedge I B from C 8 M
$ cut 1 6 save --wedge I B from C 8 M
2 out8 03f8 48
$ lost M
$ cut 2 6 save --wedge I B from C 8 M
2 out8 03f8 48
2 tx 48
$ held M
$ cut 3 0 save --wedge I B from C 8 M
2 out8 03f8 48
2 tx 48
saved steps 8
";

/// A refusal is one put: a second one would fail.
pub const REFUSALS: &str = "\
$ store T
.globl f
f: nop
$ 0 burn T P
object text 1 data 0 bss 0 sites 0
$ cut 0 6 burn X Q
$ cut 1 3 burn X Q
refused 20 line 1
$ cut 0 6 link Q X
$ cut 1 3 link Q X
refused 40 object 0 at 1094795585
$ cut 0 6 link Q O X
$ cut 1 3 link Q O X
refused 40 object 1 at 1094795585
$ cut 0 6 link Q P P
$ cut 1 3 link Q P P
refused 31 object 1 name f
$ cut 0 6 run --bare X B 2048 8
$ cut 1 3 run --bare X B 2048 8
refused 40 at 1094795585
$ cut 0 6 share X 2048 I B
$ cut 1 3 share X 2048 I B
refused 100 line 1
$ cut 0 6 save --bare I X 2048 8 Q
$ cut 1 3 save --bare I X 2048 8 Q
refused 80 line 1
$ cut 0 6 save --wedge I B from X 8 Q
$ cut 1 3 save --wedge I B from X 8 Q
refused 110 at 0
$ cut 0 6 continue --bare I B X 8
$ cut 1 3 continue --bare I B X 8
refused 110 at 0
$ cut 0 6 prove X B 2048 8 Q
$ cut 1 3 prove X B 2048 8 Q
refused 40 at 1094795585
$ cut 0 6 replay I B 2048 8 X B
$ cut 1 3 replay I B 2048 8 X B
refused 120 at 0
$ lost Q
";

/// A sink that fails ends both runs.
pub const ENDED: &str = "\
$ build
_start: movl $0x3f8,%edx; movb $0x48,%al; outb %al,%dx; hlt
$ cut 0 6 run --bare I B 2048 8
$ cut 0 6 run --wedge I B 2048 8
$ cut 1 6 run --bare I B 2048 8
2 out8 03f8 48
$ cut 1 6 run --wedge I B 2048 8
2 out8 03f8 48
$ cut 2 6 run --bare I B 2048 8
2 out8 03f8 48
2 tx 48
$ cut 2 6 run --wedge I B 2048 8
2 out8 03f8 48
2 tx 48
$ cut 3 0 run --bare I B 2048 8
2 out8 03f8 48
2 tx 48
end steps 8
$ cut 3 0 run --wedge I B 2048 8
2 out8 03f8 48
2 tx 48
end steps 8
";

/// A source may become its own object.
pub const OWN_OBJECT: &str = "\
$ 0 burn S S
object text 5 data 0 bss 0 sites 1
$ 0 link S S
image text 7 data 0 bss 0 sites 1
";

/// The status and the words of commands that follow one another over files and a sink that never fail.
pub const NEVER_FAILING: &str = "\
0 burn S O
0 link I O
0 check I
0 run --bare I B 2048 8
0 run --bare I B 16384 100
0 run --wedge I B 16384 100
0 share B 2048 I B I B
0 save --wedge I B 2048 3 C
0 save --bare I B from C 5 C
0 continue --wedge I B C 8
0 prove I B 2048 8 E
0 replay I B 2048 8 E B
3 continue --bare I B S 8
3 run --bare S missing 2048 8
3 link no S missing
";
