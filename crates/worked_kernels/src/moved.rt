//! Kernels that are saved and go on from what was saved.

/// A kernel that sends a byte, saved after three steps at C.
pub const IS_SAVED: &str = "\
$ build
_start: movl $0x3f8,%edx; movb $0x48,%al; outb %al,%dx; hlt
$ 0 save --wedge I B 2048 3 C
2 out8 03f8 48
2 tx 48
saved steps 3
";

/// It goes on from C on either machine, and not to fewer steps.
pub const GOES_ON: &str = "\
$ 0 continue --bare I B C 8
end steps 8
$ 0 continue --wedge I B C 8
end steps 8
$ 3 continue --bare I B C 2
refused 113 at 8
$ 3 save --wedge I B from C 2 N
refused 113 at 8
$ lost N
$ 0 save --bare I B 2048 0 N
saved steps 0
$ 0 continue --wedge I B N 8
2 out8 03f8 48
2 tx 48
end steps 8
";

/// The file and the name for what is saved after it may be one.
pub const SAVED_IN_PLACE: &str = "\
$ copy N C
$ 0 save --bare I B from N 5 N
saved steps 5
$ 3 save --bare I B from N 3 N
refused 113 at 8
$ 0 continue --wedge I B N 7
end steps 7
$ 5 continue --bare I B missing 8
$ 3 continue --bare I B I 8
refused 110 at 0
";

/// What stands in the first 256 bytes of C before the board: an offset and bytes. All others before the board are 0.
pub const HEAD: &str = "\
0 50 56 43 31 00 08 00 00 03
16 48 00 80 00 00 00 00 00 f8 03 00 00 00 10 10 00 00 00 10 c0
48 08 00 00 10 02 00 00 00
56 11 00 00 80
64 00 10 00 00
72 00 20 00 c0
88 27 00
96 10 00 00 00 08 00 00 00 10 00 00 00 10 00 00 00
";

/// What stands in C after these: an offset and bytes of the board, of which all others are 0, and of the memory where the text
/// begins.
pub const BEHIND_HEAD: &str = "\
132 ff
139 ff
1048832 ba f8 03 00 00 b0 48 ee 90 90 90 90 f4 90 90 90 90 eb fe
";

/// The offset of a byte of C, another value for it, and the place at which the file is refused then. So it is where no bit of
/// the board is set.
pub const SPOILED: &str = "\
0 0 0
3 50 0
5 7 4
6 1 4
13 2 8
52 0 52
53 64 52
55 128 52
56 16 56
56 81 56
59 0 56
59 192 56
64 1 64
65 17 64
68 32 68
94 2 94
95 1 95
95 3 103
96 3 98
98 1 98
99 1 99
102 1 102
103 3 103
106 1 106
107 3 107
111 2 111
112 2 112
113 2 113
114 1 114
127 128 127
128 4 129
128 5 128
129 1 129
130 4 139
133 1 133
134 2 134
135 5 135
136 1 136
140 1 140
141 2 141
142 3 142
143 1 143
144 1 144
144 2 152
148 2 148
152 1 152
160 2 160
162 16 162
166 17 166
182 1 167
183 1 183
191 1 183
192 1 192
255 1 255
";

/// By its place among the kernels that receive interrupts, or those with users: a count of steps, an offset of what is saved then,
/// and the bytes there. A count of which the high byte is awaited, and the count that runs, of which one step is done; a byte that waits
/// in the serial port; a processor after STI, and one that is halted; a user.
pub const BETWEEN_STEPS: &str = "\
1 38 142 02 02
1 49 142 01 00 02 00 00 00 00 00 00 00 0f 00
3 5 166 01 41
0 35 112 00 01
0 36 112 01 00
4 40 95 03
";

/// Over an image whose IRET to level 3 loads flags with IF 0: a monitor doesn't run this user, and reports it.
pub const USER_WITHOUT_INTERRUPTS: &str = "\
$ 0 save --bare I B 2048 40 C
saved steps 40
$ 3 continue --wedge I B C 50
refused 112 at 52
$ 3 continue --wedge I B C 30
refused 112 at 52
$ 3 continue --bare I B C 30
refused 113 at 8
$ 0 continue --bare I B C 41
end steps 41
$ 4 save --wedge I B 2048 40 N
end steps 39 stop 15 UserFlags
$ lost N
";

/// Of a source S: the text has all of the memory past its first megabyte, and goes on from what was saved.
pub const FILLS_MEMORY: &str = "\
$ store B
$ 0 burn S O
object text 7340030 data 0 bss 0 sites 0
$ 0 link I O
image text 7340032 data 0 bss 0 sites 0
$ 0 save --bare I B 2048 0 C
saved steps 0
$ 0 continue --bare I B C 3
end steps 3
$ 0 continue --wedge I B C 3
end steps 3
";

/// Of a source with one byte more, whose text needs a further page. In what was saved of the other text that one's loop stands
/// where this one has a NOP.
pub const PASSES_MEMORY: &str = "\
$ 0 burn S O
object text 7340031 data 0 bss 0 sites 0
$ 0 link J O
image text 7340033 data 0 bss 0 sites 0
$ 3 save --wedge J B 2048 0 D
refused 90 need 2049 have 2048
$ lost D
$ 0 save --wedge J B 2049 0 D
saved steps 0
$ 0 continue --bare J B D 3
end steps 3
$ 3 continue --bare J B C 3
refused 111 at 7340030
";

/// What was saved of it has lost its last page, and with it the text's last byte.
pub const LACKS_A_BYTE: &str = "\
$ 3 continue --bare J B D 3
refused 111 at 7340032
$ 3 continue --wedge J B D 3
refused 111 at 7340032
$ 3 save --wedge J B from D 3 N
refused 111 at 7340032
$ lost N
";
