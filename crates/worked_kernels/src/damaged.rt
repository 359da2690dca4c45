//! Objects, images and scripts that are cut and spoiled. A line with `--` says what comes.

/// The lengths from one up to another, and the line that `link` prints. The section table begins at 212 and ends the file.
pub const CUT_OBJECTS: &str = "\
0 52 refused 40 object 0 at 0
52 612 refused 40 object 0 at 212
";

/// The lengths of an image from one up to another, and the line that `check` prints. The program headers begin at 52, and
/// the section table ends the file at 8,496.
pub const CUT_IMAGES: &str = "\
0 52 refused 40 at 0
52 116 refused 40 at 52
116 8496 refused 40 at 8256
";

/// A field, the cause by which the object is refused where it is 0xFFFFFFFF, and the place printed. The section headers: null
/// at 212, .text at 252, .data at 292, .bss at 332, .pv_sites at 372, .rel.text at 412, .rel.data at 452, .symtab at 492, .strtab
/// at 532, .shstrtab at 572. Addresses, sh_info and what a null header has are ignored.
pub const OBJECT_FIELDS: &str = "\
20 44 20
28 40 4294967295
32 40 4294967295
-- names
252 50 252
292 50 292
332 50 332
372 50 372
412 50 412
452 50 452
492 50 492
532 50 532
572 50 572
-- types: an allocated section of another type; relocations of no symbol table; no table of names of symbols, or of sections
256 48 256
296 48 296
336 48 336
496 52 436
536 50 516
576 50 50
-- flags: compressed; a second text; an allocated section of another type
260 49 260
300 48 300
340 49 340
380 49 380
420 48 416
460 48 456
500 48 496
540 48 536
580 48 576
-- offsets
268 40 4294967295
308 40 4294967295
388 40 4294967295
428 40 4294967295
468 40 4294967295
508 40 4294967295
548 40 4294967295
588 40 4294967295
-- sizes: the part passes the end; 2^32 zeroed bytes
272 40 52
312 40 72
352 47 352
392 40 72
432 40 96
472 40 96
512 40 96
552 40 128
592 40 136
-- links
436 52 436
476 52 476
516 50 516
-- alignments of data and zeroed bytes
324 48 324
364 48 364
-- sizes of entries
448 47 448
488 47 488
528 47 528
";

/// A field, the cause by which the image is refused where it is 0xFFFFFFFF, and the place printed. The program headers at 52 and
/// 84; the section headers: null at 8,256, .text at 8,296, .data at 8,336, .bss at 8,376, .pv_sites at 8,416, .shstrtab at 8,456.
pub const IMAGE_FIELDS: &str = "\
20 44 20
24 64 0
28 40 4294967295
32 40 4294967295
-- text: type, offset, address, size in the file and in memory
52 48 44
56 40 4294967295
60 60 0
68 40 4096
72 47 72
-- data, and its flags
84 48 44
88 40 4294967295
92 61 0
100 40 8192
104 63 0
108 48 44
-- names; .pv_sites is known by its own
8296 50 8296
8336 50 8336
8376 50 8376
8416 48 48
8456 50 8456
-- the table of names has another type
8460 48 48
-- flags: compressed
8304 49 8304
8344 49 8344
8384 49 8384
8424 49 8424
8464 49 8464
-- offsets
8312 40 4294967295
8352 40 4294967295
8432 40 4294967295
8472 40 4294967295
-- sizes
8316 40 4096
8356 40 8192
8436 40 8192
8476 40 8216
";

/// `cut`, or the byte that stands in the place of another; from where up to where; and the line printed. A byte that is no
/// ASCII in the place of a newline belongs to the line that goes on. 65 is a hexadecimal digit, and no decimal one.
pub const DAMAGED_SCRIPTS: &str = "\
cut 0 1 end steps 0
cut 1 6 refused 80 line 1
cut 6 7 refused 81 line 1
cut 7 13 end steps 0
cut 13 20 refused 80 line 4
cut 20 22 end steps 0
255 0 8 refused 84 line 1
255 8 9 refused 84 line 2
255 9 12 refused 84 line 3
255 12 21 refused 84 line 4
65 0 1 refused 81 line 1
65 1 5 refused 80 line 1
65 5 7 end steps 0
65 7 8 refused 81 line 1
65 8 9 refused 80 line 2
65 9 10 refused 80 line 3
65 10 12 end steps 0
65 12 13 refused 81 line 4
65 13 19 refused 80 line 4
65 19 21 refused 81 line 4
";

/// The script that is damaged.
pub const SCRIPT: &str = "4 rx 41\n\n#x\n5 line 12";
