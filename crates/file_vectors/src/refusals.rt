//! Images at the limits of what is accepted, and images that are wrong, some by two causes.

use crate::agree::{list, put_times};
use crate::images::{Parts, image, is_told};
use crate::vectors::{NO_SITES, WORKED_ENDED, WORKED_SITES};
use std::alloc::Global;
use std::process::Abort;

/// One site of CLI at offset 5.
const CLI_SITES: &[u8] = b"PVS1\x01\0\0\0\x05\0\0\0\x01\x01\x05\0";

/// One of CLI, of LIDT, and of STI before HLT, at the beginning.
const CLI_FIRST: &[u8] = b"PVS1\x01\0\0\0\0\0\0\0\x01\x01\x05\0";

const LIDT_FIRST: &[u8] = b"PVS1\x01\0\0\0\0\0\0\0\x0B\x07\x07\0";

const PAIR_FIRST: &[u8] = b"PVS1\x01\0\0\0\0\0\0\0\x03\x02\x05\0";

/// Annotations without their last byte.
const CUT: &[u8] = b"PVS1\0\0\0";

/// A text, its annotations, and the answer: the number of the refusal and its place, 0 where it is accepted.
type Told = (&'static [u8], &'static [u8], u32, u32);

static TEXTS: [Told; 33] = [
    // an empty source
    (&[0xEB, 0xFE], NO_SITES, 0, 0),
    // RDTSC; bytes that are no instruction; a cut one
    (&[0x0F, 0x31, 0xEB, 0xFE], NO_SITES, 65, 0),
    (&[0x90, 0x0F, 0xFF, 0xEB, 0xFE], NO_SITES, 66, 1),
    (&[0x90, 0xB8, 0, 0], NO_SITES, 66, 1),
    // no end; nothing at all
    (&[0x90, 0x90], NO_SITES, 67, 1),
    (&[], NO_SITES, 62, 0),
    // a branch to the second byte of a site, and to the site
    (
        &[0xE9, 1, 0, 0, 0, 0xFA, 0x90, 0x90, 0x90, 0x90, 0xEB, 0xFE],
        CLI_SITES,
        70,
        0,
    ),
    (
        &[0xE9, 0, 0, 0, 0, 0xFA, 0x90, 0x90, 0x90, 0x90, 0xEB, 0xFE],
        CLI_SITES,
        0,
        0,
    ),
    // a branch into an instruction
    (&[0xEB, 1, 0xB8, 0, 0, 0, 0, 0xEB, 0xFE], NO_SITES, 70, 0),
    // the first site alone; its head, cut; no site; a site too many, below the first one
    (
        WORKED_ENDED,
        b"PVS1\x01\0\0\0\x07\0\0\0\x14\x01\x05\0",
        68,
        12,
    ),
    (WORKED_ENDED, b"PV", 69, 2),
    (WORKED_ENDED, NO_SITES, 68, 7),
    (WORKED_ENDED, CLI_SITES, 68, 5),
    // CLI in five bytes, and in four
    (&[0xFA, 0x90, 0x90, 0x90, 0x90, 0xEB, 0xFE], CLI_FIRST, 0, 0),
    (&[0xFA, 0x90, 0x90, 0x90, 0xEB, 0xFE], CLI_FIRST, 68, 0),
    // LIDT has seven of its own
    (
        &[0x0F, 0x01, 0x1D, 0, 0, 0, 0, 0xEB, 0xFE],
        LIDT_FIRST,
        0,
        0,
    ),
    // a pair's HLT has no NOPs of its own, and needs the third of the pair's
    (
        &[0xFB, 0xF4, 0x90, 0x90, 0x90, 0xEB, 0xFE],
        PAIR_FIRST,
        0,
        0,
    ),
    (&[0xFB, 0xF4, 0x90, 0x90, 0xEB, 0xFE], PAIR_FIRST, 68, 0),
    // RDTSC after bytes that are no instruction, and before them
    (&[0x0F, 0xFF, 0x0F, 0x31], CUT, 66, 0),
    (&[0x0F, 0x31, 0x0F, 0xFF], CUT, 65, 0),
    // no end; annotations that are cut; CLI without NOPs, after a branch that leads nowhere
    (&[0xEB, 0x7F, 0xFA, 0x90], CUT, 67, 3),
    (&[0xEB, 0x7F, 0xFA, 0xEB, 0xFE], CUT, 69, 7),
    (&[0xEB, 0x7F, 0xFA, 0xEB, 0xFE], NO_SITES, 68, 2),
    (&[0xEB, 0x7F, 0x90, 0xEB, 0xFE], NO_SITES, 70, 0),
    // the first of two branches that lead nowhere
    (&[0x90, 0xEB, 0x7F, 0xEB, 0x7F, 0xEB, 0xFE], NO_SITES, 70, 1),
    // of a site that isn't annotated and one that lacks its NOPs, the lower
    (
        &[0xFA, 0x90, 0x90, 0x90, 0x90, 0xFA, 0xEB, 0xFE],
        NO_SITES,
        68,
        0,
    ),
    (&[0x90, 0xFA, 0xEB, 0xFE], CLI_SITES, 68, 1),
    // a JMP between a NOP and the end at 3, to its second byte, to itself, over itself, and beyond the first and last instruction
    (&[0x90, 0xEB, 0xFC, 0xEB, 0xFE], NO_SITES, 70, 1),
    (&[0x90, 0xEB, 0xFD, 0xEB, 0xFE], NO_SITES, 0, 0),
    (&[0x90, 0xEB, 0xFE, 0xEB, 0xFE], NO_SITES, 0, 0),
    (&[0x90, 0xEB, 0, 0xEB, 0xFE], NO_SITES, 0, 0),
    (&[0x90, 0xEB, 1, 0xEB, 0xFE], NO_SITES, 70, 1),
    (&[0x90, 0xEB, 2, 0xEB, 0xFE], NO_SITES, 70, 1),
];

#[test]
fn texts_are_refused_at_their_first_fault(rt: HostRuntime) {
    for (k, (text, sites, number, at)) in TEXTS.iter().enumerate() {
        is_told(&rt, rt.alloc(), k, &image(text, sites), (*number, *at));
    }
}

/// A text with its annotations, its place, that of data, the count of zeroed bytes, the entry's offset, and the answer.
type Placed = ((&'static [u8], &'static [u8]), u32, u32, u32, u32, u32, u32);

/// NOP, and the end at 1.
const NOP: (&[u8], &[u8]) = (&[0x90, 0xEB, 0xFE], NO_SITES);

const WORKED: (&[u8], &[u8]) = (WORKED_ENDED, WORKED_SITES);

const EMPTY: (&[u8], &[u8]) = (&[], NO_SITES);

const RDTSC: (&[u8], &[u8]) = (&[0x0F, 0x31], NO_SITES);

/// A branch to no instruction, and one to the end after it.
const NOWHERE: (&[u8], &[u8]) = (&[0xEB, 0x7F, 0xEB, 0xFE], NO_SITES);

const BEHIND: (&[u8], &[u8]) = (&[0xEB, 0, 0xEB, 0xFE], NO_SITES);

const TEXT: u32 = 0x1000_0000;

const DATA: u32 = 0x1100_0000;

static PLACED: [Placed; 21] = [
    // The entry is from the first byte to the last.
    (NOP, TEXT, DATA, 0, 0xFFFF_FFFF, 64, 0),
    (NOP, TEXT, DATA, 0, 0, 0, 0),
    (NOP, TEXT, DATA, 0, 1, 0, 0),
    (NOP, TEXT, DATA, 0, 2, 71, 2),
    (NOP, TEXT, DATA, 0, 3, 64, 0),
    // The parts have their places and sizes. The last entries are past the text, in an instruction, in padding, and at a
    // start.
    (WORKED, 0x1000_1000, 0, 0, 0, 60, 0),
    (WORKED, TEXT, 0, 0, 0, 61, 0),
    (WORKED, TEXT, DATA, 33_554_432, 0, 0, 0),
    (WORKED, TEXT, DATA, 33_554_433, 0, 63, 0),
    (WORKED, TEXT, DATA, 0, 19, 64, 0),
    (WORKED, TEXT, DATA, 0, 1, 71, 1),
    (WORKED, TEXT, DATA, 0, 9, 71, 9),
    (WORKED, TEXT, DATA, 0, 7, 0, 0),
    // The first of two causes counts: each is mended in turn. The entry is 0 at first.
    (EMPTY, 0, 0, 33_554_433, 0xF000_0000, 60, 0),
    (EMPTY, TEXT, 0, 33_554_433, 0xF000_0000, 61, 0),
    (EMPTY, TEXT, DATA, 33_554_433, 0xF000_0000, 62, 0),
    (RDTSC, TEXT, DATA, 33_554_433, 0xF000_0000, 63, 0),
    (RDTSC, TEXT, DATA, 33_554_432, 0xF000_0000, 64, 0),
    (RDTSC, TEXT, DATA, 33_554_432, 0, 65, 0),
    // A branch that leads nowhere counts before an entry that is no start.
    (NOWHERE, TEXT, DATA, 0, 1, 70, 0),
    (BEHIND, TEXT, DATA, 0, 1, 71, 1),
];

#[test]
fn parts_stand_in_their_places(rt: HostRuntime) {
    for (k, row) in PLACED.iter().enumerate() {
        let ((text, sites), text_at, init_at, bss, entry, number, at) = *row;
        let parts = Parts {
            text,
            sites,
            text_at,
            init_at,
            bss,
            entry: entry.wrapping_add(TEXT),
        };
        is_told(&rt, rt.alloc(), k, &parts, (number, at));
    }
}

/// How many zeros follow RDTSC, and the number of the answer.
static ZEROS: [(u32, u32); 2] = [(16_777_214, 65), (16_777_215, 62)];

/// RDTSC and so many zeros.
fn with_zeros(rt: &impl Abort, alloc: Global, zeros: u32) -> Vec<u8> {
    let mut text = list(rt, alloc, &[0x0F, 0x31]);
    put_times(rt, &mut text, b"\0", zeros);
    text
}

#[test]
fn a_text_has_at_most_sixteen_megabytes(rt: HostRuntime) {
    for (k, row) in ZEROS.iter().enumerate() {
        let (zeros, number) = *row;
        let text = with_zeros(&rt, rt.alloc(), zeros);
        is_told(&rt, rt.alloc(), k, &image(&text, NO_SITES), (number, 0));
    }
}
