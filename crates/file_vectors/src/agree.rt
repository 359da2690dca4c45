//! Answers against what is wanted.

ghost use Rattle.std.specs.Prelude.{◌≡◌, length};

use elf_form::Image;
use pv_io::{MemFiles, MemSink};
use std::alloc::Global;
use std::process::Abort;

/// The bytes are these.
pub fn are_bytes(rt: &impl Abort, bytes: &[u8], want: &[u8]) {
    assert!(rt; are_same(bytes, want), "other bytes");
}

/// A sink with so much room, of whose puts those of a list fail.
pub fn sink(rt: &impl Abort, alloc: Global, room: u32, fail: &[u64]) -> MemSink {
    let fail = Vec::from_slice(alloc, fail).expect(rt, "memory");
    MemSink::new(alloc, room, fail).expect(rt, "memory")
}

/// Files of which those calls of a list fail.
pub fn files(rt: &impl Abort, alloc: Global, fail: &[u64]) -> MemFiles {
    let fail = Vec::from_slice(alloc, fail).expect(rt, "memory");
    MemFiles::new(alloc, fail).expect(rt, "memory")
}

/// These bytes.
pub fn list(rt: &impl Abort, alloc: Global, bytes: &[u8]) -> Vec<u8>
    ensures { length result.items ≡ length bytes.now }
{
    Vec::from_slice(alloc, bytes).expect(rt, "memory")
}

/// Puts the piece after the bytes.
pub fn add(rt: &impl Abort, bytes: &mut Vec<u8>, piece: &[u8]) {
    bytes.extend_from_slice(piece).expect(rt, "memory");
}

/// Puts the piece so many times after the bytes.
pub fn put_times(rt: &impl Abort, bytes: &mut Vec<u8>, piece: &[u8], count: u32) {
    for _ in 0..count {
        add(rt, bytes, piece);
    }
}

/// Whether the bytes are these.
pub fn are_same(found: &[u8], want: &[u8]) -> bool {
    found == want
}

/// What stands in a row of a table holds.
pub fn holds(rt: &impl Abort, row: usize, held: bool) {
    assert!(rt; held, "row {row}");
}

/// A list of an image, and a number.
pub enum Part {
    Text,
    Init,
    Sites,
}

/// A number of an image: lengths in bytes, places as linear addresses.
pub enum Number {
    Bss,
    Entry,
    TextAt,
    InitAt,
}

/// Something that an image holds.
pub enum Held {
    Whole(Part, &'static [u8]),
    Length(Part, usize),
    Byte(Part, usize, u8),
    Is(Number, u32),
}

fn part_of<'a>(image: &'a Image, part: &Part) -> &'a [u8] {
    match part {
        Part::Text => &image.text,
        Part::Init => &image.init,
        Part::Sites => &image.sites,
    }
}

fn number_of(image: &Image, number: &Number) -> u32 {
    match number {
        Number::Bss => image.bss,
        Number::Entry => image.entry,
        Number::TextAt => image.text_at,
        Number::InitAt => image.init_at,
    }
}

/// Whether the list has that byte there.
fn has_byte(list: &[u8], at: usize, byte: u8) -> bool {
    match list.get(at) {
        Some(found) => *found == byte,
        None => false,
    }
}

fn is_held(image: &Image, held: &Held) -> bool {
    match held {
        Held::Whole(of, bytes) => are_same(part_of(image, of), bytes),
        Held::Length(of, len) => part_of(image, of).len() == *len,
        Held::Byte(of, at, byte) => has_byte(part_of(image, of), *at, *byte),
        Held::Is(of, value) => number_of(image, of) == *value,
    }
}

/// The image holds all of these.
pub fn are_held(rt: &impl Abort, image: &Image, all: &[Held]) {
    for (k, held) in all.iter().enumerate() {
        holds(rt, k, is_held(image, held));
    }
}
