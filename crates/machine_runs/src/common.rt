//! Images of sources, sinks, and lines of tables.

use afterburner::burn;
use asm_parse::parse;
use elf_form::{read_object, write_object};
use elf_link::link;
use image_check::{Checked, check};
use pv_io::MemSink;
use std::alloc::Global;
use std::process::Abort;

/// What a row of a table or a number identifies holds.
pub fn holds(rt: &impl Abort, row: usize, held: bool) {
    assert!(rt; held, "row {row}");
}

/// What a line of a table says holds.
pub fn is_so(rt: &impl Abort, line: &str, held: bool) {
    assert!(rt; held, "{line}");
}

/// Whether the bytes are these.
pub fn are_same(found: &[u8], want: &[u8]) -> bool {
    found == want
}

/// A sink in which all that is put has room.
pub fn sink(rt: &impl Abort, alloc: Global) -> MemSink {
    MemSink::new(alloc, 4096, Vec::new(alloc)).expect(rt, "memory")
}

/// The sink took this.
pub fn took(rt: &impl Abort, out: &MemSink, text: &[u8]) {
    is_so(rt, "what the sink took", are_same(out.bytes(), text));
}

/// What a line says before and after its next `|`.
pub fn field<'a>(rt: &impl Abort, line: &'a str) -> (&'a str, &'a str) {
    line.split_once('|').expect(rt, "a field")
}

/// The number that a line begins with, and what stands after it.
pub fn number<'a>(rt: &impl Abort, line: &'a str) -> (usize, &'a str) {
    let (number, rest) = line.split_once(' ').unwrap_or((line, ""));
    (number.parse().expect(rt, "a number"), rest)
}

/// Puts these bytes after the others.
pub fn add(rt: &impl Abort, bytes: &mut Vec<u8>, piece: &[u8]) {
    bytes.extend_from_slice(piece).expect(rt, "memory");
}

/// Lines that stand in one, each with a `/` at its end.
pub fn unfolded(rt: &impl Abort, alloc: Global, text: &str) -> Vec<u8> {
    let mut bytes = Vec::from_slice(alloc, text.as_bytes()).expect(rt, "memory");
    for byte in bytes.iter_mut() {
        if *byte == b'/' {
            *byte = b'\n';
        }
    }
    bytes
}

/// The file of a source's object.
fn burned(rt: &impl Abort, alloc: Global, source: &str) -> Vec<u8> {
    let source = parse(alloc, source.as_bytes()).expect(rt, "a source");
    let object = burn(alloc, &source).expect(rt, "an object");
    write_object(alloc, &object).expect(rt, "memory")
}

/// The file of the image that is linked of one object's file.
fn linked(rt: &impl Abort, alloc: Global, file: &[u8]) -> Vec<u8> {
    let object = read_object(alloc, file).expect(rt, "an object");
    let mut objects = Vec::new(alloc);
    objects.push(object).expect(rt, "memory");
    link(alloc, &objects).expect(rt, "an image")
}

/// The image of a source.
pub fn image_of(rt: &impl Abort, alloc: Global, source: &str) -> Checked {
    let object = burned(rt, alloc, source);
    let image = linked(rt, alloc, &object);
    check(alloc, &image).expect(rt, "an image")
}
