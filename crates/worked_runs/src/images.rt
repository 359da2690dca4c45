//! Image files against bytes that are written in hexadecimal: some are made by hand of them, and of others they are parts.

use crate::commands::{add, are_same, is_so, is_word, split};
use image_check::{Checked, check};
use std::alloc::Global;
use std::process::Abort;

/// The parts of an image, the last of which has eight bytes a site.
#[derive(Drop)]
struct Parts {
    text: Vec<u8>,
    data: Vec<u8>,
    sites: Vec<u8>,
}

fn put(rt: &impl Abort, out: &mut Vec<u8>, longs: &[u32]) {
    for n in longs {
        add(rt, out, &n.to_le_bytes());
    }
}

/// Puts bytes in hexadecimal, with one space between two.
pub fn put_bytes(rt: &impl Abort, out: &mut Vec<u8>, bytes: &str) {
    for byte in bytes.split(' ') {
        add(rt, out, &[hexadecimal(rt, byte)]);
    }
}

fn hexadecimal(rt: &impl Abort, word: &str) -> u8 {
    u8::from_str_radix(word, 16).expect(rt, "a byte")
}

/// A line begins with `text`, `data` or `site`.
fn read(rt: &impl Abort, alloc: Global, lines: &str) -> Parts {
    let mut parts = Parts {
        text: Vec::new(alloc),
        data: Vec::new(alloc),
        sites: Vec::new(alloc),
    };
    for line in lines.lines() {
        read_line(rt, &mut parts, line);
    }
    parts
}

/// Puts the bytes of a line after those of its part.
fn read_line(rt: &impl Abort, parts: &mut Parts, line: &str) {
    let (part, bytes) = split(rt, line);
    if is_word(part, "text") {
        put_bytes(rt, &mut parts.text, bytes);
    } else if is_word(part, "data") {
        put_bytes(rt, &mut parts.data, bytes);
    } else {
        is_so(rt, line, is_word(part, "site"));
        put_bytes(rt, &mut parts.sites, bytes);
    }
}

/// How many bytes the parts of an image have.
#[derive(Clone, Copy)]
struct Sizes {
    text: u32,
    init: u32,
    bss: u32,
    sites: u32,
}

impl Sizes {
    fn init_at(self) -> u32 {
        self.text.wrapping_add(116)
    }

    fn sites_at(self) -> u32 {
        self.init_at().wrapping_add(self.init)
    }

    fn names_at(self) -> u32 {
        self.sites_at().wrapping_add(self.sites).wrapping_add(8)
    }
}

fn sizes_of(parts: &Parts, bss: u32) -> Sizes {
    Sizes {
        text: (parts.text.len() % 65536) as u32,
        init: (parts.data.len() % 65536) as u32,
        bss,
        sites: (parts.sites.len() % 65536) as u32,
    }
}

/// Puts the header. The section headers stand after the names. How many entries the tables have, and how long these are.
fn put_header(rt: &impl Abort, out: &mut Vec<u8>, sizes: Sizes) {
    let sections = sizes.names_at().wrapping_add(21);
    put(rt, out, &[0x464C_457F, 0x0001_0101, 0, 0]);
    put(rt, out, &[0x0003_0002, 1, 0x1000_0000, 52, sections]);
    put(rt, out, &[0, 0x0020_0034, 0x0028_0002, 0x0002_0003]);
}

/// Puts the program headers, of text and data.
fn put_programs(rt: &impl Abort, out: &mut Vec<u8>, sizes: Sizes) {
    let (at, text, init) = (sizes.init_at(), sizes.text, sizes.init);
    let data = init.wrapping_add(sizes.bss);
    put(rt, out, &[1, 116, 0x1000_0000, 0x1000_0000]);
    put(rt, out, &[text, text, 5, 0x1000]);
    put(rt, out, &[1, at, 0x1100_0000, 0x1100_0000]);
    put(rt, out, &[init, data, 6, 0x1000]);
}

/// Puts the parts: text, data, annotations, and the names of the sections.
fn put_parts(rt: &impl Abort, out: &mut Vec<u8>, parts: &Parts, sizes: Sizes) {
    add(rt, out, &parts.text);
    add(rt, out, &parts.data);
    put(rt, out, &[0x3153_5650, sizes.sites / 8]);
    add(rt, out, &parts.sites);
    add(rt, out, b"\0.pv_sites\0.shstrtab\0");
}

/// Puts the headers of the sections: null, .pv_sites, .shstrtab.
fn put_sections(rt: &impl Abort, out: &mut Vec<u8>, sizes: Sizes) {
    let (sites_at, sites) = (sizes.sites_at(), sizes.sites.wrapping_add(8));
    put(rt, out, &[0; 10]);
    put(rt, out, &[1, 1, 0, 0, sites_at, sites, 0, 0, 4, 0]);
    put(rt, out, &[11, 3, 0, 0, sizes.names_at(), 21, 0, 0, 0, 0]);
}

/// The image file of these parts and so many zeroed bytes: header and two program headers, text at 116, data, annotations, the
/// names of the sections, and the sections.
pub fn image_file(rt: &impl Abort, alloc: Global, bss: u32, lines: &str) -> Vec<u8> {
    let parts = read(rt, alloc, lines);
    let sizes = sizes_of(&parts, bss);
    let mut out = Vec::new(alloc);
    put_header(rt, &mut out, sizes);
    put_programs(rt, &mut out, sizes);
    put_parts(rt, &mut out, &parts, sizes);
    put_sections(rt, &mut out, sizes);
    out
}

/// Whether the image file has this text, these bytes of data, or this entry.
pub fn has_part(rt: &impl Abort, alloc: Global, file: &[u8], part: &str, listed: &str) -> bool {
    let image = check(alloc, file).expect(rt, "an image");
    is_part(rt, alloc, &image, part, listed)
}

fn is_part(rt: &impl Abort, alloc: Global, image: &Checked, part: &str, listed: &str) -> bool {
    if is_word(part, "entry") {
        listed.parse() == Ok(image.entry())
    } else if is_word(part, "text") {
        are_listed(rt, alloc, image.text(), listed)
    } else {
        is_word(part, "data") && are_listed(rt, alloc, image.init(), listed)
    }
}

/// Whether these are the bytes that are listed.
fn are_listed(rt: &impl Abort, alloc: Global, bytes: &[u8], listed: &str) -> bool {
    let mut wanted = Vec::new(alloc);
    put_bytes(rt, &mut wanted, listed);
    are_same(bytes, &wanted)
}
