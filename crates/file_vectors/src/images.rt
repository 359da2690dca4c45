//! Images made by hand, and how they are checked.

use crate::agree::{add, are_same, holds};
use crate::vectors::{NO_SITES, WORKED_ENDED, WORKED_SITES};
use ia32_types::SiteKind;
use image_check::{AtOffset, CheckFault, Checked, check};
use sites::Site;
use std::alloc::Global;
use std::process::Abort;

/// The text, annotations and places of a file. Data is not there, but zeroed bytes may be.
#[derive(Clone, Copy)]
pub struct Parts<'a> {
    pub text: &'a [u8],
    pub sites: &'a [u8],
    pub text_at: u32,
    pub init_at: u32,
    pub bss: u32,
    pub entry: u32,
}

/// An image in its usual places.
pub fn image<'a>(text: &'a [u8], sites: &'a [u8]) -> Parts<'a> {
    Parts {
        text,
        sites,
        text_at: 0x1000_0000,
        init_at: 0x1100_0000,
        bss: 0,
        entry: 0x1000_0000,
    }
}

fn put(rt: &impl Abort, out: &mut Vec<u8>, longs: &[u32]) {
    for n in longs {
        add(rt, out, &n.to_le_bytes());
    }
}

// The header, two program headers, the text, no data, the annotations, the names of the sections, and
// the sections: null, .pv_sites, .shstrtab. All by the layout of ELF files of 32 bits.
fn file(rt: &impl Abort, alloc: Global, parts: &Parts<'_>) -> Vec<u8> {
    let text = (parts.text.len() % 67_108_864) as u32;
    let sites = (parts.sites.len() % 65536) as u32;
    let sites_at = 116 + text;
    let names_at = sites_at + sites;
    let (text_at, init_at) = (parts.text_at, parts.init_at);
    let mut out = Vec::new(alloc);
    put(
        rt,
        &mut out,
        &[0x464C_457F, 0x0001_0101, 0, 0, 0x0003_0002, 1],
    );
    // The section headers stand after the names. How many entries the tables have, and how long these are.
    put(rt, &mut out, &[parts.entry, 52, names_at + 21, 0]);
    put(rt, &mut out, &[0x0020_0034, 0x0028_0002, 0x0002_0003]);
    put(
        rt,
        &mut out,
        &[1, 116, text_at, text_at, text, text, 5, 0x1000],
    );
    put(
        rt,
        &mut out,
        &[1, sites_at, init_at, init_at, 0, parts.bss, 6, 0x1000],
    );
    add(rt, &mut out, parts.text);
    add(rt, &mut out, parts.sites);
    add(rt, &mut out, b"\0.pv_sites\0.shstrtab\0");
    put(rt, &mut out, &[0; 10]);
    put(rt, &mut out, &[1, 1, 0, 0, sites_at, sites, 0, 0, 4, 0]);
    put(rt, &mut out, &[11, 3, 0, 0, names_at, 21, 0, 0, 0, 0]);
    out
}

// The number of the refusal of a file and its place; 0 where it is accepted, 1 where memory ran out.
fn answer(alloc: Global, file: &[u8]) -> (u32, u32) {
    match check(alloc, file) {
        Ok(_) => (0, 0),
        Err(CheckFault::At { at, cause }) => (cause as u32, at),
        Err(CheckFault::Elf(_)) => (40, 0),
        Err(CheckFault::Memory) => (1, 0),
    }
}

/// An image is answered so. `row` names it where it isn't.
pub fn is_told(rt: &impl Abort, alloc: Global, row: usize, parts: &Parts<'_>, want: (u32, u32)) {
    let file = file(rt, alloc, parts);
    holds(rt, row, answer(alloc, &file) == want);
}

/// The checked image of so many parts.
pub fn checked(rt: &impl Abort, alloc: Global, parts: &Parts<'_>) -> Checked {
    let file = file(rt, alloc, parts);
    check(alloc, &file).expect(rt, "an image")
}

// What an accepted image holds.
enum Held {
    Text(&'static [u8]),
    InitLength(usize),
    Bss(u32),
    Entry(u32),
    Sites(usize),
    Start(u32, bool),
    Place(u32, AtOffset),
    PlaceAt(u32, AtOffset),
}

fn is_held(image: &Checked, held: &Held) -> bool {
    match held {
        Held::Text(bytes) => are_same(image.text(), bytes),
        Held::InitLength(len) => image.init().len() == *len,
        Held::Bss(len) => image.bss() == *len,
        Held::Entry(at) => image.entry() == *at,
        Held::Sites(count) => image.sites().list.len() == *count,
        Held::Start(at, wanted) => image.is_start(*at) == *wanted,
        Held::Place(at, wanted) => image.place(*at) == *wanted,
        Held::PlaceAt(at, wanted) => image.place_at(*at) == *wanted,
    }
}

const OUT: AtOffset = AtOffset::Inside(Site {
    at: 7,
    kind: SiteKind::PortOut,
    len: 1,
    total: 5,
});

const HLT: AtOffset = AtOffset::Inside(Site {
    at: 12,
    kind: SiteKind::Hlt,
    len: 1,
    total: 5,
});

static HELD: [Held; 25] = [
    Held::Text(WORKED_ENDED),
    Held::InitLength(0),
    Held::Bss(0),
    Held::Entry(0x1000_0000),
    Held::Sites(2),
    Held::Start(0, true),
    Held::Start(1, false),
    Held::Start(5, true),
    Held::Start(7, true),
    Held::Start(8, true),
    Held::Start(18, false),
    Held::Start(19, false),
    Held::Place(0, AtOffset::Outside),
    Held::Place(1, AtOffset::NotAStart),
    Held::Place(5, AtOffset::Outside),
    Held::Place(6, AtOffset::NotAStart),
    Held::Place(7, OUT),
    Held::Place(11, OUT),
    Held::Place(12, HLT),
    Held::Place(16, HLT),
    Held::Place(17, AtOffset::Outside),
    Held::Place(18, AtOffset::NotAStart),
    Held::Place(19, AtOffset::NotAStart),
    Held::PlaceAt(0x1000_0007, OUT),
    Held::PlaceAt(7, AtOffset::NotAStart),
];

#[test]
fn an_accepted_image_has_its_parts_and_places(rt: HostRuntime) {
    let image = checked(&rt, rt.alloc(), &image(WORKED_ENDED, WORKED_SITES));
    for (k, held) in HELD.iter().enumerate() {
        holds(&rt, k, is_held(&image, held));
    }
}
