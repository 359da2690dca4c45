//! Objects made by hand, and the images that they make.

use crate::agree::{Held, Number, Part, add, are_held, are_same, holds, put_times};
use crate::object_rows::{EMPTY, Parts, WORKED, object, objects, put_symbol};
use crate::vectors::{NO_SITES, WORKED_ENDED, WORKED_SITES};
use elf_form::{Image, Object, Place, Reloc};
use elf_link::{LinkCause, LinkFault, are_linkable, link, linked};
use std::alloc::Global;
use std::process::Abort;

/// What is returned for objects, if they can be linked at all.
type Outcome = Option<Result<Image, LinkFault>>;

fn outcome(alloc: Global, objects: &Vec<Object>) -> Outcome {
    if objects.len() > 64 || !are_linkable(objects) {
        return None;
    }
    Some(linked(alloc, objects))
}

const WORKED_IMAGE: [Held; 5] = [
    Held::Whole(Part::Text, WORKED_ENDED),
    Held::Whole(Part::Sites, WORKED_SITES),
    Held::Whole(Part::Init, b""),
    Held::Is(Number::Entry, 0x1000_0000),
    Held::Is(Number::Bss, 0),
];

const END_ALONE: [Held; 2] = [
    Held::Whole(Part::Text, b"\xEB\xFE"),
    Held::Is(Number::Entry, 0x1000_0000),
];

/// A call of a name, as GCC writes it: the addend is -4.
const CALLS: Parts = Parts {
    text: b"\xE8\xFC\xFF\xFF\xFF",
    symbols: &[(b"foo", Place::Undefined, 0, true)],
    relocs: &[Reloc {
        in_text: true,
        at: 1,
        symbol: 0,
        relative: true,
    }],
    ..EMPTY
};

/// A call, and what is called.
const CALL_AND_CALLED: [Parts; 2] = [
    Parts {
        symbols: &[(b"g", Place::Undefined, 0, true)],
        ..CALLS
    },
    Parts {
        text: b"\xF4\x90\x90\x90\x90\xC3",
        sites: b"PVS1\x01\0\0\0\0\0\0\0\x04\x01\x05\0",
        symbols: &[(b"g", Place::Text, 0, true)],
        ..EMPTY
    },
];

/// Their text, and its site. g is 16 bytes after the call, whose field is at 1: 16 - 4 - 1.
const CALLED_TEXT: &[u8] =
    b"\xE8\x0B\0\0\0\x90\x90\x90\x90\x90\x90\x90\x90\x90\x90\x90\xF4\x90\x90\x90\x90\xC3\xEB\xFE";

const CALLED: [Held; 2] = [
    Held::Whole(Part::Text, CALLED_TEXT),
    Held::Whole(Part::Sites, b"PVS1\x01\0\0\0\x10\0\0\0\x04\x01\x05\0"),
];

/// A move of the place of zeroed bytes.
const ZEROED: Parts = Parts {
    text: b"\xB8\0\0\0\0",
    init: b"\x01",
    bss: 4096,
    symbols: &[(b"pg", Place::Bss, 0, false)],
    relocs: &[Reloc {
        in_text: true,
        at: 1,
        symbol: 0,
        relative: false,
    }],
    ..EMPTY
};

const ZEROED_IMAGE: [Held; 3] = [
    Held::Whole(Part::Text, b"\xB8\0\x10\0\x11\xEB\xFE"),
    Held::Whole(Part::Init, b"\x01"),
    Held::Is(Number::Bss, 8191),
];

const DATA: [Parts; 3] = [
    Parts {
        init: b"\x01",
        ..EMPTY
    },
    Parts { bss: 7, ..EMPTY },
    Parts {
        init: b"\x02\x03",
        ..EMPTY
    },
];

const ALIGNED: [Held; 5] = [
    Held::Length(Part::Init, 4098),
    Held::Byte(Part::Init, 0, 1),
    Held::Byte(Part::Init, 4095, 0),
    Held::Byte(Part::Init, 4096, 2),
    Held::Is(Number::Bss, 4094 + 7),
];

/// The table of a switch, as GCC makes it.
const SWITCH: Parts = Parts {
    text: &[0x90; 31],
    init: &[0; 8],
    symbols: &[
        (b".L3", Place::Text, 0x10, false),
        (b".L2", Place::Text, 0x1A, false),
    ],
    relocs: &[
        Reloc {
            in_text: false,
            at: 0,
            symbol: 1,
            relative: false,
        },
        Reloc {
            in_text: false,
            at: 4,
            symbol: 0,
            relative: false,
        },
    ],
    ..EMPTY
};

const SWITCHED: [Held; 2] = [
    Held::Length(Part::Text, 33),
    Held::Whole(Part::Init, b"\x1A\0\0\x10\x10\0\0\x10"),
];

/// Objects, and what their image holds.
type Making = (&'static [Parts], &'static [Held]);

static MAKING: [Making; 6] = [
    (&[WORKED], &WORKED_IMAGE),
    (&[], &END_ALONE),
    (&CALL_AND_CALLED, &CALLED),
    (&[ZEROED], &ZEROED_IMAGE),
    (&DATA, &ALIGNED),
    (&[SWITCH], &SWITCHED),
];

/// What is returned for the objects of these parts.
fn made(rt: &impl Abort, alloc: Global, parts: &[Parts]) -> Outcome {
    let objects = objects(rt, alloc, parts);
    outcome(alloc, &objects)
}

/// An image is returned, and it holds all of these.
fn is_image(rt: &impl Abort, found: &Outcome, all: &[Held]) {
    match found {
        Some(Ok(image)) => are_held(rt, image, all),
        _ => panic!(rt; "no image"),
    }
}

fn are_made(rt: &impl Abort, alloc: Global) {
    for (parts, all) in MAKING.iter() {
        is_image(rt, &made(rt, alloc, parts), all);
    }
}

#[test]
fn objects_make_images(rt: HostRuntime) {
    are_made(&rt, rt.alloc());
}

/// The file of the objects' image, if they are linked.
fn file(alloc: Global, objects: &Vec<Object>) -> Option<Vec<u8>> {
    if objects.len() > 64 || !are_linkable(objects) {
        return None;
    }
    link(alloc, objects).ok()
}

/// Whether the bytes are a whole number of longs, more than a page, and begin as an ELF file does.
fn begins_as_file(bytes: &[u8]) -> bool {
    bytes.len() % 4 == 0 && bytes.len() > 4096 && bytes.starts_with(b"\x7FELF")
}

/// Whether such a file is made of no object.
fn has_file(alloc: Global) -> bool {
    match file(alloc, &Vec::new(alloc)) {
        Some(file) => begins_as_file(&file),
        None => false,
    }
}

#[test]
fn writes_the_file_of_no_object(rt: HostRuntime) {
    assert!(rt; has_file(rt.alloc()));
}

/// What the cause of a refusal says.
#[derive(Clone, Copy)]
enum Cause {
    Number(u8),
    Name(&'static [u8]),
    Place(u32),
}

fn tells(cause: &LinkCause, told: &Cause) -> bool {
    match told {
        Cause::Number(number) => cause.number() == *number,
        Cause::Name(want) => match cause {
            LinkCause::NoSymbol(name) | LinkCause::Doubled(name) => are_same(&name.list, want),
            _ => false,
        },
        Cause::Place(want) => match cause {
            LinkCause::NotText(at) => *at == *want,
            _ => false,
        },
    }
}

/// Whether objects are refused at one of them, by a cause that says this.
fn are_refused(found: &Outcome, at: u32, told: &Cause) -> bool {
    match found {
        Some(Err(LinkFault::At { object, cause })) => *object == at && tells(cause, told),
        _ => false,
    }
}

const RETURNS: Parts = Parts {
    text: b"\xC3",
    symbols: &[(b"f", Place::Text, 0, true)],
    ..EMPTY
};

/// A call of data.
const CALL_OF_DATA: [Parts; 2] = [
    Parts {
        init: &[0; 8],
        symbols: &[(b"d", Place::Init, 4, true)],
        ..EMPTY
    },
    Parts {
        symbols: &[(b"d", Place::Undefined, 0, true)],
        ..CALLS
    },
];

const START_IN_DATA: [Parts; 2] = [
    EMPTY,
    Parts {
        init: &[0; 8],
        symbols: &[(b"_start", Place::Init, 4, true)],
        ..EMPTY
    },
];

/// The worked object, and one whose site is longer than its text.
const PAST: [Parts; 2] = [
    WORKED,
    Parts {
        text: b"\xFA\x90\x90\x90",
        sites: b"PVS1\x01\0\0\0\0\0\0\0\x01\x01\x05\0",
        symbols: &[(b"f", Place::Text, 0, true)],
        ..EMPTY
    },
];

/// Objects, the one at which they are refused, and what the cause says.
type Refused = (&'static [Parts], u32, Cause);

static REFUSED: [Refused; 7] = [
    // a name that is defined twice, or nowhere
    (&[RETURNS, RETURNS], 1, Cause::Number(31)),
    (&[RETURNS, RETURNS], 1, Cause::Name(b"f")),
    (&[CALLS], 0, Cause::Number(30)),
    (&[CALLS], 0, Cause::Name(b"foo")),
    // branches and a start outside the text
    (&CALL_OF_DATA, 1, Cause::Place(1)),
    (&START_IN_DATA, 1, Cause::Place(4)),
    // a site past its text
    (&PAST, 1, Cause::Number(36)),
];

fn is_refused(rt: &impl Abort, alloc: Global, row: &Refused) -> bool {
    let (parts, at, told) = row;
    are_refused(&made(rt, alloc, parts), *at, told)
}

fn each_is_refused(rt: &impl Abort, alloc: Global) {
    for (k, row) in REFUSED.iter().enumerate() {
        holds(rt, k, is_refused(rt, alloc, row));
    }
}

#[test]
fn objects_are_refused_by_their_cause(rt: HostRuntime) {
    each_is_refused(&rt, rt.alloc());
}

/// What an object has much of.
enum Much {
    /// So much text, with these annotations.
    Text(u32, &'static [u8]),
    /// So many zeroed bytes.
    Zeroed(u32),
    /// So many symbols.
    Named(u32),
    /// So many CLIs, each with its NOPs.
    Patched(u32),
}

fn put_symbols(rt: &impl Abort, alloc: Global, object: &mut Object, count: u32) {
    for _ in 0..count {
        put_symbol(
            rt,
            alloc,
            &mut object.symbols,
            &(b"", Place::Text, 0, false),
        );
    }
}

fn put_sites(rt: &impl Abort, sites: &mut Vec<u8>, count: u32) {
    add(rt, sites, b"PVS1");
    add(rt, sites, &count.to_le_bytes());
    for i in 0..count {
        add(rt, sites, &i.wrapping_mul(5).to_le_bytes());
        add(rt, sites, &[1, 1, 5, 0]);
    }
}

/// An object without annotations, which are put as there is much of something.
static BARE: Parts = Parts {
    sites: b"",
    ..EMPTY
};

fn put_much(rt: &impl Abort, alloc: Global, object: &mut Object, much: &Much) {
    match much {
        Much::Text(len, sites) => {
            add(rt, &mut object.sites, sites);
            put_times(rt, &mut object.text, b"\x90", *len);
        }
        Much::Zeroed(bss) => {
            add(rt, &mut object.sites, NO_SITES);
            object.bss = *bss;
        }
        Much::Named(count) => {
            add(rt, &mut object.sites, NO_SITES);
            put_symbols(rt, alloc, object, *count);
        }
        Much::Patched(count) => {
            put_sites(rt, &mut object.sites, *count);
            put_times(rt, &mut object.text, b"\xFA\x90\x90\x90\x90", *count);
        }
    }
}

fn all_large(rt: &impl Abort, alloc: Global, all: &[Much]) -> Vec<Object> {
    let mut objects = Vec::new(alloc);
    for much in all {
        let mut object = object(rt, alloc, &BARE);
        put_much(rt, alloc, &mut object, much);
        objects.push(object).expect(rt, "memory");
    }
    objects
}

/// How the annotations of the image begin; or the object and the number of the refusal.
type Limited = Result<&'static [u8], (u32, u8)>;

/// Whether the annotations of the objects' image begin so.
fn begin(found: &Outcome, front: &[u8]) -> bool {
    match found {
        Some(Ok(image)) => image.sites.starts_with(front),
        _ => false,
    }
}

fn is_limited(found: &Outcome, want: &Limited) -> bool {
    match want {
        Ok(front) => begin(found, front),
        Err((at, number)) => are_refused(found, *at, &Cause::Number(*number)),
    }
}

/// What is returned for such large objects.
fn made_large(rt: &impl Abort, alloc: Global, all: &[Much]) -> Outcome {
    let objects = all_large(rt, alloc, all);
    outcome(alloc, &objects)
}

/// The first site, at 0, and a second one, at 1 or 9.
const AT_ONE: &[u8] = b"PVS1\x02\0\0\0\0\0\0\0\x01\x01\x05\0\x01\0\0\0\x01\x01\x05\0";

const AT_NINE: &[u8] = b"PVS1\x02\0\0\0\0\0\0\0\x01\x01\x05\0\x09\0\0\0\x01\x01\x05\0";

static LIMITS: [(&[Much], Limited); 17] = [
    (&[Much::Text(16_777_214, NO_SITES)], Ok(b"PVS2")),
    (&[Much::Text(16_777_215, NO_SITES)], Err((0, 33))),
    (&[Much::Zeroed(33_554_432)], Ok(b"PVS1")),
    (&[Much::Zeroed(33_554_433)], Err((0, 34))),
    (&[Much::Zeroed(33_554_432), Much::Zeroed(1)], Err((1, 34))),
    (&[Much::Named(65_536), Much::Named(0)], Ok(b"PVS1")),
    (&[Much::Named(65_537), Much::Named(0)], Err((0, 35))),
    (&[Much::Named(65_535), Much::Named(1)], Ok(b"PVS1")),
    (&[Much::Named(65_535), Much::Named(2)], Err((1, 35))),
    (&[Much::Patched(262_144), Much::Patched(0)], Ok(b"PVS1")),
    (&[Much::Patched(262_145), Much::Patched(0)], Err((0, 36))),
    (
        &[Much::Patched(131_072), Much::Patched(131_072)],
        Ok(b"PVS1"),
    ),
    (
        &[Much::Patched(131_072), Much::Patched(131_073)],
        Err((1, 36)),
    ),
    // Sites that overlap can be written by their offsets alone.
    (&[Much::Text(4_194_302, AT_ONE)], Ok(b"PVS1")),
    (&[Much::Text(4_194_302, AT_NINE)], Ok(b"PVS1")),
    (&[Much::Text(4_194_303, AT_ONE)], Err((0, 36))),
    (
        &[Much::Text(4_194_303, AT_NINE)],
        Ok(b"PVS2\x02\0\0\0\0\0\0\x01\x01\x04\0\0\x01\x01"),
    ),
];

fn are_limited(rt: &impl Abort, alloc: Global) {
    for (k, (all, want)) in LIMITS.iter().enumerate() {
        holds(rt, k, is_limited(&made_large(rt, alloc, all), want));
    }
}

#[test]
fn sizes_symbols_and_sites_have_limits(rt: HostRuntime) {
    are_limited(&rt, rt.alloc());
}
