//! Damaged files: a small object and its image cut at every length and with every field of their headers spoiled, and a
//! script cut and spoiled at every byte, each by the command that reads it. Where it is refused no file is stored.

use crate::commands::{built, file, holds, joined, place_in, split, store, text_of};
use crate::sessions::tells;
use pv_io::MemFiles;
use std::alloc::Global;
use std::process::Abort;
use worked_kernels::{
    CUT_IMAGES, CUT_OBJECTS, DAMAGED_SCRIPTS, IMAGE_FIELDS, OBJECT_FIELDS, SCRIPT, SENDS_A_BYTE,
};

/// What reads the damaged file D.
const LINK: &str = "link N D";

const CHECK: &str = "check D";

const RUN: &str = "run --bare I D 2048 0";

/// A command prints this line for a file with these bytes, which the place distinguishes. Files aren't changed where it
/// is refused.
fn is_told(
    rt: &impl Abort,
    alloc: Global,
    files: &mut MemFiles,
    command: &str,
    at: usize,
    bytes: &[u8],
    line: &str,
) {
    store(rt, files, "D", bytes);
    let status = if line.starts_with("refused ") { 3 } else { 0 };
    let lines = text_of(rt, alloc, &[line, "\n"]);
    let told = tells(rt, alloc, files, status, command, &[], &lines);
    holds(rt, at, told);
}

/// The number that a row begins with, and what stands after it.
fn first<'a>(rt: &impl Abort, row: &'a str) -> (usize, &'a str) {
    let (number, rest) = split(rt, row);
    (place_in(rt, number), rest)
}

/// The file is cut at each length of a row.
fn is_cut(
    rt: &impl Abort,
    alloc: Global,
    files: &mut MemFiles,
    command: &str,
    bytes: &[u8],
    row: &str,
) {
    let (from, rest) = first(rt, row);
    let (to, line) = first(rt, rest);
    for len in from..to {
        let cut = bytes.get(..len).expect(rt, "short");
        is_told(rt, alloc, files, command, len, cut, line);
    }
}

fn are_cut(
    rt: &impl Abort,
    alloc: Global,
    files: &mut MemFiles,
    command: &str,
    bytes: &[u8],
    rows: &str,
) {
    for row in rows.lines() {
        is_cut(rt, alloc, files, command, bytes, row);
    }
}

/// The cause and the place of a field's row, none where the field is ignored.
fn refusal<'a>(rt: &impl Abort, rows: &'a str, field: usize) -> Option<(&'a str, &'a str)> {
    for row in rows.lines() {
        if !row.starts_with("-- ") {
            let (at, rest) = first(rt, row);
            if at == field {
                return rest.split_once(' ');
            }
        }
    }
    None
}

/// The bytes with another one from one place up to another.
fn spoiled(
    rt: &impl Abort,
    alloc: Global,
    bytes: &[u8],
    from: usize,
    to: usize,
    with: u8,
) -> Vec<u8> {
    let mut spoiled = joined(rt, alloc, &[bytes]);
    for (at, byte) in spoiled.iter_mut().enumerate() {
        if from <= at && at < to {
            *byte = with;
        }
    }
    spoiled
}

/// The fields from one place up to another, each of which is 0xFFFFFFFF in turn, with the rows of those by which the file is
/// refused, what a refusal names, and what is printed where another one is spoiled.
struct Fields<'a> {
    command: &'a str,
    from: usize,
    to: usize,
    rows: &'a str,
    named: &'a str,
    good: &'a str,
}

fn are_fields(
    rt: &impl Abort,
    alloc: Global,
    files: &mut MemFiles,
    bytes: &[u8],
    fields: &Fields<'_>,
) {
    for at in (fields.from..fields.to).step_by(4) {
        let spoiled = spoiled(rt, alloc, bytes, at, at.wrapping_add(4), 0xFF);
        let line = told_of(rt, alloc, fields, at);
        is_told(rt, alloc, files, fields.command, at, &spoiled, &line);
    }
}

/// What is printed where the field at this place is spoiled.
fn told_of(rt: &impl Abort, alloc: Global, fields: &Fields<'_>, at: usize) -> String {
    match refusal(rt, fields.rows, at) {
        Some((cause, place)) => {
            text_of(rt, alloc, &["refused ", cause, fields.named, " at ", place])
        }
        None => text_of(rt, alloc, &[fields.good]),
    }
}

const OF_OBJECT: Fields<'static> = Fields {
    command: LINK,
    from: 20,
    to: 40,
    rows: OBJECT_FIELDS,
    named: " object 0",
    good: "image text 19 data 0 bss 0 sites 2",
};

const OF_IMAGE: Fields<'static> = Fields {
    command: CHECK,
    from: 20,
    to: 40,
    rows: IMAGE_FIELDS,
    named: "",
    good: "accepted text 19 data 0 bss 0 sites 2 format 1",
};

static FIELDS_OF_OBJECT: [Fields<'static>; 2] = [
    OF_OBJECT,
    Fields {
        from: 212,
        to: 612,
        ..OF_OBJECT
    },
];

static FIELDS_OF_IMAGE: [Fields<'static>; 3] = [
    OF_IMAGE,
    Fields {
        from: 52,
        to: 116,
        ..OF_IMAGE
    },
    Fields {
        from: 8256,
        to: 8496,
        ..OF_IMAGE
    },
];

#[test]
fn damaged_objects_and_images_are_refused_by_the_part_or_field(rt: HostRuntime) {
    let mut files = built(&rt, rt.alloc(), SENDS_A_BYTE.as_bytes());
    let object = file(&rt, rt.alloc(), &mut files, "O");
    objects_are_refused(&rt, rt.alloc(), &mut files, &object);
    let image = file(&rt, rt.alloc(), &mut files, "I");
    images_are_refused(&rt, rt.alloc(), &mut files, &image);
}

/// The object is cut at every length, and each field of its headers is spoiled.
fn objects_are_refused(rt: &impl Abort, alloc: Global, files: &mut MemFiles, object: &[u8]) {
    holds(rt, 612, object.len() == 612);
    are_cut(rt, alloc, files, LINK, object, CUT_OBJECTS);
    for fields in FIELDS_OF_OBJECT.iter() {
        are_fields(rt, alloc, files, object, fields);
    }
}

/// So is the image.
fn images_are_refused(rt: &impl Abort, alloc: Global, files: &mut MemFiles, image: &[u8]) {
    holds(rt, 8496, image.len() == 8496);
    are_cut(rt, alloc, files, CHECK, image, CUT_IMAGES);
    for fields in FIELDS_OF_IMAGE.iter() {
        are_fields(rt, alloc, files, image, fields);
    }
}

/// The script is damaged at each place of a row.
fn is_damaged(rt: &impl Abort, alloc: Global, files: &mut MemFiles, row: &str) {
    let (with, rest) = split(rt, row);
    let (from, rest) = first(rt, rest);
    let (to, line) = first(rt, rest);
    for at in from..to {
        let script = damaged_script(rt, alloc, with, at);
        is_told(rt, alloc, files, RUN, at, &script, line);
    }
}

/// The script with this byte at a place, or cut there where no byte is named.
fn damaged_script(rt: &impl Abort, alloc: Global, with: &str, at: usize) -> Vec<u8> {
    let script = SCRIPT.as_bytes();
    match with.parse() {
        Ok(byte) => spoiled(rt, alloc, script, at, at.wrapping_add(1), byte),
        Err(_) => joined(rt, alloc, &[script.get(..at).expect(rt, "short")]),
    }
}

#[test]
fn damaged_scripts_are_refused_by_their_line(rt: HostRuntime) {
    let mut files = built(&rt, rt.alloc(), SENDS_A_BYTE.as_bytes());
    for row in DAMAGED_SCRIPTS.lines() {
        is_damaged(&rt, rt.alloc(), &mut files, row);
    }
}
