//! Commands over files in memory, and their results, read from the lines of a text.
//!
//! A line that begins with `$ ` is an action. What follows up to the next such line belongs to it, each line with its end:
//!
//! - `$ : WORDS` does nothing: it says what comes. `$ anew WORDS` says so too, and no name is held from here on.
//! - `$ store NAME`: the name holds these lines from here on.
//! - `$ build`: the same of the source S, which is burnt to O and linked to I; the script B is then empty.
//! - `$ image N`: I is the image of these parts and N zeroed bytes: a line begins with `text`, `data` or `site`.
//! - `$ STATUS COMMAND`: a command returns this status, and prints exactly these lines. Where it is refused or fails, each
//!   name holds what it held, byte for byte. An empty word is written ''; `$ STATUS` has no words at all.
//! - `$ cut PUT STATUS COMMAND`: so does one of which this put fails, counted from 0.
//! - `$ bare STATUS BOUND`, `$ wedge STATUS BOUND`: the run of the image I with the script B and 2,048 frames prints them.
//! - `$ runs STATUS BOUND`: both do.
//! - `$ copy NAME OTHER`: the name holds what the other does. `$ same NAME OTHER`: it does already.
//! - `$ held NAME`, `$ lost NAME`: a name is held, or isn't.
//! - `$ text BYTES`, `$ data BYTES`, `$ entry NUMBER`: the image I has it.

use crate::commands::{
    all_held, answer, are_same, byte_in, file, is_so, is_word, no_files, number_in, split, store,
    text_of,
};
use crate::images::{has_part, image_file};
use pv_io::{Files, MemFiles};
use std::alloc::Global;
use std::process::Abort;

/// Does what the text says, over these files. An action with another result is reported by its line.
pub fn follow_over(rt: &impl Abort, alloc: Global, files: &mut MemFiles, session: &str) {
    let session = session.strip_prefix("$ ").unwrap_or(session);
    let session = session.strip_suffix('\n').unwrap_or(session);
    for part in session.split("\n$ ") {
        follow_part(rt, alloc, files, part);
    }
}

/// An action, and the lines after it, the last one without its end.
fn follow_part(rt: &impl Abort, alloc: Global, files: &mut MemFiles, part: &str) {
    match part.split_once('\n') {
        None => is_so(rt, part, does(rt, alloc, files, part, "")),
        Some((action, rest)) => follow_lines(rt, alloc, files, action, rest),
    }
}

/// An action, and the lines after it without the last one's end.
fn follow_lines(rt: &impl Abort, alloc: Global, files: &mut MemFiles, action: &str, rest: &str) {
    let lines = text_of(rt, alloc, &[rest, "\n"]);
    is_so(rt, action, does(rt, alloc, files, action, &lines));
}

/// Does the actions of a session over no files; the files that are held after it.
pub fn follow(rt: &impl Abort, alloc: Global, session: &str) -> MemFiles {
    let mut files = no_files(rt, alloc);
    follow_over(rt, alloc, &mut files, session);
    files
}

/// Whether an action has the result that it states.
fn does(rt: &impl Abort, alloc: Global, files: &mut MemFiles, action: &str, lines: &str) -> bool {
    let (verb, rest) = action.split_once(' ').unwrap_or((action, ""));
    if is_word(verb, ":") {
        true
    } else if is_word(verb, "anew") {
        *files = no_files(rt, alloc);
        true
    } else if is_word(verb, "bare") {
        runs(rt, alloc, files, "--bare", rest, lines)
    } else if is_word(verb, "wedge") {
        runs(rt, alloc, files, "--wedge", rest, lines)
    } else if is_word(verb, "runs") {
        runs(rt, alloc, files, "--bare", rest, lines)
            && runs(rt, alloc, files, "--wedge", rest, lines)
    } else if is_word(verb, "cut") {
        is_cut(rt, alloc, files, rest, lines)
    } else {
        match verb.parse() {
            Ok(status) => tells(rt, alloc, files, status, rest, &[], lines),
            Err(_) => has(rt, alloc, files, verb, rest, lines),
        }
    }
}

/// Whether files are made so, or hold what an action says.
fn has(
    rt: &impl Abort,
    alloc: Global,
    files: &mut MemFiles,
    verb: &str,
    rest: &str,
    lines: &str,
) -> bool {
    if is_word(verb, "store") {
        files.store(rest, lines.as_bytes()).is_ok()
    } else if is_word(verb, "build") {
        builds(rt, alloc, files, lines.as_bytes())
    } else if is_word(verb, "image") {
        is_made(rt, alloc, files, rest, lines)
    } else if is_word(verb, "held") {
        has_name(alloc, files, rest)
    } else if is_word(verb, "lost") {
        !has_name(alloc, files, rest)
    } else if is_word(verb, "text") || is_word(verb, "data") || is_word(verb, "entry") {
        has_part(rt, alloc, &file(rt, alloc, files, "I"), verb, rest)
    } else {
        has_bytes(rt, alloc, files, verb, rest)
    }
}

/// Whether I is made of these parts and so many zeroed bytes.
fn is_made(rt: &impl Abort, alloc: Global, files: &mut MemFiles, bss: &str, parts: &str) -> bool {
    let bss = bss.parse().expect(rt, "a number of zeroed bytes");
    files.store("I", &image_file(rt, alloc, bss, parts)).is_ok()
}

/// Whether a name holds what the other does, from here on or already.
fn has_bytes(
    rt: &impl Abort,
    alloc: Global,
    files: &mut MemFiles,
    verb: &str,
    names: &str,
) -> bool {
    let (name, other) = split(rt, names);
    let bytes = file(rt, alloc, files, other);
    if is_word(verb, "copy") {
        files.store(name, &bytes).is_ok()
    } else {
        is_word(verb, "same") && are_same(&file(rt, alloc, files, name), &bytes)
    }
}

/// Whether a command that returns this status leaves all files as they were: one that is refused or fails does, but for a
/// store that failed, and a sink that fails after it.
fn leaves_files(status: u8, command: &str) -> bool {
    let stores = command.starts_with("burn ") || command.starts_with("link ");
    let saves = command.starts_with("save ");
    let proves = command.starts_with("prove ");
    status != 0 && !(status == 6 && (stores || saves || proves)) && !(status == 4 && proves)
}

/// Whether a command, of whose puts those of a list fail, returns a status, and its sink takes these lines. One put has failed
/// where the status says so. Where it is refused, each name holds what it held.
pub fn tells(
    rt: &impl Abort,
    alloc: Global,
    files: &mut MemFiles,
    status: u8,
    command: &str,
    fail: &[u64],
    lines: &str,
) -> bool {
    if !leaves_files(status, command) {
        return prints(rt, alloc, files, status, command, fail, lines);
    }
    let before = all_held(rt, alloc, files);
    prints(rt, alloc, files, status, command, fail, lines)
        && are_same(&all_held(rt, alloc, files), &before)
}

fn prints(
    rt: &impl Abort,
    alloc: Global,
    files: &mut MemFiles,
    status: u8,
    command: &str,
    fail: &[u64],
    lines: &str,
) -> bool {
    let (number, out) = answer(rt, alloc, files, command, fail);
    number == status
        && are_same(out.bytes(), lines.as_bytes())
        && out.faults() == u64::from(number == 6)
}

/// Does a command, before which a put that fails and a status stand: it returns this status, and prints exactly these lines.
fn is_cut(rt: &impl Abort, alloc: Global, files: &mut MemFiles, rest: &str, lines: &str) -> bool {
    let (put, rest) = split(rt, rest);
    let (status, command) = split(rt, rest);
    let put = number_in(rt, put);
    let status = byte_in(rt, status);
    tells(rt, alloc, files, status, command, &[put], lines)
}

/// Whether a machine returns the status and prints these lines, with the bound after it.
fn runs(
    rt: &impl Abort,
    alloc: Global,
    files: &mut MemFiles,
    machine: &str,
    rest: &str,
    lines: &str,
) -> bool {
    let (status, bound) = split(rt, rest);
    let status = byte_in(rt, status);
    let command = text_of(rt, alloc, &["run ", machine, " I B 2048 ", bound]);
    tells(rt, alloc, files, status, &command, &[], lines)
}

/// Whether a command is done.
pub fn is_done(rt: &impl Abort, alloc: Global, files: &mut MemFiles, command: &str) -> bool {
    let (number, _out) = answer(rt, alloc, files, command, &[]);
    number == 0
}

/// Whether the source S becomes the object O and the image I, and the script B is an empty one.
pub fn builds(rt: &impl Abort, alloc: Global, files: &mut MemFiles, source: &[u8]) -> bool {
    store(rt, files, "S", source);
    store(rt, files, "B", b"");
    is_done(rt, alloc, files, "burn S O") && is_done(rt, alloc, files, "link I O")
}

fn has_name(alloc: Global, files: &mut MemFiles, name: &str) -> bool {
    let mut bytes = Vec::new(alloc);
    files.load(alloc, name, &mut bytes).is_ok()
}
