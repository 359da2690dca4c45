//! Commands over files in memory, their results, and the files that they leave.

ghost use Rattle.std.specs.Prelude.{◌≤◌, ◌^◌};

use crate::sessions::builds;
use host_cpl3::{Host, Machine};
use image_check::{Checked, check};
use pv_io::{Files, MemFiles, MemSink, Sink};
use pv_tool::top;
use std::alloc::Global;
use std::process::Abort;

/// What a row of a table or a number identifies holds.
pub fn holds(rt: &impl Abort, row: usize, held: bool) {
    assert!(rt; held, "row {row}");
}

/// What a line of a table says holds.
pub fn is_so(rt: &impl Abort, line: &str, held: bool) {
    assert!(rt; held, "{line}");
}

/// Whether the bytes are these.
pub fn are_same(found: &[u8], want: &[u8]) -> bool {
    found == want
}

/// A sink in which all that is put has room, but the puts of a list fail.
pub fn sink(rt: &impl Abort, alloc: Global, fail: &[u64]) -> MemSink {
    let fail = Vec::from_slice(alloc, fail).expect(rt, "memory");
    MemSink::new(alloc, 4096, fail).expect(rt, "memory")
}

/// The sink took this.
pub fn took(rt: &impl Abort, out: &MemSink, text: &[u8]) {
    is_so(rt, "what was put", are_same(out.bytes(), text));
}

/// Whether a word is this one. All words of a table are compared here: a proof carries each place where two texts are compared.
pub fn is_word(word: &str, other: &str) -> bool {
    word == other
}

/// A line's first word, and what follows the space after it.
pub fn split<'a>(rt: &impl Abort, line: &'a str) -> (&'a str, &'a str) {
    line.split_once(' ').expect(rt, "two words")
}

/// What stands before a text's first mark, and what stands after it.
pub fn cut<'a>(rt: &impl Abort, text: &'a str, mark: char) -> (&'a str, &'a str) {
    text.split_once(mark).expect(rt, "a mark")
}

/// The number that a word is.
pub fn number_in(rt: &impl Abort, word: &str) -> u64 {
    word.parse().expect(rt, "a number")
}

/// The number of a place or a row that a word is.
pub fn place_in(rt: &impl Abort, word: &str) -> usize {
    word.parse().expect(rt, "a place")
}

/// The number of a byte or a status that a word is.
pub fn byte_in(rt: &impl Abort, word: &str) -> u8 {
    word.parse().expect(rt, "a byte")
}

/// The words of a command, with one space between two. An empty word is written '', and an empty command has no words.
fn words(rt: &impl Abort, alloc: Global, command: &str) -> Vec<String> {
    let mut words = Vec::new(alloc);
    if !command.is_empty() {
        for word in command.split(' ') {
            add_word(rt, alloc, &mut words, word);
        }
    }
    words
}

/// Puts a word after the others.
fn add_word(rt: &impl Abort, alloc: Global, words: &mut Vec<String>, word: &str) {
    let word = if is_word(word, "''") { "" } else { word };
    let word = text_of(rt, alloc, &[word]);
    words.push(word).expect(rt, "memory");
}

/// The number of the status of a command.
pub fn status<F: Files, S: Sink, H: Host>(
    rt: &impl Abort,
    alloc: Global,
    command: &str,
    files: &mut F,
    out: &mut S,
    host: &mut H,
) -> u8
    requires room { H.retired host.old ≤ 2 ^ 63 }
{
    let words = words(rt, alloc, command);
    top(alloc, &words, files, out, host).number()
}

/// The number of the status of a command, and its sink, of whose puts those of a list fail.
pub fn answer(
    rt: &impl Abort,
    alloc: Global,
    files: &mut MemFiles,
    command: &str,
    fail: &[u64],
) -> (u8, MemSink) {
    let mut out = sink(rt, alloc, fail);
    let number = status(rt, alloc, command, files, &mut out, &mut Machine::new());
    (number, out)
}

/// What a command prints over these files.
pub fn printed(rt: &impl Abort, alloc: Global, files: &mut MemFiles, command: &str) -> MemSink {
    let (_, out) = answer(rt, alloc, files, command, &[]);
    out
}

/// The call of the files after so many others fails.
pub fn fail_behind(rt: &impl Abort, files: &mut MemFiles, calls: u64) {
    let call = files.calls.wrapping_add(calls);
    files.fail.push(call).expect(rt, "memory");
}

/// No files.
pub fn no_files(rt: &impl Abort, alloc: Global) -> MemFiles {
    MemFiles::new(alloc, Vec::new(alloc)).expect(rt, "memory")
}

/// Each name that is held, with its bytes.
pub fn all_held(rt: &impl Abort, alloc: Global, files: &MemFiles) -> Vec<u8> {
    let mut held = Vec::new(alloc);
    for (name, bytes) in files.files.iter() {
        add_held(rt, &mut held, name, bytes);
    }
    held
}

/// Puts a name and what it holds after the bytes.
fn add_held(rt: &impl Abort, held: &mut Vec<u8>, name: &str, bytes: &[u8]) {
    add(rt, held, name.as_bytes());
    add(rt, held, b" ");
    add(rt, held, bytes);
    add(rt, held, b"\n");
}

/// The bytes that a name holds.
pub fn file(rt: &impl Abort, alloc: Global, files: &mut MemFiles, name: &str) -> Vec<u8> {
    let mut bytes = Vec::new(alloc);
    files
        .load(alloc, name, &mut bytes)
        .expect(rt, "a name that is held");
    bytes
}

/// A name holds these bytes from here on.
pub fn store(rt: &impl Abort, files: &mut MemFiles, name: &str, bytes: &[u8]) {
    assert!(rt; files.store(name, bytes).is_ok());
}

/// Puts the piece after the bytes.
pub fn add(rt: &impl Abort, bytes: &mut Vec<u8>, piece: &[u8]) {
    bytes.extend_from_slice(piece).expect(rt, "memory");
}

/// The pieces as one text.
pub fn text_of(rt: &impl Abort, alloc: Global, pieces: &[&str]) -> String {
    let mut text = String::new(alloc);
    for piece in pieces {
        text.push_str(piece).expect(rt, "memory");
    }
    text
}

/// The digits of a number.
pub fn digits(rt: &impl Abort, alloc: Global, number: usize) -> String {
    format!(in alloc; "{number}").expect(rt, "memory")
}

/// The pieces, one after the other.
pub fn joined(rt: &impl Abort, alloc: Global, pieces: &[&[u8]]) -> Vec<u8> {
    let mut bytes = Vec::new(alloc);
    for piece in pieces {
        add(rt, &mut bytes, piece);
    }
    bytes
}

/// The piece so many times after the bytes.
pub fn repeated(
    rt: &impl Abort,
    alloc: Global,
    first: &[u8],
    piece: &[u8],
    count: usize,
) -> Vec<u8> {
    let mut bytes = joined(rt, alloc, &[first]);
    for _ in 0..count {
        add(rt, &mut bytes, piece);
    }
    bytes
}

/// Files with a source as S, its object as O, its image as I and an empty script as B.
pub fn built(rt: &impl Abort, alloc: Global, source: &[u8]) -> MemFiles {
    let mut files = no_files(rt, alloc);
    assert!(rt; builds(rt, alloc, &mut files, source));
    files
}

/// The image of a source.
pub fn image_of(rt: &impl Abort, alloc: Global, source: &[u8]) -> Checked {
    let mut files = built(rt, alloc, source);
    let bytes = file(rt, alloc, &mut files, "I");
    check(alloc, &bytes).expect(rt, "an image")
}
