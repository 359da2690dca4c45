//! Files and sinks in memory and of the system.

use crate::agree::{are_bytes, files, holds, sink};
use pv_io::{DiskFiles, Files, IoAnswer, Sink, StdSink, SureFiles, SureSink};
use std::alloc::Global;
use std::fs;
use std::process::Abort;

/// A piece, and whether it is taken.
static PIECES: [(&[u8], bool); 6] = [
    (b"abc", true),
    (b"d", false),
    (b"defghi", false),
    (b"defgh", true),
    (b"", true),
    (b"i", false),
];

#[test]
fn a_sink_in_memory_fails_by_its_list_and_its_room(rt: HostRuntime) {
    let mut out = sink(&rt, rt.alloc(), 8, &[1]);
    for (k, (piece, taken)) in PIECES.iter().enumerate() {
        holds(&rt, k, out.put(piece).is_ok() == *taken);
    }
    are_bytes(&rt, out.bytes(), b"abcdefgh");
    assert!(rt; out.faults() == 3);
}

/// A file's name, the bytes that are stored in it or none where it is loaded, and whether that is done.
type Call = (&'static str, Option<&'static [u8]>, bool);

/// Whether the call is answered so.
fn is_answered(files: &mut impl Files, alloc: Global, into: &mut Vec<u8>, call: &Call) -> bool {
    let (name, bytes, done) = *call;
    let answer = match bytes {
        Some(bytes) => files.store(name, bytes),
        None => files.load(alloc, name, into),
    };
    match answer {
        Ok(()) => done,
        Err(IoAnswer::Failed) => !done,
        Err(IoAnswer::Memory) => false,
    }
}

/// Each call is answered so.
fn are_answered(
    rt: &impl Abort,
    files: &mut impl Files,
    alloc: Global,
    into: &mut Vec<u8>,
    calls: &[Call],
) {
    for (k, call) in calls.iter().enumerate() {
        holds(rt, k, is_answered(files, alloc, into, call));
    }
}

/// Calls that follow one another, and the bytes that are loaded after them.
type Round = (&'static [Call], &'static [u8]);

/// Each call is answered so, and the bytes after those that stand before are these.
fn are_rounds(
    rt: &impl Abort,
    files: &mut impl Files,
    alloc: Global,
    before: &[u8],
    rounds: &[Round],
) {
    let mut into = Vec::from_slice(alloc, before).expect(rt, "memory");
    for (calls, want) in rounds {
        are_answered(rt, files, alloc, &mut into, calls);
        are_bytes(rt, &into, want);
    }
}

static FAILING: [Round; 2] = [
    (
        &[
            ("a", Some(b"one"), true),
            ("a", None, false),
            ("a", None, true),
            ("b", None, false),
        ],
        b"> one",
    ),
    (
        &[
            ("a", Some(b"two"), false),
            ("b", Some(b"three"), true),
            ("a", None, true),
            ("b", None, true),
        ],
        b"> oneonethree",
    ),
];

#[test]
fn files_in_memory_fail_by_their_list(rt: HostRuntime) {
    let mut files = files(&rt, rt.alloc(), &[1, 4]);
    are_rounds(&rt, &mut files, rt.alloc(), b"> ", &FAILING);
    assert!(rt; files.load_faults == 2 && files.store_faults == 1);
}

static STORED_TWICE: [Round; 1] = [(
    &[
        ("a", None, false),
        ("a", Some(b"one"), true),
        ("a", Some(b"two"), true),
        ("a", None, true),
    ],
    b"two",
)];

#[test]
fn sure_files_lack_only_names_that_were_not_stored(rt: HostRuntime) {
    let mut files = SureFiles::new(rt.alloc()).expect(&rt, "memory");
    are_rounds(&rt, &mut files, rt.alloc(), b"", &STORED_TWICE);
}

static WRITTEN: [Round; 1] = [(
    &[
        ("stored.bin", Some(b"old and longer"), true),
        ("stored.bin", Some(b"new\x00\xff"), true),
        ("stored.bin", None, true),
    ],
    b"> new\x00\xff",
)];

static REMOVED: [Round; 1] = [(
    &[
        ("stored.bin", None, false),
        ("no/such/folder", Some(b"x"), false),
    ],
    b"> new\x00\xff",
)];

#[test]
fn files_of_the_system_are_read_and_written(rt: HostRuntime) {
    let mut files = DiskFiles::new(&rt);
    are_rounds(&rt, &mut files, rt.alloc(), b"> ", &WRITTEN);
    assert!(rt; fs::remove_file(&rt, "stored.bin").is_ok());
    are_rounds(&rt, &mut files, rt.alloc(), b"> new\x00\xff", &REMOVED);
}

#[test]
fn standard_output_and_a_sure_sink_take_a_line(rt: HostRuntime) {
    let mut out = StdSink::new(rt.stdout());
    assert!(rt; out.put(b"a line\n").is_ok());
    let mut out = SureSink::new();
    assert!(rt; out.put(b"a line\n").is_ok());
}
