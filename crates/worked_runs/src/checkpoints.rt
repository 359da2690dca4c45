//! Kernels that are saved, go on from what was saved, and move between the machines.

use crate::commands::{
    add, answer, are_same, byte_in, cut, digits, fail_behind, file, holds, is_so, no_files,
    place_in, repeated, split, store, text_of,
};
use crate::images::put_bytes;
use crate::sessions::{follow, follow_over};
use pv_io::MemFiles;
use std::alloc::Global;
use std::process::Abort;
use worked_kernels::{
    BEHIND_HEAD, BETWEEN_STEPS, EVENTS, FILLS_MEMORY, GOES_ON, HEAD, IS_SAVED, LACKS_A_BYTE,
    PASSES_MEMORY, SAVED_IN_PLACE, SPOILED, USER, USER_WITHOUT_INTERRUPTS,
};

/// Bytes in hexadecimal, one space between two.
fn listed(rt: &impl Abort, alloc: Global, bytes: &str) -> Vec<u8> {
    let mut list = Vec::new(alloc);
    put_bytes(rt, &mut list, bytes);
    list
}

fn set(bytes: &mut Vec<u8>, at: usize, byte: u8) {
    if let Some(place) = bytes.get_mut(at) {
        *place = byte;
    }
}

/// Whether the bytes have these at an offset.
fn has(bytes: &[u8], at: usize, wanted: &[u8]) -> bool {
    for (k, b) in wanted.iter().enumerate() {
        if bytes.get(at.wrapping_add(k)).copied() != Some(*b) {
            return false;
        }
    }
    true
}

/// A line has an offset and bytes that stand there. They are 0 from here on.
fn takes_out(rt: &impl Abort, alloc: Global, bytes: &mut Vec<u8>, line: &str) {
    let (at, named) = split(rt, line);
    let at = place_in(rt, at);
    let named = listed(rt, alloc, named);
    is_so(rt, line, has(bytes, at, &named));
    for k in 0..named.len() {
        set(bytes, at.wrapping_add(k), 0);
    }
}

#[test]
fn a_file_has_its_bytes_at_their_offsets(rt: HostRuntime) {
    let mut files = follow(&rt, rt.alloc(), IS_SAVED);
    let mut bytes = file(&rt, rt.alloc(), &mut files, "C");
    assert_eq!(rt; bytes.len(), 8_388_864);
    for line in HEAD.lines().chain(BEHIND_HEAD.lines()) {
        takes_out(&rt, rt.alloc(), &mut bytes, line);
    }
    holds(&rt, 256, has(&bytes, 0, &[0; 256]));
}

#[test]
fn what_is_saved_goes_on_on_either_machine(rt: HostRuntime) {
    let mut files = follow(&rt, rt.alloc(), IS_SAVED);
    follow_over(&rt, rt.alloc(), &mut files, GOES_ON);
}

#[test]
fn what_is_saved_again_may_have_the_name_of_the_first(rt: HostRuntime) {
    let mut files = follow(&rt, rt.alloc(), IS_SAVED);
    follow_over(&rt, rt.alloc(), &mut files, SAVED_IN_PLACE);
}

/// Over these bytes at D a run doesn't go on, and this is printed.
fn refuses(rt: &impl Abort, alloc: Global, files: &mut MemFiles, bytes: &[u8], printed: &str) {
    store(rt, files, "D", bytes);
    let (number, out) = answer(rt, alloc, files, "continue --bare I B D 8", &[]);
    let same = are_same(out.bytes(), printed.as_bytes());
    is_so(rt, printed, number == 3 && same);
}

/// Over these bytes with another byte at an offset, which is there from here on, a run doesn't go on, and this is printed.
fn refuses_with(
    rt: &impl Abort,
    alloc: Global,
    files: &mut MemFiles,
    bytes: &mut Vec<u8>,
    at: usize,
    byte: u8,
    printed: &str,
) {
    set(bytes, at, byte);
    refuses(rt, alloc, files, bytes, printed);
}

/// A line has an offset, a value for its byte, and the place at which the file is refused with it. A bad field is reported
/// before a file that is cut, so the first 256 bytes serve.
fn is_spoiled(
    rt: &impl Abort,
    alloc: Global,
    files: &mut MemFiles,
    bytes: &mut Vec<u8>,
    line: &str,
) {
    let (at, rest) = split(rt, line);
    let (value, place) = split(rt, rest);
    let at = place_in(rt, at);
    let value = byte_in(rt, value);
    let printed = text_of(rt, alloc, &["refused 110 at ", place, "\n"]);
    let before = bytes.get(at).copied().unwrap_or(0);
    refuses_with(rt, alloc, files, bytes, at, value, &printed);
    set(bytes, at, before);
}

#[test]
fn a_spoiled_file_is_refused_at_its_place(rt: HostRuntime) {
    let mut files = follow(&rt, rt.alloc(), IS_SAVED);
    let mut bytes = file(&rt, rt.alloc(), &mut files, "C");
    bytes.truncate(256);
    for line in SPOILED.lines() {
        is_spoiled(&rt, rt.alloc(), &mut files, &mut bytes, line);
    }
}

/// One byte too many and one too few; another text; a field that is bad beside them comes first.
#[test]
fn a_file_of_another_length_or_text_is_refused(rt: HostRuntime) {
    let mut files = follow(&rt, rt.alloc(), IS_SAVED);
    let mut bytes = file(&rt, rt.alloc(), &mut files, "C");
    is_too_long(&rt, rt.alloc(), &mut files, &mut bytes);
    is_refused_as_it_changes(&rt, rt.alloc(), &mut files, &mut bytes);
}

/// One byte too many, which is gone afterwards.
fn is_too_long(rt: &impl Abort, alloc: Global, files: &mut MemFiles, bytes: &mut Vec<u8>) {
    bytes.push(0).expect(rt, "memory");
    refuses(rt, alloc, files, bytes, "refused 110 at 8388864\n");
    let _ = bytes.pop();
}

/// Each change is added to those before it.
fn is_refused_as_it_changes(
    rt: &impl Abort,
    alloc: Global,
    files: &mut MemFiles,
    bytes: &mut Vec<u8>,
) {
    refuses_with(rt, alloc, files, bytes, 8, 9, "refused 113 at 8\n");
    refuses_with(rt, alloc, files, bytes, 1_048_837, 7, "refused 111 at 5\n");
    let _ = bytes.pop();
    refuses(rt, alloc, files, bytes, "refused 110 at 8388863\n");
    refuses_with(rt, alloc, files, bytes, 112, 2, "refused 110 at 112\n");
}

/// Of 1,791 pages, each a NOP and what fills it, and then so many NOPs.
fn long_source(rt: &impl Abort, alloc: Global, nops: usize) -> Vec<u8> {
    let pages = repeated(rt, alloc, b"", b"nop; .p2align 12\n", 1791);
    repeated(rt, alloc, &pages, b"nop\n", nops)
}

/// What was saved with 2,049 frames, as if there had been one less: the fourth byte after the file's name is the low one of their
/// number, and the last page is left out.
fn loses_a_page(rt: &impl Abort, alloc: Global, files: &mut MemFiles, name: &str) {
    let mut bytes = file(rt, alloc, files, name);
    set(&mut bytes, 4, 0);
    bytes.truncate(8_388_864);
    store(rt, files, name, &bytes);
}

#[test]
fn a_text_may_end_with_the_saved_memory_and_not_pass_it(rt: HostRuntime) {
    let mut files = no_files(&rt, rt.alloc());
    over_long_source(&rt, rt.alloc(), &mut files, 4094, FILLS_MEMORY);
    over_long_source(&rt, rt.alloc(), &mut files, 4095, PASSES_MEMORY);
    loses_a_page(&rt, rt.alloc(), &mut files, "D");
    follow_over(&rt, rt.alloc(), &mut files, LACKS_A_BYTE);
}

/// A session over the source with so many NOPs at its end.
fn over_long_source(
    rt: &impl Abort,
    alloc: Global,
    files: &mut MemFiles,
    nops: usize,
    session: &str,
) {
    store(rt, files, "S", &long_source(rt, alloc, nops));
    follow_over(rt, alloc, files, session);
}

/// Image, script, what was saved, where a run goes on from it, and then the store, which fails: what was printed before stands.
#[test]
fn a_store_that_fails_leaves_what_was_printed(rt: HostRuntime) {
    let mut files = follow(&rt, rt.alloc(), IS_SAVED);
    let (first, printed) = ("save --bare I B 2048 3 C", b"2 out8 03f8 48\n2 tx 48\n");
    fails_to_store(&rt, rt.alloc(), &mut files, 2, first, printed);
    let second = "save --wedge I B from C 8 D";
    fails_to_store(&rt, rt.alloc(), &mut files, 3, second, b"");
    holds(&rt, 2, files.store_faults == 2);
    follow_over(&rt, rt.alloc(), &mut files, "$ lost D\n");
}

/// The store that a command does after so many loads fails, and this was printed before.
fn fails_to_store(
    rt: &impl Abort,
    alloc: Global,
    files: &mut MemFiles,
    loads: u64,
    command: &str,
    printed: &[u8],
) {
    fail_behind(rt, files, loads);
    let (number, out) = answer(rt, alloc, files, command, &[]);
    let same = are_same(out.bytes(), printed);
    is_so(rt, command, number == 6 && same);
}

/// A kernel as a session describes it: what makes its image and its script, the bound of its runs, and what they print.
#[derive(Clone, Copy)]
struct Told<'a> {
    made: &'a str,
    bound: &'a str,
    printed: &'a str,
}

/// What a session says after so many other kernels.
fn text_behind<'a>(rt: &impl Abort, session: &'a str, behind: usize) -> &'a str {
    let mut kernels = session.split("$ : ").skip(1);
    kernels.nth(behind).expect(rt, "a kernel")
}

/// The kernel after so many others of a session.
fn kernel_behind<'a>(rt: &impl Abort, session: &'a str, behind: usize) -> Told<'a> {
    let (_told, kernel) = cut(rt, text_behind(rt, session, behind), '\n');
    let (made, run) = kernel.split_once("$ runs 0 ").expect(rt, "a run");
    let (bound, printed) = cut(rt, run, '\n');
    Told {
        made,
        bound,
        printed,
    }
}

/// The kernels that receive interrupts, and after these the one with a user.
fn numbered(rt: &impl Abort, number: usize) -> Told<'static> {
    if number < 4 {
        kernel_behind(rt, EVENTS, number)
    } else {
        kernel_behind(rt, USER, 0)
    }
}

/// A command is done, and prints this text and then that line.
fn goes_on(
    rt: &impl Abort,
    alloc: Global,
    files: &mut MemFiles,
    command: &str,
    last: &str,
    text: &mut Vec<u8>,
) {
    let (number, out) = answer(rt, alloc, files, command, &[]);
    is_so(rt, command, number == 0);
    add_before(rt, command, text, out.bytes(), last);
}

/// What a command printed ends with that line, and what stands before it is put after the text.
fn add_before(rt: &impl Abort, command: &str, text: &mut Vec<u8>, bytes: &[u8], last: &str) {
    let len = bytes.len().saturating_sub(last.len());
    is_so(rt, command, are_same(&bytes[len..], last.as_bytes()));
    add(rt, text, &bytes[..len]);
}

/// The machine of a move: they take turns, and the bare one is the first.
fn machine_of(row: usize) -> &'static str {
    if row % 2 == 0 { "--bare" } else { "--wedge" }
}

/// A command is done that saves after so many steps, and prints their number.
fn saves(
    rt: &impl Abort,
    alloc: Global,
    files: &mut MemFiles,
    command: &str,
    n: &str,
    text: &mut Vec<u8>,
) {
    let line = text_of(rt, alloc, &["saved steps ", n, "\n"]);
    goes_on(rt, alloc, files, command, &line, text);
}

/// The steps up to this count are a machine's, from what was saved.
fn moves(
    rt: &impl Abort,
    alloc: Global,
    files: &mut MemFiles,
    machine: &str,
    count: usize,
    text: &mut Vec<u8>,
) {
    let n = digits(rt, alloc, count);
    let command = text_of(rt, alloc, &["save ", machine, " I B from C ", &n, " C"]);
    saves(rt, alloc, files, &command, &n, text);
}

/// The steps up to the bound are a machine's, from what was saved.
fn ends(
    rt: &impl Abort,
    alloc: Global,
    files: &mut MemFiles,
    machine: &str,
    bound: &str,
    text: &mut Vec<u8>,
) {
    let command = text_of(rt, alloc, &["continue ", machine, " I B C ", bound]);
    goes_on(rt, alloc, files, &command, "", text);
}

/// A kernel moves to the other machine after each of these counts of steps.
fn moves_at(
    rt: &impl Abort,
    alloc: Global,
    files: &mut MemFiles,
    counts: &[usize],
    text: &mut Vec<u8>,
) {
    saves(rt, alloc, files, "save --bare I B 2048 0 C", "0", text);
    for (k, n) in counts.iter().enumerate() {
        moves(rt, alloc, files, machine_of(k), *n, text);
    }
}

/// What a kernel prints that moves so.
fn moved(rt: &impl Abort, alloc: Global, kernel: Told<'_>, counts: &[usize]) -> Vec<u8> {
    let mut files = follow(rt, alloc, kernel.made);
    let mut text = Vec::new(alloc);
    moves_at(rt, alloc, &mut files, counts, &mut text);
    let machine = machine_of(counts.len());
    ends(rt, alloc, &mut files, machine, kernel.bound, &mut text);
    text
}

/// So many counts of steps, from one on.
fn from_on(rt: &impl Abort, alloc: Global, first: usize, many: usize) -> Vec<usize> {
    let mut counts = Vec::new(alloc);
    for k in 0..many {
        counts.push(first.wrapping_add(k)).expect(rt, "memory");
    }
    counts
}

fn has_one_trace(rt: &impl Abort, alloc: Global, number: usize, counts: &[usize]) {
    let kernel = numbered(rt, number);
    let text = moved(rt, alloc, kernel, counts);
    holds(rt, number, are_same(&text, kernel.printed.as_bytes()));
}

/// A kernel whose timer interrupts it inside padding: the count's bytes are written, it runs, and its first edge interrupts a NOP,
/// to which IRET comes back.
#[test]
fn a_move_at_each_of_forty_steps_leaves_one_trace(rt: HostRuntime) {
    let counts = from_on(&rt, rt.alloc(), 36, 40);
    has_one_trace(&rt, rt.alloc(), 1, &counts);
}

/// A user, whose faults and gates lead to level 0 and back.
#[test]
fn a_user_moves_in_both_directions(rt: HostRuntime) {
    let counts = from_on(&rt, rt.alloc(), 39, 12);
    has_one_trace(&rt, rt.alloc(), 4, &counts);
}

#[test]
fn five_moves_have_one_trace(rt: HostRuntime) {
    has_one_trace(&rt, rt.alloc(), 0, &[10, 33, 35, 36, 38]);
}

/// A line has the number of a kernel, a count of steps, an offset, and the bytes there of what is saved then.
fn is_kept(rt: &impl Abort, alloc: Global, line: &str) {
    let (number, rest) = split(rt, line);
    let (n, place) = split(rt, rest);
    let kernel = numbered(rt, place_in(rt, number));
    let mut files = follow(rt, alloc, kernel.made);
    let mut text = Vec::new(alloc);
    is_saved_by_host(rt, alloc, &mut files, n, &mut text);
    is_so(rt, line, is_saved_so(rt, alloc, &mut files, place));
    ends(rt, alloc, &mut files, "--bare", kernel.bound, &mut text);
    is_so(rt, line, are_same(&text, kernel.printed.as_bytes()));
}

/// So many steps from boot are saved on the host.
fn is_saved_by_host(
    rt: &impl Abort,
    alloc: Global,
    files: &mut MemFiles,
    n: &str,
    text: &mut Vec<u8>,
) {
    let command = text_of(rt, alloc, &["save --wedge I B 2048 ", n, " C"]);
    saves(rt, alloc, files, &command, n, text);
}

/// What is saved has the bytes at the offset that the place names.
fn is_saved_so(rt: &impl Abort, alloc: Global, files: &mut MemFiles, place: &str) -> bool {
    let (at, wanted) = split(rt, place);
    let wanted = listed(rt, alloc, wanted);
    let bytes = file(rt, alloc, files, "C");
    has(&bytes, place_in(rt, at), &wanted)
}

#[test]
fn what_stands_between_two_steps_is_saved(rt: HostRuntime) {
    for line in BETWEEN_STEPS.lines() {
        is_kept(&rt, rt.alloc(), line);
    }
}

/// In the image file the text stands from 116 on, and its byte 270 is the second of the flags that IRET loads.
#[test]
fn a_user_without_interrupts_stays_on_the_bare_machine(rt: HostRuntime) {
    let kernel = numbered(&rt, 4);
    let mut files = follow(&rt, rt.alloc(), kernel.made);
    let mut image = file(&rt, rt.alloc(), &mut files, "I");
    set(&mut image, 386, 0);
    store(&rt, &mut files, "I", &image);
    follow_over(&rt, rt.alloc(), &mut files, USER_WITHOUT_INTERRUPTS);
}
