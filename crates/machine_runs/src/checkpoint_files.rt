//! A checkpoint by the table of its bytes, and where files are refused.

use crate::common::{add, are_same, holds, is_so, number};
use checkpoint::{CheckpointCause, CheckpointFault, State, read_checkpoint, write_checkpoint};
use std::alloc::Global;
use std::process::Abort;
use worked_kernels::{HEAD, SPOILED};

/// The size of a file with 2,048 frames.
const SIZE: usize = 8_388_864;

/// How many bytes of the file are there, and the place at which it is refused.
static CUT: [usize; 12] = [0, 1, 3, 4, 7, 8, 20, 129, 255, 256, 8_388_000, 8_388_863];

fn set(bytes: &mut Vec<u8>, at: usize, byte: u8) {
    if let Some(place) = bytes.get_mut(at) {
        *place = byte;
    }
}

/// A line has an offset and the bytes that stand there.
fn put_line(rt: &impl Abort, bytes: &mut Vec<u8>, line: &str) {
    let (at, listed) = number(rt, line);
    let mut at = at;
    for byte in listed.split(' ') {
        set(bytes, at, u8::from_str_radix(byte, 16).expect(rt, "a byte"));
        at = at.wrapping_add(1);
    }
}

/// After three steps of a kernel that sends a byte, but for the board, of which nothing is set.
fn file(rt: &impl Abort, alloc: Global) -> Vec<u8> {
    let mut bytes = Vec::new(alloc);
    bytes.resize(SIZE, 0).expect(rt, "memory");
    for line in HEAD.lines() {
        put_line(rt, &mut bytes, line);
    }
    bytes
}

/// The place at which it is refused, and none where it is read.
fn refused(alloc: Global, bytes: &[u8]) -> Option<usize> {
    match read_checkpoint(alloc, bytes) {
        Err(
            CheckpointFault::At {
                at,
                cause: CheckpointCause::Form,
            },
        ) => Some(at as usize),
        _ => None,
    }
}

fn front(bytes: &[u8], len: usize) -> &[u8] {
    bytes.get(..len).unwrap_or(bytes)
}

/// The state is that of the file.
fn is_read(rt: &impl Abort, state: &State) {
    is_so(rt, "step", state.step == 3);
    is_so(rt, "EIP", state.cpu.regs.eip == 0x1000_0008);
    is_so(rt, "memory", state.ram.len() == 8_388_608);
}

/// The file of the state that is read.
fn written_again(rt: &impl Abort, alloc: Global, bytes: &[u8]) -> Vec<u8> {
    let state = read_checkpoint(alloc, bytes).expect(rt, "a state");
    is_read(rt, &state);
    write_checkpoint(alloc, &state).expect(rt, "memory")
}

#[test]
fn a_file_is_read_and_written_again(rt: HostRuntime) {
    let mut bytes = file(&rt, rt.alloc());
    set(&mut bytes, SIZE - 1, 0xA5);
    let written = written_again(&rt, rt.alloc(), &bytes);
    is_so(&rt, "size", written.len() == SIZE);
    is_so(&rt, "bytes", are_same(&written, &bytes));
}

/// A line has an offset, another value for the byte there, and the place at which the file is refused with it.
fn is_refused(rt: &impl Abort, alloc: Global, bytes: &mut Vec<u8>, line: &str) {
    let (at, rest) = number(rt, line);
    let (value, rest) = number(rt, rest);
    let (place, _) = number(rt, rest);
    let before = bytes.get(at).copied().unwrap_or(0);
    set(bytes, at, (value % 256) as u8);
    is_so(rt, line, refused(alloc, bytes) == Some(place));
    set(bytes, at, before);
}

#[test]
fn each_field_is_refused_at_its_place(rt: HostRuntime) {
    let mut bytes = file(&rt, rt.alloc());
    for line in SPOILED.lines() {
        is_refused(&rt, rt.alloc(), &mut bytes, line);
    }
    is_so(&rt, "all is put back", refused(rt.alloc(), &bytes) == None);
}

/// The file with its first bytes alone, this many, is refused at that place.
fn is_cut_at(rt: &impl Abort, alloc: Global, bytes: &[u8], len: usize, place: usize) {
    holds(rt, len, refused(alloc, front(bytes, len)) == Some(place));
}

#[test]
fn a_file_of_another_length_is_refused(rt: HostRuntime) {
    let mut bytes = file(&rt, rt.alloc());
    for len in CUT {
        is_cut_at(&rt, rt.alloc(), &bytes, len, len);
    }
    add(&rt, &mut bytes, &[0]);
    is_cut_at(&rt, rt.alloc(), &bytes, SIZE + 1, 8_388_864);
    // a field that is bad before the file ends is reported, and one that isn't whole is not
    set(&mut bytes, 57, 0x02);
    set(&mut bytes, 59, 0);
    is_cut_at(&rt, rt.alloc(), &bytes, 59, 59);
    is_cut_at(&rt, rt.alloc(), &bytes, 60, 56);
    set(&mut bytes, 1, 0);
    is_cut_at(&rt, rt.alloc(), &bytes, 1, 1);
    is_cut_at(&rt, rt.alloc(), &bytes, 2, 0);
}
