//! Loads, stores and puts that fail or are never made, and words of no form.

use crate::commands::{
    all_held, answer, are_same, built, byte_in, fail_behind, holds, is_so, number_in, split,
    status, store,
};
use crate::sessions::follow_over;
use host_cpl3::Machine;
use pv_io::{Files, MemFiles, SureFiles, SureSink};
use std::alloc::Global;
use std::process::Abort;
use worked_kernels::{
    CALLS, ENDED, HALTS, NEVER_FAILING, OWN_OBJECT, PUTS, REFUSALS, SAVED_PUTS, SENDS_A_BYTE,
};

/// Files that hold the source S, its object, its image, an empty script, a certificate, and X.
fn held(rt: &impl Abort, alloc: Global) -> MemFiles {
    let mut files = built(rt, alloc, HALTS.as_bytes());
    store(rt, &mut files, "E", b"PVT1\x00\x00\x00\x00");
    store(rt, &mut files, "X", &[0x41; 60]);
    files
}

/// What a line says of a command's calls.
#[derive(Drop)]
struct Calls<'a> {
    call: Option<u64>,
    put: u64,
    status: u8,
    count: u64,
    command: &'a str,
}

fn calls_of<'a>(rt: &impl Abort, line: &'a str) -> Calls<'a> {
    let (call, rest) = split(rt, line);
    let (put, rest) = split(rt, rest);
    let (status, rest) = split(rt, rest);
    let (count, command) = rest.split_once(' ').unwrap_or((rest, ""));
    Calls {
        call: call.parse().ok(),
        put: number_in(rt, put),
        status: byte_in(rt, status),
        count: number_in(rt, count),
        command,
    }
}

/// A command returns its status, and no put fails.
fn comes_to_status(
    rt: &impl Abort,
    alloc: Global,
    files: &mut MemFiles,
    made: &Calls<'_>,
    line: &str,
) {
    let (number, out) = answer(rt, alloc, files, made.command, &[made.put]);
    is_so(rt, line, number == made.status && out.faults() == 0);
}

/// It makes these calls of the files, of which one fails where a line names one. A load that fails is reported by the status.
fn makes_calls(rt: &impl Abort, alloc: Global, files: &mut MemFiles, made: &Calls<'_>, line: &str) {
    let (calls, faults) = (files.calls, files.load_faults);
    if let Some(call) = made.call {
        fail_behind(rt, files, call);
    }
    comes_to_status(rt, alloc, files, made, line);
    is_so(rt, line, files.calls.wrapping_sub(calls) == made.count);
    let faults = files.load_faults.wrapping_sub(faults);
    is_so(rt, line, faults == u64::from(made.status == 5));
}

/// None of their names holds other bytes afterwards. A line that begins with `--` says what comes.
fn leaves_all(rt: &impl Abort, alloc: Global, files: &mut MemFiles, line: &str) {
    if line.starts_with("--") {
        return;
    }
    let before = all_held(rt, alloc, files);
    makes_calls(rt, alloc, files, &calls_of(rt, line), line);
    is_so(rt, line, are_same(&all_held(rt, alloc, files), &before));
}

#[test]
fn calls_of_files_end_at_the_first_fault_or_refusal(rt: HostRuntime) {
    let mut files = held(&rt, rt.alloc());
    for line in CALLS.lines() {
        leaves_all(&rt, rt.alloc(), &mut files, line);
    }
}

static OVER_STORED: [&str; 5] = [PUTS, REFUSALS, ENDED, OWN_OBJECT, SAVED_PUTS];

#[test]
fn each_line_is_one_put_and_its_fault_is_told(rt: HostRuntime) {
    for session in OVER_STORED.iter() {
        let mut files = held(&rt, rt.alloc());
        follow_over(&rt, rt.alloc(), &mut files, session);
    }
}

fn comes_to(rt: &impl Abort, alloc: Global, files: &mut SureFiles, line: &str) {
    let (number, command) = split(rt, line);
    let answered = sure_status(rt, alloc, files, command);
    is_so(rt, line, byte_in(rt, number) == answered);
}

/// The status of a command that prints to a sure sink.
fn sure_status(rt: &impl Abort, alloc: Global, files: &mut SureFiles, command: &str) -> u8 {
    let mut out = SureSink::new();
    status(rt, alloc, command, files, &mut out, &mut Machine::new())
}

/// Sure files that hold the source S and an empty script.
fn sure(rt: &impl Abort, alloc: Global, source: &str) -> SureFiles {
    let mut files = SureFiles::new(alloc).expect(rt, "memory");
    files.store("B", b"").expect(rt, "memory");
    files.store("S", source.as_bytes()).expect(rt, "memory");
    files
}

#[test]
fn sure_files_and_a_sure_sink_never_fail(rt: HostRuntime) {
    for (row, source) in [HALTS, SENDS_A_BYTE].iter().enumerate() {
        never_fail(&rt, rt.alloc(), row, &mut sure(&rt, rt.alloc(), source));
    }
}

/// Each command over these files has the result that its line states, and no load fails.
fn never_fail(rt: &impl Abort, alloc: Global, row: usize, files: &mut SureFiles) {
    for line in NEVER_FAILING.lines() {
        comes_to(rt, alloc, files, line);
    }
    holds(rt, row, files.load_faults == 0);
}
