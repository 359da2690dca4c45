//! Several kernels on one host, by the call that runs them.

ghost use Rattle.std.specs.Prelude.{◌≡◌, ◌+◌, ◌≤◌, length, true};
ghost use Rattle.std.specs.List.{All};
ghost use Rattle.board.specs.ScriptForm.{is_script};

use crate::common::{add, are_same, field, image_of, is_so, unfolded};
use crate::slices::no_event;
use guest_sched::{Kernel, SharedFault, read_schedule, run_shared};
use host_cpl3::Machine;
use pv_io::MemSink;
use run_trace::{End, Ended};
use std::alloc::Global;
use std::process::Abort;
use worked_kernels::{READS_ITS_TEXT, SENDS_A_BYTE, SHARES};

/// `s` sends a byte, and any other touches its text.
fn kernel_of(rt: &impl Abort, alloc: Global, letter: u8) -> Kernel
    ensures { is_script result.script.list ≡ true }
{
    let source = if letter == b's' {
        SENDS_A_BYTE
    } else {
        READS_ITS_TEXT
    };
    Kernel {
        image: image_of(rt, alloc, source),
        script: no_event(rt, alloc),
    }
}

/// Puts the kernel of a letter after the others.
fn add_kernel(rt: &impl Abort, alloc: Global, kernels: &mut Vec<Kernel>, letter: u8)
    requires scripts { All (λ kernel. is_script kernel.script.list ≡ true) kernels.old.items }
    ensures len { length kernels.new.items ≡ length kernels.old.items + 1 }
    ensures scripts { All (λ kernel. is_script kernel.script.list ≡ true) kernels.new.items }
{
    kernels
        .push(kernel_of(rt, alloc, letter))
        .expect(rt, "memory");
}

fn kernels_of(rt: &impl Abort, alloc: Global, letters: &[u8]) -> Vec<Kernel>
    ensures len { length result.items ≡ length letters.now }
    ensures scripts { All (λ kernel. is_script kernel.script.list ≡ true) result.items }
{
    let mut kernels = Vec::new(alloc);
    for letter in letters {
        add_kernel(rt, alloc, &mut kernels, *letter);
    }
    kernels
}

/// How a kernel ended: its steps, `bound` or its stop, and its fills.
fn told_of(rt: &impl Abort, alloc: Global, ended: &Ended) -> String {
    let (steps, fills) = (ended.steps, ended.fills);
    let line = match ended.end {
        End::Bound => format!(in alloc; "{steps} bound {fills}/"),
        End::Stopped(stop) => format!(in alloc; "{steps} {stop:?} {fills}/"),
    };
    line.expect(rt, "memory")
}

/// How each kernel ended.
fn told(rt: &impl Abort, alloc: Global, ended: &[Ended]) -> Vec<u8> {
    let mut text = Vec::new(alloc);
    for one in ended {
        add(rt, &mut text, told_of(rt, alloc, one).as_bytes());
    }
    text
}

/// How all kernels ended in the turns of a text, and nothing where the sink failed.
fn shares(rt: &impl Abort, alloc: Global, letters: &[u8], text: &[u8], out: &mut MemSink) -> Vec<u8>
    requires { (1 ≤ length letters.now) × (length letters.now ≤ 4) }
{
    let kernels = kernels_of(rt, alloc, letters);
    let schedule = read_schedule(alloc, text, kernels.len() as u8).expect(rt, "a schedule");
    let mut host = Machine::new();
    match run_shared(alloc, &kernels, &schedule, 2048, &mut host, out) {
        Ok(ended) => told(rt, alloc, &ended),
        Err(SharedFault::Write) => Vec::new(alloc),
        Err(_) => panic!(rt; "no end"),
    }
}

/// A sink of which this call fails, and none where it is no number.
fn sink_that_fails(rt: &impl Abort, alloc: Global, call: &str) -> MemSink {
    let mut fail = Vec::new(alloc);
    if let Ok(call) = call.parse() {
        fail.push(call).expect(rt, "memory");
    }
    MemSink::new(alloc, 4096, fail).expect(rt, "memory")
}

/// One to four letters of kernels.
fn letters_of<'a>(rt: &impl Abort, letters: &'a str) -> &'a [u8]
    ensures { (1 ≤ length result.now) × (length result.now ≤ 4) }
{
    let letters = letters.as_bytes();
    assert!(rt; letters.len() >= 1 && letters.len() <= 4);
    letters
}

/// Whether these are the bytes of lines that stand in one.
fn are_lines(rt: &impl Abort, alloc: Global, found: &[u8], lines: &str) -> bool {
    are_same(found, &unfolded(rt, alloc, lines))
}

/// A line says what it shows, the kernels by their letters, the call of the sink that fails or `-` for none, what is printed,
/// how each kernel ended, and the schedule.
fn shares_so(rt: &impl Abort, alloc: Global, line: &str) {
    let (_name, rest) = field(rt, line);
    let (letters, rest) = field(rt, rest);
    let (call, rest) = field(rt, rest);
    let (prints, rest) = field(rt, rest);
    let (ends, schedule) = field(rt, rest);
    let letters = letters_of(rt, letters);
    let schedule = unfolded(rt, alloc, schedule);
    let mut out = sink_that_fails(rt, alloc, call);
    let ended = shares(rt, alloc, letters, &schedule, &mut out);
    is_so(rt, line, are_same(&ended, ends.as_bytes()));
    is_so(rt, line, are_lines(rt, alloc, out.bytes(), prints));
}

#[test]
fn kernels_share_a_host(rt: HostRuntime) {
    for line in SHARES.lines() {
        shares_so(&rt, rt.alloc(), line);
    }
}
