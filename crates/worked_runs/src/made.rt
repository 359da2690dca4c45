//! Kernels that are made of numbers, by the commands.

use crate::commands::{answer, are_same, built, holds, image_of, no_files};
use crate::sessions::follow_over;
use board::read_script;
use host_cpl3::Machine;
use image_check::Checked;
use kernel_gen::kernel;
use pv_io::MemSink;
use run_trace::Ended;
use std::alloc::Global;
use std::process::Abort;
use wedge_core::run_wedge;
use worked_kernels::FIRST_NUMBER;

/// What `work 7` prints.
fn worked(rt: &impl Abort, alloc: Global) -> MemSink {
    let mut files = no_files(rt, alloc);
    let (number, out) = answer(rt, alloc, &mut files, "work 7", &[]);
    holds(rt, 7, number == 0);
    out
}

/// How a patched run of the kernel of 7 ends that has what `work` gives it, and prints to this sink.
fn end_of(rt: &impl Abort, alloc: Global, image: &Checked, out: &mut MemSink) -> Ended {
    let script = read_script(alloc, b"").expect(rt, "memory");
    let mut host = Machine::new();
    let ended = run_wedge(alloc, image, &script, 4096, 100_000, 512, &mut host, out);
    ended.expect(rt, "an end")
}

/// How many translations it fills, and how many lines it prints.
fn patched(rt: &impl Abort, alloc: Global, image: &Checked) -> (u64, u64) {
    let mut out = MemSink::new(alloc, 10_000_000, Vec::new(alloc)).expect(rt, "memory");
    let ended = end_of(rt, alloc, image, &mut out);
    (ended.fills, count(out.bytes()))
}

fn count(lines: &[u8]) -> u64 {
    let mut count = 0u64;
    for byte in lines {
        count = count.wrapping_add(u64::from(*byte == b'\n'));
    }
    count
}

/// The bytes of text and the sites of the image of 7, by GNU as: `as --32` makes 9,543 bytes of the source where each of its
/// 1,161 sensitive instructions is filled up to five with NOPs, and the link puts two after these.
const MADE_OF_7: (usize, usize) = (9545, 1161);

/// The two lines, of the image and the patched run of that kernel.
fn told(rt: &impl Abort, alloc: Global) -> String {
    let source = kernel(alloc, 7).expect(rt, "memory");
    let image = image_of(rt, alloc, &source);
    let (fills, lines) = patched(rt, alloc, &image);
    told_of(rt, alloc, lines.wrapping_sub(1), fills)
}

fn told_of(rt: &impl Abort, alloc: Global, items: u64, fills: u64) -> String {
    let (text, sites) = MADE_OF_7;
    format!(in alloc;
        "work 7 text {text} sites {sites} items {items} fills {fills}\nsame\n"
    ).expect(rt, "memory")
}

#[test]
fn work_tells_the_same_two_lines_twice(rt: HostRuntime) {
    let lines = told(&rt, rt.alloc());
    for time in 0..2 {
        tells(&rt, rt.alloc(), time, lines.as_bytes());
    }
}

/// `work 7` prints these lines, this time too.
fn tells(rt: &impl Abort, alloc: Global, time: usize, lines: &[u8]) {
    holds(rt, time, are_same(worked(rt, alloc).bytes(), lines));
}

#[test]
fn a_kernel_shows_its_number_first_on_both_machines(rt: HostRuntime) {
    let source = kernel(rt.alloc(), 0).expect(&rt, "memory");
    let mut files = built(&rt, rt.alloc(), &source);
    follow_over(&rt, rt.alloc(), &mut files, FIRST_NUMBER);
}
