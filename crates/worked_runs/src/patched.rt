//! Which instructions of a patched run the host does, and what both machines show of a page whose PTE has changed.

use crate::commands::{answer, are_same, built, holds, is_so, sink, status, took};
use crate::watched::{Begun, Watched};
use host_cpl3::{Exit, Host};
use ia32_types::{Flags, Regs};
use pv_io::MemFiles;
use std::alloc::Global;
use std::process::Abort;
use worked_kernels::{READS_A_STALE_PAGE, READS_A_STALE_PAGE_ALONE, SENDS_A_BYTE};

/// What is sent of that byte.
const SENT: &[u8] = b"2 out8 03f8 48\n2 tx 48\nend steps 8\n";

/// What may be printed of those kernels: the second read is of the old frame or of the new one.
const OLD: &[u8] =
    b"5 out32 0080 00000001\n11 out32 0080 00000001\n17 out32 0080 00000002\nend steps 40\n";

const NEW: &[u8] =
    b"5 out32 0080 00000001\n11 out32 0080 00000002\n17 out32 0080 00000002\nend steps 40\n";

/// At the start of a run with 2,048 frames and one page of text.
const BOOTED: Regs = Regs {
    r: [0x80_0000, 0, 0, 0x10_1000, 0xC010_0000, 0, 0, 0],
    eip: 0x1000_0000,
    flags: Flags { bits: 2 },
};

/// After its first MOV, and after both.
const MOVED: Regs = Regs {
    r: [0x80_0000, 0, 0x3F8, 0x10_1000, 0xC010_0000, 0, 0, 0],
    eip: 0x1000_0005,
    ..BOOTED
};

const MOVED_TWICE: Regs = Regs {
    r: [0x80_0048, 0, 0x3F8, 0x10_1000, 0xC010_0000, 0, 0, 0],
    eip: 0x1000_0007,
    ..BOOTED
};

/// A host on which a run over these files is done, and prints these lines.
fn host_of(
    rt: &impl Abort,
    alloc: Global,
    files: &mut MemFiles,
    run: &str,
    lines: &[u8],
) -> Watched {
    let mut host = Watched::new();
    let mut out = sink(rt, alloc, &[]);
    let number = status(rt, alloc, run, files, &mut out, &mut host);
    is_so(rt, run, number == 0);
    took(rt, &out, lines);
    host
}

/// Runs the image of a source so, and watches the host.
fn watched(rt: &impl Abort, alloc: Global, source: &[u8], run: &str, lines: &[u8]) -> Watched {
    let mut files = built(rt, alloc, source);
    host_of(rt, alloc, &mut files, run, lines)
}

/// The registers after so many of its two MOVs.
fn behind(moves: u64) -> Regs {
    match moves {
        0 => BOOTED,
        1 => MOVED,
        _ => MOVED_TWICE,
    }
}

#[test]
fn the_host_does_two_instructions_of_four(rt: HostRuntime) {
    let sends = SENDS_A_BYTE.as_bytes();
    let host = watched(&rt, rt.alloc(), sends, "run --wedge I B 2048 8", SENT);
    holds(&rt, 0, Host::passed(&host) == 8_589_934_597);
    begin_behind_moves(&rt, host.begun());
    // Behind them stands the patched OUT.
    ended_so(&rt, &host, 2, 0x04F4_F500);
}

/// Each run began after as many of the two MOVs as the host had done, and there was one.
fn begin_behind_moves(rt: &impl Abort, runs: &[Begun]) {
    holds(rt, 0, !runs.is_empty());
    for (k, begun) in runs.iter().enumerate() {
        holds(rt, k, begun.regs == behind(begun.retired));
    }
}

/// The host did so many instructions, and its last run ended at this entry.
fn ended_so(rt: &impl Abort, host: &Watched, retired: u64, entry: u32) {
    holds(rt, 0, Host::retired(host) == retired);
    holds(rt, 1, host.last_exit == Exit::Entry(entry));
}

// The jump back is step 5, which the host does.
#[test]
fn a_site_at_the_start_enters_at_its_place_in_the_window(rt: HostRuntime) {
    let source = b"_start: cli\njmp _start\n";
    let host = watched(
        &rt,
        rt.alloc(),
        source,
        "run --wedge I B 2048 7",
        b"end steps 7\n",
    );
    ended_so(&rt, &host, 1, 0x04F4_F4F9);
}

/// A kernel, a run, and what it may print beside the old read. The first kernel's page shares its place in the bare machine's
/// TLB with the text, whose fetches drop it; nothing drops that of the second.
static STALE: [(&str, &str, &[u8]); 3] = [
    (READS_A_STALE_PAGE, "run --bare I B 2048 40", NEW),
    (READS_A_STALE_PAGE, "run --wedge I B 2048 40", OLD),
    (READS_A_STALE_PAGE_ALONE, "run --bare I B 2048 40", OLD),
];

#[test]
fn a_page_stays_stale_until_invlpg(rt: HostRuntime) {
    for (source, run, may_be) in STALE.iter() {
        let mut files = built(&rt, rt.alloc(), source.as_bytes());
        prints_either(&rt, rt.alloc(), &mut files, run, may_be);
    }
}

/// A run is done, and prints the old read or the other one.
fn prints_either(rt: &impl Abort, alloc: Global, files: &mut MemFiles, run: &str, may_be: &[u8]) {
    let (number, out) = answer(rt, alloc, files, run, &[]);
    is_so(rt, run, number == 0);
    let found = out.bytes();
    is_so(rt, run, are_same(found, OLD) || are_same(found, may_be));
}
