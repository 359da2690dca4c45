//! Several kernels on one host, by the command that the program has for it.

use crate::commands::{add, answer, are_same, built, holds, is_so, printed, repeated, store, took};
use crate::sessions::{follow, follow_over, is_done};
use pv_io::{MemFiles, MemSink};
use std::alloc::Global;
use std::process::Abort;
use worked_kernels::{
    ARE_TOO_LARGE, COUNTS_AT_LEVEL_3, FOUR_IN_TURNS, FOUR_TIMES, GOES_OVER_MANY_TABLES,
    IS_HELD_OFF, IS_INTERRUPTED, RELEASES, SENDS_A_BYTE, SHARED, TURNS_END_HELD_OFF,
};

/// A kernel with its number, its source, what links its image from the object O, and what runs all of its steps.
#[derive(Clone, Copy)]
struct Tenant<'a> {
    number: u8,
    source: &'a str,
    links: &'a str,
    runs: &'a str,
}

const SHARE_ALL: &str = "share C 2048 I0 B I1 B I2 B I3 B";

/// The lines with a number, without it.
fn lines_of(rt: &impl Abort, alloc: Global, text: &[u8], number: u8) -> Vec<u8> {
    let mut lines = Vec::new(alloc);
    // 0 at a line's first byte, 1 at its second, 2 after these in a line of the number, 3 in another's
    let mut place = 0u8;
    for b in text {
        if place == 2 {
            add(rt, &mut lines, &[*b]);
        }
        place = place_behind(place, *b, number);
    }
    lines
}

/// The place after a byte of a line.
fn place_behind(place: u8, b: u8, number: u8) -> u8 {
    match place {
        0 => { if b == number { 1 } else { 3 } }
        1 => 2,
        _ => { if b == b'\n' { 0 } else { place } }
    }
}

fn makes_image(rt: &impl Abort, alloc: Global, files: &mut MemFiles, tenant: Tenant<'_>) {
    store(rt, files, "S", tenant.source.as_bytes());
    is_so(rt, "burn", is_done(rt, alloc, files, "burn S O"));
    is_so(rt, tenant.links, is_done(rt, alloc, files, tenant.links));
}

/// The lines of a kernel of several are what it prints by this command.
fn is_as_alone(
    rt: &impl Abort,
    alloc: Global,
    files: &mut MemFiles,
    number: u8,
    run: &str,
    shared: &[u8],
) {
    let alone = printed(rt, alloc, files, run);
    let mine = lines_of(rt, alloc, shared, number);
    is_so(rt, run, are_same(&mine, alone.bytes()));
    is_so(rt, run, !mine.is_empty());
}

/// A command over these files returns a status, and its sink.
fn comes_to(
    rt: &impl Abort,
    alloc: Global,
    files: &mut MemFiles,
    command: &str,
    fail: &[u64],
    status: u8,
) -> MemSink {
    let (number, out) = answer(rt, alloc, files, command, fail);
    is_so(rt, command, number == status);
    out
}

/// Files with an empty script as B, this schedule as C, and an image of each kernel.
fn shared_files(
    rt: &impl Abort,
    alloc: Global,
    tenants: &[Tenant<'_>],
    schedule: &[u8],
) -> MemFiles {
    let mut files = follow(rt, alloc, "$ store B\n");
    store(rt, &mut files, "C", schedule);
    for tenant in tenants {
        makes_image(rt, alloc, &mut files, *tenant);
    }
    files
}

/// The lines of each of four kernels are what it prints alone on a host of its own.
fn each_as_alone(
    rt: &impl Abort,
    alloc: Global,
    tenants: &[Tenant<'_>],
    schedule: &[u8],
    status: u8,
) {
    let mut files = shared_files(rt, alloc, tenants, schedule);
    let out = comes_to(rt, alloc, &mut files, SHARE_ALL, &[], status);
    for tenant in tenants {
        let (number, run) = (tenant.number, tenant.runs);
        is_as_alone(rt, alloc, &mut files, number, run, out.bytes());
    }
}

#[test]
fn kernels_share_a_host_in_turns(rt: HostRuntime) {
    let mut files = follow(&rt, rt.alloc(), SHARED);
    // The put between a number and its line fails.
    store(&rt, &mut files, "C", b"0 3\n1 8\n0 5\n");
    let share = "share C 2048 I B I B";
    let out = comes_to(&rt, rt.alloc(), &mut files, share, &[3], 6);
    took(&rt, &out, b"0 2 out8 03f8 48\n0 ");
}

#[test]
fn a_schedule_has_its_limits(rt: HostRuntime) {
    let mut files = built(&rt, rt.alloc(), SENDS_A_BYTE.as_bytes());
    has_turns(&rt, rt.alloc(), &mut files, 1024, MOST);
    has_turns(&rt, rt.alloc(), &mut files, 1025, MORE);
}

/// What is printed for 1,024 turns, and for one more.
const MOST: &str = "$ 0 share C 2048 I B\n0 2 out8 03f8 48\n0 2 tx 48\n0 end steps 1024\n";

const MORE: &str = "$ 3 share C 2048 I B\nrefused 102 line 1025\n";

/// A session over a schedule of so many turns of one step.
fn has_turns(rt: &impl Abort, alloc: Global, files: &mut MemFiles, turns: usize, session: &str) {
    let schedule = repeated(rt, alloc, b"", b"0 1\n", turns);
    store(rt, files, "C", &schedule);
    follow_over(rt, alloc, files, session);
}

#[test]
fn a_turn_ends_while_interrupts_are_held_off(rt: HostRuntime) {
    let mut files = follow(&rt, rt.alloc(), IS_HELD_OFF);
    follow_over(&rt, rt.alloc(), &mut files, TURNS_END_HELD_OFF);
}

#[test]
fn one_image_runs_four_times_side_by_side(rt: HostRuntime) {
    let mut files = follow(&rt, rt.alloc(), IS_HELD_OFF);
    store(&rt, &mut files, "C", FOUR_IN_TURNS.as_bytes());
    let share = "share C 2048 I B I B I B I B";
    let out = comes_to(&rt, rt.alloc(), &mut files, share, &[], 0);
    took(&rt, &out, FOUR_TIMES.as_bytes());
    each_is_one(&rt, rt.alloc(), &mut files, out.bytes());
}

/// Each of the four printed what one prints alone.
fn each_is_one(rt: &impl Abort, alloc: Global, files: &mut MemFiles, shared: &[u8]) {
    let alone = printed(rt, alloc, files, "run --wedge I B 2048 70");
    for (row, number) in b"0123".iter().enumerate() {
        let mine = lines_of(rt, alloc, shared, *number);
        holds(rt, row, are_same(&mine, alone.bytes()));
    }
}

#[test]
fn the_first_kernel_that_needs_more_frames_is_told(rt: HostRuntime) {
    follow(&rt, rt.alloc(), ARE_TOO_LARGE);
}

/// A kernel that sends a byte, two that are interrupted, and one that counts at level 3.
static KERNELS: [Tenant<'static>; 4] = [
    Tenant {
        number: b'0',
        source: SENDS_A_BYTE,
        links: "link I0 O",
        runs: "run --wedge I0 B 2048 20",
    },
    Tenant {
        number: b'1',
        source: IS_INTERRUPTED,
        links: "link I1 O",
        runs: "run --wedge I1 B 2048 148",
    },
    Tenant {
        number: b'2',
        source: COUNTS_AT_LEVEL_3,
        links: "link I2 O",
        runs: "run --wedge I2 B 2048 36",
    },
    Tenant {
        number: b'3',
        source: IS_INTERRUPTED,
        links: "link I3 O",
        runs: "run --wedge I3 B 2048 164",
    },
];

#[test]
fn each_kernel_prints_what_it_prints_alone(rt: HostRuntime) {
    // Turns end within the padding of sites, while a kernel is halted, waits for an interrupt or is at level 3.
    let turns = repeated(&rt, rt.alloc(), b"", b"0 5\n1 37\n2 9\n3 41\n", 4);
    each_as_alone(&rt, rt.alloc(), &KERNELS, &turns, 4);
}

/// Four times the kernel that goes over many tables.
static LARGE_KERNELS: [Tenant<'static>; 4] = [
    Tenant {
        number: b'0',
        source: GOES_OVER_MANY_TABLES,
        links: "link I0 O",
        runs: "run --wedge I0 B 2048 2800",
    },
    Tenant {
        number: b'1',
        source: GOES_OVER_MANY_TABLES,
        links: "link I1 O",
        runs: "run --wedge I1 B 2048 2800",
    },
    Tenant {
        number: b'2',
        source: GOES_OVER_MANY_TABLES,
        links: "link I2 O",
        runs: "run --wedge I2 B 2048 2800",
    },
    Tenant {
        number: b'3',
        source: GOES_OVER_MANY_TABLES,
        links: "link I3 O",
        runs: "run --wedge I3 B 2048 2800",
    },
];

#[test]
fn kernels_that_need_more_than_the_pool_give_up_frames(rt: HostRuntime) {
    let turns = repeated(&rt, rt.alloc(), b"", b"0 1400\n1 1400\n2 1400\n3 1400\n", 2);
    each_as_alone(&rt, rt.alloc(), &LARGE_KERNELS, &turns, 0);
}

#[test]
fn parked_kernels_are_released_in_their_order(rt: HostRuntime) {
    follow(&rt, rt.alloc(), RELEASES);
}
