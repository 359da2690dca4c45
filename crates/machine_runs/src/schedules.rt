//! What schedules say.

use crate::common::holds;
use guest_sched::{ScheduleCause, ScheduleFault, Slice, read_schedule};
use std::alloc::Global;
use std::process::Abort;

/// The slices are these, kernel and steps.
fn are_slices(rt: &impl Abort, list: &[Slice], want: &[(u8, u64)]) {
    holds(rt, want.len(), list.len() == want.len());
    for (row, (slice, (kernel, steps))) in list.iter().zip(want).enumerate() {
        holds(rt, row, slice.kernel == *kernel && slice.steps == *steps);
    }
}

fn says(rt: &impl Abort, alloc: Global, text: &[u8], want: &[(u8, u64)]) {
    let schedule = read_schedule(alloc, text, 2).expect(rt, "a schedule");
    are_slices(rt, &schedule.list, want);
}

fn refused(rt: &impl Abort, alloc: Global, text: &[u8], line: u64, cause: ScheduleCause) {
    match read_schedule(alloc, text, 2) {
        Err(fault) => {
            assert!(rt; fault == ScheduleFault::At { line, cause });
        }
        Ok(_) => panic!(rt; "a schedule"),
    }
}

/// Texts, and the slices that each says: kernel and steps.
static READ: [(&[u8], &[(u8, u64)]); 4] = [
    (b"", &[]),
    (b"0 3\n# a comment\n\n1 8\n", &[(0, 3), (1, 8)]),
    (b"0 3\n1 8", &[(0, 3), (1, 8)]),
    (b"0 1099511627776\n1 1\n", &[(0, 1 << 40), (1, 1)]),
];

#[test]
fn schedules_have_their_form(rt: HostRuntime) {
    let alloc = rt.alloc();
    for (text, slices) in &READ {
        says(&rt, alloc, text, slices);
    }
}

/// Texts, and the line and the cause by which each is refused.
static REFUSED: [(&[u8], u64, ScheduleCause); 10] = [
    (b"2 5\n", 1, ScheduleCause::BadNumber),
    (b"0 3\n0  3\n", 2, ScheduleCause::NoForm),
    (b"\n0 3 \n", 2, ScheduleCause::NoForm),
    (b"0 3\r\n", 1, ScheduleCause::NoForm),
    (b"00 3\n", 1, ScheduleCause::BadNumber),
    (b"0 03\n", 1, ScheduleCause::BadNumber),
    (b"0 0\n", 1, ScheduleCause::BadNumber),
    (b"0 1099511627777\n", 1, ScheduleCause::BadNumber),
    (b"0 1099511627776\n1 4\n0 1\n", 3, ScheduleCause::BadNumber),
    (b"0 99999999999999999999999\n", 1, ScheduleCause::BadNumber),
];

#[test]
fn schedules_of_another_form_are_refused(rt: HostRuntime) {
    let alloc = rt.alloc();
    for (text, line, cause) in &REFUSED {
        refused(&rt, alloc, text, *line, *cause);
    }
}

/// As many lines of one slice.
fn slices(rt: &impl Abort, alloc: Global, count: usize) -> Vec<u8> {
    let mut text = Vec::new(alloc);
    for _ in 0..count {
        for b in b"1 2\n" {
            assert!(rt; text.push(*b).is_ok());
        }
    }
    text
}

#[test]
fn schedules_have_1024_slices_at_most(rt: HostRuntime) {
    let alloc = rt.alloc();
    let most = slices(&rt, alloc, 1024);
    let schedule = read_schedule(alloc, &most, 2).expect(&rt, "a schedule");
    holds(&rt, 1024, schedule.list.len() == 1024);
    let more = slices(&rt, alloc, 1025);
    refused(&rt, alloc, &more, 1025, ScheduleCause::TooMany);
}
