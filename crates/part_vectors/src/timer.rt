//! The 8254 by its data sheet and the profile.

use crate::asked::{comes_so, holds};
use ia32_types::Did;
use pit8254::Pit;
use std::process::Abort;

fn count(pit: &mut Pit, low: u8, high: u8) -> (Did, Did) {
    (pit.write(0x40, low), pit.write(0x40, high))
}

/// A control byte, a count's low and high byte, and the steps of its ticks.
type Counted = (u8, u8, u8, u64);

static COUNTS: [Counted; 5] = [
    (0x34, 2, 0, 16),
    (0x36, 2, 0, 16),
    (0x34, 0, 1, 2048),
    (0x34, 0xFF, 0xFF, 524_280),
    (0x34, 0, 0, 524_288),
];

/// Whether the tick comes after so many steps, and no fewer are left.
fn ticks(pit: &mut Pit, steps: u64) -> bool {
    match pit.left() {
        Some(left) => left == steps && pit.advance(left),
        None => false,
    }
}

/// Whether a new timer counts so.
fn is_counted(row: &Counted) -> bool {
    let (mode, low, high, steps) = *row;
    let mut pit = Pit::new();
    pit.write(0x43, mode) == Did::Done
        && pit.left().is_none()
        && count(&mut pit, low, high) == (Did::Done, Did::Done)
        && ticks(&mut pit, steps)
}

#[test]
fn a_count_is_eight_steps_a_tick(rt: HostRuntime) {
    for (k, row) in COUNTS.iter().enumerate() {
        holds(&rt, k, is_counted(row));
    }
}

/// What is done to the timer, and its result.
enum Step {
    Write(u16, u8, Did),
    Left(Option<u64>),
    Pass(u64, bool),
}

/// Whether a step has the result that it states.
fn does(pit: &mut Pit, step: &Step) -> bool {
    match *step {
        Step::Write(port, v, did) => pit.write(port, v) == did,
        Step::Left(steps) => pit.left() == steps,
        Step::Pass(k, edge) => pit.pass(k) == edge,
    }
}

fn follow(rt: &impl Abort, shown: &str, steps: &[Step]) {
    let mut pit = Pit::new();
    for (k, step) in steps.iter().enumerate() {
        comes_so(rt, shown, k, does(&mut pit, step));
    }
}

static NEW_COUNT: [Step; 12] = [
    Step::Write(0x43, 0x34, Did::Done),
    Step::Write(0x40, 2, Did::Done),
    Step::Write(0x40, 0, Did::Done),
    Step::Pass(15, false),
    Step::Write(0x40, 4, Did::Done),
    Step::Write(0x40, 0, Did::Done),
    Step::Left(Some(1)),
    Step::Pass(1, true),
    Step::Left(Some(32)),
    Step::Write(0x43, 0x36, Did::Done),
    Step::Left(None),
    Step::Pass(0x100_0000_0000, false),
];

static OTHER_BYTES: [Step; 11] = [
    Step::Write(0x40, 2, Did::Stop),
    Step::Write(0x43, 0x30, Did::Stop),
    Step::Write(0x43, 0x32, Did::Stop),
    Step::Write(0x43, 0x35, Did::Stop),
    Step::Write(0x43, 0x74, Did::Stop),
    Step::Write(0x43, 0x00, Did::Stop),
    Step::Write(0x43, 0x34, Did::Done),
    Step::Write(0x40, 1, Did::Done),
    Step::Write(0x40, 0, Did::Stop),
    Step::Write(0x40, 1, Did::Done),
    Step::Left(Some(8 * 0x101)),
];

#[test]
fn counts_go_by_the_edge_and_other_bytes_stop(rt: HostRuntime) {
    follow(&rt, "a new count waits for the next edge", &NEW_COUNT);
    follow(&rt, "other bytes stop", &OTHER_BYTES);
}
