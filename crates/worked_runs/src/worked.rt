//! Kernels and refusals as texts that are read line by line.

use crate::commands::{no_files, repeated, store};
use crate::sessions::{follow, follow_over};
use worked_kernels::{
    BORDERS, BUILT, EVENTS, HOSTILE, LARGE, PLAIN, REFUSED, TOO_MANY_SITES, USER,
};

#[test]
fn kernels_run_to_their_bound_or_are_refused(rt: HostRuntime) {
    follow(&rt, rt.alloc(), PLAIN);
    follow(&rt, rt.alloc(), EVENTS);
    follow(&rt, rt.alloc(), USER);
}

#[test]
fn sources_become_kernels_that_run(rt: HostRuntime) {
    follow(&rt, rt.alloc(), BUILT);
}

#[test]
fn stops_end_hostile_kernels_and_a_monitor_keeps_its_windows(rt: HostRuntime) {
    follow(&rt, rt.alloc(), HOSTILE);
    follow(&rt, rt.alloc(), BORDERS);
    follow(&rt, rt.alloc(), LARGE);
}

#[test]
fn each_is_refused_by_its_line(rt: HostRuntime) {
    follow(&rt, rt.alloc(), REFUSED);
    let mut files = no_files(&rt, rt.alloc());
    let source = repeated(&rt, rt.alloc(), b"", b"cli\n", 262_145);
    store(&rt, &mut files, "S", &source);
    follow_over(&rt, rt.alloc(), &mut files, TOO_MANY_SITES);
}
