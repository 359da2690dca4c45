//! Whose turn comes when.

use std::marker::Model;

/// A kernel's turn: this many of its steps.
#[derive(Clone, Copy)]
pub struct Slice {
    /// The kernel, counted from 0.
    pub kernel: u8,
    pub steps: u64,
}

/// Whose turn comes when. `run_shared` has the condition that it is as `read_schedule` gives it.
#[derive(Drop)]
pub struct Schedule {
    pub list: Vec<Slice>,
}

impl Model for Schedule {
    ghost use Rattle.guest_sched.specs.Schedules.{SliceList};

    ghost Value = { SliceList };

    ghost view = { λ s. record { list = s.list.items } };
}
