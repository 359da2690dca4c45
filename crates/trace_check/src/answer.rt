//! What is said of a text and of choices.

use ia32_types::Stop;
use image_load::TooSmall;
use run_trace::End;
use thiserror::Error;

/// What a replay says of a text: it is that of the run; it is, before a stop of a monitor's own, which the bare machine
/// hasn't; the choice at this place, counted from 0, can't be made; or this line, counted from 1, is the first that differs
/// or is missing.
#[derive(Clone, Copy, Debug, PartialEq, Eq)]
pub enum Verdict {
    Yes,
    YesBefore(Stop),
    BadEntry(u32),
    Differs(u64),
}

/// Why nothing is said.
#[derive(Clone, Copy, Debug, Error)]
pub enum ReplayFault {
    #[error("{0}")]
    TooSmall(TooSmall),
    #[error("no memory was found")]
    Memory,
}

/// How the course of choices ends: as a run does, or before a choice, at this place, that can't be made.
#[derive(Clone, Copy)]
pub enum CourseEnd {
    Ended(End),
    BadAt(u32),
}
