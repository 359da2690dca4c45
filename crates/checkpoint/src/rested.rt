//! How a run to a checkpoint ends.

use crate::state::State;
use run_trace::Ended;

/// The outcome of a run that is to be saved: its state, once all its steps are done, or its end at a stop before.
#[derive(Drop)]
pub enum Rested {
    At(State),
    Stopped(Ended),
}
