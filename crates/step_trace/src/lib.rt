//! The trace of a run with a line for each of its steps.
#![tactic(auto)]

mod ahead;
mod doing;
mod laws;
mod printed;
mod step;
mod steps;
mod stops;
mod trace;
mod wanted;

pub use laws::{denials_tell, each_trace_is_of_its_run, without_lines};
pub use trace::trace_steps;
