//! The bare machine: it runs the unpatched bytes of an image.
#![tactic(auto)]

mod bare;
mod ending;
mod events;
mod finish;
mod fresh;
mod idle;
mod laws;
mod left;
mod machine;
mod once;
mod run;
mod slice;

pub use bare::Bare;
pub use ending::end_run;
pub use fresh::run_fresh;
pub use laws::{each_course_is_a_run, each_kept_course_is_a_run, kept_sets, parts_join};
pub use machine::BareMachine;
pub use once::{StepRoom, StepStop, Stepped};
pub use run::{run_bare, run_on};
