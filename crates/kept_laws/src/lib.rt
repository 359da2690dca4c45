//! Laws of what shadows remember of a run's translations, so that a value of CR3 that is loaded again brings back those
//! that a run owes.
#![tactic(auto)]

mod carrying;
mod judging;
mod knowing;
mod remembering;

pub use carrying::{next_is_kept, roomy_is_few};
pub use judging::{clashes_agree, found_goes_on, held_is, taken_on};
pub use knowing::known_goes_on;
pub use remembering::{
    causes_owe_nothing, dropped_remembers, loads_remember, settling_tells, start_remembers,
    steps_remember, still_remembers,
};
