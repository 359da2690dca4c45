//! The outcome of one step of a machine, over any keeper of translations and under a monitor's rules or none.
#![tactic(auto)]

mod delivery;
mod execute;
mod fetch;
mod instruction;
mod laws;
mod ports;
mod resting;
mod rules;
mod stepping;
mod worked;

pub use delivery::refuse;
pub use fetch::fetch as fetch_at;
pub use instruction::carry_out;
pub use laws::plain_divides;
pub use resting::resting_steps;
pub use rules::Rules;
pub use stepping::{NO_BYTES, begin_again, first_state, interrupt, step_again, step_at, step_in};
pub use worked::{Completed, Dropped, Raised, Seen, Worked, items_of, put_seen};
