//! The devices of the board, and the script of what reaches them from outside.
#![tactic(auto)]

mod devices;
mod fault;
mod laws;
mod ports;
mod read;
mod reading;
mod restored;
mod saved;
mod script;

pub use devices::{Board, PortRead};
pub use fault::{ScriptCause, ScriptFault};
pub use laws::{edges_are_one, steps_are_quiet};
pub use reading::read_script;
pub use restored::{are_zero, controllers_at, eight_at, four_at, is_period_or_none};
pub use script::{Event, Script, steps_to_event};
