//! The items of a run and their lines, and numbers in hexadecimal.
#![tactic(auto)]

mod digits;
mod items;
mod lines;
mod notes;
mod pause;
mod step_items;

pub use digits::{hex_digit, hex2, hex4, hex8};
pub use items::{End, Ended, Item, What};
pub use lines::{put_end, put_item};
pub use notes::{NoNotes, Notes};
pub use pause::{Pause, end_of};
pub use step_items::{StepItems, put_step};
