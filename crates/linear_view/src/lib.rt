//! Memory as a processor sees it between two steps.
#![tactic(auto)]

mod instruction;
mod range;
mod view;

pub use instruction::instruction_at;
pub use range::{Places, bytes_there, places_of};
pub use view::{page_bytes, translation, walked};
