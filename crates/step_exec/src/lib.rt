//! What an instruction or a delivery does in the middle of a step, over any keeper of translations.
#![tactic(auto)]

mod agreement;
mod instruction;
mod laws;
mod memory;
mod ranges;
mod store;
mod users;
mod view;

pub use agreement::plain_agrees;
pub use instruction::{plain, reach_both};
pub use laws::{divides, has_user_form};
pub use memory::{Memory, StepMemory};
pub use ranges::is_refused;
pub use users::user_outcome;
