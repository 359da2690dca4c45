//! Checkpoints as files, and the commands `save` and `continue`.
#![tactic(auto)]

mod checkpoints;
mod continuing;
mod machine;
mod saving;

pub use continuing::go_on;
pub use saving::{save, save_from};
