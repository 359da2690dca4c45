//! What a command asks for, what its status means, and the commands of one kernel: `burn`, `link`, `check`, `run` and `work`.
#![tactic(auto)]

mod burning;
mod checking;
mod delivery;
mod keeping;
mod linking;
mod patched;
mod running;
mod working;

pub use burning::burn;
pub use checking::check;
pub use delivery::deliver;
pub use linking::link;
pub use running::run;
pub use working::work;
