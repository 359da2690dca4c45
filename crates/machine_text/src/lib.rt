//! A machine as text: registers, devices, translations and memory, for people, `grep` and `awk`.
#![tactic(auto)]

mod cached;
mod devices;
mod dump;
mod entries;
mod mapped;
mod next;
mod numbers;
mod registers;
mod segments;
mod shown;
mod walks;

pub use dump::add_memory;
pub use mapped::Mapped;
pub use shown::add_state;
pub use walks::add_walk;
