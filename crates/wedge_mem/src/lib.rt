//! The memory of a guest whose translations are kept in shadow tables.
#![tactic(auto)]

mod filling;
mod lent;
mod memory;
mod pages;
mod progress;
mod serving;
mod settling;
mod telling;

pub use lent::Lent;
pub use memory::WedgeMem;
pub use pages::{entry_of, is_among, pages_of};
pub use settling::settle;
