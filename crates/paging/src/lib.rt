//! Translation of linear addresses, and the memory that a step reaches through it.
#![tactic(auto)]

mod bits;
mod entry;
mod memory;
mod modes;
mod walking;
mod words;

pub use bits::{ACCESSED, DIRTY, PDE_PS, PTE_A, PTE_D, PTE_P, PTE_RW, PTE_US};
pub use entry::{Access, Entry, Touch, Walk};
pub use memory::GuestMem;
pub use modes::{fetches_agree, ranges_stay, uses_agree};
pub use walking::{allows, grants, set_flags, walk};
pub use words::Words;
