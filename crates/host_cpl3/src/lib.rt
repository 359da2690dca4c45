//! The unprivileged processor of a host, and its memory: instructions at CPL 3 through page tables of the host's own.
#![tactic(auto)]

mod bytes;
mod exit;
mod fetch;
mod host;
mod laws;
mod machine;
mod pages;
mod permit;
mod reach;
mod reaching;
mod registers;
mod step;
mod store;
mod view;
mod walks;

pub use exit::Exit;
pub use host::Host;
pub use laws::{borders, each_is_run};
pub use machine::Machine;
pub use view::View;
