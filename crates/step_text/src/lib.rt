//! The line of a step of a run.
#![tactic(auto)]

mod activity;
mod began;
mod changed;
mod entry;
mod line;
mod raised;
mod row;
mod stored;

pub use activity::Activity;
pub use line::{put_stopping, put_went};
pub use raised::Raised;
pub use row::Row;
