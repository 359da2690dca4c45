//! The patched run: a guest's patched text on an unprivileged host.
#![tactic(auto)]

mod guest;
mod laws;
mod native;
mod noting;
mod rest;
mod run;
mod slice;
mod step;
mod stretch;

pub use guest::Guest;
pub use laws::{alones_go, views_lend};
pub use run::run_wedge;
pub use wedge_step::{Lost, Running};
