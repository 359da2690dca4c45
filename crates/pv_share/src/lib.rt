//! Several kernels with their schedule, read from files, and the command `share`.
#![tactic(auto)]

mod kernel;
mod sharing;

pub use sharing::share;
