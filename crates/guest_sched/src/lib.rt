//! Several kernels on one host, each for a slice of steps at a time.
#![tactic(auto)]

mod admit;
mod exchange;
mod fault;
mod finish;
mod kernel;
mod laws;
mod mark;
mod read;
mod reading;
mod schedule;
mod shared;
mod tagged;
mod tenants;
mod turn;

pub use fault::{ScheduleCause, ScheduleFault};
pub use kernel::{Kernel, SharedFault};
pub use laws::{kernels_stay_apart, turns_join, turns_put_lines};
pub use reading::read_schedule;
pub use schedule::{Schedule, Slice};
pub use shared::run_shared;
