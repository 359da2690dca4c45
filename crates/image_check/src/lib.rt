//! Which files are accepted as images, and what is known of the accepted ones.
#![tactic(auto)]

mod checked;
mod checking;
mod fault;
mod laws;
mod piece;
mod place;
mod placing;
mod site;
mod sweeping;
mod target;

pub use checked::Checked;
pub use checking::check;
pub use fault::{CheckCause, CheckFault};
pub use laws::{
    causes_are_conditions, first_cause, one_sweep, refused_in_order, sites_from_the_front,
};
pub use place::AtOffset;
