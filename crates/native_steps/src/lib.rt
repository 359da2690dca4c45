//! One native instruction, on both machines: what the host completes over the guest's memory is the guest's step, and
//! what the guest's step uses and the host's tables lend, the host completes. All over definitions.
#![tactic(auto)]

mod effects;
mod granted;
mod laws;
mod texts;

pub use granted::grants;
pub use laws::{
    advances, at_sites, backward, forward, native_completes, not_entered, steps_again,
    uses_are_seen,
};
