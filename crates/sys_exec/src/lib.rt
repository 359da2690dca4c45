//! Sensitive instructions, over any memory of the guest.
#![tactic(auto)]

mod agreement;
mod branch;
mod control;
mod effect;
mod execute;
mod flags;
mod iret;
mod moves;
mod operand;
mod port;
mod segment;
mod table;

pub use agreement::{rows_agree, user_flags_agree};
pub use effect::{Refusal, SysEffect, SysOutcome};
pub use execute::sys;
pub use operand::past;
