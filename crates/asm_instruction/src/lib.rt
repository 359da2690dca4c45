//! What instruction a statement is.
#![tactic(auto)]

mod argument;
mod arithmetic;
mod assembled;
mod assembling;
mod bytes;
mod condition;
mod control;
mod draft;
mod fields;
mod flags;
mod laws;
mod mnemonic;
mod moves;
mod refused;
mod register;
mod shift;
mod sizes;
mod stack;
mod strings;
mod system;

pub use assembled::{Assembled, Named, Refusal};
pub use assembling::assemble;
pub use fields::{field, fits_field};
pub use laws::{answers, refusals_have_their_conditions};
