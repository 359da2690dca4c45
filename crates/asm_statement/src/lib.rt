//! The statements of an assembler's source, one token at a time, and the result of a text that is read from left to
//! right.
#![tactic(auto)]

mod argument;
mod dead;
mod directive;
mod fault;
mod reading;
mod scope;
mod state;
mod statement;
mod text;

pub use directive::{Directive, Head};
pub use fault::StepFault;
pub use scope::Scope;
pub use state::{Open, StatementState};
pub use text::read_text;
