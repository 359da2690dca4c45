//! The words of the command line of `look`: which of them are a form, and what it is given.
#![tactic(auto)]

mod aspects;
mod forms;
mod lists;
mod numbers;
mod words;

pub use forms::form;
pub use words::{Addresses, Aspect, LookWords, LookedRun, Only, Steps};
