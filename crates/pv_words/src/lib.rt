//! The words of the command line: which of them are a command, and what it is given.
#![tactic(auto)]

mod certificate_words;
mod checkpoint_words;
mod mode;
mod share_words;
mod words;

pub use mode::RunMode;
pub use words::{CommandWords, RestWords, RunWords, ShareWords, form, is_name, is_word};
