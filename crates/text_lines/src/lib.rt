//! Texts line by line, and numbers in their words.
#![tactic(auto)]

mod cuts;
mod lines;
mod numbers;

pub use cuts::{first_cut, is_skipped};
pub use lines::{LineFault, LineReader, read_lines};
pub use numbers::{hex_byte, hex_value, number, number_upto};
