//! From bytes to the instruction that begins them.
#![tactic(auto)]

mod answer;
mod bytes;
mod fields;
mod form;
mod front;
mod index;
mod laws;
mod named;
mod numbers;

pub use answer::{Decoded, decode, decode_into};
pub use bytes::{Bytes, append, decode_joined, decode_joined_into};
pub use front::{LONGEST, front_len, next_page};
pub use laws::{answers, reads_back};
pub use named::refused;
