//! From an instruction to its chosen spelling.
#![tactic(auto)]

mod bytes;
mod choose;
mod laws;
mod parts;
mod text;

pub use bytes::ArrayBytes;
pub use choose::{NoForm, Wide, encode};
pub use laws::{
    arithmetic_has_no_words, branches_are_long, choices, destinations_are_in_rm, numbers_are_short,
    short_forms,
};
