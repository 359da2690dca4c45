//! The bare machine's memory: a cache keeps translations between steps.
#![tactic(auto)]

mod kept;

pub use kept::{Cached, drop_all, drop_dir, drop_gone, drop_page, settle};
