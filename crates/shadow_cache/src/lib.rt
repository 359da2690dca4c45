//! Shadows of several values of CR3, kept for when they come back.
#![tactic(auto)]

mod call_lists;
mod coming_back;
mod frame_set;
mod holding;
mod others;
mod pair;
mod pairs;
mod reloads;
mod roots;
mod switching;

pub use call_lists::{Replayed, RootsCall, replay};
pub use coming_back::{
    pairs_are_apart, pairs_are_as_told, pairs_come_back, pairs_leave, pairs_leave_or_stay,
};
pub use holding::roots_alone_keep_nothing;
pub use reloads::Reloads;
pub use roots::Roots;
