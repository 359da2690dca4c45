//! What each insensitive instruction does to the registers and to linear memory, and those others that user code
//! does by itself.
#![tactic(auto)]

mod access;
mod after;
mod control;
mod effect_of;
mod exec_of;
mod laws;
mod memory;
mod moves;
mod operands;
mod order;
mod outcome;
mod ranges_of;
mod registers;
mod results;
mod selectors;
mod stack;
mod strings;
mod transfers;
mod users;
mod writing;

pub use access::{Range, Ranges};
pub use after::{eip_goes_on, same_over_ranges, system_flags_stay};
pub use effect_of::effect;
pub use exec_of::exec;
pub use laws::{push_all_then_pop_all, push_then_pop, repeated_turns, writes_hold};
pub use memory::{LinearBytes, LinearMem};
pub use order::conditions_after_compare;
pub use outcome::{Effect, Outcome, Store, Stores};
pub use ranges_of::{ranges, segment_of};
pub use registers::{address_of, with_register};
pub use selectors::Selectors;
pub use stack::{esp_above, esp_below, is_foreign, taken};
pub use users::user_effect;
pub use writing::{Writer, write_all};
