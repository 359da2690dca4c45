//! The guest's memory within one step, over any keeper of translations.
#![tactic(auto)]

mod access;
mod changes;
mod guard;
mod laws;
mod own;
mod page;
mod shown;
mod state;
mod touching;
mod translations;
mod visited;
mod walking;

pub use access::{bytes, load, load_earlier, save};
pub use changes::{Change, Changes, last_change};
pub use guard::{Guard, Own, Text, is_loaded, lies_in};
pub use laws::{fetches_in_order, ranges_in_order};
pub use own::{own_back, own_front};
pub use shown::{Bytes, read_laid};
pub use state::{Earlier, Reach, StepState};
pub use touching::{fetch, touch};
pub use translations::Translations;
pub use visited::Visited;
pub use walking::Control;
