//! Laws of an accepted image: how its sites lie in its text, where control goes from instructions
//! outside sites, and what is fetched from the text and from the patched text.
#![tactic(auto)]

mod closure;
mod fetches;
mod layout;
mod patches;

pub use closure::{addresses, goes_on, ways_on};
pub use fetches::{fetching, fetching_from_patched, fetching_from_text};
pub use layout::{inside_sites, outside_sites, places};
pub use patches::{jumps_out, patching};
