//! The sites of a text: the annotation section both ways, and the text patched in memory.
#![tactic(auto)]

mod gapped;
mod kind;
mod limits;
mod patching;
mod reading;
mod site;
mod words;
mod writing;

pub use gapped::are_gapped;
pub use limits::{INIT_LIMIT, SHORT_TEXT, SITE_LIMIT, TEXT_LIMIT, of_text};
pub use patching::patch;
pub use reading::{count, read_sites};
pub use site::{Site, Sites, SitesFault};
pub use writing::write_sites;
