//! Objects linked to an image: their parts laid out, their symbols found, their fields filled.
#![tactic(auto)]

mod base;
mod fault;
mod gathering;
mod globals;
mod laws;
mod layout;
mod linkable;
mod linking;
mod relocations;
mod target;
mod totals;

pub use fault::{LinkCause, LinkFault};
pub use laws::{
    causes_in_order, names_doubled, names_found, objects_in_order, parts_apart, parts_stand,
    relocations_in_order, relocations_refused, sites_refused, stages_in_order,
};
pub use linkable::are_linkable;
pub use linking::{link, linked};
