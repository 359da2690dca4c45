//! From the items of a source to its object: instructions in their chosen spellings, padded and
//! annotated, data, symbols and relocations.
#![tactic(auto)]

mod argument;
mod assembly;
mod burning;
mod data;
mod directive;
mod fault;
mod instruction;
mod laws;
mod limits;
mod names;
mod object;
mod section;
mod symbol;
mod value;

pub use assembly::Assembly;
pub use burning::burn;
pub use fault::{BurnCause, BurnFault};
pub use laws::{lowest_cause_is_told, one_refusal_comes_first, relocations_name_their_symbols};
pub use section::Section;
pub use symbol::{Binding, Definition};
