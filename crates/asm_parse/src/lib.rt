//! The items of an assembler's source, in the grammar's words.
#![tactic(auto)]

mod laws;
mod parsing;

pub use asm_source::{Argument, Arguments, Body, Form, Name, Source, SourceItem, Value};
pub use laws::{one_cause_fits, refused_has_no_reading, sources_are_readable};
pub use parsing::parse;
