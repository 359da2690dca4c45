//! What an assembler's source says: its items, and the names of its directives.
#![tactic(auto)]

mod bytes;
mod directive_table;
mod names;
mod tree;

pub use bytes::{begins, is_text};
pub use directive_table::{DirectiveName, directive_name};
pub use names::{Names, SYMBOL_LIMIT};
pub use tree::{Argument, Arguments, Body, Form, Name, Source, SourceItem, Value};
