//! Terminals of an assembler's source, and the arguments that they make.
#![tactic(auto)]

mod address;
mod escapes;
mod number;
mod operand;
mod register;
mod shape;
mod terminal;

pub use escapes::{Escape, Unescaped};
pub use operand::{
    Partial, ValuePlace, awaits_register, begun, discard, finished, is_finished, is_nothing,
    is_unbegun, name_in, operand_step,
};
pub use register::is_register;
pub use shape::Shape;
pub use terminal::{Terminal, terminal_of};
