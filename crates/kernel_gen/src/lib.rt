//! Kernels that are made from a number: sources that do a thousand things and begin again. Equal numbers give equal
//! sources.
#![tactic(auto)]

mod source;

pub use source::kernel;
