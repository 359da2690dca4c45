//! Sensitive instructions and deliveries, row by row: one processor, one instruction or event, and the answer that the
//! Intel SDM and the profile's tables give.
#![tactic(auto)]

mod handler;

pub use handler::resumed;

#[cfg(test)]
mod branches;
#[cfg(test)]
mod control;
#[cfg(test)]
mod deliveries;
#[cfg(test)]
mod flags;
#[cfg(test)]
mod forms;
#[cfg(test)]
mod loads;
#[cfg(test)]
mod moves;
#[cfg(test)]
mod ports;
#[cfg(test)]
mod returns;
#[cfg(test)]
mod steps;
#[cfg(test)]
mod tables;
#[cfg(test)]
mod world;
