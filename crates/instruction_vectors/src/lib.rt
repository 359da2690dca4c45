//! Instructions against values from outside: what an assembler spells, what a disassembler shows, and what a processor
//! does.
#![tactic(auto)]

#[cfg(test)]
mod accesses;
#[cfg(test)]
mod decoding;
#[cfg(test)]
mod effects;
#[cfg(test)]
mod encoding;
#[cfg(test)]
mod named;
#[cfg(test)]
mod numbers;
#[cfg(test)]
mod spelled;
#[cfg(test)]
mod texts;
