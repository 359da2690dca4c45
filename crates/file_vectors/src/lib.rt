//! Files, annotations and lines against bytes that other tools made or read, and worked examples of each reader, writer
//! and refusal.
#![tactic(auto)]

#[cfg(test)]
mod agree;
#[cfg(test)]
mod annotations;
#[cfg(test)]
mod fakes;
#[cfg(test)]
mod images;
#[cfg(test)]
mod lines;
#[cfg(test)]
mod links;
#[cfg(test)]
mod loaded;
#[cfg(test)]
mod object_rows;
#[cfg(test)]
mod objects;
#[cfg(test)]
mod refusals;
#[cfg(test)]
mod streams;
#[cfg(test)]
mod vectors;
#[cfg(test)]
mod written;
