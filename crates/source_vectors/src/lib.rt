//! Sources against what other tools make of them: tokens, items, instructions and objects, and the refusals of each.
#![tactic(auto)]

#[cfg(test)]
mod burnt;
#[cfg(test)]
mod gcc;
#[cfg(test)]
mod instructions;
#[cfg(test)]
mod items;
#[cfg(test)]
mod rest;
#[cfg(test)]
mod statements;
#[cfg(test)]
mod tokens;
