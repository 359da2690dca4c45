//! Runs of small kernels by the machines' own calls, in slices, moved, shared by several kernels and judged, and the files of
//! schedules, certificates and checkpoints.
#![tactic(auto)]

#[cfg(test)]
mod adopted;
#[cfg(test)]
mod checkpoint_files;
#[cfg(test)]
mod common;
#[cfg(test)]
mod guests;
#[cfg(test)]
mod judged;
#[cfg(test)]
mod patched;
#[cfg(test)]
mod schedules;
#[cfg(test)]
mod shared;
#[cfg(test)]
mod slices;
