//! Memory, frames, translations, shadows, the host's processor, devices and generated kernels, each by itself: what the data
//! sheets and the profile say of them, and what a program of another language found.
#![tactic(auto)]

#[cfg(test)]
mod asked;
#[cfg(test)]
mod boards;
#[cfg(test)]
mod buffer;
#[cfg(test)]
mod host;
#[cfg(test)]
mod interrupt_controllers;
#[cfg(test)]
mod kernels;
#[cfg(test)]
mod memory;
#[cfg(test)]
mod pool;
#[cfg(test)]
mod roots;
#[cfg(test)]
mod serial_port;
#[cfg(test)]
mod shadows;
#[cfg(test)]
mod step_memory;
#[cfg(test)]
mod timer;
