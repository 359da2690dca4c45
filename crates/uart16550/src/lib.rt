//! A 16550 serial port, with a receiver of 16 bytes.
#![tactic(auto)]

mod settings;
mod uart;

pub use settings::Settings;
pub use uart::Uart;
