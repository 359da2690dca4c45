//! Certificates as files, and the commands `prove` and `replay`.
#![tactic(auto)]

mod certificate_lines;
mod certificates;
mod proving;
mod replaying;

pub use proving::prove;
pub use replaying::replay;
