//! Files and a sink, as the program sees them, with counts of their faults.
#![tactic(auto)]

mod answer;
mod disk;
mod files;
mod memory;
mod memory_sinks;
mod sink;
mod storing;

pub use answer::{Failed, IoAnswer};
pub use disk::{DiskFiles, StdSink, read_all};
pub use files::Files;
pub use memory::{MemFiles, SureFiles};
pub use memory_sinks::{MemSink, SureSink};
pub use sink::Sink;
