//! What a run lets be seen.

use ia32_types::Stop;

/// What happened: a read or a write of a port with the port's number and the value, a byte that the serial
/// port sent, or an external interrupt with its vector.
#[derive(Clone, Copy)]
pub enum What {
    In8(u16, u8),
    In32(u16, u32),
    Out8(u16, u8),
    Out32(u16, u32),
    /// A byte at the serial line.
    Sent(u8),
    /// An interrupt's vector.
    Irq(u8),
}

/// In which step, counted from 0, it happened.
#[derive(Clone, Copy)]
pub struct Item {
    pub step: u64,
    pub what: What,
}

/// How a run ended: after all its steps, or at a stop.
#[derive(Clone, Copy)]
pub enum End {
    Bound,
    Stopped(Stop),
}

/// The number of steps that were done, how the run ended, and how many entries the shadow tables were
/// given, which is 0 on the bare machine.
#[derive(Clone, Copy)]
pub struct Ended {
    pub steps: u64,
    pub end: End,
    pub fills: u64,
}
