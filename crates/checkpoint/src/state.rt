//! What a checkpoint holds, and why one is refused.

use board::Board;
use descriptors::Cpu;
use guest_ram::Ram;
use thiserror::Error;

/// A machine between two steps, without translations: processor, board, the count of steps and the memory, whose text is
/// as it was before it was patched.
#[derive(Drop)]
pub struct State {
    pub cpu: Cpu,
    pub board: Board,
    /// How many steps were done.
    pub step: u64,
    /// All frames.
    pub ram: Ram,
}

/// Why a checkpoint isn't gone on from.
#[derive(Clone, Copy, Debug, Error)]
pub enum CheckpointCause {
    /// The bytes aren't those of a checkpoint.
    #[error("no checkpoint")]
    Form,
    /// The memory hasn't the image's text in its place.
    #[error("the memory hasn't the image's text in its place")]
    TextChanged,
    /// At level 3 interrupts are off, or IOPL isn't 0.
    #[error("interrupts are off at level 3, or IOPL isn't 0 there")]
    UserFlags,
    /// More steps were done than are asked for.
    #[error("more steps were done than are asked for")]
    StepsPast,
}

/// Why no state is read.
#[derive(Clone, Copy, Debug, Error)]
pub enum CheckpointFault {
    /// The place in the file.
    #[error("{cause}, at {at}")]
    At { at: u32, cause: CheckpointCause },
    #[error("no memory was found")]
    Memory,
}
