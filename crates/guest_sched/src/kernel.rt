//! Kernels that share a host, and why they have no end.

use board::Script;
use image_check::Checked;
use image_load::TooSmall;
use thiserror::Error;

/// A kernel that shares the host: its image, and what reaches its board.
#[derive(Drop)]
pub struct Kernel {
    pub image: Checked,
    pub script: Script,
}

/// Why several kernels have no end.
#[derive(Clone, Copy, Debug, Error)]
pub enum SharedFault {
    #[error("the trace can't be written")]
    Write,
    #[error("{0}")]
    TooSmall(TooSmall),
    #[error("no memory was found")]
    Memory,
}
