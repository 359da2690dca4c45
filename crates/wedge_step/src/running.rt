//! A guest between two of its steps.

use board::Board;
use descriptors::Cpu;
use shadow_tables::Shadows;

/// Whether all translations were dropped before the step that was tried last, and after it; and whether it loaded CR3, so
/// that those which were kept under the value came back.
#[derive(Clone, Copy)]
pub struct Lost {
    pub before: bool,
    pub after: bool,
    pub reloaded: bool,
}

/// A guest between two of its steps: its processor and board, how many steps were done, how many frames its memory has,
/// how many pages were filled, how many frames of the pool it holds, the shadows that hold them, and what the last step
/// lost of its translations or brought back. Its memory is the front of the host's.
#[derive(Drop)]
pub struct Running<S: Shadows + Drop> {
    pub cpu: Cpu,
    pub board: Board,
    pub step: u64,
    pub frames: u32,
    pub fills: u64,
    pub held: u32,
    pub shadows: S,
    pub lost: Lost,
}
