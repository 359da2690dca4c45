//! What a command makes.

use crate::halt::Line;

/// The bytes of a file that is to be stored, and the line that is printed for it.
#[derive(Drop)]
pub struct Made {
    pub file: Vec<u8>,
    pub line: Line,
}
