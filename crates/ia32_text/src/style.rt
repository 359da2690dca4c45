//! How the numbers of an instruction are written.

use ia32_encode::Wide;

/// How the place is written to which a direct branch leads: by the label of its address, or as the address.
#[derive(Clone, Copy)]
pub enum Target {
    Label,
    Address,
}

/// How the numbers of an instruction are written.
#[derive(Clone, Copy)]
pub struct Style {
    pub target: Target,
    /// The fields of four bytes that are written by the label of the text's first byte.
    pub named: Wide,
}
