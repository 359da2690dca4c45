//! Where the parts of an object stand.

/// The linear addresses at which the text, the data and the zeroed bytes of an object begin.
#[derive(Clone, Copy)]
pub struct Base {
    pub text: u32,
    pub init: u32,
    pub bss: u32,
}
