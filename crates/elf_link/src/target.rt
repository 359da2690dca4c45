//! What a symbol stands for.

use elf_form::Place;

/// A place that a symbol stands for: `value` is an offset in a part of an object.
#[derive(Clone, Copy)]
pub struct Target {
    pub object: u32,
    pub place: Place,
    pub value: u32,
}
