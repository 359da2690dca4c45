//! Objects and images as ELF files of 32 bits: the one layout that is written, and what is read.
#![tactic(auto)]

mod abi;
mod cause;
mod entries;
mod header;
mod image;
mod image_writing;
mod joining;
mod laws;
mod object;
mod object_conditions;
mod object_reading;
mod object_writing;
mod output;
mod reading;
mod records;
mod roles;
mod section_header;
mod sections;
mod segments;
mod strings;
mod symbol_walks;
mod symbols;

pub use cause::{ElfCause, ElfFault};
pub use image::Image;
pub use image_writing::write_image;
pub use laws::{
    image_causes_are_conditions, images_refused_in_order, object_causes_are_conditions,
    object_length, objects_refused_in_order,
};
pub use object::{Bytes, Object, Place, Reloc, SYMBOL_LIMIT, Symbol};
pub use object_reading::read_object;
pub use object_writing::write_object;
pub use output::pad;
pub use reading::read_image;
