//! What an image file has: a linked program.

use std::marker::Model;

/// A linked program: its bytes, where its text and data are to stand, and where it begins. All
/// addresses are linear. `bss` counts the zeroed bytes after the data, and `sites` is the
/// annotation section.
#[derive(Drop)]
pub struct Image {
    pub text: Vec<u8>,
    pub init: Vec<u8>,
    pub bss: u32,
    pub entry: u32,
    pub text_at: u32,
    pub init_at: u32,
    pub sites: Vec<u8>,
}

impl Model for Image {
    ghost use Rattle.elf_form.specs.ImageParts.{ImageParts};

    ghost Value = { ImageParts };

    ghost view = { λ a. record {
      text = a.text.items;
      init = a.init.items;
      bss = a.bss;
      entry = a.entry;
      text_at = a.text_at;
      init_at = a.init_at;
      sites = a.sites.items;
    } };
}
