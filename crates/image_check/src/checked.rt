//! An accepted image.

ghost use Rattle.std.specs.Prelude.{◌≡◌, ◌↔◌, Ok, IsTrue, length};
ghost use Rattle.std.specs.List.{Contains};

use crate::place::{AtOffset, site_at};
use elf_form::Image;
use ia32_types::TEXT_ADDRESS;
use sites::Sites;
use std::marker::Model;

/// An accepted image, with its sites and the places at which its instructions begin.
#[derive(Drop)]
pub struct Checked {
    text: Vec<u8>,
    init: Vec<u8>,
    bss: u32,
    entry: u32,
    sites: Sites,
    // for each byte of the text whether an instruction begins there
    starts: Vec<bool>,
}

impl Model for Checked {
    ghost use Rattle.image_check.specs.Image.{Image};
    ghost use Rattle.image_check.specs.Accepts.{IsChecked};

    ghost Value = { Image };

    ghost view = { λ c. record { text = c.text.items; init = c.init.items; bss = c.bss; entry = c.entry; sites = c.sites.list; format = c.sites.format } };

    ghost invariant = { λ c. IsChecked (record {
      text = c.text.items;
      init = c.init.items;
      bss = c.bss;
      entry = c.entry;
      sites = c.sites.list;
      format = c.sites.format;
    }) c.starts.items };
}

impl Checked {
    ghost use Rattle.sites.specs.Room.{AreInside};
    ghost use Rattle.sites.specs.Formats.{told_format};
    ghost use Rattle.image_check.specs.Sweep.{starts_of};
    ghost use Rattle.image_check.specs.Checking.{image_from, image_with};
    ghost use Rattle.image_check.specs.Accepts.{IsWithin, IsAccepted, AreStarts};
    ghost use Rattle.image_check.specs.Layout.{AreApart};
    ghost use Rattle.image_check.specs.Standing.{place_of, place_at};
    ghost use Rattle.ia32_rows.specs.Spells.{AreBytes};

    /// An image that has passed the tests.
    pub(crate) fn of(image: Image, sites: Sites, starts: Vec<bool>) -> Checked
        requires accepted { image_from image ≡ Ok (image_with image sites.list) }
        requires format { sites.format ≡ told_format image.sites }
        requires starts { AreStarts image.text starts.items }
        requires bytes { AreBytes image.text }
        ensures { result ≡ image_with image sites.list }
    {
        Checked {
            text: image.text,
            init: image.init,
            bss: image.bss,
            entry: image.entry,
            sites,
            starts,
        }
    }

    /// The bytes of the text.
    pub fn text(&self) -> &[u8]
        ensures text { result.now ≡ self.now.text }
        // The limits of its size, and with it of the data's and of the entry.
        ensures within { IsWithin self.now }
    {
        &self.text
    }

    /// What the tests have found: the sweep, its end, its sites and where control comes in. A call
    /// for its law alone.
    pub fn accepted(&self)
        ensures { IsAccepted self.now }
    {
        let _text = &self.text;
    }

    /// The initialised data.
    pub fn init(&self) -> &[u8]
        ensures { result.now ≡ self.now.init }
    {
        &self.init
    }

    /// The number of zeroed bytes after the data.
    pub fn bss(&self) -> u32
        ensures { result ≡ self.now.bss }
    {
        self.bss
    }

    /// The linear address of the first instruction.
    pub fn entry(&self) -> u32
        ensures { result ≡ self.now.entry }
    {
        self.entry
    }

    /// The sites of the text, in the order of their offsets, and the format of their annotations.
    pub fn sites(&self) -> &Sites
        ensures sites { result.now.list ≡ self.now.sites }
        ensures format { result.now.format ≡ self.now.format }
        // Each has five bytes at least, and lies in the text.
        ensures inside { AreInside (length self.now.text) 0 self.now.sites }
        // They lie one after the other.
        ensures apart { AreApart 0 self.now.sites (length self.now.text) }
    {
        &self.sites
    }

    /// Whether an instruction begins at an offset of the text.
    pub fn is_start(&self, at: u32) -> bool
        ensures { IsTrue result ↔ Contains (starts_of self.now.text) at }
    {
        let at = at as usize;
        at < self.starts.len() && self.starts[at]
    }

    /// What stands at an offset of the text. The sites are not gone through: the search halves them.
    pub fn place(&self, at: u32) -> AtOffset
        ensures { result ≡ place_of self.now at }
    {
        if !self.is_start(at) {
            return AtOffset::NotAStart;
        }
        match site_at(self.sites(), at) {
            None => AtOffset::Outside,
            Some(site) => AtOffset::Inside(site),
        }
    }

    /// What stands at a linear address.
    pub fn place_at(&self, eip: u32) -> AtOffset
        ensures { result ≡ place_at self.now eip }
    {
        if eip < TEXT_ADDRESS {
            return AtOffset::NotAStart;
        }
        self.place(eip - TEXT_ADDRESS)
    }
}
