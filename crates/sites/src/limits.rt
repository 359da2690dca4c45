//! What objects and images may have at most, and the format of the sites of a text (profile).

ghost use Rattle.std.specs.Prelude.{◌≡◌, ◌<◌};
ghost use Rattle.sites.specs.Limits.{format_of, in_text};
ghost use Rattle.sites.specs.Form.{AreSites, AreGapped, IsWritable};

use crate::site::{Site, Sites};

/// Bytes of the longest text.
pub const TEXT_LIMIT: usize = 16_777_216;

/// Bytes of the longest text whose sites are written in format 1.
pub const SHORT_TEXT: usize = 4_194_304;

/// The most sites of a text.
pub const SITE_LIMIT: usize = 262_144;

/// Bytes of data and zeroed bytes together.
pub const INIT_LIMIT: usize = 33_554_432;

/// The format in which the sites of a text of so many bytes are written.
#[tactic(auto, unfolding(crate::specs::Limits::format_of))]
fn format_of(text: usize) -> u8
    ensures { result ≡ format_of text }
{
    if text > SHORT_TEXT { 2 } else { 1 }
}

/// The sites of a text of so many bytes, in the format that they are written in.
pub fn of_text(list: Vec<Site>, text: usize) -> Sites
    ensures sites { result ≡ in_text text list.items }
    ensures writable { AreSites 0 list.items → (SHORT_TEXT < text → AreGapped 0 list.items) → IsWritable result }
{
    let format = format_of(text);
    Sites { list, format }
}
