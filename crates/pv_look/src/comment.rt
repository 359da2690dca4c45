//! The comment in the line of an instruction.

ghost use Rattle.std.specs.Prelude.{◌≡◌, ◌+◌, ◌*◌, ◌++◌, ◌≤◌, ◌<◌, length};
ghost use Rattle.image_check.specs.Places.{linear};
ghost use Rattle.pv_look.specs.Lines as spec;
ghost use Rattle.pv_look.specs.Room.{IsShort};

use crate::part::Part;
use crate::site_names::site_name;
use ia32_encode::Wide;
use ia32_text::{Line, add, eight_digits, two_digits};
use ia32_types::TEXT_ADDRESS;
use sites::Site;

/// What a site of eleven bytes is patched to, at whose front is what a shorter one is.
const PATCHED: [u8; 11] = [
    0xE9, 0xF4, 0xF4, 0xF4, 0xF4, 0xF4, 0xF4, 0xF4, 0xF4, 0xF4, 0xF4,
];

/// The linear address of an offset of a text.
pub fn linear(at: u32) -> u32
    requires { at < 0x1000_0000 }
    ensures { result ≡ linear at }
{
    TEXT_ADDRESS + at
}

fn put_bytes(bytes: &[u8], line: &mut Line)
    requires room { length line.old.items ≤ 250 }
    requires few { length bytes.now ≤ 11 }
    ensures text { line.new.items ≡ line.old.items ++ spec.bytes_text bytes.now }
    ensures len { length line.new.items ≡ length line.old.items + 3 * length bytes.now }
{
    for byte in bytes {
        add(b" ", line);
        two_digits(*byte, line);
    }
}

/// Puts the address and the bytes of an instruction.
pub fn put_place(at: u32, bytes: &[u8], line: &mut Line)
    requires near { at < 0x1000_0000 }
    requires room { length line.old.items ≤ 200 }
    requires few { length bytes.now ≤ 11 }
    ensures text { line.new.items ≡ line.old.items ++ spec.place_text at bytes.now }
    ensures len { length line.new.items ≤ length line.old.items + 44 }
{
    add(b" # ", line);
    eight_digits(linear(at), line);
    put_bytes(bytes, line);
}

fn put_spelling(fields: Option<Wide>, line: &mut Line)
    requires { length line.old.items ≤ 250 }
    ensures text { line.new.items ≡ line.old.items ++ spec.spelling_text fields }
    ensures len { length line.new.items ≤ length line.old.items + 15 }
{
    if fields.is_none() {
        add(b" other spelling", line);
    }
}

fn put_site(site: Site, line: &mut Line)
    requires room { length line.old.items ≤ 220 }
    requires some { 1 ≤ site.total }
    requires few { site.total ≤ 11 }
    ensures text { line.new.items ≡ line.old.items ++ spec.site_text site }
    ensures len { length line.new.items ≤ length line.old.items + 59 }
{
    add(b" site ", line);
    add(site_name(site.kind), line);
    add(b" patched", line);
    put_bytes(&PATCHED[..site.total as usize], line);
}

/// Puts what is to be known of an instruction.
pub fn put_note(part: Part, fields: Option<Wide>, line: &mut Line)
    requires room { length line.old.items ≤ 205 }
    requires short { IsShort part }
    ensures text { line.new.items ≡ line.old.items ++ spec.note_text part fields }
    ensures len { length line.new.items ≤ length line.old.items + 74 }
{
    match part {
        Part::End => add(b" end", line),
        Part::Padding => add(b" padding", line),
        Part::Site(site) => {
            put_spelling(fields, line);
            put_site(site, line);
        }
        Part::Alone => put_spelling(fields, line),
    }
}
