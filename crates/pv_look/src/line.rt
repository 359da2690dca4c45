//! What a listing says of one instruction.

ghost use Rattle.std.specs.Prelude.{◌≡◌, ◌+◌, ◌++◌, ◌≤◌, ◌<◌, [], length};
ghost use Rattle.pv_look.specs.Here.{swept, bytes_of};
ghost use Rattle.pv_look.specs.Lines as spec;

use crate::comment::{linear, put_note, put_place};
use crate::here::{Here, bytes_at};
use crate::part::{is_kept_apart, part_of};
use crate::spelling::named_fields;
use crate::statement::put_column;
use ia32_encode::Wide;
use ia32_text::{Line, add, eight_digits};
use image_check::Checked;

fn put_entry_label(image: &Checked, at: u32, line: &mut Line)
    requires near { at < 0x1000_0000 }
    requires room { length line.old.items ≤ 100 }
    ensures text { line.new.items ≡ line.old.items ++ spec.entry_label image.now at }
    ensures len { length line.new.items ≤ length line.old.items + 8 }
{
    if linear(at) == image.entry() {
        add(b"_start:\n", line);
    }
}

fn put_place_label(labelled: bool, at: u32, line: &mut Line)
    requires near { at < 0x1000_0000 }
    requires room { length line.old.items ≤ 100 }
    ensures text { line.new.items ≡ line.old.items ++ spec.place_label labelled at }
    ensures len { length line.new.items ≤ length line.old.items + 11 }
{
    if labelled {
        add(b"L", line);
        eight_digits(linear(at), line);
        add(b":\n", line);
    }
}

fn put_labels(image: &Checked, labelled: bool, here: &Here, line: &mut Line)
    requires near { here.now.at < 0x1000_0000 }
    requires room { length line.old.items ≤ 70 }
    ensures text { line.new.items ≡ line.old.items ++ spec.labels_text image.now labelled (swept here.now) }
    ensures len { length line.new.items ≤ length line.old.items + 19 }
{
    put_entry_label(image, here.at, line);
    let labelled = labelled || is_kept_apart(image, here);
    put_place_label(labelled, here.at, line);
}

fn put_line(image: &Checked, here: &Here, bytes: &[u8], fields: Option<Wide>, line: &mut Line)
    requires near { here.now.at < 0x1000_0000 }
    requires bytes { bytes.now ≡ bytes_of image.now.text (swept here.now) }
    requires few { length bytes.now ≤ 11 }
    requires room { length line.old.items ≤ 30 }
    ensures { line.new.items ≡ line.old.items ++ spec.line_with image.now (swept here.now) fields }
{
    let part = part_of(image, here);
    put_column(part, fields, here, line);
    put_place(here.at, bytes, line);
    put_note(part, fields, line);
    add(b"\n", line);
}

/// Puts what a listing says of an instruction at which a label stands, or none.
#[tactic(auto, unfolding(crate::specs::Lines::lines_with))]
pub fn put_lines(image: &Checked, labelled: bool, here: &Here, line: &mut Line)
    requires empty { line.old.items ≡ [] }
    requires inside { here.now.at + here.now.len ≤ length image.now.text }
    requires short { here.now.len ≤ 11 }
    ensures { line.new.items ≡ spec.lines_with image.now labelled (swept here.now) }
{
    let bytes = bytes_at(image, here);
    let fields = named_fields(&here.insn, bytes);
    put_labels(image, labelled, here, line);
    put_line(image, here, bytes, fields, line);
}
