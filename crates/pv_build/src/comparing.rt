//! What `work` reports of its two runs.

ghost use Rattle.std.specs.Prelude.{◌≡◌, IfOk, ◌++◌};
ghost use Rattle.pv_build.specs.Telling.{Says, TellsBoth};
ghost use Rattle.pv_build.specs.Comparing.{told_line, compared_line};

use crate::halt::Line;
use crate::lines::{Told, differ_line, same_line, work_line};
use crate::status::Status;
use crate::texts::{count_lines, difference};
use image_check::Checked;
use pv_io::Sink;
use std::alloc::{AllocError, Global};

/// What two runs have printed, and how many pages were filled in the second.
#[derive(Drop)]
pub struct Texts {
    pub first: Vec<u8>,
    pub second: Vec<u8>,
    pub fills: u64,
}

/// Puts what the image of a number has, and whether both texts are the same, once there is memory for both lines.
pub fn tell_both<S: Sink>(
    alloc: Global,
    number: u32,
    image: &Checked,
    texts: &Texts,
    out: &mut S,
) -> Status
    ensures { TellsBoth (told_line number image.now texts.now.second.items texts.now.fills) texts.now.first.items texts.now.second.items
        (S.taken out.old) (S.taken out.new) (S.faults out.old) (S.faults out.new) result }
{
    let told = Told {
        number,
        text: image.text().len(),
        sites: image.sites().list.len(),
        items: count_lines(&texts.second).saturating_sub(1),
        fills: texts.fills,
    };
    match work_line(alloc, told) {
        Err(_) => Status::Memory,
        Ok(line) => match compared(alloc, &texts.first, &texts.second) {
            Err(_) => Status::Memory,
            Ok(compared) => put_both(&line, &compared, out),
        },
    }
}

// The second line.
fn compared(alloc: Global, first: &[u8], second: &[u8]) -> Result<Line, AllocError>
    ensures { IfOk result (λ line. line ≡ compared_line first.now second.now) }
{
    match difference(first, second) {
        None => same_line(alloc),
        Some(line) => differ_line(alloc, line),
    }
}

fn put_both<S: Sink>(first: &Line, second: &Line, out: &mut S) -> Status
    ensures { Says (first.now ++ second.now) Status.Done (S.taken out.old) (S.taken out.new) (S.faults out.old) (S.faults out.new) result }
{
    match out.put(&first.bytes) {
        Err(_) => Status::WriteFault,
        Ok(()) => match out.put(&second.bytes) {
            Err(_) => Status::WriteFault,
            Ok(()) => Status::Done,
        },
    }
}
