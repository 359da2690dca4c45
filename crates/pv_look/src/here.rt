//! The instruction at an offset of a text.

ghost use Rattle.std.specs.Prelude.{◌≡◌, ◌+◌, ◌<◌, ◌≤◌, List, length, drop};
ghost use Rattle.image_check.specs.Sweep.{Swept};
ghost use Rattle.pv_look.specs.Here.{swept, bytes_of};
ghost use Rattle.pv_look.specs.Sweeping.{Reached, IsReached, GoesOn};

use ia32_decode::{Decoded, decode};
use ia32_types::Insn;
use image_check::Checked;
use image_laws::outside_sites;

/// An instruction of a text: its offset, its length, and what it is.
#[derive(Clone, Copy)]
pub struct Here {
    pub at: u32,
    pub len: u8,
    pub insn: Insn,
}

/// The bytes from an offset on.
fn rest_of(text: &[u8], at: usize) -> &[u8]
    requires { at ≤ length text.now }
    ensures { result.now ≡ drop at text.now }
{
    &text[at..]
}

/// The bytes of an instruction of the text.
pub fn bytes_at<'a>(image: &'a Checked, here: &Here) -> &'a [u8]
    requires { here.now.at + here.now.len ≤ length image.now.text }
    ensures bytes { result.now ≡ bytes_of image.now.text (swept here.now) }
    ensures few { length result.now ≤ here.now.len }
    // A text is far shorter than this.
    ensures near { here.now.at < 0x1000_0000 }
{
    let at = here.at as usize;
    &image.text()[at..at + here.len as usize]
}

/// The instruction at an offset to which the sweep comes.
pub fn instruction_at(image: &Checked, at: usize) -> Here
    requires inside { at < length image.now.text }
    requires reached { IsReached image.now.text at }
    ensures next { (done rest : List Swept) → Reached image.now.text at done rest → GoesOn image.now.text result done rest }
    ensures some { 1 ≤ result.len }
    ensures few { result.len ≤ 11 }
    ensures within { result.at + result.len ≤ length image.now.text }
    ensures place { result.at ≡ at }
{
    image.accepted();
    outside_sites();
    match decode(rest_of(image.text(), at)) {
        Decoded::Insn(insn, len) => {
            Here {
                at: at as u32,
                len,
                insn,
            }
        }
        Decoded::Short | Decoded::Outside => unreachable!(),
    }
}
