//! The guest's memory in the host's, read with the text as it was before it was patched.

ghost use Rattle.std.specs.Prelude.{◌≡◌, ◌+◌, ◌*◌, ◌/◌, ◌≤◌, ◌<◌, ◌^◌, length};
ghost use Rattle.guest_ram.specs.Bytes.{AreBytes, byte, word32};
ghost use Rattle.ia32_types.specs.declared.addresses.TheConstants.{TEXT_PLACE};
ghost use Rattle.paging.specs.Fresh.{fresh};
ghost use Rattle.paging.specs.Walks.{FoundIn};
ghost use Rattle.native_steps.specs.Mirrors.{shown};
ghost use Rattle.wedge_step.specs.Standing.{ground};

use guest_ram::{Ram, count};
use ia32_types::TEXT_FRAME;
use image_check::Checked;
use paging::{Walk, Words};
use step_mem::read_laid;

/// Memory, as the guest sees it, is bytes, in so many frames.
pub fn are_bytes(ram: &Ram, image: &Checked, frames: u32)
    requires frames { 4096 * frames ≤ length ram.now }
    requires laid { TEXT_PLACE + length image.now.text ≤ 4096 * frames }
    ensures bytes { AreBytes (shown (ground image.now frames) ram.now) }
    ensures length { length (shown (ground image.now frames) ram.now) ≡ 4096 * frames }
{
    let _len = ram.len();
    let _count = count(image.text());
}

/// Memory as the guest sees it: so many frames of the host's, with this image's text.
#[derive(Clone, Copy)]
pub(crate) struct GuestView<'a> {
    pub(crate) ram: &'a Ram,
    pub(crate) image: &'a Checked,
    pub(crate) frames: u32,
    ghost room: { 4096 * frames ≤ length ram.now },
    ghost laid: { TEXT_PLACE + length image.now.text ≤ 4096 * frames },
}

/// The byte at a place.
pub(crate) fn byte(view: &GuestView<'_>, at: u32) -> u8
    requires within { at < 4096 * view.now.frames }
    ensures { result ≡ byte (shown (ground view.now.image.now view.now.frames) view.now.ram.now) at }
{
    read_laid(view.ram, view.image.text(), TEXT_FRAME, view.frames, at)
}

impl Words for GuestView<'_> {
    ghost bytes = { λ view. shown (ground view.image.now view.frames) view.ram.now };

    fn word(&self, at: u32) -> u32 {
        word(self, at)
    }
}

/// The word at a place.
fn word(view: &GuestView<'_>, at: u32) -> u32
    requires within { at + 4 ≤ 4096 * view.now.frames }
    ensures { result ≡ word32 (shown (ground view.now.image.now view.now.frames) view.now.ram.now) at }
{
    let _len = view.ram.len();
    let low = u32::from(byte(view, at));
    let second = u32::from(byte(view, at + 1));
    let third = u32::from(byte(view, at + 2));
    let high = u32::from(byte(view, at + 3));
    low + second * 256 + third * 65536 + high * 16_777_216
}

/// What the tables say of a page. `pse` is the PSE flag of CR4. No flag is set.
pub(crate) fn walk(view: &GuestView<'_>, cr3: u32, pse: bool, page: u32) -> Walk
    requires page { page < 2 ^ 20 }
    ensures walk { result ≡ fresh (shown (ground view.now.image.now view.now.frames) view.now.ram.now) view.now.frames cr3 pse page }
    ensures found { FoundIn view.now.frames page result }
{
    paging::walk(view, view.frames, cr3, pse, page)
}
