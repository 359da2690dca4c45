//! How a step begins: over the text as the guest sees it, in the place of the step before.

ghost use Rattle.std.specs.Prelude.{◌≡◌, ℕ, List, ◌+◌, ◌*◌, ◌≤◌, length};
ghost use Rattle.image_load.specs.Boot.{text_pages};
ghost use Rattle.step_mem.specs.Changes.{AreWithin};
ghost use Rattle.step_mem.specs.Shown.{beyond, hidden, laid, shown};
ghost use Rattle.step_mem.specs.Sound.{IsSoundOver, space};
ghost use Rattle.machine_model.specs.State.{space_at_start, wedge_mode};
ghost use Rattle.wedge_step.specs.Original.{IsOriginal};

use crate::single::text_frames;
use descriptors::Cpu;
use guest_ram::Ram;
use ia32_types::TEXT_FRAME;
use image_check::Checked;
use machine_step::{NO_BYTES, begin_again};
use step_mem::{Guard, StepState, Text, Translations};

/// The text as the guest sees it.
pub fn original(image: &Checked) -> Text<'_>
    ensures first { result.first ≡ TEXT_FRAME }
    ensures count { result.count ≡ text_pages image.now }
    ensures bytes { result.bytes.now ≡ image.now.text }
{
    Text {
        first: TEXT_FRAME,
        count: text_frames(image),
        bytes: image.text(),
    }
}

/// A step over this image's text begins, in the place of an earlier one: none of its accesses is done yet.
pub fn begin_over<'t, B: Translations>(
    cpu: &Cpu,
    ram: &Ram,
    kept: &B,
    frames: u32,
    image: &Checked,
    text: &'t Option<Text<'t>>,
    state: &mut StepState<'t>,
)
    requires frames { 4096 * frames ≤ length ram.now }
    requires below { 4096 * frames ≤ B.floor kept.now }
    requires stands { ∥ B.stands kept.now ram.now ∥₁ }
    requires within { AreWithin frames (B.entries kept.now ram.now) }
    requires room { TEXT_FRAME + text_pages image.now ≤ frames }
    requires text { IsOriginal image.now text.now }
    ensures sound { IsSoundOver B.Translations kept.now ram.now state.new }
    ensures space { space B.Translations kept.now ram.now state.new ≡ space_at_start (wedge_mode image.now) frames cpu.now
        (laid image.now.text TEXT_FRAME frames ram.now) (B.entries kept.now ram.now) }
    ensures pages { state.new.pages ≡ 0 }
    ensures frames { state.new.control.frames ≡ frames }
    ensures hides { (n : ℕ) (memory : List ℕ) → hidden state.new.guard n memory ≡ beyond TEXT_FRAME (text_pages image.now) n memory }
    ensures lays { (n : ℕ) (memory : List ℕ) → shown state.new.guard n memory ≡ laid image.now.text TEXT_FRAME n memory }
{
    let guard = Guard {
        text,
        own: NO_BYTES,
    };
    begin_again(cpu, ram, kept, frames, guard, state);
}
