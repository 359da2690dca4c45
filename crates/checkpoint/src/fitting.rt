//! Whether a checkpoint can be gone on from.

ghost use Rattle.std.specs.Prelude.{◌≡◌, ◌+◌, ◌≤◌, ◌<◌, ◌^◌, true, length, IfOk, IfNone};
ghost use Rattle.guest_ram.specs.Bytes.{part};
ghost use Rattle.machine_model.specs.Able.{IsAble};
ghost use Rattle.machine_model.specs.Fit.{Fit};
ghost use Rattle.machine_model.specs.Rules.{is_open};
ghost use Rattle.checkpoint.specs.Fits.{first_change, has_user_flags, fits_of};

use crate::head::{EFLAGS_PLACE, STEP_PLACE};
use crate::state::{CheckpointCause, State};
use descriptors::Cpu;
use guest_ram::Ram;
use ia32_types::TEXT_PLACE;
use image_check::Checked;

/// The first offset at which a text doesn't stand in the memory.
fn first_change(ram: &Ram, text: &[u8]) -> Option<u32>
    requires { length text.now < 2 ^ 31 }
    ensures place { result ≡ first_change ram.now 0 text.now }
    ensures text { IfNone result (part ram.now TEXT_PLACE (length text.now) ≡ text.now) }
{
    let len = ram.len();
    for (i, b) in text.iter().enumerate() {
        let offset = i as u32;
        let at = TEXT_PLACE + offset;
        if at >= len || ram.read8(at) != *b {
            return Some(offset);
        }
    }
    None
}

/// IF is 1 and IOPL is 0.
fn is_open(cpu: &Cpu) -> bool
    ensures { result ≡ is_open cpu.now }
{
    let flags = cpu.regs.flags.bits;
    flags / 0x200 % 2 == 1 && flags / 0x1000 % 4 == 0
}

fn has_user_flags(state: &State) -> bool
    ensures { result ≡ has_user_flags state.now }
{
    state.cpu.cpl == 3 && !is_open(&state.cpu)
}

/// Whether the image's text stands in its place, a monitor may run the processor, and no more steps were done than `n`. The
/// first of these that fails, with its place: the offset in the text, or the field of the file.
#[tactic(auto, unfolding(crate::specs::Fits::fits_of))]
pub fn fits(
    state: &State,
    image: &Checked,
    wedge: bool,
    n: u64,
) -> Result<(), (u32, CheckpointCause)>
    ensures answer { result ≡ fits_of state.now image.now wedge n }
    ensures text { IfOk result (λ _. part state.now.ram TEXT_PLACE (length image.now.text) ≡ image.now.text) }
    ensures steps { IfOk result (λ _. state.now.step ≤ n) }
    ensures able { IfOk result (λ _. wedge ≡ true → Fit state.now.cpu → IsAble state.now.cpu) }
{
    if let Some(at) = first_change(&state.ram, image.text()) {
        return Err((at, CheckpointCause::TextChanged));
    }
    if wedge && has_user_flags(state) {
        return Err((EFLAGS_PLACE, CheckpointCause::UserFlags));
    }
    if n < state.step {
        return Err((STEP_PLACE, CheckpointCause::StepsPast));
    }
    Ok(())
}
