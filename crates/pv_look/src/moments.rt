//! A machine between two steps, as text.

ghost use Rattle.std.specs.Prelude.{◌≡◌, ◌++◌, OnOk};
ghost use Rattle.bare_machine.specs.Machine.{state_of, IsKept};
ghost use Rattle.look_words.specs.View.{aspect_view, IsAspect};
ghost use Rattle.pv_look.specs.Moments as spec;

use bare_machine::Bare;
use itoa::Buffer as Digits;
use look_words::Aspect;
use machine_text::{Mapped, add_memory, add_state, add_walk};
use std::alloc::AllocError;
use xlate_buffer::Cache;

fn add_step(step: u64, text: &mut Vec<u8>) -> Result<(), AllocError>
    ensures { OnOk result (text.new.items ≡ text.old.items ++ spec.step_line step) }
{
    let mut digits = Digits::new();
    text.extend_from_slice(b"step    ")?;
    text.extend_from_slice(digits.format(step).as_bytes())?;
    text.extend_from_slice(b"\n")
}

fn add_aspect<C: Cache>(
    machine: &Bare<C>,
    aspect: Aspect,
    text: &mut Vec<u8>,
) -> Result<(), AllocError>
    requires kept { IsKept machine.now.frames (state_of C.entries machine.now) }
    requires aspect { IsAspect aspect }
    ensures { OnOk result (text.new.items ≡ text.old.items ++
        spec.aspect_text (aspect_view aspect) machine.now.frames (state_of C.entries machine.now)) }
{
    let memory = Mapped {
        ram: machine.ram(),
        frames: machine.frames(),
        cpu: machine.cpu(),
        cache: machine.cache(),
    };
    match aspect {
        Aspect::Whole => add_state(&memory, machine.board(), text),
        Aspect::Walk(address) => add_walk(&memory, address, text),
        Aspect::Memory { address, len } => add_memory(&memory, address, len, text),
    }
}

/// What is asked of a machine, after a line with the count of steps before it.
#[tactic(auto, unfolding(crate::specs::Moments::moment_text))]
pub fn add_moment<C: Cache>(
    machine: &Bare<C>,
    aspect: Aspect,
    text: &mut Vec<u8>,
) -> Result<(), AllocError>
    requires kept { IsKept machine.now.frames (state_of C.entries machine.now) }
    requires aspect { IsAspect aspect }
    ensures { OnOk result (text.new.items ≡ text.old.items ++
        spec.moment_text (aspect_view aspect) machine.now.frames (state_of C.entries machine.now)) }
{
    add_step(machine.step(), text)?;
    add_aspect(machine, aspect, text)
}
