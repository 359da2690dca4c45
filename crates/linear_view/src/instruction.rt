//! The instruction that stands at an address.

ghost use Rattle.std.specs.Prelude.{◌≡◌, ◌*◌, ◌≤◌, length};
ghost use Rattle.step_mem.specs.Changes.{AreWithin};
ghost use Rattle.linear_view.specs.View.{view_of};
ghost use Rattle.linear_view.specs.Instruction as spec;

use crate::view::{next_bytes, page_bytes};
use descriptors::Cpu;
use guest_ram::Ram;
use ia32_decode::{Decoded, LONGEST, decode, decode_joined, front_len};
use xlate_buffer::Cache;

/// What the bytes at an address begin with; nothing where a page of them has no translation.
#[tactic(auto, unfolding(crate::specs::Instruction::instruction_at))]
pub fn instruction_at<C: Cache>(
    ram: &Ram,
    frames: u32,
    cpu: &Cpu,
    cache: &C,
    at: u32,
) -> Option<Decoded>
    requires frames { 4096 * frames ≤ length ram.now }
    requires inside { AreWithin frames (C.entries cache.now) }
    ensures { result ≡ spec.instruction_at (view_of ram.now frames cpu.now (C.entries cache.now)) at }
{
    match page_bytes(ram, frames, cpu, cache, at, front_len(at)) {
        None => None,
        Some(front) => match decode(front) {
            Decoded::Insn(insn, len) => Some(Decoded::Insn(insn, len)),
            Decoded::Outside => Some(Decoded::Outside),
            Decoded::Short => match next_bytes(ram, frames, cpu, cache, at, LONGEST) {
                None => None,
                Some(more) => Some(decode_joined(front, more)),
            },
        },
    }
}
