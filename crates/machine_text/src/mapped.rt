//! Memory by the translations of a moment.

ghost use Rattle.std.specs.Prelude.{◌≡◌, ◌*◌, ◌+◌, ◌≤◌, ◌<◌, ◌^◌, length, IfSome};
ghost use Rattle.machine_text.specs.Mapped as spec;
ghost use Rattle.machine_text.specs.Views.{seen, IsWithin};

use descriptors::Cpu;
use guest_ram::Ram;
use linear_view::translation;
use paging::{Entry, Walk, walk};
use xlate_buffer::Cache;

/// The memory of a machine, by which linear addresses are reached: what is cached goes first, then what a walk finds.
/// No flag is set.
#[derive(Drop)]
pub struct Mapped<'a, C: Cache> {
    pub ram: &'a Ram,
    pub frames: u32,
    pub cpu: &'a Cpu,
    pub cache: &'a C,
}

/// What a walk finds of a page.
pub fn walked<C: Cache>(memory: &Mapped<'_, C>, page: u32) -> Walk
    requires within { IsWithin (seen C.entries memory.now) }
    requires page { page < 2 ^ 20 }
    ensures { result ≡ spec.walked (seen C.entries memory.now) page }
{
    walk(
        memory.ram,
        memory.frames,
        memory.cpu.cr3,
        memory.cpu.pse(),
        page,
    )
}

/// The entry of a page that is cached, if one is.
pub fn cached<C: Cache>(memory: &Mapped<'_, C>, page: u32) -> Option<Entry>
    ensures { result ≡ spec.cached (seen C.entries memory.now) page }
{
    memory.cache.find(page)
}

fn byte_by(ram: &Ram, frames: u32, at: u32, entry: Option<Entry>) -> Option<u8>
    requires room { 4096 * frames ≤ length ram.now }
    requires inside { IfSome entry (λ e. e.frame < frames) }
    ensures { result ≡ spec.byte_by ram.now at entry }
{
    let _len = ram.len();
    match entry {
        Some(entry) => Some(ram.read8(entry.frame * 4096 + at % 4096)),
        None => None,
    }
}

/// The byte at a linear address; None where nothing maps it.
#[tactic(auto, unfolding(crate::specs::Mapped::byte_now))]
pub fn byte_now<C: Cache>(memory: &Mapped<'_, C>, at: u32) -> Option<u8>
    requires { IsWithin (seen C.entries memory.now) }
    ensures { result ≡ spec.byte_now (seen C.entries memory.now) at }
{
    let entry = translation(
        memory.ram,
        memory.frames,
        memory.cpu,
        memory.cache,
        at / 4096,
    );
    byte_by(memory.ram, memory.frames, at, entry)
}
