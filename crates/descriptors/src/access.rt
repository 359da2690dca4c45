//! Accesses to descriptors, gates and the TSS, for any way to refuse.

ghost use Rattle.std.specs.Prelude.{◌≡◌, ◌+◌, ◌≤◌, OnOk};
ghost use Rattle.paging.specs.Gives.{Gives};
ghost use Rattle.paging.specs.Ready.{IsReach};
ghost use Rattle.paging.specs.Space.{earlier_of};
ghost use Rattle.descriptors.specs.Segments.{slot};
ghost use Rattle.descriptors.specs.Access.{Denials, reaching, by_processor, by_level, pair_at, byte_set, mark};

use crate::cpu::Cpu;
use ia32_types::{Size, Stop};
use paging::{Access, GuestMem, Touch};

/// What a denied access is refused with.
pub trait Denial: Sized {
    ghost denials: { Denials Self };

    /// A page fault, by its code and its address.
    fn fault(code: u32, at: u32) -> Self
        ensures { result ≡ denials.fault code at };

    /// A stop.
    fn stop(stop: Stop) -> Self
        ensures { result ≡ denials.stop stop };
}

/// Translates a range.
#[tactic(auto, unfolding(crate::specs::Access::reaching))]
pub fn reach<M: GuestMem, E: Denial>(
    mem: &mut M,
    at: u32,
    len: u32,
    access: Access,
) -> Result<(), E>
    requires room { (M.space mem.old).pages ≤ 62 }
    requires some { 1 ≤ len }
    requires short { len ≤ 32 }
    ensures gives { Gives result (M.space mem.new) (reaching E.denials at len access (M.space mem.old)) }
    ensures pages { (M.space mem.new).pages ≤ (M.space mem.old).pages + 2 }
    ensures frame { M.frame mem.new ≡ M.frame mem.old }
    ensures ready { OnOk result (IsReach (M.space mem.new) at len access.write) }
    ensures earlier { (M.space mem.new).earlier ≡ earlier_of (M.space mem.old) }
{
    match mem.touch(at, len, access) {
        Touch::Ready => Ok(()),
        Touch::Fault { code, at } => Err(E::fault(code, at)),
        Touch::Stop(stop) => Err(E::stop(stop)),
    }
}

/// An access of the processor's own, which has the supervisor's rights.
pub fn by_processor(write: bool) -> Access
    ensures { result ≡ by_processor write }
{
    Access { write, user: false }
}

/// An access of the code that runs, with the rights of its level.
pub fn by_level(cpu: &Cpu, write: bool) -> Access
    ensures { result ≡ by_level cpu.now write }
{
    Access {
        write,
        user: cpu.cpl == 3,
    }
}

/// Reads the two words of a descriptor or a gate.
#[tactic(auto, unfolding(crate::specs::Access::pair_at))]
pub fn read_pair<M: GuestMem, E: Denial>(mem: &mut M, at: u32) -> Result<(u32, u32), E>
    requires { (M.space mem.old).pages ≤ 62 }
    ensures gives { Gives result (M.space mem.new) (pair_at E.denials at (M.space mem.old)) }
    ensures pages { (M.space mem.new).pages ≤ (M.space mem.old).pages + 2 }
    ensures frame { M.frame mem.new ≡ M.frame mem.old }
{
    reach::<M, E>(mem, at, 8, by_processor(false))?;
    let low = mem.load(at, Size::Long);
    let high = mem.load(at + 4, Size::Long);
    Ok((low, high))
}

/// Writes a byte of a descriptor.
#[tactic(auto, unfolding(crate::specs::Access::byte_set))]
pub fn set_byte<M: GuestMem, E: Denial>(mem: &mut M, at: u32, value: u8) -> Result<(), E>
    requires { (M.space mem.old).pages ≤ 62 }
    ensures gives { Gives result (M.space mem.new) (byte_set E.denials at value (M.space mem.old)) }
    ensures pages { (M.space mem.new).pages ≤ (M.space mem.old).pages + 2 }
    ensures frame { M.frame mem.new ≡ M.frame mem.old }
{
    reach::<M, E>(mem, at, 1, by_processor(true))?;
    mem.save(at, Size::Byte, u32::from(value));
    Ok(())
}

/// Where a selector's descriptor lies.
pub fn slot(cpu: &Cpu, sel: u16) -> u32
    ensures { result ≡ slot cpu.now sel }
{
    cpu.gdt.base.wrapping_add(u32::from(sel) / 8 * 8)
}

/// Sets the accessed flag where it is clear, by what byte 5 is to become.
pub fn mark<M: GuestMem, E: Denial>(
    cpu: &Cpu,
    mem: &mut M,
    sel: u16,
    marking: Option<u8>,
) -> Result<(), E>
    requires { (M.space mem.old).pages ≤ 62 }
    ensures gives { Gives result (M.space mem.new) (mark E.denials cpu.now sel marking (M.space mem.old)) }
    ensures pages { (M.space mem.new).pages ≤ (M.space mem.old).pages + 2 }
    ensures frame { M.frame mem.new ≡ M.frame mem.old }
{
    match marking {
        None => Ok(()),
        Some(value) => set_byte(mem, slot(cpu, sel).wrapping_add(5), value),
    }
}
