//! IRET.

ghost use Rattle.std.specs.Prelude.{◌≡◌, ◌+◌, ◌*◌, ◌/◌, ◌%◌, ◌≤◌, ◌<◌, ◌^◌};
ghost use Rattle.paging.specs.Gives.{Gives};
ghost use Rattle.sys_exec.specs.Iret.{popped, popped_outer, keeps_flags, is_within, with_interrupt, with_level, new_flags, returned, kept_segment, outer_segments, return_same, return_outer, interrupt_return};

use crate::effect::{Loading, Refusal};
use crate::segment::{Purpose, find, mark_loaded};
use descriptors::{Cpu, EFLAGS_IOPL, Hidden, by_level, reach};
use ia32_exec::{is_foreign, taken};
use ia32_types::{Flags, Size, Stop};
use paging::GuestMem;

/// What IRET pops.
#[derive(Clone, Copy)]
pub struct Popped {
    pub eip: u32,
    pub sel: u16,
    pub flags: u32,
}

/// The stack of an outer level.
#[derive(Clone, Copy)]
pub struct Outer {
    /// ESP of that level.
    pub top: u32,
    pub sel: u16,
}

#[tactic(auto, unfolding(crate::specs::Iret::popped))]
fn pop<M: GuestMem>(cpu: &Cpu, mem: &mut M) -> Result<Popped, Refusal>
    requires { (M.space mem.old).pages ≤ 62 }
    ensures gives { Gives result (M.space mem.new) (popped cpu.now (M.space mem.old)) }
    ensures pages { (M.space mem.new).pages ≤ (M.space mem.old).pages + 2 }
    ensures frame { M.frame mem.new ≡ M.frame mem.old }
{
    let top = cpu.regs.r[4];
    reach::<M, Refusal>(mem, top, 12, by_level(cpu, false))?;
    let eip = mem.load(top, Size::Long);
    let sel = mem.load(top + 4, Size::Long);
    let flags = mem.load(top + 8, Size::Long);
    Ok(Popped {
        eip,
        sel: (sel % 65536) as u16,
        flags,
    })
}

#[tactic(auto, unfolding(crate::specs::Iret::popped_outer))]
fn pop_outer<M: GuestMem>(cpu: &Cpu, mem: &mut M) -> Result<Outer, Refusal>
    requires { (M.space mem.old).pages ≤ 62 }
    ensures gives { Gives result (M.space mem.new) (popped_outer cpu.now (M.space mem.old)) }
    ensures pages { (M.space mem.new).pages ≤ (M.space mem.old).pages + 2 }
    ensures frame { M.frame mem.new ≡ M.frame mem.old }
{
    let at = cpu.regs.r[4].wrapping_add(12);
    reach::<M, Refusal>(mem, at, 8, by_level(cpu, false))?;
    let top = mem.load(at, Size::Long);
    let sel = mem.load(at + 4, Size::Long);
    Ok(Outer {
        top,
        sel: (sel % 65536) as u16,
    })
}

/// An image that sets none of the flags that aren't kept.
pub fn keeps_flags(image: u32) -> bool
    ensures { result ≡ keeps_flags image }
{
    !is_foreign(Flags { bits: image })
}

/// The level is within IOPL.
pub fn is_within(cpu: &Cpu) -> bool
    ensures { result ≡ is_within cpu.now }
{
    u32::from(cpu.cpl) <= cpu.regs.flags.bits / EFLAGS_IOPL % 4
}

fn with_interrupt(cpu: &Cpu, flags: Flags, image: Flags) -> Flags
    ensures { result ≡ with_interrupt cpu.now flags image.bits }
{
    if is_within(cpu) {
        return flags.with_bit(9, image.bit(9));
    }
    flags
}

fn with_level(cpu: &Cpu, flags: Flags, image: Flags) -> Flags
    ensures { result ≡ with_level cpu.now flags image.bits }
{
    if cpu.cpl == 0 {
        return flags
            .with_bit(12, image.bit(12))
            .with_bit(13, image.bit(13));
    }
    flags
}

/// The flags with what an image gives.
#[tactic(auto, unfolding(crate::specs::Iret::new_flags))]
pub fn new_flags(cpu: &Cpu, image: u32) -> Flags
    ensures { result ≡ new_flags cpu.now image }
{
    let image = Flags { bits: image };
    let flags = taken(cpu.regs.flags, image);
    with_level(cpu, with_interrupt(cpu, flags, image), image)
}

fn returned(cpu: &Cpu, p: &Popped, top: u32, cpl: u8, seg: [Hidden; 4]) -> Cpu
    ensures { result ≡ returned cpu.now p.now top cpl seg }
{
    let mut after = *cpu;
    after.regs.r[4] = top;
    after.regs.eip = p.eip;
    after.regs.flags = new_flags(cpu, p.flags);
    after.cpl = cpl;
    after.seg = seg;
    after
}

fn kept_segment(cpl: u8, hidden: Hidden) -> Hidden
    ensures { result ≡ kept_segment cpl hidden }
{
    if hidden.dpl < cpl {
        Hidden {
            sel: 0,
            null: true,
            dpl: 0,
        }
    } else {
        hidden
    }
}

fn outer_segments(cpu: &Cpu, cpl: u8, code: Hidden, stack: Hidden) -> [Hidden; 4]
    ensures { result ≡ outer_segments cpu.now cpl code stack }
{
    let mut seg = cpu.seg;
    seg[0] = kept_segment(cpl, cpu.seg[0]);
    seg[3] = kept_segment(cpl, cpu.seg[3]);
    seg[1] = code;
    seg[2] = stack;
    seg
}

#[tactic(auto, unfolding(crate::specs::Iret::return_same))]
fn return_same<M: GuestMem>(
    cpu: &Cpu,
    mem: &mut M,
    p: &Popped,
    code: &Loading,
) -> Result<Cpu, Refusal>
    requires { (M.space mem.old).pages ≤ 62 }
    ensures gives { Gives result (M.space mem.new) (return_same cpu.now p.now code.now (M.space mem.old)) }
    ensures pages { (M.space mem.new).pages ≤ (M.space mem.old).pages + 2 }
    ensures frame { M.frame mem.new ≡ M.frame mem.old }
{
    if !keeps_flags(p.flags) {
        return Err(Refusal::Stop(Stop::FlagBits));
    }
    mark_loaded(cpu, mem, code)?;
    let mut seg = cpu.seg;
    seg[1] = code.hidden;
    Ok(returned(cpu, p, cpu.regs.r[4].wrapping_add(12), cpu.cpl, seg))
}

#[tactic(auto, unfolding(crate::specs::Iret::return_outer))]
fn return_outer<M: GuestMem>(
    cpu: &Cpu,
    mem: &mut M,
    p: &Popped,
    code: &Loading,
) -> Result<Cpu, Refusal>
    requires { (M.space mem.old).pages ≤ 56 }
    ensures gives { Gives result (M.space mem.new) (return_outer cpu.now p.now code.now (M.space mem.old)) }
    ensures pages { (M.space mem.new).pages ≤ (M.space mem.old).pages + 8 }
    ensures frame { M.frame mem.new ≡ M.frame mem.old }
{
    let outer = pop_outer(cpu, mem)?;
    let cpl = (p.sel % 4) as u8;
    let stack = find(cpu, mem, Purpose::Stack(cpl), outer.sel)?;
    if !keeps_flags(p.flags) {
        return Err(Refusal::Stop(Stop::FlagBits));
    }
    mark_loaded(cpu, mem, code)?;
    mark_loaded(cpu, mem, &stack)?;
    let seg = outer_segments(cpu, cpl, code.hidden, stack.hidden);
    Ok(returned(cpu, p, outer.top, cpl, seg))
}

/// IRET in protected mode, to the same level or to an outer one. Intel SDM volume 2, IRET.
#[tactic(auto, unfolding(crate::specs::Iret::interrupt_return))]
pub fn interrupt_return<M: GuestMem>(cpu: &Cpu, mem: &mut M) -> Result<Cpu, Refusal>
    requires { (M.space mem.old).pages ≤ 50 }
    ensures gives { Gives result (M.space mem.new) (interrupt_return cpu.now (M.space mem.old)) }
    ensures pages { (M.space mem.new).pages ≤ (M.space mem.old).pages + 12 }
    ensures frame { M.frame mem.new ≡ M.frame mem.old }
{
    let p = pop(cpu, mem)?;
    let code = find(cpu, mem, Purpose::Return, p.sel)?;
    if u16::from(cpu.cpl) < p.sel % 4 {
        return return_outer(cpu, mem, &p, &code);
    }
    return_same(cpu, mem, &p, &code)
}
