//! Operands of one instruction, the stack, and how an instruction ends.

ghost use Rattle.std.specs.Prelude.{◌≡◌, ◌+◌, ◌*◌, ◌%◌, ◌≤◌, ◌<◌, ◌^◌, OnOk};
ghost use Rattle.paging.specs.Gives.{Gives};
ghost use Rattle.paging.specs.Ready.{IsReach};
ghost use Rattle.ia32_exec.specs.Registers.{address_of, with_whole, eip_past};
ghost use Rattle.ia32_exec.specs.Ranges.{segment_of};
ghost use Rattle.sys_exec.specs.Operand.{selector_in, reg_at, operand_reached, selector, long_of, pulled, pushed, past, past_with, past_push, past_pop, gone_to};

use crate::effect::{Refusal, SysEffect, SysOutcome};
use descriptors::{Cpu, by_level, reach};
use ia32_exec::{address_of, esp_above, esp_below, segment_of};
use ia32_types::{Address, Operand, Seg, Size, Stop};
use paging::GuestMem;

/// The run stops: the profile has no such instruction.
pub const UNSUPPORTED: Refusal = Refusal::Stop(Stop::Unsupported);

/// A general protection fault with error code 0.
pub const PROTECTION_0: Refusal = Refusal::Raise {
    vector: 13,
    code: 0,
};

/// The visible part of a segment register.
pub fn selector_in(cpu: &Cpu, seg: Seg) -> u16
    ensures { result ≡ selector_in cpu.now seg }
{
    cpu.segment(seg).sel
}

/// A general register of 32 bits. Of its number the low three bits count.
pub fn reg_at(cpu: &Cpu, k: u8) -> u32
    ensures { result ≡ reg_at cpu.now k }
{
    cpu.regs.r[k as usize % 8]
}

/// Translates an operand in memory.
#[tactic(auto, unfolding(crate::specs::Operand::operand_reached))]
pub fn reach_operand<M: GuestMem>(
    cpu: &Cpu,
    mem: &mut M,
    a: &Address,
    len: u32,
    write: bool,
) -> Result<(), Refusal>
    requires room { (M.space mem.old).pages ≤ 62 }
    requires some { 1 ≤ len }
    requires short { len ≤ 32 }
    ensures gives { Gives result (M.space mem.new) (operand_reached cpu.now a.now len write (M.space mem.old)) }
    ensures pages { (M.space mem.new).pages ≤ (M.space mem.old).pages + 2 }
    ensures frame { M.frame mem.new ≡ M.frame mem.old }
    ensures ready { OnOk result (IsReach (M.space mem.new) (address_of a.now cpu.now.regs) len write) }
{
    if cpu.segment(segment_of(a.base)).null {
        return Err(PROTECTION_0);
    }
    let at = address_of(*a, &cpu.regs);
    reach::<M, Refusal>(mem, at, len, by_level(cpu, write))
}

/// A selector from a register or from memory.
#[tactic(auto, unfolding(crate::specs::Operand::selector))]
pub fn selector<M: GuestMem>(cpu: &Cpu, mem: &mut M, operand: &Operand) -> Result<u16, Refusal>
    requires { (M.space mem.old).pages ≤ 62 }
    ensures gives { Gives result (M.space mem.new) (selector cpu.now operand.now (M.space mem.old)) }
    ensures pages { (M.space mem.new).pages ≤ (M.space mem.old).pages + 2 }
    ensures frame { M.frame mem.new ≡ M.frame mem.old }
{
    match operand {
        Operand::Register(k) => Ok((reg_at(cpu, *k) % 65536) as u16),
        Operand::Memory(a) => {
            reach_operand(cpu, mem, a, 2, false)?;
            let sel = mem.load(address_of(*a, &cpu.regs), Size::Word);
            Ok(sel as u16)
        }
        _ => Err(UNSUPPORTED),
    }
}

/// A number of four bytes from a register or from memory.
#[tactic(auto, unfolding(crate::specs::Operand::long_of))]
pub fn long_of<M: GuestMem>(cpu: &Cpu, mem: &mut M, operand: &Operand) -> Result<u32, Refusal>
    requires { (M.space mem.old).pages ≤ 62 }
    ensures gives { Gives result (M.space mem.new) (long_of cpu.now operand.now (M.space mem.old)) }
    ensures pages { (M.space mem.new).pages ≤ (M.space mem.old).pages + 2 }
    ensures frame { M.frame mem.new ≡ M.frame mem.old }
{
    match operand {
        Operand::Register(k) => Ok(reg_at(cpu, *k)),
        Operand::Memory(a) => {
            reach_operand(cpu, mem, a, 4, false)?;
            Ok(mem.load(address_of(*a, &cpu.regs), Size::Long))
        }
        _ => Err(UNSUPPORTED),
    }
}

/// The number on top of the stack.
#[tactic(auto, unfolding(crate::specs::Operand::pulled))]
pub fn pull<M: GuestMem>(cpu: &Cpu, mem: &mut M) -> Result<u32, Refusal>
    requires { (M.space mem.old).pages ≤ 62 }
    ensures gives { Gives result (M.space mem.new) (pulled cpu.now (M.space mem.old)) }
    ensures pages { (M.space mem.new).pages ≤ (M.space mem.old).pages + 2 }
    ensures frame { M.frame mem.new ≡ M.frame mem.old }
{
    let top = cpu.regs.r[4];
    reach::<M, Refusal>(mem, top, 4, by_level(cpu, false))?;
    Ok(mem.load(top, Size::Long))
}

/// Writes a number below the stack.
#[tactic(auto, unfolding(crate::specs::Operand::pushed))]
pub fn push<M: GuestMem>(cpu: &Cpu, mem: &mut M, value: u32) -> Result<(), Refusal>
    requires { (M.space mem.old).pages ≤ 62 }
    ensures gives { Gives result (M.space mem.new) (pushed cpu.now value (M.space mem.old)) }
    ensures pages { (M.space mem.new).pages ≤ (M.space mem.old).pages + 2 }
    ensures frame { M.frame mem.new ≡ M.frame mem.old }
{
    let at = esp_below(4, &cpu.regs);
    reach::<M, Refusal>(mem, at, 4, by_level(cpu, true))?;
    mem.save(at, Size::Long, value);
    Ok(())
}

/// Past the instruction.
pub fn past(cpu: &Cpu, len: u8) -> Cpu
    ensures { result ≡ past cpu.now len }
{
    let mut after = *cpu;
    after.regs.eip = cpu.regs.eip.wrapping_add(u32::from(len));
    after
}

/// Past the instruction, with a register made new.
pub fn past_with(cpu: &Cpu, len: u8, k: u8, value: u32) -> Cpu
    requires { k < 8 }
    ensures { result ≡ past_with cpu.now len k value }
{
    let mut after = past(cpu, len);
    after.regs.r[k as usize] = value;
    after
}

/// Past the instruction, with ESP after a push.
pub fn past_push(cpu: &Cpu, len: u8) -> Cpu
    ensures { result ≡ past_push cpu.now len }
{
    past_with(cpu, len, 4, esp_below(4, &cpu.regs))
}

/// Past the instruction, with ESP after a pop.
pub fn past_pop(cpu: &Cpu, len: u8) -> Cpu
    ensures { result ≡ past_pop cpu.now len }
{
    past_with(cpu, len, 4, esp_above(4, &cpu.regs))
}

/// At a target.
pub fn gone_to(cpu: &Cpu, eip: u32) -> Cpu
    ensures { result ≡ gone_to cpu.now eip }
{
    let mut after = *cpu;
    after.regs.eip = eip;
    after
}

/// The next instruction follows; the machine has nothing more to do.
pub fn next(cpu: Cpu) -> SysOutcome
    ensures { result ≡ record { cpu = cpu; effect = SysEffect.Next } }
{
    SysOutcome {
        cpu,
        effect: SysEffect::Next,
    }
}
