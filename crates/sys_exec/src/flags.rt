//! The interrupt flag, the flags on the stack, and HLT.

ghost use Rattle.std.specs.Prelude.{◌≡◌, ◌+◌, ◌*◌, ◌≤◌};
ghost use Rattle.paging.specs.Gives.{Gives};
ghost use Rattle.paging.specs.Space.{Space};
ghost use Rattle.sys_exec.specs.Flags.{with_flags, clear_interrupts, set_interrupts, halt, push_flags, pop_flags};
ghost use Rattle.sys_exec.specs.Asked.{GivesAsked};

use crate::effect::{Refusal, SysEffect, SysOutcome};
use crate::iret::{is_within, keeps_flags, new_flags};
use crate::operand::{PROTECTION_0, next, past, past_pop, past_push, pull, push};
use descriptors::Cpu;
use ia32_types::{Flags, Stop};
use paging::GuestMem;

fn with_flags(cpu: Cpu, flags: Flags) -> Cpu
    ensures { result ≡ with_flags cpu flags }
{
    let mut after = cpu;
    after.regs.flags = flags;
    after
}

/// CLI.
#[tactic(auto, unfolding(crate::specs::Flags::clear_interrupts))]
pub fn clear_interrupts(len: u8, cpu: &Cpu) -> Result<SysOutcome, Refusal>
    ensures gives { (s : Space) → Gives result s (clear_interrupts len cpu.now s) }
    ensures asked { GivesAsked result }
{
    if !is_within(cpu) {
        return Err(PROTECTION_0);
    }
    let flags = cpu.regs.flags.with_bit(9, false);
    Ok(next(with_flags(past(cpu, len), flags)))
}

/// STI.
#[tactic(auto, unfolding(crate::specs::Flags::set_interrupts))]
pub fn set_interrupts(len: u8, cpu: &Cpu) -> Result<SysOutcome, Refusal>
    ensures gives { (s : Space) → Gives result s (set_interrupts len cpu.now s) }
    ensures asked { GivesAsked result }
{
    if !is_within(cpu) {
        return Err(PROTECTION_0);
    }
    let flags = cpu.regs.flags.with_bit(9, true);
    let held = cpu.held || !cpu.regs.flags.bit(9);
    let mut after = with_flags(past(cpu, len), flags);
    after.held = held;
    Ok(next(after))
}

/// HLT.
#[tactic(auto, unfolding(crate::specs::Flags::halt))]
pub fn halt(len: u8, cpu: &Cpu) -> Result<SysOutcome, Refusal>
    ensures gives { (s : Space) → Gives result s (halt len cpu.now s) }
    ensures asked { GivesAsked result }
{
    if cpu.cpl != 0 {
        return Err(PROTECTION_0);
    }
    let mut cpu = past(cpu, len);
    cpu.halted = true;
    let effect = SysEffect::Halted;
    Ok(SysOutcome { cpu, effect })
}

/// PUSHF.
#[tactic(auto, unfolding(crate::specs::Flags::push_flags))]
pub fn push_flags<M: GuestMem>(len: u8, cpu: &Cpu, mem: &mut M) -> Result<SysOutcome, Refusal>
    requires { (M.space mem.old).pages ≤ 62 }
    ensures gives { Gives result (M.space mem.new) (push_flags len cpu.now (M.space mem.old)) }
    ensures pages { (M.space mem.new).pages ≤ (M.space mem.old).pages + 2 }
    ensures frame { M.frame mem.new ≡ M.frame mem.old }
    ensures asked { GivesAsked result }
{
    push(cpu, mem, cpu.regs.flags.bits)?;
    Ok(next(past_push(cpu, len)))
}

/// POPF.
#[tactic(auto, unfolding(crate::specs::Flags::pop_flags))]
pub fn pop_flags<M: GuestMem>(len: u8, cpu: &Cpu, mem: &mut M) -> Result<SysOutcome, Refusal>
    requires { (M.space mem.old).pages ≤ 62 }
    ensures gives { Gives result (M.space mem.new) (pop_flags len cpu.now (M.space mem.old)) }
    ensures pages { (M.space mem.new).pages ≤ (M.space mem.old).pages + 2 }
    ensures frame { M.frame mem.new ≡ M.frame mem.old }
    ensures asked { GivesAsked result }
{
    let image = pull(cpu, mem)?;
    if !keeps_flags(image) {
        return Err(Refusal::Stop(Stop::FlagBits));
    }
    let flags = new_flags(cpu, image);
    Ok(next(with_flags(past_pop(cpu, len), flags)))
}
