//! RET, and jumps and calls through a register or memory.

ghost use Rattle.std.specs.Prelude.{◌≡◌, ◌+◌, ◌*◌, ◌≤◌, ◌<◌, ◌^◌};
ghost use Rattle.paging.specs.Gives.{Gives};
ghost use Rattle.sys_exec.specs.Branch.{return_to, jump_to, called_through, call_to};
ghost use Rattle.sys_exec.specs.Asked.{GivesAsked};

use crate::effect::{Refusal, SysOutcome};
use crate::operand::{
    UNSUPPORTED, gone_to, long_of, next, past, past_push, pull, push, reach_operand, reg_at,
};
use descriptors::{Cpu, by_level, reach};
use ia32_exec::{address_of, esp_above, esp_below};
use ia32_types::{Address, Operand, Size};
use paging::GuestMem;

/// RET, which drops further bytes of the stack.
#[tactic(auto, unfolding(crate::specs::Branch::return_to))]
pub fn return_to<M: GuestMem>(more: u32, cpu: &Cpu, mem: &mut M) -> Result<SysOutcome, Refusal>
    requires { (M.space mem.old).pages ≤ 62 }
    ensures gives { Gives result (M.space mem.new) (return_to more cpu.now (M.space mem.old)) }
    ensures pages { (M.space mem.new).pages ≤ (M.space mem.old).pages + 2 }
    ensures frame { M.frame mem.new ≡ M.frame mem.old }
    ensures asked { GivesAsked result }
{
    let target = pull(cpu, mem)?;
    let mut after = gone_to(cpu, target);
    after.regs.r[4] = esp_above(4 + u64::from(more), &cpu.regs);
    Ok(next(after))
}

/// JMP through an operand.
#[tactic(auto, unfolding(crate::specs::Branch::jump_to))]
pub fn jump_to<M: GuestMem>(a: &Operand, cpu: &Cpu, mem: &mut M) -> Result<SysOutcome, Refusal>
    requires { (M.space mem.old).pages ≤ 62 }
    ensures gives { Gives result (M.space mem.new) (jump_to a.now cpu.now (M.space mem.old)) }
    ensures pages { (M.space mem.new).pages ≤ (M.space mem.old).pages + 2 }
    ensures frame { M.frame mem.new ≡ M.frame mem.old }
    ensures asked { GivesAsked result }
{
    let target = long_of(cpu, mem, a)?;
    Ok(next(gone_to(cpu, target)))
}

/// Does the push of a CALL through memory, and reads its target. Both ranges are translated first.
#[tactic(auto, unfolding(crate::specs::Branch::called_through))]
fn call_through<M: GuestMem>(a: &Address, len: u8, cpu: &Cpu, mem: &mut M) -> Result<u32, Refusal>
    requires { (M.space mem.old).pages ≤ 60 }
    ensures gives { Gives result (M.space mem.new) (called_through a.now len cpu.now (M.space mem.old)) }
    ensures pages { (M.space mem.new).pages ≤ (M.space mem.old).pages + 4 }
    ensures frame { M.frame mem.new ≡ M.frame mem.old }
{
    reach_operand(cpu, mem, a, 4, false)?;
    let top = esp_below(4, &cpu.regs);
    reach::<M, Refusal>(mem, top, 4, by_level(cpu, true))?;
    let target = mem.load_earlier(address_of(*a, &cpu.regs), Size::Long);
    mem.save(top, Size::Long, past(cpu, len).regs.eip);
    Ok(target)
}

/// CALL through an operand.
#[tactic(auto, unfolding(crate::specs::Branch::call_to))]
pub fn call_to<M: GuestMem>(
    a: &Operand,
    len: u8,
    cpu: &Cpu,
    mem: &mut M,
) -> Result<SysOutcome, Refusal>
    requires { (M.space mem.old).pages ≤ 60 }
    ensures gives { Gives result (M.space mem.new) (call_to a.now len cpu.now (M.space mem.old)) }
    ensures pages { (M.space mem.new).pages ≤ (M.space mem.old).pages + 4 }
    ensures frame { M.frame mem.new ≡ M.frame mem.old }
    ensures asked { GivesAsked result }
{
    match a {
        Operand::Register(k) => {
            push(cpu, mem, past(cpu, len).regs.eip)?;
            Ok(next(gone_to(&past_push(cpu, len), reg_at(cpu, *k))))
        }
        Operand::Memory(a) => {
            let target = call_through(a, len, cpu, mem)?;
            Ok(next(gone_to(&past_push(cpu, len), target)))
        }
        _ => Err(UNSUPPORTED),
    }
}
