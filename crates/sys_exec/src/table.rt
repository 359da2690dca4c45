//! The registers of the descriptor tables, TR, and INVLPG.

ghost use Rattle.std.specs.Prelude.{◌≡◌, ◌+◌, ◌*◌, ◌≤◌, ◌<◌, ◌^◌, OnOk};
ghost use Rattle.paging.specs.Gives.{Gives};
ghost use Rattle.paging.specs.Space.{Space};
ghost use Rattle.sys_exec.specs.Table.{table_at, load_gdt, load_idt, load_tr, drop_at, drop_page};
ghost use Rattle.sys_exec.specs.Asked.{IsAsked, GivesAsked};

use crate::effect::{Refusal, SysEffect, SysOutcome};
use crate::operand::{PROTECTION_0, UNSUPPORTED, next, past, reach_operand, selector};
use crate::segment::load_task;
use descriptors::{Cpu, Table};
use ia32_exec::address_of;
use ia32_types::{Operand, Size};
use paging::GuestMem;

/// Reads a limit and a base.
#[tactic(auto, unfolding(crate::specs::Table::table_at))]
fn read_table<M: GuestMem>(cpu: &Cpu, mem: &mut M, operand: &Operand) -> Result<Table, Refusal>
    requires { (M.space mem.old).pages ≤ 62 }
    ensures gives { Gives result (M.space mem.new) (table_at cpu.now operand.now (M.space mem.old)) }
    ensures pages { (M.space mem.new).pages ≤ (M.space mem.old).pages + 2 }
    ensures frame { M.frame mem.new ≡ M.frame mem.old }
{
    match operand {
        Operand::Memory(a) => {
            reach_operand(cpu, mem, a, 6, false)?;
            let at = address_of(*a, &cpu.regs);
            let limit = mem.load(at, Size::Word);
            let base = mem.load(at + 2, Size::Long);
            Ok(Table {
                base,
                limit: limit as u16,
            })
        }
        _ => Err(UNSUPPORTED),
    }
}

/// LGDT.
#[tactic(auto, unfolding(crate::specs::Table::load_gdt))]
pub fn load_gdt<M: GuestMem>(
    a: &Operand,
    len: u8,
    cpu: &Cpu,
    mem: &mut M,
) -> Result<SysOutcome, Refusal>
    requires { (M.space mem.old).pages ≤ 62 }
    ensures gives { Gives result (M.space mem.new) (load_gdt a.now len cpu.now (M.space mem.old)) }
    ensures pages { (M.space mem.new).pages ≤ (M.space mem.old).pages + 2 }
    ensures frame { M.frame mem.new ≡ M.frame mem.old }
    ensures asked { GivesAsked result }
{
    if cpu.cpl != 0 {
        return Err(PROTECTION_0);
    }
    let mut after = past(cpu, len);
    after.gdt = read_table(cpu, mem, a)?;
    Ok(next(after))
}

/// LIDT.
#[tactic(auto, unfolding(crate::specs::Table::load_idt))]
pub fn load_idt<M: GuestMem>(
    a: &Operand,
    len: u8,
    cpu: &Cpu,
    mem: &mut M,
) -> Result<SysOutcome, Refusal>
    requires { (M.space mem.old).pages ≤ 62 }
    ensures gives { Gives result (M.space mem.new) (load_idt a.now len cpu.now (M.space mem.old)) }
    ensures pages { (M.space mem.new).pages ≤ (M.space mem.old).pages + 2 }
    ensures frame { M.frame mem.new ≡ M.frame mem.old }
    ensures asked { GivesAsked result }
{
    if cpu.cpl != 0 {
        return Err(PROTECTION_0);
    }
    let mut after = past(cpu, len);
    after.idt = read_table(cpu, mem, a)?;
    Ok(next(after))
}

/// LTR.
#[tactic(auto, unfolding(crate::specs::Table::load_tr))]
pub fn load_tr<M: GuestMem>(
    a: &Operand,
    len: u8,
    cpu: &Cpu,
    mem: &mut M,
) -> Result<SysOutcome, Refusal>
    requires { (M.space mem.old).pages ≤ 56 }
    ensures gives { Gives result (M.space mem.new) (load_tr a.now len cpu.now (M.space mem.old)) }
    ensures pages { (M.space mem.new).pages ≤ (M.space mem.old).pages + 6 }
    ensures frame { M.frame mem.new ≡ M.frame mem.old }
    ensures asked { GivesAsked result }
{
    if cpu.cpl != 0 {
        return Err(PROTECTION_0);
    }
    let sel = selector(cpu, mem, a)?;
    let mut after = past(cpu, len);
    after.task = load_task(cpu, mem, sel)?;
    Ok(next(after))
}

/// What leaves the set for an address.
fn drop_at(pse: bool, at: u32) -> SysEffect
    ensures drops { result ≡ drop_at pse at }
    ensures asked { IsAsked result }
{
    if pse {
        SysEffect::DropDir(at / 4194304)
    } else {
        SysEffect::DropPage(at / 4096)
    }
}

/// INVLPG.
#[tactic(auto, unfolding(crate::specs::Table::drop_page))]
pub fn drop_page(a: &Operand, len: u8, cpu: &Cpu) -> Result<SysOutcome, Refusal>
    ensures gives { (s : Space) → Gives result s (drop_page a.now len cpu.now s) }
    ensures asked { GivesAsked result }
{
    if cpu.cpl != 0 {
        return Err(PROTECTION_0);
    }
    match a {
        Operand::Memory(a) => Ok(SysOutcome {
            cpu: past(cpu, len),
            effect: drop_at(cpu.pse(), address_of(*a, &cpu.regs)),
        }),
        _ => Err(UNSUPPORTED),
    }
}
