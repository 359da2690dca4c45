//! MOV to and from the control registers.

ghost use Rattle.std.specs.Prelude.{◌≡◌, ◌==◌, ◌&&◌, bit_and};
ghost use Rattle.paging.specs.Gives.{Gives};
ghost use Rattle.paging.specs.Space.{Space};
ghost use Rattle.descriptors.specs.Controls.{control_0_needed, control_0_refused};
ghost use Rattle.sys_exec.specs.Control.{load_control, write_control, control_of, read_control};
ghost use Rattle.sys_exec.specs.Asked.{GivesAsked};

use crate::effect::{Refusal, SysEffect, SysOutcome};
use crate::operand::{PROTECTION_0, UNSUPPORTED, next, past, past_with, reg_at};
use descriptors::{
    CR0_AM, CR0_EM, CR0_ET, CR0_MP, CR0_NE, CR0_PE, CR0_PG, CR0_TS, CR0_WP, CR3_PCD, CR3_PWT,
    CR4_PSE, Cpu,
};
use ia32_types::{Operand, Stop};

const CONTROL_BITS: Refusal = Refusal::Stop(Stop::ControlBits);

/// The flags that CR0 must have.
const NEEDED_0: u32 = CR0_PE | CR0_PG;

/// The flags that CR0 may have besides.
const ADMITTED_0: u32 = CR0_MP | CR0_EM | CR0_TS | CR0_ET | CR0_NE | CR0_WP | CR0_AM;

/// The bits of CR0 that may not be set.
const REFUSED_0: u32 = 0xFFFF_FFFF - (NEEDED_0 | ADMITTED_0);

/// The bits of CR3 that may not be set.
const REFUSED_3: u32 = 0xFFF - (CR3_PWT | CR3_PCD);

/// A value of CR0 that has PE and PG, and no bit that may not be set.
fn admits_0(v: u32) -> bool
    ensures { result ≡ (bit_and v control_0_needed == control_0_needed && bit_and v control_0_refused == 0) }
{
    v & NEEDED_0 == NEEDED_0 && v & REFUSED_0 == 0
}

fn dropping_all(cpu: Cpu) -> SysOutcome
    ensures { result ≡ record { cpu = cpu; effect = SysEffect.DropAll } }
{
    SysOutcome {
        cpu,
        effect: SysEffect::DropAll,
    }
}

/// Loads a control register.
#[tactic(auto, unfolding(crate::specs::Control::load_control))]
fn load_control(cpu: &Cpu, number: u8, v: u32) -> Result<SysOutcome, Refusal>
    ensures gives { (s : Space) → Gives result s (load_control cpu.now number v s) }
    ensures asked { GivesAsked result }
{
    let mut after = *cpu;
    match number {
        0 => {
            if !admits_0(v) {
                return Err(CONTROL_BITS);
            }
            after.cr0 = v | CR0_ET;
            Ok(next(after))
        }
        2 => {
            after.cr2 = v;
            Ok(next(after))
        }
        3 => {
            if v & REFUSED_3 != 0 {
                return Err(CONTROL_BITS);
            }
            after.cr3 = v;
            Ok(dropping_all(after))
        }
        4 => {
            if v != 0 && v != CR4_PSE {
                return Err(CONTROL_BITS);
            }
            after.cr4 = v;
            if v / CR4_PSE % 2 != cpu.cr4 / CR4_PSE % 2 {
                return Ok(dropping_all(after));
            }
            Ok(next(after))
        }
        _ => Err(UNSUPPORTED),
    }
}

/// MOV to a control register.
#[tactic(auto, unfolding(crate::specs::Control::write_control))]
pub fn write_control(a: &Operand, b: &Operand, len: u8, cpu: &Cpu) -> Result<SysOutcome, Refusal>
    ensures gives { (s : Space) → Gives result s (write_control a.now b.now len cpu.now s) }
    ensures asked { GivesAsked result }
{
    match (a, b) {
        (Operand::Control(number), Operand::Register(k)) => {
            if cpu.cpl != 0 {
                return Err(PROTECTION_0);
            }
            load_control(&past(cpu, len), *number, reg_at(cpu, *k))
        }
        _ => Err(UNSUPPORTED),
    }
}

#[tactic(auto, unfolding(crate::specs::Control::control_of))]
fn control_of(cpu: &Cpu, number: u8) -> Result<u32, Refusal>
    ensures { (s : Space) → Gives result s (control_of cpu.now number s) }
{
    match number {
        0 => Ok(cpu.cr0),
        2 => Ok(cpu.cr2),
        3 => Ok(cpu.cr3),
        4 => Ok(cpu.cr4),
        _ => Err(UNSUPPORTED),
    }
}

/// MOV from a control register.
#[tactic(auto, unfolding(crate::specs::Control::read_control))]
pub fn read_control(a: &Operand, b: &Operand, len: u8, cpu: &Cpu) -> Result<SysOutcome, Refusal>
    ensures gives { (s : Space) → Gives result s (read_control a.now b.now len cpu.now s) }
    ensures asked { GivesAsked result }
{
    match (a, b) {
        (Operand::Register(k), Operand::Control(number)) => {
            if cpu.cpl != 0 {
                return Err(PROTECTION_0);
            }
            let v = control_of(cpu, *number)?;
            Ok(next(past_with(cpu, len, *k % 8, v)))
        }
        _ => Err(UNSUPPORTED),
    }
}
