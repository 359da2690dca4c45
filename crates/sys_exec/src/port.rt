//! IN and OUT. The machine does the access itself.

ghost use Rattle.std.specs.Prelude.{◌≡◌, ◌%◌, ◌<◌, false, if◌then◌else◌};
ghost use Rattle.paging.specs.Gives.{Gives};
ghost use Rattle.paging.specs.Space.{Space};
ghost use Rattle.sys_exec.specs.Port.{is_wide, port_of, port_in, port_out};
ghost use Rattle.sys_exec.specs.Asked.{GivesAsked};

use crate::effect::{Refusal, SysEffect, SysOutcome};
use crate::iret::is_within;
use crate::operand::{PROTECTION_0, past, reg_at};
use descriptors::Cpu;
use ia32_types::{Insn, Operand, Size};

fn is_wide(size: Size) -> bool
    ensures { result ≡ is_wide size }
{
    matches!(size, Size::Long)
}

/// The port in DX, or the one that the instruction names.
fn port_of(insn: &Insn, cpu: &Cpu) -> u16
    ensures { result ≡ port_of insn.now.b insn.now.imm cpu.now }
{
    let number = match insn.b {
        Operand::Register(k) => reg_at(cpu, k),
        _ => insn.imm,
    };
    (number % 65536) as u16
}

/// IN.
#[tactic(auto, unfolding(crate::specs::Port::port_in))]
pub fn port_in(insn: &Insn, len: u8, cpu: &Cpu) -> Result<SysOutcome, Refusal>
    ensures gives { (s : Space) → Gives result s (port_in insn.now len cpu.now s) }
    ensures asked { GivesAsked result }
{
    if !is_within(cpu) {
        return Err(PROTECTION_0);
    }
    Ok(SysOutcome {
        cpu: past(cpu, len),
        effect: SysEffect::PortIn {
            port: port_of(insn, cpu),
            wide: is_wide(insn.size),
        },
    })
}

/// EAX or AL.
fn value_out(wide: bool, eax: u32) -> u32
    ensures value { result ≡ (if wide then eax else eax % 256) }
    ensures small { wide ≡ false → result < 256 }
{
    if wide {
        eax
    } else {
        u32::from((eax % 256) as u8)
    }
}

/// OUT.
#[tactic(auto, unfolding(crate::specs::Port::port_out))]
pub fn port_out(insn: &Insn, len: u8, cpu: &Cpu) -> Result<SysOutcome, Refusal>
    ensures gives { (s : Space) → Gives result s (port_out insn.now len cpu.now s) }
    ensures asked { GivesAsked result }
{
    if !is_within(cpu) {
        return Err(PROTECTION_0);
    }
    let wide = is_wide(insn.size);
    Ok(SysOutcome {
        cpu: past(cpu, len),
        effect: SysEffect::PortOut {
            port: port_of(insn, cpu),
            wide,
            value: value_out(wide, reg_at(cpu, 0)),
        },
    })
}
