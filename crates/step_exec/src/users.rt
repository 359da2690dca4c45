//! The outcome of an instruction that a user's code does by itself.

ghost use Rattle.std.specs.Prelude.{◌≡◌};
ghost use Rattle.ia32_types.specs.Shape.{IsShaped};
ghost use Rattle.ia32_exec.specs.Effect.{ranges_of};
ghost use Rattle.ia32_exec.specs.UserEffect.{user_effect, IsUserDone};
ghost use Rattle.step_exec.specs.Divided.{byte_of};
ghost use Rattle.step_exec.specs.Ready.{AreMade};
ghost use Rattle.step_exec.specs.Users.{selectors_of};

use crate::memory::StepMemory;
use crate::view::View;
use descriptors::Cpu;
use ia32_exec::{Outcome, Selectors, ranges, user_effect};
use ia32_types::{Insn, Seg};

fn selectors_of(cpu: &Cpu) -> Selectors
    ensures { result ≡ selectors_of cpu.now }
{
    Selectors {
        es: cpu.segment(Seg::Es).sel,
        cs: cpu.segment(Seg::Cs).sel,
        ss: cpu.segment(Seg::Ss).sel,
        ds: cpu.segment(Seg::Ds).sel,
    }
}

/// The effect of an instruction whose ranges are both translated, as at level 3 and IOPL 0. Nothing is written.
pub fn user_outcome<M: StepMemory>(insn: &Insn, len: u8, cpu: &Cpu, mem: &M) -> Outcome
    requires kind { IsUserDone insn.now.op }
    requires shape { IsShaped insn.now }
    requires made { AreMade (ranges_of insn.now cpu.now.regs) (M.space mem.now) }
    ensures { result ≡ user_effect (selectors_of cpu.now) insn.now len cpu.now.regs
        (byte_of (ranges_of insn.now cpu.now.regs) (M.space mem.now)) }
{
    let ranges = &ranges(insn, &cpu.regs);
    let view = View { mem, ranges };
    user_effect(&selectors_of(cpu), insn, len, &cpu.regs, &view)
}
