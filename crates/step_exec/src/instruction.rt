//! One plain instruction.

ghost use Rattle.std.specs.Prelude.{◌≡◌, ◌+◌, ◌≤◌, OnOk, OnErr};
ghost use Rattle.ia32_types.specs.Shape.{IsShaped, IsDone};
ghost use Rattle.ia32_exec.specs.Effect.{effect, ranges_of};
ghost use Rattle.ia32_exec.specs.Short.{IsShort};
ghost use Rattle.paging.specs.Gives.{Gives};
ghost use Rattle.descriptors.specs.Leaves.{Leaves};
ghost use Rattle.step_exec.specs.Plain.{executed};
ghost use Rattle.step_exec.specs.Divided.{both_reached, completed, divided, byte_of};
ghost use Rattle.step_exec.specs.Ready.{AreMade};

use crate::memory::StepMemory;
use crate::ranges::{is_refused, reach};
use crate::store::store_all;
use crate::view::View;
use descriptors::Cpu;
use ia32_exec::{Outcome, Ranges, effect, ranges};
use ia32_types::Insn;
use sys_exec::Refusal;

/// Does an insensitive instruction. Both its ranges are tested for null segments before one is translated, and both
/// are translated before a byte is read or written. Where it is not done the processor is as before.
pub fn plain<M: StepMemory>(insn: &Insn, len: u8, cpu: &mut Cpu, mem: &mut M) -> Result<(), Refusal>
    requires kind { IsDone insn.now.op }
    requires shape { IsShaped insn.now }
    requires room { (M.space mem.old).pages ≤ 60 }
    ensures does { Leaves result cpu.new (M.space mem.new) (executed insn.now len cpu.old (M.space mem.old)) }
    ensures refused { OnErr result (cpu.new ≡ cpu.old) }
    ensures pages { (M.space mem.new).pages ≤ (M.space mem.old).pages + 4 }
    ensures frame { M.frame mem.new ≡ M.frame mem.old }
{
    in_parts(insn, len, cpu, mem)
}

#[tactic(auto, unfolding(crate::specs::Divided::divided))]
fn in_parts<M: StepMemory>(insn: &Insn, len: u8, cpu: &mut Cpu, mem: &mut M) -> Result<(), Refusal>
    requires kind { IsDone insn.now.op }
    requires shape { IsShaped insn.now }
    requires room { (M.space mem.old).pages ≤ 60 }
    ensures does { Leaves result cpu.new (M.space mem.new) (divided insn.now len cpu.old (M.space mem.old)) }
    ensures refused { OnErr result (cpu.new ≡ cpu.old) }
    ensures pages { (M.space mem.new).pages ≤ (M.space mem.old).pages + 4 }
    ensures frame { M.frame mem.new ≡ M.frame mem.old }
{
    let ranges = ranges(insn, &cpu.regs);
    reach_in(&ranges, cpu, mem)?;
    complete_in(&ranges, insn, len, cpu, mem)
}

/// Translates both ranges of an instruction, unless a null segment denies one, and does nothing else.
pub fn reach_both<M: StepMemory>(insn: &Insn, cpu: &Cpu, mem: &mut M) -> Result<(), Refusal>
    requires shape { IsShaped insn.now }
    requires room { (M.space mem.old).pages ≤ 60 }
    ensures gives { Gives result (M.space mem.new)
        (both_reached cpu.now (ranges_of insn.now cpu.now.regs) (M.space mem.old)) }
    ensures made { OnOk result (AreMade (ranges_of insn.now cpu.now.regs) (M.space mem.new)) }
    ensures pages { (M.space mem.new).pages ≤ (M.space mem.old).pages + 4 }
    ensures frame { M.frame mem.new ≡ M.frame mem.old }
{
    let ranges = ranges(insn, &cpu.regs);
    reach_in(&ranges, cpu, mem)
}

/// Translates two ranges, unless a null segment denies one.
#[tactic(auto, unfolding(crate::specs::Divided::both_reached))]
fn reach_in<M: StepMemory>(ranges: &Ranges, cpu: &Cpu, mem: &mut M) -> Result<(), Refusal>
    requires short { IsShort ranges.now.read × IsShort ranges.now.write }
    requires room { (M.space mem.old).pages ≤ 60 }
    ensures gives { Gives result (M.space mem.new) (both_reached cpu.now ranges.now (M.space mem.old)) }
    ensures made { OnOk result (AreMade ranges.now (M.space mem.new)) }
    ensures pages { (M.space mem.new).pages ≤ (M.space mem.old).pages + 4 }
    ensures frame { M.frame mem.new ≡ M.frame mem.old }
{
    if is_refused(cpu, ranges) {
        return Err(Refusal::Raise {
            vector: 13,
            code: 0,
        });
    }
    reach(mem, cpu, false, ranges.read)?;
    reach(mem, cpu, true, ranges.write)
}

/// Does an instruction whose ranges are these, and both translated.
#[tactic(auto, unfolding(crate::specs::Divided::completed))]
fn complete_in<M: StepMemory>(
    ranges: &Ranges,
    insn: &Insn,
    len: u8,
    cpu: &mut Cpu,
    mem: &mut M,
) -> Result<(), Refusal>
    requires ranges { ranges.now ≡ ranges_of insn.now cpu.old.regs }
    requires kind { IsDone insn.now.op }
    requires shape { IsShaped insn.now }
    requires made { AreMade (ranges_of insn.now cpu.old.regs) (M.space mem.old) }
    ensures does { Leaves result cpu.new (M.space mem.new) (completed insn.now len cpu.old (M.space mem.old)) }
    ensures refused { OnErr result (cpu.new ≡ cpu.old) }
    ensures pages { (M.space mem.new).pages ≡ (M.space mem.old).pages }
    ensures frame { M.frame mem.new ≡ M.frame mem.old }
{
    match outcome(ranges, insn, len, cpu, mem) {
        Outcome::Done(regs, stores) => {
            store_all(mem, &stores);
            cpu.regs = regs;
            Ok(())
        }
        Outcome::Raise(vector, code) => Err(Refusal::Raise { vector, code }),
        Outcome::Stop(stop) => Err(Refusal::Stop(stop)),
    }
}

fn outcome<M: StepMemory>(ranges: &Ranges, insn: &Insn, len: u8, cpu: &Cpu, mem: &M) -> Outcome
    requires ranges { ranges.now ≡ ranges_of insn.now cpu.now.regs }
    requires kind { IsDone insn.now.op }
    requires shape { IsShaped insn.now }
    requires made { AreMade (ranges_of insn.now cpu.now.regs) (M.space mem.now) }
    ensures { result ≡ effect insn.now len cpu.now.regs
        (byte_of (ranges_of insn.now cpu.now.regs) (M.space mem.now)) }
{
    let view = View { mem, ranges };
    effect(insn, len, &cpu.regs, &view)
}
