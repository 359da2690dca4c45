//! The outcome of an instruction other than INT and INT3.

ghost use Rattle.std.specs.Prelude.{◌≡◌, ◌+◌, ◌≤◌, List, ℕ, true};
ghost use Rattle.ia32_rows.specs.Spells.{Spells};
ghost use Rattle.sys_exec.specs.Sys.{told, told_refusal};
ghost use Rattle.sys_exec.specs.Asked.{IsAsked};
ghost use Rattle.machine_model.specs.Instruction.{is_plain, instructed, done_plainly};
ghost use Rattle.step_exec.specs.Plain.{executed};
ghost use Rattle.paging.specs.Space.{Space};

use descriptors::Cpu;
use ia32_types::{Insn, Op, sensitive};
use step_exec::{StepMemory, plain};
use sys_exec::{Refusal, SysEffect, sys};

/// Does an instruction that some bytes spell, and answers with its effect. Where it raises or stops, only CR2 may have
/// changed of the processor.
#[tactic(auto, unfolding(machine_model::specs::Instruction::instructed))]
pub fn execute<M: StepMemory>(insn: &Insn, len: u8, cpu: &mut Cpu, mem: &mut M) -> SysEffect
    requires spelled { (bytes : List ℕ) × Spells bytes insn.now }
    requires room { (M.space mem.old).pages ≤ 32 }
    ensures told { told cpu.old (instructed insn.now len cpu.old (M.space mem.old))
        ≡ (result, cpu.new, M.space mem.new) }
    ensures pages { (M.space mem.new).pages ≤ (M.space mem.old).pages + 16 }
    ensures frame { M.frame mem.new ≡ M.frame mem.old }
    ensures asked { IsAsked result }
{
    if is_plain(insn) {
        return execute_plain(insn, len, cpu, mem);
    }
    sys(insn, len, cpu, mem)
}

// An insensitive instruction.
fn execute_plain<M: StepMemory>(insn: &Insn, len: u8, cpu: &mut Cpu, mem: &mut M) -> SysEffect
    requires spelled { (bytes : List ℕ) × Spells bytes insn.now }
    requires plain { is_plain insn.now.op ≡ true }
    requires room { (M.space mem.old).pages ≤ 32 }
    ensures told { told cpu.old (done_plainly (executed insn.now len cpu.old (M.space mem.old)))
        ≡ (result, cpu.new, M.space mem.new) }
    ensures pages { (M.space mem.new).pages ≤ (M.space mem.old).pages + 16 }
    ensures frame { M.frame mem.new ≡ M.frame mem.old }
    ensures asked { IsAsked result }
{
    match plain(insn, len, cpu, mem) {
        Ok(()) => SysEffect::Next,
        Err(refusal) => refused(cpu, refusal),
    }
}

/// What is not done raises a vector or stops. A page fault leaves its address in CR2.
pub fn refused(cpu: &mut Cpu, refusal: Refusal) -> SysEffect
    ensures told { (s : Space) → told_refusal cpu.old refusal s ≡ (result, cpu.new, s) }
    ensures asked { IsAsked result }
{
    match refusal {
        Refusal::Fault { code, at } => {
            cpu.cr2 = at;
            SysEffect::Raise { vector: 14, code }
        }
        Refusal::Raise { vector, code } => SysEffect::Raise { vector, code },
        Refusal::Stop(stop) => SysEffect::Stop(stop),
    }
}

/// The instruction is neither sensitive, nor INT or INT3.
pub fn is_plain(insn: &Insn) -> bool
    ensures { result ≡ is_plain insn.now.op }
{
    match insn.op {
        Op::Int => false,
        Op::Int3 => false,
        _ => sensitive(insn).is_none(),
    }
}
