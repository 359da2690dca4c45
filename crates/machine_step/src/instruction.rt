//! The outcome of an instruction that was fetched.

ghost use Rattle.std.specs.Prelude.{◌≡◌, ◌==◌, ◌≤◌, List, ℕ, IfOk, OnOk, OnErr, Ok, Some, None, false};
ghost use Rattle.paging.specs.Space.{Space};
ghost use Rattle.ia32_rows.specs.Spells.{Spells};
ghost use Rattle.sys_exec.specs.Asked.{IsAsked};
ghost use Rattle.machine_model.specs.State.{Setting, State as Whole};
ghost use Rattle.machine_model.specs.Instruction.{instructed};
ghost use Rattle.machine_model.specs.Taken.{is_load};
ghost use Rattle.machine_model.specs.Step.{by_decoded, interrupts_by, after_instruction, after_effect};
ghost use Rattle.machine_step.specs.Begun.{AtEffect};
ghost use Rattle.machine_step.specs.Left.{left_by_effect, left_by_int, left_by_outcome, left_by_op};
ghost use Rattle.machine_step.specs.Over.{UsesBy};
ghost use Rattle.machine_step.specs.Raised.{raised_by_effect, raised_by_int, raised_by_outcome, raised_by_op};
ghost use Rattle.machine_step.specs.Roots.{RootsAs, EffectRoots};
ghost use Rattle.machine_step.specs.Ruled.{IsRuled};
ghost use Rattle.machine_step.specs.Worked.{ComesTo, IsDropped, answer_of, completed_of, done_by};

use crate::delivery::{enter, raise};
use crate::execute::execute;
use crate::ports::{read, write};
use crate::rules::{Rules, ended};
use crate::worked::{Dropped, Seen, Worked};
use board::Board;
use descriptors::Cpu;
use ia32_decode::Decoded;
use ia32_types::{Insn, Op, Stop};
use machine_model::works_use;
use step_exec::StepMemory;
use sys_exec::SysEffect;

/// Does the instruction that was fetched, by this processor. INT and INT3 are deliveries.
pub fn carry_out<M: StepMemory>(
    rules: &Rules,
    insn: &Insn,
    len: u8,
    cpu: &Cpu,
    board: &mut Board,
    mem: &mut M,
) -> Result<Worked, Stop>
    requires spelled { (bytes : List ℕ) × Spells bytes insn.now }
    requires pages { (M.space mem.old).pages ≤ 8 }
    ensures uses { OnOk result (UsesBy cpu.now (M.space mem.old) (M.space mem.new)) }
    ensures step { (m : Setting) (b : Whole) → IsRuled m rules.now → ComesTo
        (by_decoded m (record b { cpu = cpu.now; board = board.old }) (Decoded.Insn insn.now len)
        (M.space mem.old)) b result board.new (M.space mem.new) }
    ensures stopped { OnErr result (board.new ≡ board.old) }
    ensures dropped { IfOk result (λ w. IsDropped w.dropped) }
    ensures roots { IfOk result (RootsAs cpu.now) }
    ensures frame { M.frame mem.new ≡ M.frame mem.old }
{
    let mut worked = Worked::at(cpu);
    match carry_out_at(rules, insn, len, &mut worked, board, mem) {
        Ok(()) => Ok(worked),
        Err(stop) => Err(stop),
    }
}

/// Carries an instruction out, as `carry_out`, in a step that is recorded in its place.
pub fn carry_out_at<M: StepMemory>(
    rules: &Rules,
    insn: &Insn,
    len: u8,
    worked: &mut Worked,
    board: &mut Board,
    mem: &mut M,
) -> Result<(), Stop>
    requires spelled { (bytes : List ℕ) × Spells bytes insn.now }
    requires pages { (M.space mem.old).pages ≤ 8 }
    requires fresh { worked.old.raised ≡ None }
    ensures uses { OnOk result (UsesBy worked.old.cpu (M.space mem.old) (M.space mem.new)) }
    ensures step { (m : Setting) (b : Whole) → IsRuled m rules.now → ComesTo
        (by_decoded m (record b { cpu = worked.old.cpu; board = board.old }) (Decoded.Insn insn.now len)
        (M.space mem.old)) b (answer_of result worked.new) board.new (M.space mem.new) }
    ensures stopped { OnErr result (board.new ≡ board.old) }
    ensures dropped { IfOk (answer_of result worked.new) (λ w. IsDropped w.dropped) }
    ensures roots { IfOk (answer_of result worked.new) (RootsAs worked.old.cpu) }
    ensures raised { worked.new.raised ≡ raised_by_op insn.now.op worked.old.cpu insn.now len (M.space mem.old) }
    ensures leaves { M.space mem.new ≡ left_by_op insn.now.op worked.old.cpu insn.now len (M.space mem.old) }
    ensures frame { M.frame mem.new ≡ M.frame mem.old }
{
    match insn.op {
        Op::Int => {
            let vector = (insn.imm % 256) as u8;
            enter_at(rules, insn, len, worked, mem, vector)
        }
        Op::Int3 => enter_at(rules, insn, len, worked, mem, 3),
        _ => {
            let before = worked.cpu;
            perform(rules, insn, len, &before, worked, board, mem)
        }
    }
}

/// INT and INT3, which few steps are, so that the others don't make room for the processor before them.
#[inline(never)]
fn enter_at<M: StepMemory>(
    rules: &Rules,
    insn: &Insn,
    len: u8,
    worked: &mut Worked,
    mem: &mut M,
    vector: u8,
) -> Result<(), Stop>
    requires pages { (M.space mem.old).pages ≤ 32 }
    requires no_load { is_load (Some (completed_of (done_by insn.now worked.old.cpu))) ≡ false }
    requires fresh { worked.old.raised ≡ None }
    ensures uses { OnOk result (UsesBy worked.old.cpu (M.space mem.old) (M.space mem.new)) }
    ensures step { (m : Setting) (b : Whole) → IsRuled m rules.now → ComesTo
        (interrupts_by m (record b { cpu = worked.old.cpu }) (completed_of (done_by insn.now worked.old.cpu)) len vector
        (M.space mem.old)) b (answer_of result worked.new) b.board (M.space mem.new) }
    ensures dropped { IfOk (answer_of result worked.new) (λ w. IsDropped w.dropped) }
    ensures roots { IfOk (answer_of result worked.new) (RootsAs worked.old.cpu) }
    ensures raised { worked.new.raised ≡ raised_by_int worked.old.cpu len vector (M.space mem.old) }
    ensures leaves { M.space mem.new ≡ left_by_int worked.old.cpu len vector (M.space mem.old) }
    ensures frame { M.frame mem.new ≡ M.frame mem.old }
{
    let before = worked.cpu;
    enter(rules, insn, len, &before, worked, mem, vector)
}

/// Does an instruction by its row.
fn perform<M: StepMemory>(
    rules: &Rules,
    insn: &Insn,
    len: u8,
    before: &Cpu,
    worked: &mut Worked,
    board: &mut Board,
    mem: &mut M,
) -> Result<(), Stop>
    requires spelled { (bytes : List ℕ) × Spells bytes insn.now }
    requires pages { (M.space mem.old).pages ≤ 8 }
    requires same { worked.old.cpu ≡ before.now }
    requires fresh { worked.old.raised ≡ None }
    ensures uses { OnOk result (UsesBy before.now (M.space mem.old) (M.space mem.new)) }
    ensures step { (m : Setting) (b : Whole) → IsRuled m rules.now → ComesTo
        (after_instruction m (record b { cpu = before.now; board = board.old }) (completed_of (done_by insn.now before.now))
        (instructed insn.now len before.now (M.space mem.old)))
        b (answer_of result worked.new) board.new (M.space mem.new) }
    ensures stopped { OnErr result (board.new ≡ board.old) }
    ensures dropped { IfOk (answer_of result worked.new) (λ w. IsDropped w.dropped) }
    ensures roots { IfOk (answer_of result worked.new) (RootsAs before.now) }
    ensures raised { worked.new.raised ≡ raised_by_outcome before.now (instructed insn.now len before.now (M.space mem.old)) }
    ensures leaves { M.space mem.new ≡ left_by_outcome before.now (instructed insn.now len before.now (M.space mem.old)) }
    ensures frame { M.frame mem.new ≡ M.frame mem.old }
{
    works_use();
    let effect = execute(insn, len, &mut worked.cpu, mem);
    follow(rules, insn, before, effect, worked, board, mem)
}

/// The outcome of an instruction's effect, which this processor began. The processor after it stands in the step's place.
fn follow<M: StepMemory>(
    rules: &Rules,
    insn: &Insn,
    before: &Cpu,
    effect: SysEffect,
    worked: &mut Worked,
    board: &mut Board,
    mem: &mut M,
) -> Result<(), Stop>
    requires pages { (M.space mem.old).pages ≤ 48 }
    requires asked { IsAsked effect }
    requires roots { EffectRoots (done_by insn.now before.now) before.now effect worked.old.cpu }
    requires fresh { worked.old.raised ≡ None }
    ensures uses { (s : Space) → AtEffect (before.now.cpl == 3) s effect (M.space mem.old)
        → OnOk result (UsesBy before.now s (M.space mem.new)) }
    ensures step { (m : Setting) (b : Whole) → IsRuled m rules.now → ComesTo
        (after_effect m (record b { cpu = before.now; board = board.old }) (completed_of (done_by insn.now before.now)) effect
        worked.old.cpu (M.space mem.old))
        b (answer_of result worked.new) board.new (M.space mem.new) }
    ensures stopped { OnErr result (board.new ≡ board.old) }
    ensures dropped { IfOk (answer_of result worked.new) (λ w. IsDropped w.dropped) }
    ensures roots { IfOk (answer_of result worked.new) (RootsAs before.now) }
    ensures raised { worked.new.raised ≡ raised_by_effect worked.old.cpu effect }
    ensures leaves { M.space mem.new ≡ left_by_effect effect worked.old.cpu (M.space mem.old) }
    ensures frame { M.frame mem.new ≡ M.frame mem.old }
{
    match effect {
        SysEffect::Next => ended(rules, insn, before, worked),
        SysEffect::Halted => completes(insn, before, worked, Dropped::Nothing),
        SysEffect::DropPage(page) => completes(insn, before, worked, Dropped::Page(page)),
        SysEffect::DropDir(index) => completes(insn, before, worked, Dropped::Dir(index)),
        SysEffect::DropAll => completes(insn, before, worked, Dropped::All),
        SysEffect::PortIn { port, wide } => read(insn, before, worked, board, port, wide),
        SysEffect::PortOut { port, wide, value } => {
            write(insn, before, worked, board, port, wide, value)
        }
        SysEffect::Raise { vector, code } => raise(rules, worked, mem, vector, code),
        SysEffect::Stop(stop) => Err(stop),
    }
}

fn completes(insn: &Insn, before: &Cpu, worked: &mut Worked, dropped: Dropped) -> Result<(), Stop>
    ensures went { result ≡ Ok tt }
    ensures told { worked.new ≡ record {
      seen = Seen.Nothing;
      completed = Some (done_by insn.now before.now);
      cpu = worked.old.cpu;
      dropped = dropped;
      raised = worked.old.raised;
    } }
{
    worked.complete(insn, before, Seen::Nothing, dropped);
    Ok(())
}
