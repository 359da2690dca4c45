//! Deliveries of events: external interrupts, INT, and raised vectors.

ghost use Rattle.std.specs.Prelude.{◌≡◌, ◌+◌, ◌*◌, ◌==◌, ◌≤◌, Bool, false, None, Some, IfOk, OnOk};
ghost use Rattle.paging.specs.Space.{Space};
ghost use Rattle.board.specs.Boards.{vector as vector_of, acknowledged};
ghost use Rattle.machine_model.specs.State.{Setting, State as Whole};
ghost use Rattle.machine_model.specs.Step.{interrupted, interrupts_by, after_refusal, raised, code_of, stop_of};
ghost use Rattle.machine_model.specs.Taken.{is_load};
ghost use Rattle.machine_model.specs.UsedPages.{Uses, AtRefusal};
ghost use Rattle.machine_step.specs.Left.{left_by_interrupt, left_by_int, left_by_raise, left_by_refusal};
ghost use Rattle.machine_step.specs.Over.{UsesBy};
ghost use Rattle.machine_step.specs.Roots.{RootsAs, EndsWith};
ghost use Rattle.machine_step.specs.Ruled.{IsRuled};
ghost use Rattle.machine_step.specs.Raised.{fault_address, raised_as, raised_by_int, raised_by_refusal};
ghost use Rattle.machine_step.specs.Worked.{ComesTo, IsDropped, answer_of, completed_of, done_by};

use crate::rules::{Rules, entered};
use crate::worked::{Completed, Raised, Seen, Worked};
use board::Board;
use descriptors::Cpu;
use event_entry::{Kind, NotDelivered};
use ia32_types::{Insn, Stop};
use machine_model::works_use;
use run_trace::What;
use step_exec::StepMemory;
use sys_exec::{Refusal, past};

/// Acknowledges an external interrupt and delivers it.
#[tactic(auto, unfolding(machine_model::specs::Step::interrupted))]
pub fn deliver<M: StepMemory>(
    rules: &Rules,
    worked: &mut Worked,
    board: &mut Board,
    mem: &mut M,
    vector: u8,
) -> Result<(), Stop>
    requires pending { vector_of board.old ≡ Some vector }
    requires pages { (M.space mem.old).pages ≤ 48 }
    ensures uses { OnOk result (UsesBy worked.old.cpu (M.space mem.old) (M.space mem.new)) }
    ensures step { (m : Setting) (b : Whole) → IsRuled m rules.now → ComesTo
        (interrupted m (record b { cpu = worked.old.cpu; board = board.old }) vector (M.space mem.old))
        b (answer_of result worked.new) board.new (M.space mem.new) }
    ensures board { board.new ≡ acknowledged board.old }
    ensures dropped { IfOk (answer_of result worked.new) (λ w. IsDropped w.dropped) }
    ensures roots { IfOk (answer_of result worked.new) (RootsAs worked.old.cpu) }
    ensures raised { worked.new.raised ≡ worked.old.raised }
    ensures leaves { M.space mem.new ≡ left_by_interrupt worked.old.cpu vector (M.space mem.old) }
    ensures frame { M.frame mem.new ≡ M.frame mem.old }
{
    works_use();
    let _vector = board.acknowledge();
    match event_entry::deliver(&mut worked.cpu, mem, vector, Kind::External, None) {
        Ok(()) => entered(rules, Seen::One(What::Irq(vector)), None, worked),
        Err(refused) => Err(stop_of(refused)),
    }
}

/// INT enters the handler with the EIP after it. Where the gate may not be used at this level, #GP is raised at the instruction.
pub fn enter<M: StepMemory>(
    rules: &Rules,
    insn: &Insn,
    len: u8,
    before: &Cpu,
    worked: &mut Worked,
    mem: &mut M,
    vector: u8,
) -> Result<(), Stop>
    requires pages { (M.space mem.old).pages ≤ 32 }
    requires no_load { is_load (Some (completed_of (done_by insn.now before.now))) ≡ false }
    requires fresh { worked.old.raised ≡ None }
    ensures uses { OnOk result (UsesBy before.now (M.space mem.old) (M.space mem.new)) }
    ensures step { (m : Setting) (b : Whole) → IsRuled m rules.now → ComesTo
        (interrupts_by m (record b { cpu = before.now }) (completed_of (done_by insn.now before.now)) len vector
        (M.space mem.old)) b (answer_of result worked.new) b.board (M.space mem.new) }
    ensures dropped { IfOk (answer_of result worked.new) (λ w. IsDropped w.dropped) }
    ensures roots { IfOk (answer_of result worked.new) (RootsAs before.now) }
    ensures raised { worked.new.raised ≡ raised_by_int before.now len vector (M.space mem.old) }
    ensures leaves { M.space mem.new ≡ left_by_int before.now len vector (M.space mem.old) }
    ensures frame { M.frame mem.new ≡ M.frame mem.old }
{
    works_use();
    worked.cpu = past(before, len);
    match event_entry::deliver(&mut worked.cpu, mem, vector, Kind::Soft, None) {
        Ok(()) => {
            let completed = Completed::of(insn, before);
            entered(rules, Seen::Nothing, Some(completed), worked)
        }
        Err(NotDelivered::Privilege) => {
            worked.cpu = *before;
            raise(rules, worked, mem, 13, 8 * u32::from(vector) + 2)
        }
        Err(NotDelivered::Stop(stop)) => Err(stop),
    }
}

/// A fetch by this processor is denied or stops.
pub fn refuse<M: StepMemory>(
    rules: &Rules,
    cpu: &Cpu,
    mem: &mut M,
    refusal: Refusal,
) -> Result<Worked, Stop>
    requires pages { (M.space mem.old).pages ≤ 48 }
    ensures uses { OnOk result (UsesBy cpu.now (M.space mem.old) (M.space mem.new)) }
    ensures goes_on { (s : Space) → AtRefusal (cpu.now.cpl == 3) s refusal (M.space mem.old)
        → OnOk result (UsesBy cpu.now s (M.space mem.new)) }
    ensures step { (m : Setting) (b : Whole) → IsRuled m rules.now → ComesTo
        (after_refusal m (record b { cpu = cpu.now }) refusal (M.space mem.old))
        b result b.board (M.space mem.new) }
    ensures dropped { IfOk result (λ w. IsDropped w.dropped) }
    ensures roots { IfOk result (RootsAs cpu.now) }
    ensures frame { M.frame mem.new ≡ M.frame mem.old }
{
    let mut worked = Worked::at(cpu);
    match refuse_at(rules, &mut worked, mem, refusal) {
        Ok(()) => Ok(worked),
        Err(stop) => Err(stop),
    }
}

/// A fetch by the processor of a step that is recorded in its place is denied or stops.
pub fn refuse_at<M: StepMemory>(
    rules: &Rules,
    worked: &mut Worked,
    mem: &mut M,
    refusal: Refusal,
) -> Result<(), Stop>
    requires pages { (M.space mem.old).pages ≤ 48 }
    requires fresh { worked.old.raised ≡ None }
    ensures uses { OnOk result (UsesBy worked.old.cpu (M.space mem.old) (M.space mem.new)) }
    ensures goes_on { (s : Space) → AtRefusal (worked.old.cpu.cpl == 3) s refusal (M.space mem.old)
        → OnOk result (UsesBy worked.old.cpu s (M.space mem.new)) }
    ensures step { (m : Setting) (b : Whole) → IsRuled m rules.now → ComesTo
        (after_refusal m (record b { cpu = worked.old.cpu }) refusal (M.space mem.old))
        b (answer_of result worked.new) b.board (M.space mem.new) }
    ensures dropped { IfOk (answer_of result worked.new) (λ w. IsDropped w.dropped) }
    ensures roots { IfOk (answer_of result worked.new) (RootsAs worked.old.cpu) }
    ensures raised { worked.new.raised ≡ raised_by_refusal worked.old.cpu refusal }
    ensures leaves { M.space mem.new ≡ left_by_refusal worked.old.cpu refusal (M.space mem.old) }
    ensures frame { M.frame mem.new ≡ M.frame mem.old }
{
    match refusal {
        Refusal::Stop(stop) => Err(stop),
        Refusal::Raise { vector, code } => raise(rules, worked, mem, vector, code),
        Refusal::Fault { code, at } => {
            worked.cpu.cr2 = at;
            raise(rules, worked, mem, 14, code)
        }
    }
}

/// Delivers a raised vector, from this processor, whose EIP is that of the instruction.
pub fn raise<M: StepMemory>(
    rules: &Rules,
    worked: &mut Worked,
    mem: &mut M,
    vector: u8,
    code: u32,
) -> Result<(), Stop>
    requires pages { (M.space mem.old).pages ≤ 48 }
    ensures uses { (user : Bool) → OnOk result (Uses user (M.space mem.old) (M.space mem.new)) }
    ensures step { (m : Setting) (b : Whole) → IsRuled m rules.now → ComesTo
        (raised m b worked.old.cpu vector code (M.space mem.old))
        b (answer_of result worked.new) b.board (M.space mem.new) }
    ensures dropped { IfOk (answer_of result worked.new) (λ w. IsDropped w.dropped) }
    ensures ends { IfOk (answer_of result worked.new) (EndsWith None worked.old.cpu) }
    ensures raised { worked.new.raised ≡ raised_as worked.old.cpu vector code }
    ensures leaves { M.space mem.new ≡ left_by_raise worked.old.cpu vector code (M.space mem.old) }
    ensures frame { M.frame mem.new ≡ M.frame mem.old }
{
    works_use();
    let code = code_of(vector, code);
    let at = fault_address(vector, &worked.cpu);
    worked.raised = Some(Raised { vector, code, at });
    match event_entry::deliver(&mut worked.cpu, mem, vector, Kind::Raised, code) {
        Ok(()) => entered(rules, Seen::Nothing, None, worked),
        Err(refused) => Err(stop_of(refused)),
    }
}

fn code_of(vector: u8, code: u32) -> Option<u32>
    ensures { result ≡ code_of vector code }
{
    if vector >= 11 && vector <= 14 {
        Some(code)
    } else {
        None
    }
}

/// The address of a page fault, which is in CR2 when it is delivered.
fn fault_address(vector: u8, cpu: &Cpu) -> Option<u32>
    ensures { result ≡ fault_address vector cpu.now }
{
    if vector == 14 { Some(cpu.cr2) } else { None }
}

fn stop_of(refused: NotDelivered) -> Stop
    ensures { result ≡ stop_of refused }
{
    match refused {
        NotDelivered::Privilege => Stop::DeliveryFailed,
        NotDelivered::Stop(stop) => stop,
    }
}
