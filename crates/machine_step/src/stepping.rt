//! One step.

ghost use Rattle.std.specs.Prelude.{◌≡◌, ◌*◌, ◌≤◌, length, false, None, IfOk, OnOk, OnErr};
ghost use Rattle.step_mem.specs.Changes.{AreWithin};
ghost use Rattle.step_mem.specs.Guard.{IsLaid};
ghost use Rattle.step_mem.specs.Shown.{hidden};
ghost use Rattle.step_mem.specs.Sound.{IsSoundOver, FetchesIn, begun, space};
ghost use Rattle.machine_model.specs.Rules.{stands_well};
ghost use Rattle.machine_model.specs.State.{Setting, State as Whole};
ghost use Rattle.machine_model.specs.Step.{stepped, interrupt_of};
ghost use Rattle.machine_model.specs.Step as steps;
ghost use Rattle.machine_step.specs.Begun.{control_of, taken_by};
ghost use Rattle.machine_step.specs.Left.{left_at_work, left_in, left_from};
ghost use Rattle.machine_step.specs.Over.{first_space, under, begins_over, stepped_in, UsesBy};
ghost use Rattle.machine_step.specs.Raised.{raised_at_work, raised_in, raised_from};
ghost use Rattle.machine_step.specs.Roots.{RootsAs};
ghost use Rattle.machine_step.specs.Ruled.{IsRuled};
ghost use Rattle.machine_step.specs.Worked.{ComesTo, IsDropped, answer_of};

use crate::delivery::{deliver, refuse_at};
use crate::fetch::fetch_into;
use crate::instruction::carry_out_at;
use crate::rules::{Rules, stands_well};
use crate::worked::{Dropped, Seen, Worked};
use board::Board;
use descriptors::Cpu;
use guest_ram::Ram;
use ia32_decode::Decoded;
use ia32_types::Stop;
use step_exec::{Memory, StepMemory};
use step_mem::{Control, Guard, Own, StepState, Text, Translations};

/// One step, or the stop that it meets. Its state, with what it changed of the translations, takes the place of an earlier
/// step's; and its outcome is recorded in its place.
pub fn step_again<'g, B: Translations>(
    rules: &Rules,
    worked: &mut Worked,
    board: &mut Board,
    ram: &mut Ram,
    kept: &B,
    frames: u32,
    guard: Guard<'g>,
    state: &mut StepState<'g>,
) -> Result<(), Stop>
    requires frames { 4096 * frames ≤ length ram.old }
    requires below { 4096 * frames ≤ B.floor kept.now }
    requires stands { ∥ B.stands kept.now ram.old ∥₁ }
    requires within { AreWithin frames (B.entries kept.now ram.old) }
    requires laid { IsLaid guard.text.now frames }
    ensures sound { IsSoundOver B.Translations kept.now ram.new state.new }
    ensures uses { OnOk result (UsesBy worked.old.cpu
        (first_space B.Translations kept.now ram.old guard.entry frames worked.old.cpu)
        (space B.Translations kept.now ram.new state.new)) }
    ensures step { (m : Setting) (b : Whole) → IsRuled (under m guard.entry frames) rules.now → ComesTo
        (stepped (under m guard.entry frames)
        (begins_over B.Translations kept.now ram.old guard.entry frames (record b { cpu = worked.old.cpu; board = board.old })))
        b (answer_of result worked.new) board.new (space B.Translations kept.now ram.new state.new) }
    ensures stopped { OnErr result (board.new ≡ taken_by (interrupt_of worked.old.cpu board.old) board.old) }
    ensures dropped { IfOk (answer_of result worked.new) (λ w. IsDropped w.dropped) }
    ensures roots { IfOk (answer_of result worked.new) (RootsAs worked.old.cpu) }
    ensures raised { (m : Setting) (b : Whole) → IsRuled (under m guard.entry frames) rules.now → worked.new.raised
        ≡ raised_from (under m guard.entry frames)
        (begins_over B.Translations kept.now ram.old guard.entry frames (record b { cpu = worked.old.cpu; board = board.old })) }
    ensures leaves { (m : Setting) (b : Whole) → IsRuled (under m guard.entry frames) rules.now
        → space B.Translations kept.now ram.new state.new ≡ left_from (under m guard.entry frames)
        (begins_over B.Translations kept.now ram.old guard.entry frames (record b { cpu = worked.old.cpu; board = board.old })) }
    ensures stays { FetchesIn (begun (control_of frames worked.old.cpu) guard.entry) state.new ram.old ram.new }
{
    begin_again(&worked.cpu, ram, kept, frames, guard, state);
    step_at(rules, worked, board, ram, kept, state)
}

/// What a walk uses: the frames, the directory, and the two flags.
fn control(cpu: &Cpu, frames: u32) -> Control
    ensures { result ≡ control_of frames cpu.now }
{
    Control {
        frames,
        cr3: cpu.cr3,
        pse: cpu.pse(),
        wp: cpu.wp(),
    }
}

/// What is an instruction's own before it is fetched: no byte.
pub const NO_BYTES: Own = Own {
    front: 0,
    front_len: 0,
    back: 0,
    back_len: 0,
};

/// A state before the first step, over this text, whose place the first step's takes.
pub fn first_state<'t>(text: &'t Option<Text<'t>>) -> StepState<'t>
    ensures state { result ≡ begun (record { frames = 0; cr3 = 0; pse = false; wp = false }) result.guard }
    ensures text { result.guard.text.now ≡ text.now }
    ensures own { result.guard.own ≡ record { front = 0; front_len = 0; back = 0; back_len = 0 } }
{
    let control = Control {
        frames: 0,
        cr3: 0,
        pse: false,
        wp: false,
    };
    StepState::new(
        control,
        Guard {
            text,
            own: NO_BYTES,
        },
    )
}

/// What a step keeps, before its first access, in the place of what an earlier step kept.
pub fn begin_again<'g, B: Translations>(
    cpu: &Cpu,
    ram: &Ram,
    kept: &B,
    frames: u32,
    guard: Guard<'g>,
    state: &mut StepState<'g>,
)
    requires frames { 4096 * frames ≤ length ram.now }
    requires below { 4096 * frames ≤ B.floor kept.now }
    requires stands { ∥ B.stands kept.now ram.now ∥₁ }
    requires within { AreWithin frames (B.entries kept.now ram.now) }
    requires laid { IsLaid guard.text.now frames }
    ensures sound { IsSoundOver B.Translations kept.now ram.now state.new }
    ensures space { space B.Translations kept.now ram.now state.new
        ≡ first_space B.Translations kept.now ram.now guard.entry frames cpu.now }
    ensures pages { state.new.pages ≡ 0 }
    ensures control { state.new.control ≡ control_of frames cpu.now }
    ensures frames { state.new.control.frames ≡ frames }
    ensures guard { state.new.guard ≡ guard.entry }
{
    let _len = ram.len();
    state.renew(control(cpu, frames), guard);
}

/// One step in its memory, of which nothing was used yet.
pub fn step_in<B: Translations>(
    rules: &Rules,
    cpu: &Cpu,
    board: &mut Board,
    ram: &mut Ram,
    kept: &B,
    state: &mut StepState,
) -> Result<Worked, Stop>
    requires sound { IsSoundOver B.Translations kept.now ram.old state.old }
    requires pages { state.old.pages ≡ 0 }
    ensures sound { IsSoundOver B.Translations kept.now ram.new state.new }
    ensures uses { OnOk result (UsesBy cpu.now (space B.Translations kept.now ram.old state.old)
        (space B.Translations kept.now ram.new state.new)) }
    ensures step { (m : Setting) (b : Whole) → IsRuled m rules.now → ComesTo
        (stepped_in m (record b { cpu = cpu.now; board = board.old }) (space B.Translations kept.now ram.old state.old))
        b result board.new (space B.Translations kept.now ram.new state.new) }
    ensures stopped { OnErr result (board.new ≡ taken_by (interrupt_of cpu.now board.old) board.old) }
    ensures dropped { IfOk result (λ w. IsDropped w.dropped) }
    ensures roots { IfOk result (RootsAs cpu.now) }
    ensures control { state.new.control ≡ state.old.control }
    ensures text { state.new.guard.text ≡ state.old.guard.text }
    ensures hidden { hidden state.old.guard state.old.control.frames ram.new ≡ hidden state.old.guard state.old.control.frames ram.old }
{
    let mut worked = Worked::at(cpu);
    match step_at(rules, &mut worked, board, ram, kept, state) {
        Ok(()) => Ok(worked),
        Err(stop) => Err(stop),
    }
}

/// One step in its memory, of which nothing was used yet, recorded in the place that the caller has for it. From here on the
/// parts of its memory are one value.
pub fn step_at<B: Translations>(
    rules: &Rules,
    worked: &mut Worked,
    board: &mut Board,
    ram: &mut Ram,
    kept: &B,
    state: &mut StepState,
) -> Result<(), Stop>
    requires sound { IsSoundOver B.Translations kept.now ram.old state.old }
    requires pages { state.old.pages ≡ 0 }
    ensures sound { IsSoundOver B.Translations kept.now ram.new state.new }
    ensures uses { OnOk result (UsesBy worked.old.cpu (space B.Translations kept.now ram.old state.old)
        (space B.Translations kept.now ram.new state.new)) }
    ensures step { (m : Setting) (b : Whole) → IsRuled m rules.now → ComesTo
        (stepped_in m (record b { cpu = worked.old.cpu; board = board.old }) (space B.Translations kept.now ram.old state.old))
        b (answer_of result worked.new) board.new (space B.Translations kept.now ram.new state.new) }
    ensures stopped { OnErr result (board.new ≡ taken_by (interrupt_of worked.old.cpu board.old) board.old) }
    ensures dropped { IfOk (answer_of result worked.new) (λ w. IsDropped w.dropped) }
    ensures roots { IfOk (answer_of result worked.new) (RootsAs worked.old.cpu) }
    ensures raised { (m : Setting) → IsRuled m rules.now → worked.new.raised
        ≡ raised_in m worked.old.cpu board.old (space B.Translations kept.now ram.old state.old) }
    ensures leaves { (m : Setting) → IsRuled m rules.now → space B.Translations kept.now ram.new state.new
        ≡ left_in m worked.old.cpu board.old (space B.Translations kept.now ram.old state.old) }
    ensures stays { FetchesIn state.old state.new ram.old ram.new }
{
    step_over(rules, worked, board, &mut Memory { ram, kept, state })
}

/// An interrupt is delivered, or the processor works. A hold lasts for one step.
fn step_over<M: StepMemory>(
    rules: &Rules,
    worked: &mut Worked,
    board: &mut Board,
    mem: &mut M,
) -> Result<(), Stop>
    requires pages { (M.space mem.old).pages ≡ 0 }
    ensures uses { OnOk result (UsesBy worked.old.cpu (M.space mem.old) (M.space mem.new)) }
    ensures step { (m : Setting) (b : Whole) → IsRuled m rules.now → ComesTo
        (stepped_in m (record b { cpu = worked.old.cpu; board = board.old }) (M.space mem.old))
        b (answer_of result worked.new) board.new (M.space mem.new) }
    ensures stopped { OnErr result (board.new ≡ taken_by (interrupt_of worked.old.cpu board.old) board.old) }
    ensures dropped { IfOk (answer_of result worked.new) (λ w. IsDropped w.dropped) }
    ensures roots { IfOk (answer_of result worked.new) (RootsAs worked.old.cpu) }
    ensures raised { (m : Setting) → IsRuled m rules.now → worked.new.raised
        ≡ raised_in m worked.old.cpu board.old (M.space mem.old) }
    ensures leaves { (m : Setting) → IsRuled m rules.now → M.space mem.new
        ≡ left_in m worked.old.cpu board.old (M.space mem.old) }
    ensures frame { M.frame mem.new ≡ M.frame mem.old }
{
    let taken = interrupt(&worked.cpu, board);
    worked.cpu.held = false;
    worked.raised = None;
    match taken {
        None => work(rules, worked, board, mem),
        Some(vector) => deliver(rules, worked, board, mem, vector),
    }
}

/// The vector of the interrupt that the processor takes.
pub fn interrupt(cpu: &Cpu, board: &Board) -> Option<u8>
    ensures { result ≡ interrupt_of cpu.now board.now }
{
    let enabled = cpu.regs.flags.bits / 512 % 2 == 1;
    if enabled && !cpu.held {
        board.pending()
    } else {
        None
    }
}

/// A halted processor does nothing, and another does the instruction at EIP.
#[tactic(auto, unfolding(machine_model::specs::Step::worked, crate::specs::Raised::raised_at_work, crate::specs::Left::left_at_work))]
fn work<M: StepMemory>(
    rules: &Rules,
    worked: &mut Worked,
    board: &mut Board,
    mem: &mut M,
) -> Result<(), Stop>
    requires pages { (M.space mem.old).pages ≡ 0 }
    requires fresh { worked.old.raised ≡ None }
    ensures uses { OnOk result (UsesBy worked.old.cpu (M.space mem.old) (M.space mem.new)) }
    ensures step { (m : Setting) (b : Whole) → IsRuled m rules.now → ComesTo
        (steps.worked m (record b { cpu = worked.old.cpu; board = board.old }) (M.space mem.old))
        b (answer_of result worked.new) board.new (M.space mem.new) }
    ensures stopped { OnErr result (board.new ≡ board.old) }
    ensures dropped { IfOk (answer_of result worked.new) (λ w. IsDropped w.dropped) }
    ensures roots { IfOk (answer_of result worked.new) (RootsAs worked.old.cpu) }
    ensures raised { (m : Setting) → IsRuled m rules.now → worked.new.raised
        ≡ raised_at_work m worked.old.cpu (M.space mem.old) }
    ensures leaves { (m : Setting) → IsRuled m rules.now → M.space mem.new
        ≡ left_at_work m worked.old.cpu (M.space mem.old) }
    ensures frame { M.frame mem.new ≡ M.frame mem.old }
{
    if worked.cpu.halted {
        worked.seen = Seen::Nothing;
        worked.completed = None;
        worked.dropped = Dropped::Nothing;
        return Ok(());
    }
    let well = stands_well(rules, &worked.cpu);
    if !well {
        return Err(Stop::NotAStart);
    }
    let user = worked.cpu.cpl == 3;
    let mut found = Decoded::Outside;
    match fetch_into(mem, user, worked.cpu.regs.eip, &mut found) {
        Ok(()) => match &found {
            Decoded::Insn(insn, len) => carry_out_at(rules, insn, *len, worked, board, mem),
            _ => Err(Stop::Unsupported),
        },
        Err(refusal) => refuse_at(rules, worked, mem, refusal),
    }
}
