//! A halted processor that waits.

ghost use Rattle.std.specs.Prelude.{◌≡◌, ◌+◌, ◌-◌, ◌≤◌, ◌<◌, true, false, None};
ghost use Rattle.board.specs.Boards.{with_timer_edge};
ghost use Rattle.board.specs.Quiet.{comes_within, event_within};
ghost use Rattle.board.specs.ScriptForm.{is_script};
ghost use Rattle.machine_model.specs.Resting.{SleepsThrough};
ghost use Rattle.machine_model.specs.Step.{interrupt_of};

use crate::stepping::interrupt;
use board::{Board, Script, steps_to_event};
use descriptors::Cpu;
use machine_model::halted_steps_rest;

/// The processor is halted, and no interrupt that is pending can end that.
fn is_resting(cpu: &Cpu, board: &Board) -> bool
    ensures rests { result ≡ true → (cpu.now.halted ≡ true) × (cpu.now.held ≡ false) × (interrupt_of cpu.now board.now ≡ None) }
    ensures waits { cpu.now.halted ≡ true → cpu.now.held ≡ false → interrupt_of cpu.now board.now ≡ None → result ≡ true }
{
    if !cpu.halted {
        return false;
    }
    if cpu.held {
        return false;
    }
    interrupt(cpu, board).is_none()
}

/// The vector of the interrupt that the processor takes after an edge of the timer.
fn interrupt_after_edge(cpu: &Cpu, board: &Board) -> Option<u8>
    ensures { result ≡ interrupt_of cpu.now (with_timer_edge board.now) }
{
    let enabled = cpu.regs.flags.bits / 512 % 2 == 1;
    if enabled && !cpu.held {
        board.pending_after_edge()
    } else {
        None
    }
}

/// How many steps, up to a number, pass before an edge or an event can come. The events of the step before were given.
fn quiet_steps(board: &Board, script: &Script, step: u64, most: u64) -> u64
    requires script { is_script script.now.list ≡ true }
    requires begun { 0 < step }
    ensures most { result ≤ most }
    ensures quiet { 0 < result → comes_within board.now script.now.list (step - 1) result ≡ false }
    // Fewer than that number only where something comes in the next step.
    ensures furthest { result < most → comes_within board.now script.now.list (step - 1) (result + 1) ≡ true }
{
    match board.next_event(script, step - 1) {
        None => most,
        Some(next) => most.min(next.saturating_sub(1)),
    }
}

/// How many steps, up to a number, pass before an event comes. Those of the step before were given.
fn steps_without_event(script: &Script, step: u64, most: u64) -> u64
    requires script { is_script script.now.list ≡ true }
    requires begun { 0 < step }
    ensures most { result ≤ most }
    ensures none { 0 < result → event_within (step - 1) result script.now.list ≡ false }
    // Fewer than that number only where one comes in the next step.
    ensures furthest { result < most → event_within (step - 1) (result + 1) script.now.list ≡ true }
{
    match steps_to_event(script.list.as_slice(), step - 1) {
        None => most,
        Some(next) => most.min(next.saturating_sub(1)),
    }
}

/// How many steps, up to a number, a halted processor waits: until an event can come, or an edge that can wake it. One that isn't
/// halted, or that an interrupt wakes, waits for none. The events of the step before were given.
#[inline(always)]
pub fn resting_steps(cpu: &Cpu, board: &Board, script: &Script, step: u64, most: u64) -> u64
    requires script { is_script script.now.list ≡ true }
    requires begun { 0 < step }
    ensures most { result ≤ most }
    ensures held { 0 < result → cpu.now.held ≡ false }
    ensures sleeps { 0 < result → SleepsThrough cpu.now board.now script.now.list (step - 1) result }
    // Fewer than that number only where something comes in the next step.
    ensures furthest { cpu.now.halted ≡ true → cpu.now.held ≡ false → interrupt_of cpu.now board.now ≡ None → result < most
        → comes_within board.now script.now.list (step - 1) (result + 1) ≡ true }
    // An edge that doesn't wake it ends nothing.
    ensures past_edges { cpu.now.halted ≡ true → cpu.now.held ≡ false → interrupt_of cpu.now board.now ≡ None
        → interrupt_of cpu.now (with_timer_edge board.now) ≡ None → result < most
        → event_within (step - 1) (result + 1) script.now.list ≡ true }
{
    if !is_resting(cpu, board) {
        return 0;
    }
    halted_steps_rest();
    if interrupt_after_edge(cpu, board).is_none() {
        return steps_without_event(script, step, most);
    }
    quiet_steps(board, script, step, most)
}
