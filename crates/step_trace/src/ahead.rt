//! What the processor is about to do, found at as little cost as may be.

ghost use Rattle.std.specs.Prelude.{◌≡◌, ◌*◌, ◌≤◌, length, true, Some, IfSome};
ghost use Rattle.board.specs.Boards.{given};
ghost use Rattle.board.specs.ScriptForm.{is_script};
ghost use Rattle.ia32_decode.specs.Decoding.{decoded};
ghost use Rattle.ia32_rows.specs.Spells.{AreBytes};
ghost use Rattle.image_check.specs.Image.{Image};
ghost use Rattle.step_mem.specs.Changes.{AreWithin};
ghost use Rattle.linear_view.specs.View.{view_of};
ghost use Rattle.linear_view.specs.Instruction.{instruction_at};
ghost use Rattle.machine_model.specs.Step.{interrupt_of};
ghost use Rattle.bare_machine.specs.Events.{NoneComes};
ghost use Rattle.bare_machine.specs.Machine.{state_of, IsKept};
ghost use Rattle.bare_machine.specs.Settings.{bare};
ghost use Rattle.step_trace.specs.Ahead as spec;
ghost use Rattle.step_trace.specs.Doing as doing;

use crate::doing::carried_out;
use bare_machine::Bare;
use board::{Board, Script};
use descriptors::{Cpu, EFLAGS_IF};
use guest_ram::Ram;
use ia32_decode::{Decoded, LONGEST, decode, front_len};
use linear_view::{instruction_at, page_bytes};
use machine_step::interrupt;
use step_text::Activity;
use xlate_buffer::Cache;

/// What the processor is about to do, which is told whatever becomes of memory.
#[derive(Clone, Copy)]
pub enum Ahead {
    Does(Activity),
    /// It carries out the instruction that begins these bytes, which stand at EIP: no instruction has more.
    Reads([u8; 11]),
}

impl Ahead {
    /// What it does.
    pub fn told(&self) -> Activity
        ensures { result ≡ spec.told self.now }
    {
        match self {
            Ahead::Does(activity) => *activity,
            Ahead::Reads(bytes) => carried_out(Some(decode(bytes))),
        }
    }
}

/// A second board, equal to this one.
fn copied(board: &Board) -> Board
    ensures { result ≡ board.now }
{
    match Board::restore(&board.save()) {
        Some(copy) => copy,
        None => unreachable!(),
    }
}

/// The interrupt that the processor takes in a step, when the script's events of the step have come. None comes before the step `next`.
fn taken_in(cpu: &Cpu, board: &Board, script: &Script, step: u64, next: u64) -> Option<u8>
    requires script { is_script script.now.list ≡ true }
    requires none { NoneComes script.now.list step next }
    ensures { result ≡ interrupt_of cpu.now (given board.now script.now.list step) }
{
    let enabled = cpu.regs.flags.bits / EFLAGS_IF % 2 == 1;
    if !enabled || cpu.held {
        return None;
    }
    if step < next {
        return interrupt(cpu, board);
    }
    let mut then = copied(board);
    then.begin(script, step);
    interrupt(cpu, &then)
}

fn eleven(bytes: &[u8]) -> [u8; 11]
    requires { length bytes.now ≡ 11 }
    ensures copy { result ≡ bytes.now }
    ensures fit { AreBytes bytes.now }
{
    let mut copy = [0; 11];
    copy.copy_from_slice(bytes);
    copy
}

/// What the processor does in the next step. No event of the script comes before the step `next`.
#[tactic(auto, unfolding(crate::specs::Doing::activity_of))]
pub fn activity_of<C: Cache>(machine: &Bare<C>, script: &Script, next: u64) -> Activity
    requires script { is_script script.now.list ≡ true }
    requires none { NoneComes script.now.list machine.now.step next }
    requires kept { IsKept machine.now.frames (state_of C.entries machine.now) }
    ensures { (image : Image) → result
        ≡ doing.activity_of (bare image script.now.list machine.now.frames) (state_of C.entries machine.now) }
{
    let cpu = machine.cpu();
    if let Some(vector) = taken_in(cpu, machine.board(), script, machine.step(), next) {
        return Activity::Takes(vector);
    }
    if cpu.halted {
        return Activity::Waits;
    }
    let eip = cpu.regs.eip;
    carried_out(instruction_at(machine.ram(), machine.frames(), cpu, machine.cache(), eip))
}

/// The bytes at an address that may be those of an instruction, where all lie in its page and it has a translation.
fn whole_bytes<C: Cache>(ram: &Ram, frames: u32, cpu: &Cpu, cache: &C, at: u32) -> Option<[u8; 11]>
    requires frames { 4096 * frames ≤ length ram.now }
    requires inside { AreWithin frames (C.entries cache.now) }
    ensures { IfSome result (λ bytes. Some (decoded bytes) ≡ instruction_at (view_of ram.now frames cpu.now (C.entries cache.now)) at) }
{
    if front_len(at) < LONGEST {
        return None;
    }
    match page_bytes(ram, frames, cpu, cache, at, LONGEST) {
        None => None,
        Some(front) => Some(eleven(front)),
    }
}

/// The bytes at EIP, where the processor carries out the instruction that begins them. Where there are none
/// it may carry out one too. No event of the script comes before the step `next`.
#[tactic(auto, unfolding(crate::specs::Doing::activity_of))]
pub fn bytes_ahead<C: Cache>(machine: &Bare<C>, script: &Script, next: u64) -> Option<[u8; 11]>
    requires script { is_script script.now.list ≡ true }
    requires none { NoneComes script.now.list machine.now.step next }
    requires kept { IsKept machine.now.frames (state_of C.entries machine.now) }
    ensures { IfSome result (λ bytes. (image : Image) → spec.told (Ahead.Reads bytes)
        ≡ doing.activity_of (bare image script.now.list machine.now.frames) (state_of C.entries machine.now)) }
{
    let cpu = machine.cpu();
    if cpu.halted || taken_in(cpu, machine.board(), script, machine.step(), next).is_some() {
        return None;
    }
    whole_bytes(
        machine.ram(),
        machine.frames(),
        cpu,
        machine.cache(),
        cpu.regs.eip,
    )
}
