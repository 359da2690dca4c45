//! The bare machine and one step of it.

ghost use Rattle.std.specs.Prelude.{◌≡◌, ◌+◌, ◌*◌, ◌≤◌, ◌<◌, ◌^◌, length, true, IfOk, OnOk, OnErr, MatchResult};
ghost use Rattle.board.specs.Scripts.{Events};
ghost use Rattle.board.specs.ScriptForm.{is_script};
ghost use Rattle.image_check.specs.Image.{Image};
ghost use Rattle.step_mem.specs.Changes.{AreToldIn, AreWithin, changed};
ghost use Rattle.step_mem.specs.Sound.{space};
ghost use Rattle.machine_model.specs.State.{State};
ghost use Rattle.machine_step.specs.Worked.{IsDropped, answer_of};
ghost use Rattle.bare_machine.specs.Machine.{state_of, IsKept, GoesOn};
ghost use Rattle.bare_machine.specs.Once.{taken_in};
ghost use Rattle.bare_machine.specs.Stepping.{ComesAs, StopLeaves, WorksAs};
ghost use Rattle.bare_machine.specs.Settings.{bare};
ghost use Rattle.bare_machine.specs.Events.{NoneComes};

use crate::events::begin;
use crate::finish::finish_step;
use bare_mem::Cached;
use board::{Board, Script};
use descriptors::Cpu;
use guest_ram::Ram;
use ia32_types::Stop;
use machine_step::{NO_BYTES, Rules, Seen, Worked};
use step_mem::{Guard, StepState, Text};
use xlate_buffer::Cache;

/// What a bare machine is made of: processor, memory, cached translations, board, the count of steps, and how many frames
/// the memory has.
#[derive(Drop)]
pub struct BareMachine<C: Cache> {
    pub cpu: Cpu,
    pub ram: Ram,
    pub kept: Cached<C>,
    pub board: Board,
    pub step: u64,
    pub frames: u32,
}

/// The bare machine keeps no text from the guest.
pub static NO_TEXT: Option<Text<'static>> = None;

/// One step, or the stop that it meets. No event of the script comes before the step `next`. Its state and its outcome take the
/// places of the step's before. After a stop the machine must not go on.
#[tactic(auto, unfolding(machine_model::specs::Step::step_of))]
#[inline(always)]
pub fn step<C: Cache>(
    machine: &mut BareMachine<C>,
    script: &Script,
    next: &mut u64,
    state: &mut StepState<'static>,
    worked: &mut Worked,
) -> Result<Seen, Stop>
    requires script { is_script script.now.list ≡ true }
    requires kept { IsKept machine.old.frames (state_of C.entries machine.old) }
    requires bound { machine.old.step < 2 ^ 40 }
    requires none { NoneComes script.now.list machine.old.step next.old }
    requires same { worked.old.cpu ≡ machine.old.cpu }
    ensures same { OnOk result (worked.new.cpu ≡ machine.new.cpu) }
    ensures none { NoneComes script.now.list (machine.old.step + 1) next.new }
    ensures comes { (image : Image) → ComesAs C.keeping (bare image script.now.list machine.old.frames)
        (C.is_exact machine.old.kept.cache) (state_of C.entries machine.old) (state_of C.entries machine.new)
        worked.new.raised result }
    ensures count { MatchResult result (λ _. machine.new.step ≡ machine.old.step + 1) (λ _. machine.new.step ≡ machine.old.step) }
    ensures goes_on { OnOk result (GoesOn C.entries C.is_exact machine.old machine.new) }
    ensures stops { OnErr result ((image : Image) → StopLeaves C.entries (bare image script.now.list machine.old.frames)
        (space ⟦<Cached<C> as step_mem::Translations>⟧ machine.new.kept machine.new.ram state.new) machine.old machine.new) }
{
    begin(&mut machine.board, script, machine.step, next);
    let result = tried(
        worked,
        &mut machine.board,
        &mut machine.ram,
        &machine.kept,
        machine.frames,
        state,
    );
    match result {
        Ok(()) => {
            finish_step(
                machine,
                &worked.cpu,
                &state.changes,
                &state.visited,
                worked.dropped,
            );
            Ok(worked.seen)
        }
        Err(stop) => Err(stop),
    }
}

/// The outcome of a step, by no rules and over no text that is kept from the guest. Its translations are still to be kept.
fn tried<C: Cache>(
    worked: &mut Worked,
    board: &mut Board,
    ram: &mut Ram,
    kept: &Cached<C>,
    frames: u32,
    state: &mut StepState<'static>,
) -> Result<(), Stop>
    requires ram { 4096 * frames ≤ length ram.old }
    requires within { AreWithin frames (C.entries kept.now.cache) }
    ensures size { length ram.new ≡ length ram.old }
    ensures within { AreWithin frames (changed (C.entries kept.now.cache) state.new.changes) }
    ensures page { IfOk (answer_of result worked.new) (λ w. IsDropped w.dropped) }
    ensures told { AreToldIn state.new.visited state.new.changes }
    ensures few { length state.new.visited ≤ 64 }
    ensures memory { (space ⟦<Cached<C> as step_mem::Translations>⟧ kept.now ram.new state.new).ram ≡ ram.new }
    ensures works { (image : Image) (script : Events) (b : State) → WorksAs (bare image script frames) b
        (record b { cpu = worked.old.cpu; ram = ram.old; set = C.entries kept.now.cache; board = board.old })
        worked.new result board.new (space ⟦<Cached<C> as step_mem::Translations>⟧ kept.now ram.new state.new) }
    ensures stopped { OnErr result (board.new ≡ taken_in worked.old.cpu board.old) }
{
    let _len = ram.len();
    let guard = Guard {
        text: &NO_TEXT,
        own: NO_BYTES,
    };
    let rules = Rules { image: None };
    machine_step::step_again(&rules, worked, board, ram, kept, frames, guard, state)
}
