//! One step by itself, of which the caller puts what was seen.

ghost use Rattle.std.specs.Prelude.{◌≡◌, ℕ, ◌+◌, ◌≤◌, ◌<◌, ◌^◌, length, true, List, OnOk};
ghost use Rattle.std.specs.FinMap.{get};
ghost use Rattle.board.specs.ScriptForm.{is_script};
ghost use Rattle.board.specs.Scripts.{Events};
ghost use Rattle.image_check.specs.Image.{Image};
ghost use Rattle.step_mem.specs.Changes.{changed};
ghost use Rattle.step_mem.specs.Sound.{space};
ghost use Rattle.machine_model.specs.Fit.{Fit};
ghost use Rattle.machine_step.specs.Left.{denied_page};
ghost use Rattle.bare_machine.specs.Events.{NoneComes};
ghost use Rattle.bare_machine.specs.Machine.{state_of, IsKept, GoesOn};
ghost use Rattle.bare_machine.specs.Once.{OnceAs};
ghost use Rattle.bare_machine.specs.Settings.{bare};
ghost use Rattle.bare_machine.specs.Stepping.{StaysWide};

use crate::machine::{BareMachine, NO_TEXT, step};
use crate::slice::segment_count;
use bare_mem::Cached;
use board::Script;
use descriptors::Cpu;
use ia32_types::Stop;
use machine_model::runs_keep_fit;
use machine_step::{Raised, Seen, Worked, first_state};
use paging::Entry;
use step_mem::{Changes, StepState, last_change};
use xlate_buffer::Cache;

/// What was seen in a step, and what it raised.
#[derive(Clone, Copy)]
pub struct Stepped {
    pub seen: Seen,
    pub raised: Option<Raised>,
}

/// Why a step stops, and what it raised before: the vector whose delivery stops. Where it stops at an access to a page, or at
/// a page fault of a delivery, the page's number.
#[derive(Clone, Copy)]
pub struct StepStop {
    pub stop: Stop,
    pub raised: Option<Raised>,
    pub page: Option<u32>,
}

/// The translation of a page after the changes of a step.
#[tactic(auto, using(step_mem::proofs::Changed::get_changed))]
fn entry_after<C: Cache>(kept: &Cached<C>, changes: &Changes, page: u32) -> Option<Entry>
    ensures { result ≡ get (changed (C.entries kept.now.cache) changes.now) page }
{
    match last_change(changes.as_slice(), page) {
        Some(entry) => entry,
        None => kept.cache.find(page),
    }
}

/// The page of the last access of a step, where it has no translation after it.
fn denied_page<C: Cache>(kept: &Cached<C>, state: &StepState) -> Option<u32>
    ensures { (ram : List ℕ) → result ≡ denied_page (space ⟦<Cached<C> as step_mem::Translations>⟧ kept.now ram state.now) }
{
    match state.visited.as_slice().last() {
        None => None,
        Some(page) => {
            if entry_after(kept, &state.changes, *page).is_none() {
                Some(*page)
            } else {
                None
            }
        }
    }
}

/// Where steps by themselves are worked out, each in the place of the one before it, so that nothing is made anew for each.
#[derive(Drop)]
pub struct StepRoom {
    state: StepState<'static>,
    worked: Worked,
    /// No event of the script comes before this step.
    pub next: u64,
}

impl StepRoom {
    /// A room before the first step that is worked out in it.
    pub fn new(cpu: &Cpu) -> StepRoom
        ensures { (script : Events) (step : ℕ) → NoneComes script step result.next }
    {
        StepRoom {
            state: first_state(&NO_TEXT),
            worked: Worked::at(cpu),
            next: 0,
        }
    }
}

/// One step, or the stop that it meets. Nothing is put. After a stop the machine must not go on.
pub fn one_step<C: Cache>(
    machine: &mut BareMachine<C>,
    script: &Script,
    room: &mut StepRoom,
) -> Result<Stepped, StepStop>
    requires script { is_script script.now.list ≡ true }
    requires kept { IsKept machine.old.frames (state_of C.entries machine.old) }
    requires bound { machine.old.step < 2 ^ 40 }
    requires none { NoneComes script.now.list machine.old.step room.old.next }
    ensures none { NoneComes script.now.list (machine.old.step + 1) room.new.next }
    ensures once { (image : Image) → OnceAs C.keeping
        (bare image script.now.list machine.old.frames) (C.is_exact machine.old.kept.cache)
        (state_of C.entries machine.old) (state_of C.entries machine.new) result }
    ensures goes_on { OnOk result (GoesOn C.entries C.is_exact machine.old machine.new) }
    ensures fit { Fit machine.old.cpu → OnOk result (Fit machine.new.cpu) }
    ensures wide { StaysWide machine.old machine.new }
{
    runs_keep_fit();
    segment_count(&machine.cpu.seg);
    room.worked.cpu = machine.cpu;
    let mut next = room.next;
    let result = step(
        machine,
        script,
        &mut next,
        &mut room.state,
        &mut room.worked,
    );
    room.next = next;
    let raised = room.worked.raised;
    match result {
        Err(stop) => {
            let page = denied_page(&machine.kept, &room.state);
            Err(StepStop { stop, raised, page })
        }
        Ok(seen) => Ok(Stepped { seen, raised }),
    }
}
