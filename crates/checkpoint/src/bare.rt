//! The bare machine from a checkpoint's state, and back.

ghost use Rattle.std.specs.Prelude.{◌≡◌, ◌*◌, ◌≤◌, ◌^◌, length};
ghost use Rattle.std.specs.FinMap.{empty};
ghost use Rattle.machine_model.specs.Fit.{Fit};
ghost use Rattle.bare_machine.specs.Machine.{state_of, IsKept};
ghost use Rattle.checkpoint.specs.InForm.{IsInForm};
ghost use Rattle.checkpoint.specs.Moved.{rested_from, kept_of};

use crate::state::State;
use bare_machine::{Bare, BareMachine};
use xlate_buffer::Cache;

/// The bare machine in a checkpoint's state, with nothing cached. One slice then leads to any later count of steps.
pub fn bare_from<C: Cache>(state: State, cache: C) -> Bare<C>
    requires form { IsInForm state }
    requires empty { C.entries cache ≡ empty }
    ensures state { state_of C.entries result ≡ rested_from state }
    ensures frames { 4096 * result.frames ≡ length state.ram }
    ensures size { length result.ram ≡ 4096 * result.frames }
    ensures kept { IsKept result.frames (state_of C.entries result) }
    ensures fit { Fit result.cpu }
    ensures exact { C.is_exact result.kept.cache ≡ C.is_exact cache }
{
    let State {
        cpu,
        board,
        step,
        ram,
    } = state;
    Bare::adopt(cpu, board, step, ram, cache)
}

/// The state of a bare machine, as a checkpoint keeps it.
pub fn state_of_bare<C: Cache>(machine: Bare<C>) -> State
    requires fit { Fit machine.cpu }
    requires frames { (2048 ≤ machine.frames) × (machine.frames ≤ 16384) }
    requires size { length machine.ram ≡ 4096 * machine.frames }
    requires step { machine.step ≤ 2 ^ 40 }
    ensures state { result ≡ kept_of (state_of C.entries machine) }
    ensures form { IsInForm result }
{
    let BareMachine {
        cpu,
        ram,
        kept: _,
        board,
        step,
        frames: _,
    } = machine.into_machine();
    State {
        cpu,
        board,
        step,
        ram,
    }
}
