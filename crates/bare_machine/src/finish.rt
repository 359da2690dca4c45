//! The end of a step that concluded.

ghost use Rattle.std.specs.Prelude.{◌≡◌, ◌+◌, ◌*◌, ◌<◌, ◌≤◌, ◌^◌, length, List, Option};
ghost use Rattle.paging.specs.Space.{Space};
ghost use Rattle.step_mem.specs.Changes.{AreToldIn, AreWithin, changed};
ghost use Rattle.machine_model.specs.Step.{Completed, concluded};
ghost use Rattle.machine_step.specs.Worked.{dropping, IsDropped};
ghost use Rattle.run_trace.specs.declared.items.What.{What as Shown};
ghost use Rattle.bare_machine.specs.Buffered.{LedTo, kept_by};
ghost use Rattle.bare_machine.specs.Machine.{state_of, Goes, GoesOn};

use crate::left::leave;
use crate::machine::BareMachine;
use descriptors::Cpu;
use machine_step::Dropped;
use step_mem::{Changes, Visited};
use xlate_buffer::Cache;

/// The end of a step that concluded: what it changed of the translations is kept, the count rises, and the board advances.
#[inline(always)]
pub fn finish_step<C: Cache>(
    machine: &mut BareMachine<C>,
    cpu: &Cpu,
    changes: &Changes,
    pages: &Visited,
    dropped: Dropped,
)
    requires bound { machine.old.step < 2 ^ 40 }
    requires ram { 4096 * machine.old.frames ≤ length machine.old.ram }
    requires within { AreWithin machine.old.frames (changed (C.entries machine.old.kept.cache) changes.now) }
    requires page { IsDropped dropped }
    requires told { AreToldIn pages.now changes.now }
    requires few { length pages.now ≤ 64 }
    ensures goes { (whats : List Shown) (completed : Option Completed) (s : Space) → s.ram ≡ machine.old.ram
        → s.set ≡ dropping dropped (changed (C.entries machine.old.kept.cache) changes.now)
        → Goes (concluded whats completed (state_of C.entries machine.old) cpu.now machine.old.board s)
        machine.old.step whats (C.is_exact machine.old.kept.cache) (state_of C.entries machine.new) }
    ensures kept { (whats : List Shown) (completed : Option Completed) (s : Space) → s.ram ≡ machine.old.ram
        → s.visited ≡ pages.now → s.set ≡ dropping dropped (changed (C.entries machine.old.kept.cache) changes.now)
        → LedTo (kept_by C.keeping (C.entries machine.old.kept.cache)
        (concluded whats completed (state_of C.entries machine.old) cpu.now machine.old.board s))
        machine.old.step whats (state_of C.entries machine.new) }
    ensures goes_on { GoesOn C.entries C.is_exact machine.old machine.new }
    ensures cpu { machine.new.cpu ≡ cpu.now }
    ensures count { machine.new.step ≡ machine.old.step + 1 }
{
    leave(&mut machine.kept, changes, pages, dropped);
    machine.cpu = *cpu;
    machine.step += 1;
    machine.board.advance(1);
}
