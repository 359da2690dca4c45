//! One step with its lines.

ghost use Rattle.std.specs.Prelude.{◌≡◌, ◌+◌, ◌<◌, ◌^◌, true, false, OnOk, OnErr};
ghost use Rattle.board.specs.ScriptForm.{is_script};
ghost use Rattle.image_check.specs.Image.{Image};
ghost use Rattle.pv_io.specs.Causes.{Rose};
ghost use Rattle.run_trace.specs.Pauses.{IfReached};
ghost use Rattle.bare_machine.specs.Events.{NoneComes};
ghost use Rattle.bare_machine.specs.Machine.{state_of, IsKept, GoesOn};
ghost use Rattle.bare_machine.specs.Settings.{bare};
ghost use Rattle.look_words.specs.View.{only_view};
ghost use Rattle.look_words.specs.Words.{Only as Asked};
ghost use Rattle.step_trace.specs.Ahead.{told};
ghost use Rattle.step_trace.specs.Answers.{StepPuts};
ghost use Rattle.step_trace.specs.Before.{IsFound, IsWithin};
ghost use Rattle.step_trace.specs.Doing.{activity_of, view_before};
ghost use Rattle.step_trace.specs.Lines.{is_printed};

use crate::ahead::{Ahead, activity_of, bytes_ahead};
use crate::printed::{Before, before_printed, put_line, put_stop};
use crate::wanted::is_passed_by;
use bare_machine::{Bare, StepRoom};
use board::Script;
use look_words::Only;
use machine_step::put_seen;
use pv_io::{Failed, Sink};
use run_trace::Pause;
use xlate_buffer::Cache;

/// One step, and its lines, or the line of a step that stops.
pub fn step_on<C: Cache, O: Sink>(
    machine: &mut Bare<C>,
    script: &Script,
    room: &mut StepRoom,
    from: u64,
    only: &Only,
    out: &mut O,
) -> Result<Pause, Failed>
    requires script { is_script script.now.list ≡ true }
    requires kept { IsKept machine.old.frames (state_of C.entries machine.old) }
    requires bound { machine.old.step < 2 ^ 40 }
    requires none { NoneComes script.now.list machine.old.step room.old.next }
    ensures puts { (image : Image) → StepPuts C.keeping (bare image script.now.list machine.old.frames) from (only_view only.now)
        (state_of C.entries machine.old) (state_of C.entries machine.new) (O.taken out.old) (O.taken out.new) result }
    ensures none { NoneComes script.now.list (machine.old.step + 1) room.new.next }
    ensures goes_on { IfReached result (GoesOn C.entries C.is_exact machine.old machine.new) }
    ensures count { IfReached result (machine.new.step ≡ machine.old.step + 1) }
    ensures kept { OnOk result (O.faults out.new ≡ O.faults out.old) }
    ensures cause { OnErr result (Rose (O.faults out.old) (O.faults out.new)) }
{
    if is_passed_by(only, machine.cpu().regs.eip) {
        if let Some(bytes) = bytes_ahead(machine, script, room.next) {
            return unprinted_step(&Ahead::Reads(bytes), machine, script, room, from, out);
        }
    }
    let does = activity_of(machine, script, room.next);
    match before_printed(machine, does, from, only) {
        None => unprinted_step(&Ahead::Does(does), machine, script, room, from, out),
        Some(before) => printed_step(&before, machine, script, room, from, only, out),
    }
}

/// A step of which this was found, and its lines.
fn printed_step<C: Cache, O: Sink>(
    before: &Before,
    machine: &mut Bare<C>,
    script: &Script,
    room: &mut StepRoom,
    from: u64,
    only: &Only,
    out: &mut O,
) -> Result<Pause, Failed>
    requires script { is_script script.now.list ≡ true }
    requires kept { IsKept machine.old.frames (state_of C.entries machine.old) }
    requires bound { machine.old.step < 2 ^ 40 }
    requires none { NoneComes script.now.list machine.old.step room.old.next }
    requires found { (image : Image) → IsFound
        (view_before (bare image script.now.list machine.old.frames) (state_of C.entries machine.old)) machine.old.step machine.old.cpu
        (activity_of (bare image script.now.list machine.old.frames) (state_of C.entries machine.old)) before.now }
    requires within { IsWithin machine.old.frames before.now }
    ensures puts { (image : Image) → StepPuts C.keeping (bare image script.now.list machine.old.frames) from (only_view only.now)
        (state_of C.entries machine.old) (state_of C.entries machine.new) (O.taken out.old) (O.taken out.new) result }
    ensures none { NoneComes script.now.list (machine.old.step + 1) room.new.next }
    ensures goes_on { IfReached result (GoesOn C.entries C.is_exact machine.old machine.new) }
    ensures count { IfReached result (machine.new.step ≡ machine.old.step + 1) }
    ensures kept { OnOk result (O.faults out.new ≡ O.faults out.old) }
    ensures cause { OnErr result (Rose (O.faults out.old) (O.faults out.new)) }
{
    let step = machine.step();
    match machine.step_once(script, room) {
        Err(stopped) => match put_stop(
            before.step,
            before.does,
            &before.cpu,
            stopped.raised,
            stopped.page,
            from,
            out,
        ) {
            Err(failed) => Err(failed),
            Ok(()) => Ok(Pause::Stopped(stopped.stop)),
        },
        Ok(done) => match put_line(before, done.raised, machine, from, only, out) {
            Err(failed) => Err(failed),
            Ok(()) => match put_seen(step, done.seen, out) {
                Err(failed) => Err(failed),
                Ok(()) => Ok(Pause::Reached),
            },
        },
    }
}

/// A step whose line isn't printed unless it stops, and the lines of its items. A step that stops leaves the processor and the count as
/// they were, but not the memory: what the processor is about to do is told by what was found before.
fn unprinted_step<C: Cache, O: Sink>(
    ahead: &Ahead,
    machine: &mut Bare<C>,
    script: &Script,
    room: &mut StepRoom,
    from: u64,
    out: &mut O,
) -> Result<Pause, Failed>
    requires script { is_script script.now.list ≡ true }
    requires kept { IsKept machine.old.frames (state_of C.entries machine.old) }
    requires bound { machine.old.step < 2 ^ 40 }
    requires none { NoneComes script.now.list machine.old.step room.old.next }
    requires told { (image : Image) → told ahead.now
        ≡ activity_of (bare image script.now.list machine.old.frames) (state_of C.entries machine.old) }
    ensures puts { (image : Image) (only : Asked)
        → is_printed (bare image script.now.list machine.old.frames) from only (state_of C.entries machine.old) ≡ false
        → StepPuts C.keeping (bare image script.now.list machine.old.frames) from only
        (state_of C.entries machine.old) (state_of C.entries machine.new) (O.taken out.old) (O.taken out.new) result }
    ensures none { NoneComes script.now.list (machine.old.step + 1) room.new.next }
    ensures goes_on { IfReached result (GoesOn C.entries C.is_exact machine.old machine.new) }
    ensures count { IfReached result (machine.new.step ≡ machine.old.step + 1) }
    ensures kept { OnOk result (O.faults out.new ≡ O.faults out.old) }
    ensures cause { OnErr result (Rose (O.faults out.old) (O.faults out.new)) }
{
    let step = machine.step();
    match machine.step_once(script, room) {
        Err(stopped) => match put_stop(
            step,
            ahead.told(),
            machine.cpu(),
            stopped.raised,
            stopped.page,
            from,
            out,
        ) {
            Err(failed) => Err(failed),
            Ok(()) => Ok(Pause::Stopped(stopped.stop)),
        },
        Ok(done) => match put_seen(step, done.seen, out) {
            Err(failed) => Err(failed),
            Ok(()) => Ok(Pause::Reached),
        },
    }
}
