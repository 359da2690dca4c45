//! The forms `state`, `walk` and `memory`: the machine before steps of a run.

ghost use Rattle.std.specs.Prelude.{◌≡◌, ◌++◌, ◌≤◌, ◌<◌, ℕ, List, true, IfOk, IfErr, OnOk};
ghost use Rattle.board.specs.ScriptForm.{is_script};
ghost use Rattle.image_load.specs.Boot.{need};
ghost use Rattle.wedge_core.specs.Counts.{Counts as HostCounts};
ghost use Rattle.pv_build.specs.Lines.{too_small_line};
ghost use Rattle.pv_build.specs.Telling.{RefusesAs, Says};
ghost use Rattle.pv_tasks.specs.Beside.{beside};
ghost use Rattle.pv_tasks.specs.Faulting.{FaultsEnd};
ghost use Rattle.pv_tasks.specs.Tasks.{Means, FaultCounts};
ghost use Rattle.look_words.specs.View.{aspect_view, run_view, IsAspect, IsRun, AreSteps};
ghost use Rattle.pv_look.specs.Before.{LookAs, ShowsEach, before_task, end_part};
ghost use Rattle.pv_look.specs.Onward.{watch_bare};
ghost use Rattle.pv_build.specs.Statuses.{status_of};
ghost use Rattle.run_trace.specs.Text.{end_line};

use crate::onward::add_moments;
use bare_machine::Bare;
use ia32_types::Stop;
use image_load::StartFault;
use look_words::{Aspect, LookedRun, Steps};
use pv_build::{
    Halt, Line, Runnable, Status, end, print, refused, runnable_in_files, too_small_line,
};
use pv_io::{Files, MemSink, Sink};
use run_trace::{End, Ended, Pause, put_end};
use std::alloc::Global;
use xlate_buffer::Buffer;

/// The text of a run's states before the steps that are asked for, or the stop of a run before one of them.
#[derive(Drop)]
pub enum Sight {
    Whole(Vec<u8>),
    Stopped { steps: u64, stop: Stop },
}

/// Runs an image from its start, and looks at it before each of these steps below a bound, and at the bound in place of the
/// first that isn't.
fn look_at(
    alloc: Global,
    found: &Runnable,
    frames: u32,
    steps: &[u64],
    bound: u64,
    aspect: Aspect,
) -> Result<Sight, Halt>
    requires frames { (2048 ≤ frames) × (frames ≤ 16384) }
    requires script { is_script found.now.script.list ≡ true }
    requires steps { AreSteps steps.now }
    requires aspect { IsAspect aspect }
    ensures fits { IfOk result (λ sight. need found.now.image ≤ frames) }
    ensures look { IfOk result (LookAs (watch_bare found.now.image found.now.script.list frames (aspect_view aspect)) bound steps.now) }
    ensures refused { IfErr result (RefusesAs (λ line. (frames < need found.now.image)
        × (line ≡ too_small_line (need found.now.image) frames))) }
{
    match Bare::start(alloc, &found.image, frames, Buffer::new()) {
        Err(StartFault::TooSmall(small)) => Err(refused(too_small_line(alloc, small))),
        Err(StartFault::Memory) => Err(Halt::Memory),
        Ok(machine) => {
            let mut machine = machine;
            let mut text = Vec::new(alloc);
            match add_moments(&mut machine, &found.script, steps, bound, aspect, &mut text) {
                Err(_) => Err(Halt::Memory),
                Ok(pause) => match pause {
                    Pause::Reached => Ok(Sight::Whole(text)),
                    Pause::Stopped(stop) => Ok(Sight::Stopped {
                        steps: machine.step(),
                        stop,
                    }),
                },
            }
        }
    }
}

/// Puts the last line of a run that stopped.
fn add_stop(alloc: Global, steps: u64, stop: Stop, text: &mut Vec<u8>) -> Result<(), Halt>
    ensures ok { OnOk result (text.new.items ≡ text.old.items ++ end_line steps (End.Stopped stop)) }
    ensures halts { IfErr result (λ h. h ≡ Halt.Memory) }
{
    let mut line = MemSink::new(alloc, 128, Vec::new(alloc))?;
    let ended = Ended {
        steps,
        end: End::Stopped(stop),
        fills: 0,
    };
    match put_end(&ended, &mut line) {
        Err(_) => return Err(Halt::Memory),
        Ok(()) => {}
    }
    text.extend_from_slice(line.bytes())?;
    Ok(())
}

/// The last line of a run that stopped there; of another nothing.
fn add_end(alloc: Global, steps: u64, end: End, text: &mut Vec<u8>) -> Result<(), Halt>
    ensures ok { OnOk result (text.new.items ≡ text.old.items ++ end_part steps end) }
    ensures halts { IfErr result (λ h. h ≡ Halt.Memory) }
{
    match end {
        End::Bound => Ok(()),
        End::Stopped(stop) => add_stop(alloc, steps, stop, text),
    }
}

/// What is printed of a run, and how the run ended.
#[derive(Drop)]
struct Shown {
    text: Vec<u8>,
    end: End,
}

/// After a stop the memory isn't what it was before the step: so the run is made again up to that step, and all that is shown is
/// of the second time.
fn look_through(
    alloc: Global,
    found: &Runnable,
    frames: u32,
    steps: &[u64],
    aspect: Aspect,
) -> Result<Shown, Halt>
    requires frames { (2048 ≤ frames) × (frames ≤ 16384) }
    requires script { is_script found.now.script.list ≡ true }
    requires steps { AreSteps steps.now }
    requires aspect { IsAspect aspect }
    ensures fits { IfOk result (λ shown. need found.now.image ≤ frames) }
    ensures shows { IfOk result (λ shown.
        ShowsEach (watch_bare found.now.image found.now.script.list frames (aspect_view aspect)) steps.now shown.text.items shown.end) }
    ensures refused { IfErr result (RefusesAs (λ line. (frames < need found.now.image)
        × (line ≡ too_small_line (need found.now.image) frames))) }
{
    let mut bound = u64::MAX;
    let mut end = End::Bound;
    loop {
        match look_at(alloc, found, frames, steps, bound, aspect)? {
            Sight::Stopped {
                steps: earlier,
                stop,
            } => {
                bound = earlier;
                end = End::Stopped(stop);
            }
            Sight::Whole(text) => {
                let mut text = text;
                add_end(alloc, bound, end, &mut text)?;
                return Ok(Shown { text, end });
            }
        }
    }
}

fn status_of(end: End) -> Status
    ensures { result ≡ status_of end }
{
    match end {
        End::Bound => Status::Done,
        End::Stopped(_) => Status::Stopped,
    }
}

/// Prints what is asked of the machine before steps of a run, or why there is no run.
pub fn before<F: Files, S: Sink>(
    alloc: Global,
    run: LookedRun<'_>,
    steps: &Steps,
    aspect: Aspect,
    files: &mut F,
    out: &mut S,
) -> Status
    requires run { IsRun run }
    requires steps { AreSteps steps.now.items }
    requires aspect { IsAspect aspect }
    ensures meaning { (completed : HostCounts) (memory : List ℕ)
        → Means (before_task (run_view run.entry) steps.now.items (aspect_view aspect))
        (beside F.Files S.Sink (files.old, files.new) (out.old, out.new) completed memory) result }
    ensures counts { (completed : HostCounts) (memory : List ℕ)
        → FaultCounts (before_task (run_view run.entry) steps.now.items (aspect_view aspect))
        (beside F.Files S.Sink (files.old, files.new) (out.old, out.new) completed memory) }
    ensures ends { FaultsEnd F.Files S.Sink (files.old, files.new) (out.old, out.new) result }
{
    match runnable_in_files(alloc, run.image, run.script, files) {
        Err(halt) => end(&halt, out),
        Ok(found) => match look_through(alloc, &found, run.frames, steps.as_slice(), aspect) {
            Err(halt) => end(&halt, out),
            Ok(shown) => print_shown(shown, out),
        },
    }
}

fn print_shown<S: Sink>(shown: Shown, out: &mut S) -> Status
    ensures { Says shown.text.items (status_of shown.end) (S.taken out.old) (S.taken out.new) (S.faults out.old) (S.faults out.new) result }
{
    let status = status_of(shown.end);
    let line = Line { bytes: shown.text };
    print(&line, status, out)
}
