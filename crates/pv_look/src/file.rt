//! The form `file`: the machine of a checkpoint.

ghost use Rattle.std.specs.Prelude.{◌≡◌, ℕ, List, Ok, IfOk, IfErr};
ghost use Rattle.pv_io.specs.Files.{Holds, IsHeld};
ghost use Rattle.wedge_core.specs.Counts.{Counts as HostCounts};
ghost use Rattle.checkpoint.specs.States.{checkpoint_in};
ghost use Rattle.checkpoint.specs.InForm.{IsInForm};
ghost use Rattle.pv_build.specs.Lines.{place_line};
ghost use Rattle.pv_build.specs.Readings.{OnlyRead};
ghost use Rattle.pv_build.specs.Failures.{NoneFailedIn};
ghost use Rattle.pv_build.specs.Telling.{HaltsOverFiles};
ghost use Rattle.pv_tasks.specs.Beside.{beside};
ghost use Rattle.pv_tasks.specs.Faulting.{FaultsEnd};
ghost use Rattle.pv_tasks.specs.Tasks.{Means, FaultCounts};
ghost use Rattle.look_words.specs.View.{aspect_view, IsAspect};
ghost use Rattle.pv_look.specs.Files.{HasState, HasNoState, state_in_text, no_checkpoint, file_task};

use crate::moments::add_moment;
use checkpoint::{CheckpointFault, State, bare_from, read_checkpoint};
use look_words::Aspect;
use pv_build::{Halt, Line, Status, end, load, place_line, print, refused};
use pv_io::{Files, Sink};
use std::alloc::{AllocError, Global};
use xlate_buffer::Buffer;

/// The number of a file that is no checkpoint.
const NO_CHECKPOINT: u32 = 110;

/// The state whose checkpoint a file is.
#[tactic(auto, using(pv_build::proofs::Failures::none_here, pv_build::proofs::Failures::none_since, pv_build::proofs::Failures::none_in))]
fn state_in<F: Files>(alloc: Global, name: &str, files: &mut F) -> Result<State, Halt>
    ensures state { IfOk result (λ state. HasState (F.held files.old) name.now state) }
    ensures form { IfOk result (λ state. IsInForm state) }
    ensures halted { IfErr result (HaltsOverFiles F.Files (IsHeld (F.held files.old) name.now) files.old files.new
        (λ line. (at : ℕ) × HasNoState (F.held files.old) name.now at × (line ≡ place_line no_checkpoint at))) }
    ensures read { OnlyRead F.Files (IsHeld (F.held files.old) name.now) files.old files.new }
    ensures kept { NoneFailedIn F.Files files.old files.new result }
{
    let file = load(alloc, name, files)?;
    match read_checkpoint(alloc, &file) {
        Ok(state) => Ok(state),
        Err(CheckpointFault::Memory) => Err(Halt::Memory),
        Err(CheckpointFault::At { at, .. }) => {
            Err(refused(place_line(alloc, NO_CHECKPOINT, at)))
        }
    }
}

fn state_text(alloc: Global, state: State, aspect: Aspect) -> Result<Line, AllocError>
    requires form { IsInForm state }
    requires aspect { IsAspect aspect }
    ensures { IfOk result (λ line. line ≡ state_in_text (aspect_view aspect) state) }
{
    let machine = bare_from(state, Buffer::new());
    let mut text = Vec::new(alloc);
    add_moment(&machine, aspect, &mut text)?;
    Ok(Line { bytes: text })
}

/// Prints what is asked of the machine of a checkpoint, or why the file is none.
pub fn of_file<F: Files, S: Sink>(
    alloc: Global,
    name: &str,
    aspect: Aspect,
    files: &mut F,
    out: &mut S,
) -> Status
    requires { IsAspect aspect }
    ensures meaning { (completed : HostCounts) (memory : List ℕ)
        → Means (file_task name.now (aspect_view aspect))
        (beside F.Files S.Sink (files.old, files.new) (out.old, out.new) completed memory) result }
    ensures counts { (completed : HostCounts) (memory : List ℕ)
        → FaultCounts (file_task name.now (aspect_view aspect))
        (beside F.Files S.Sink (files.old, files.new) (out.old, out.new) completed memory) }
    ensures ends { FaultsEnd F.Files S.Sink (files.old, files.new) (out.old, out.new) result }
{
    match state_in(alloc, name, files) {
        Err(halt) => end(&halt, out),
        Ok(state) => match state_text(alloc, state, aspect) {
            Err(_) => Status::Memory,
            Ok(line) => print(&line, Status::Done, out),
        },
    }
}
