//! Checkpoints, read from files with what goes on from them, and made as files.

ghost use Rattle.std.specs.Prelude.{◌≡◌, ◌≤◌, true, ℕ, List, IfOk, IfErr, Ok, Err, length};
ghost use Rattle.guest_ram.specs.Bytes.{part};
ghost use Rattle.ia32_types.specs.declared.addresses.TheConstants.{TEXT_PLACE};
ghost use Rattle.pv_io.specs.Files.{IsHeld};
ghost use Rattle.board.specs.ScriptForm.{is_script};
ghost use Rattle.machine_model.specs.Able.{IsAble};
ghost use Rattle.checkpoint.specs.States.{checkpoint_bytes, checkpoint_in};
ghost use Rattle.checkpoint.specs.InForm.{IsInForm};
ghost use Rattle.checkpoint.specs.Fits.{fits_of};
ghost use Rattle.pv_build.specs.Lines.{place_line};
ghost use Rattle.pv_build.specs.Readings.{OnlyRead};
ghost use Rattle.pv_build.specs.Failures.{NoneFailedIn};
ghost use Rattle.pv_build.specs.Telling.{HaltsOverFiles, RefusesAs};
ghost use Rattle.pv_build.specs.Images.{HasImage};
ghost use Rattle.pv_build.specs.Scripts.{HasScript};
ghost use Rattle.pv_save.specs.Checkpoints.{checkpoint_number, saved_line, HasState, FindsState};
ghost use Rattle.pv_save.specs.Unresumed.{HasNoState, NoResumption};

use board::Script;
use checkpoint::{
    CheckpointCause, CheckpointFault, State, fits, read_checkpoint, write_checkpoint,
};
use image_check::Checked;
use pv_build::{Halt, Line, Made, Runnable, load, place_line, refused, runnable_in_files};
use pv_io::Files;
use std::alloc::{AllocError, Global};

/// An accepted image, the script under which it is run, and a state from which it goes on.
#[derive(Drop)]
pub struct Resumable {
    pub image: Checked,
    pub script: Script,
    pub state: State,
}

/// The image, the script and the checkpoint that files hold, read in this order, where the checkpoint fits the image, the
/// machine and the count of steps.
#[tactic(auto, using(pv_build::proofs::Failures::none_here, pv_build::proofs::Failures::none_since, pv_build::proofs::Failures::none_in))]
pub fn resumable_in_files<F: Files>(
    alloc: Global,
    image: &str,
    script: &str,
    name: &str,
    wedge: bool,
    n: u64,
    files: &mut F,
) -> Result<Resumable, Halt>
    ensures image { IfOk result (λ found. HasImage (F.held files.old) image.now found.image) }
    ensures script { IfOk result (λ found. HasScript (F.held files.old) script.now found.script.list) }
    ensures form { IfOk result (λ found. is_script found.script.list ≡ true) }
    ensures state { IfOk result (λ found. HasState (F.held files.old) name.now found.state) }
    ensures state_form { IfOk result (λ found. IsInForm found.state) }
    ensures fits { IfOk result (λ found. fits_of found.state found.image wedge n ≡ Ok tt) }
    ensures text { IfOk result (λ found. part found.state.ram TEXT_PLACE (length found.image.text) ≡ found.image.text) }
    ensures steps { IfOk result (λ found. found.state.step ≤ n) }
    ensures able { IfOk result (λ found. wedge ≡ true → IsAble found.state.cpu) }
    ensures halted { IfErr result (HaltsOverFiles F.Files
        (FindsState (F.held files.old) image.now script.now name.now) files.old files.new
        (NoResumption (F.held files.old) image.now script.now name.now wedge n)) }
    ensures read { OnlyRead F.Files (FindsState (F.held files.old) image.now script.now name.now) files.old files.new }
    ensures kept { NoneFailedIn F.Files files.old files.new result }
{
    let found = runnable_in_files(alloc, image, script, files)?;
    let state = state_in(alloc, name, files)?;
    test_fit(alloc, &state, &found.image, wedge, n)?;
    let Runnable { image, script } = found;
    Ok(Resumable {
        image,
        script,
        state,
    })
}

// Says whether a state fits the image, the machine and the count of steps, and why not.
fn test_fit(alloc: Global, state: &State, image: &Checked, wedge: bool, n: u64) -> Result<(), Halt>
    requires { IsInForm state.now }
    ensures fits { IfOk result (λ _. fits_of state.now image.now wedge n ≡ Ok tt) }
    ensures text { IfOk result (λ _. part state.now.ram TEXT_PLACE (length image.now.text) ≡ image.now.text) }
    ensures steps { IfOk result (λ _. state.now.step ≤ n) }
    ensures able { IfOk result (λ _. wedge ≡ true → IsAble state.now.cpu) }
    ensures refused { IfErr result (RefusesAs (λ line. (at : ℕ) × (why : CheckpointCause)
        × (fits_of state.now image.now wedge n ≡ Err (at, why)) × (line ≡ place_line (checkpoint_number why) at))) }
{
    match fits(state, image, wedge, n) {
        Ok(()) => Ok(()),
        Err((at, cause)) => Err(refused(place_line(alloc, number_of_checkpoint(cause), at))),
    }
}

// The state whose checkpoint a file is.
#[tactic(auto, using(pv_build::proofs::Failures::none_here, pv_build::proofs::Failures::none_since, pv_build::proofs::Failures::none_in))]
fn state_in<F: Files>(alloc: Global, name: &str, files: &mut F) -> Result<State, Halt>
    ensures state { IfOk result (λ state. HasState (F.held files.old) name.now state) }
    ensures form { IfOk result (λ state. IsInForm state) }
    ensures halted { IfErr result (HaltsOverFiles F.Files (IsHeld (F.held files.old) name.now) files.old files.new
        (λ line. (at : ℕ) × HasNoState (F.held files.old) name.now at
        × (line ≡ place_line (checkpoint_number CheckpointCause.Form) at))) }
    ensures read { OnlyRead F.Files (IsHeld (F.held files.old) name.now) files.old files.new }
    ensures kept { NoneFailedIn F.Files files.old files.new result }
{
    let file = load(alloc, name, files)?;
    match read_checkpoint(alloc, &file) {
        Ok(state) => Ok(state),
        Err(CheckpointFault::Memory) => Err(Halt::Memory),
        Err(CheckpointFault::At { at, cause }) => {
            Err(refused(place_line(alloc, number_of_checkpoint(cause), at)))
        }
    }
}

/// The number of a cause for which a checkpoint isn't gone on from.
fn number_of_checkpoint(cause: CheckpointCause) -> u32
    ensures { result ≡ checkpoint_number cause }
{
    match cause {
        CheckpointCause::Form => 110,
        CheckpointCause::TextChanged => 111,
        CheckpointCause::UserFlags => 112,
        CheckpointCause::StepsPast => 113,
    }
}

/// The checkpoint of a state as a file, which reads back as this state, and its line.
pub fn checkpoint_file(alloc: Global, state: &State) -> Result<Made, AllocError>
    requires { IsInForm state.now }
    ensures file { IfOk result (λ m. m.file.items ≡ checkpoint_bytes state.now) }
    ensures line { IfOk result (λ m. m.line ≡ saved_line state.now.step) }
    ensures read_back { IfOk result (λ m. checkpoint_in m.file.items ≡ Ok state.now) }
{
    let file = write_checkpoint(alloc, state)?;
    let line = saved_line(alloc, state.step)?;
    Ok(Made { file, line })
}

// The line of a state that is stored after so many steps.
fn saved_line(alloc: Global, steps: u64) -> Result<Line, AllocError>
    ensures { IfOk result (λ line. line ≡ saved_line steps) }
{
    let line = format!(in alloc; "saved steps {steps}\n")?;
    Ok(Line {
        bytes: line.into_bytes(),
    })
}
