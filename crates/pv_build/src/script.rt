//! Scripts, and images with the scripts under which they are run, read from files.

ghost use Rattle.std.specs.Prelude.{◌≡◌, true, ℕ, IfOk, IfErr};
ghost use Rattle.pv_io.specs.Files.{IsHeld};
ghost use Rattle.board.specs.ScriptForm.{is_script};
ghost use Rattle.board.specs.declared.fault.ScriptCause.{ScriptCause};
ghost use Rattle.pv_build.specs.Lines.{script_line};
ghost use Rattle.pv_build.specs.Readings.{OnlyRead};
ghost use Rattle.pv_build.specs.Failures.{NoneFailedIn};
ghost use Rattle.pv_build.specs.Telling.{HaltsOverFiles};
ghost use Rattle.pv_build.specs.Images.{HasImage};
ghost use Rattle.pv_build.specs.Scripts.{HasScript, HasNoScript, NoRun, FindsRun};

use crate::halt::Halt;
use crate::image::accepted;
use crate::lines::{number_of_script, refusal_at_line};
use crate::telling::{load, refused};
use board::{Script, ScriptFault, read_script};
use image_check::Checked;
use pv_io::Files;
use std::alloc::Global;

/// An accepted image, and the script under which it is run.
#[derive(Drop)]
pub struct Runnable {
    pub image: Checked,
    pub script: Script,
}

/// The image and the script that files hold. Where the image is refused the script is not read.
#[tactic(auto, using(crate::proofs::Failures::none_here, crate::proofs::Failures::none_since, crate::proofs::Failures::none_in))]
pub fn runnable_in_files<F: Files>(
    alloc: Global,
    image: &str,
    script: &str,
    files: &mut F,
) -> Result<Runnable, Halt>
    ensures image { IfOk result (λ found. HasImage (F.held files.old) image.now found.image) }
    ensures script { IfOk result (λ found. HasScript (F.held files.old) script.now found.script.list) }
    ensures form { IfOk result (λ found. is_script found.script.list ≡ true) }
    ensures halted { IfErr result (HaltsOverFiles F.Files (FindsRun (F.held files.old) image.now script.now) files.old files.new
        (NoRun (F.held files.old) image.now script.now)) }
    ensures read { OnlyRead F.Files (FindsRun (F.held files.old) image.now script.now) files.old files.new }
    ensures kept { NoneFailedIn F.Files files.old files.new result }
{
    let image = accepted(alloc, image, files)?;
    let script = scripted(alloc, script, files)?;
    Ok(Runnable { image, script })
}

// The events that a file says.
#[tactic(auto, using(crate::proofs::Failures::none_here, crate::proofs::Failures::none_since, crate::proofs::Failures::none_in))]
fn scripted<F: Files>(alloc: Global, name: &str, files: &mut F) -> Result<Script, Halt>
    ensures script { IfOk result (λ script. HasScript (F.held files.old) name.now script.list) }
    ensures form { IfOk result (λ script. is_script script.list ≡ true) }
    ensures halted { IfErr result (HaltsOverFiles F.Files (IsHeld (F.held files.old) name.now) files.old files.new
        (λ line. (at : ℕ) × (cause : ScriptCause) × HasNoScript (F.held files.old) name.now (at, cause)
        × (line ≡ script_line at cause))) }
    ensures read { OnlyRead F.Files (IsHeld (F.held files.old) name.now) files.old files.new }
    ensures kept { NoneFailedIn F.Files files.old files.new result }
{
    let file = load(alloc, name, files)?;
    match read_script(alloc, &file) {
        Ok(events) => Ok(events),
        Err(ScriptFault::Memory) => Err(Halt::Memory),
        Err(ScriptFault::At { line, cause }) => {
            Err(refused(refusal_at_line(alloc, number_of_script(cause), line)))
        }
    }
}
