//! Certificates, read from files, and made as files.

ghost use Rattle.std.specs.Prelude.{◌≡◌, true, ℕ, length, IfOk, IfErr};
ghost use Rattle.board.specs.ScriptForm.{is_script};
ghost use Rattle.pv_io.specs.Files.{Holds, IsHeld};
ghost use Rattle.trace_check.specs.Form.{AreChoices, choices_bytes};
ghost use Rattle.trace_check.specs.Reading.{choices_in};
ghost use Rattle.pv_build.specs.Images.{HasImage};
ghost use Rattle.pv_build.specs.Scripts.{HasScript};
ghost use Rattle.pv_build.specs.Readings.{OnlyRead};
ghost use Rattle.pv_build.specs.Failures.{NoneFailedIn};
ghost use Rattle.pv_build.specs.Telling.{HaltsOverFiles};
ghost use Rattle.pv_prove.specs.CertificateLines.{certificate_line, certificate_refusal};
ghost use Rattle.pv_prove.specs.Certificates.{HasChoices, FindsReplay};
ghost use Rattle.pv_prove.specs.Unjudged.{HasNoChoices, NoReplay};

use crate::certificate_lines::certificate_line;
use pv_build::{Halt, Made, Runnable, load, place_line, refused, runnable_in_files};
use pv_io::Files;
use std::alloc::{AllocError, Global};
use trace_check::{Choices, ChoicesFault, read_choices, write_choices};

/// What a replay is given: an image and its script, the choices of a certificate, and the text that is judged.
#[derive(Drop)]
pub struct Replayable {
    pub runnable: Runnable,
    pub choices: Choices,
    pub text: Vec<u8>,
}

/// What files hold for a replay. They are read in this order, and none after one that is refused.
#[tactic(auto, using(pv_build::proofs::Failures::none_here, pv_build::proofs::Failures::none_since, pv_build::proofs::Failures::none_in))]
pub fn replayable_in_files<F: Files>(
    alloc: Global,
    image: &str,
    script: &str,
    certificate: &str,
    text: &str,
    files: &mut F,
) -> Result<Replayable, Halt>
    ensures image { IfOk result (λ found. HasImage (F.held files.old) image.now found.runnable.image) }
    ensures script { IfOk result (λ found. HasScript (F.held files.old) script.now found.runnable.script.list) }
    ensures form { IfOk result (λ found. is_script found.runnable.script.list ≡ true) }
    ensures choices { IfOk result (λ found. HasChoices (F.held files.old) certificate.now found.choices.list) }
    ensures entries { IfOk result (λ found. AreChoices found.choices.list) }
    ensures text { IfOk result (λ found. Holds (F.held files.old) text.now found.text.items) }
    ensures halted { IfErr result (HaltsOverFiles F.Files (FindsReplay (F.held files.old) image.now script.now certificate.now text.now)
        files.old files.new (NoReplay (F.held files.old) image.now script.now certificate.now)) }
    ensures read { OnlyRead F.Files (FindsReplay (F.held files.old) image.now script.now certificate.now text.now) files.old files.new }
    ensures kept { NoneFailedIn F.Files files.old files.new result }
{
    let runnable = runnable_in_files(alloc, image, script, files)?;
    let choices = choices_in_file(alloc, certificate, files)?;
    let text = load(alloc, text, files)?;
    Ok(Replayable {
        runnable,
        choices,
        text,
    })
}

// The choices that a file says.
#[tactic(auto, using(pv_build::proofs::Failures::none_here, pv_build::proofs::Failures::none_since, pv_build::proofs::Failures::none_in))]
fn choices_in_file<F: Files>(alloc: Global, name: &str, files: &mut F) -> Result<Choices, Halt>
    ensures choices { IfOk result (λ choices. HasChoices (F.held files.old) name.now choices.list) }
    ensures entries { IfOk result (λ choices. AreChoices choices.list) }
    ensures halted { IfErr result (HaltsOverFiles F.Files (IsHeld (F.held files.old) name.now)
        files.old files.new (λ line. (at : ℕ) × HasNoChoices (F.held files.old) name.now at × (line ≡ certificate_refusal at))) }
    ensures read { OnlyRead F.Files (IsHeld (F.held files.old) name.now) files.old files.new }
    ensures kept { NoneFailedIn F.Files files.old files.new result }
{
    let file = load(alloc, name, files)?;
    match read_choices(alloc, &file) {
        Ok(choices) => Ok(choices),
        Err(ChoicesFault::Memory) => Err(Halt::Memory),
        Err(ChoicesFault::Form { at }) => Err(refused(place_line(alloc, 120, at))),
    }
}

/// Choices as a file, and its line.
pub fn certificate_file(alloc: Global, choices: &Choices) -> Result<Made, AllocError>
    requires { AreChoices choices.now.list }
    ensures file { IfOk result (λ m. m.file.items ≡ choices_bytes choices.now.list) }
    ensures line { IfOk result (λ m. m.line ≡ certificate_line (length choices.now.list)) }
{
    let file = write_choices(alloc, choices)?;
    let line = certificate_line(alloc, choices.list.len())?;
    Ok(Made { file, line })
}
