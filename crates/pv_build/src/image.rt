//! Images, read from files and accepted, and made as files.

ghost use Rattle.std.specs.Prelude.{◌≡◌, IfOk, IfErr, OnOk};
ghost use Rattle.pv_io.specs.Files.{IsHeld};
ghost use Rattle.elf_form.specs.Faults.{Fault};
ghost use Rattle.elf_form.specs.ImageLayout.{image_bytes};
ghost use Rattle.elf_form.specs.Writable.{IsWritableImage};
ghost use Rattle.image_check.specs.Refusals.{Refusal};
ghost use Rattle.image_check.specs.Answers.{Refuses};
ghost use Rattle.pv_build.specs.Lines.{image_line, place_line, form_number};
ghost use Rattle.pv_build.specs.Readings.{OnlyRead};
ghost use Rattle.pv_build.specs.Failures.{NoneFailedIn};
ghost use Rattle.pv_build.specs.Telling.{HaltsOverFiles, RefusesAs};
ghost use Rattle.pv_build.specs.Images.{HasImage, HasNoImage, ImageReadsBack, accepted_line, format_words, image_made_line};

use crate::halt::{Halt, Line};
use crate::lines::{Sizes, number_of_check, number_of_form, place_line, sizes_line};
use crate::made::Made;
use crate::telling::{load, refused};
use elf_form::{ElfFault, Image, write_image};
use image_check::{CheckFault, Checked, check};
use pv_io::Files;
use sites::count;
use std::alloc::{AllocError, Global};

/// The accepted image that a file is.
#[tactic(auto, using(crate::proofs::Failures::none_here, crate::proofs::Failures::none_since, crate::proofs::Failures::none_in))]
pub fn accepted<F: Files>(alloc: Global, name: &str, files: &mut F) -> Result<Checked, Halt>
    ensures image { IfOk result (HasImage (F.held files.old) name.now) }
    ensures halted { IfErr result (HaltsOverFiles F.Files (IsHeld (F.held files.old) name.now) files.old files.new
        (λ line. (refusal : Refusal) × HasNoImage (F.held files.old) name.now refusal × (line ≡ image_line refusal))) }
    ensures read { OnlyRead F.Files (IsHeld (F.held files.old) name.now) files.old files.new }
    ensures kept { NoneFailedIn F.Files files.old files.new result }
{
    let file = load(alloc, name, files)?;
    match check(alloc, &file) {
        Ok(image) => Ok(image),
        Err(fault) => Err(refusal_of(alloc, &fault)),
    }
}

/// Why an image is not accepted, unless it was memory that was not found.
pub fn refusal_of(alloc: Global, fault: &CheckFault) -> Halt
    ensures { RefusesAs (λ line. (refusal : Refusal) × Refuses fault.now refusal × (line ≡ image_line refusal)) result }
{
    match fault {
        CheckFault::Elf(fault) => form_refusal(alloc, fault),
        CheckFault::At { at, cause } => { refused(place_line(alloc, number_of_check(*cause), *at)) }
        CheckFault::Memory => Halt::Memory,
    }
}

// Why a file is no image.
fn form_refusal(alloc: Global, fault: &ElfFault) -> Halt
    ensures { RefusesAs (λ line. (f : Fault) × (fault.now ≡ ElfFault.At f.at f.cause)
        × (line ≡ place_line (form_number f.cause) f.at)) result }
{
    match fault {
        ElfFault::At { at, cause } => refused(place_line(alloc, number_of_form(*cause), *at)),
        ElfFault::Memory => Halt::Memory,
    }
}

fn format_words(format: u8) -> &'static str
    ensures { result.now ≡ format_words format }
{
    if format == 2 {
        " format 2"
    } else {
        " format 1"
    }
}

/// What is accepted of an image.
pub fn accepted_line(alloc: Global, image: &Checked) -> Result<Line, AllocError>
    ensures { IfOk result (λ line. line ≡ accepted_line image.now) }
{
    let sizes = Sizes {
        text: image.text().len(),
        init: image.init().len(),
        bss: image.bss(),
        sites: image.sites().list.len(),
    };
    sizes_line(alloc, "accepted", sizes, format_words(image.sites().format))
}

/// An image as a file, and its line.
pub fn image_file(alloc: Global, image: &Image) -> Result<Made, AllocError>
    requires { IsWritableImage image.now }
    ensures file { IfOk result (λ m. m.file.items ≡ image_bytes image.now) }
    ensures line { IfOk result (λ m. m.line ≡ image_made_line image.now) }
    ensures read_back { OnOk result (ImageReadsBack image.now) }
{
    let file = write_image(alloc, image)?;
    let sizes = Sizes {
        text: image.text.len(),
        init: image.init.len(),
        bss: image.bss,
        sites: count(&image.sites) as usize,
    };
    let line = sizes_line(alloc, "image", sizes, "")?;
    Ok(Made { file, line })
}
