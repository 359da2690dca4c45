//! The kernel of a number, built into an image.

ghost use Rattle.std.specs.Prelude.{[], ◌∷◌, Ok, Err, IfOk, IfErr};
ghost use Rattle.kernel_gen.specs.Kernels.{kernel_text};
ghost use Rattle.asm_source.specs.Readable.{IsReadable};
ghost use Rattle.elf_form.specs.ImageLayout.{image_bytes};
ghost use Rattle.elf_form.specs.Writable.{IsWritableImage, IsWholeObject};
ghost use Rattle.elf_form.specs.Linkable.{IsLinkable};
ghost use Rattle.elf_form.specs.ObjectLayout.{object_bytes};
ghost use Rattle.elf_form.specs.ObjectReading.{object_in};
ghost use Rattle.afterburner.specs.Burnt.{burnt};
ghost use Rattle.elf_link.specs.Linked.{linked_image};
ghost use Rattle.image_check.specs.Checking.{image_of};
ghost use Rattle.pv_build.specs.Telling.{RefusesAs, Answers};
ghost use Rattle.pv_build.specs.Building.{Builds, object_read, object_made, image_made, image_accepted};

use crate::halt::Halt;
use crate::image::refusal_of;
use crate::lines::{link_line, number_of_form, object_place_line, refusal_at_line};
use crate::source::source_of_text;
use crate::telling::refused;
use afterburner::{BurnFault, burn};
use asm_parse::Source;
use elf_form::{ElfFault, Image, Object, read_object, write_image, write_object};
use elf_link::{LinkFault, linked};
use image_check::{Checked, check};
use kernel_gen::kernel;
use std::alloc::Global;

/// The accepted image of the kernel of a number. Each part goes on from what the one before it has made: the object and the
/// image are read from the bytes of their files.
pub fn built(alloc: Global, number: u32) -> Result<Checked, Halt>
    ensures image { IfOk result (λ image. Builds (kernel_text number) (Ok image)) }
    ensures refused { IfErr result (RefusesAs (λ line. Builds (kernel_text number) (Err line))) }
{
    let text = kernel(alloc, number)?;
    let source = source_of_text(alloc, &text)?;
    let object = object_of(alloc, &source)?;
    let image = image_from(alloc, object)?;
    accepted(alloc, &image)
}

// The object that a source is burnt to.
fn object_of(alloc: Global, source: &Source) -> Result<Object, Halt>
    requires { IsReadable source.now }
    ensures object { Answers result (object_made (burnt source.now)) }
    ensures linkable { IfOk result (λ o. IsLinkable o) }
{
    match burn(alloc, source) {
        Ok(object) => read_back(alloc, &object),
        Err(BurnFault::Memory) => Err(Halt::Memory),
        Err(BurnFault::At { line, cause }) => {
            Err(refused(refusal_at_line(alloc, cause.number() as u32, line as u64)))
        }
    }
}

// The object that the file of an object holds.
fn read_back(alloc: Global, object: &Object) -> Result<Object, Halt>
    requires { IsWholeObject object.now }
    ensures object { Answers result (object_read (object_in (object_bytes object.now))) }
    ensures linkable { IfOk result (λ o. IsLinkable o) }
{
    let file = write_object(alloc, object)?;
    match read_object(alloc, &file) {
        Ok(object) => Ok(object),
        Err(ElfFault::Memory) => Err(Halt::Memory),
        Err(ElfFault::At { at, cause }) => {
            Err(refused(object_place_line(alloc, number_of_form(cause), 0, at)))
        }
    }
}

// The image that one object is linked to.
fn image_from(alloc: Global, object: Object) -> Result<Image, Halt>
    requires { IsLinkable object }
    ensures image { Answers result (image_made (linked_image (object ∷ []))) }
    ensures writable { IfOk result (λ image. IsWritableImage image) }
{
    let mut objects = Vec::new(alloc);
    objects.push(object)?;
    match linked(alloc, &objects) {
        Ok(image) => Ok(image),
        Err(LinkFault::Memory) => Err(Halt::Memory),
        Err(LinkFault::At { object, cause }) => Err(refused(link_line(alloc, object, &cause))),
    }
}

// The image, as its file is accepted.
fn accepted(alloc: Global, image: &Image) -> Result<Checked, Halt>
    requires { IsWritableImage image.now }
    ensures { Answers result (image_accepted (image_of (image_bytes image.now))) }
{
    let file = write_image(alloc, image)?;
    match check(alloc, &file) {
        Ok(image) => Ok(image),
        Err(fault) => Err(refusal_of(alloc, &fault)),
    }
}
