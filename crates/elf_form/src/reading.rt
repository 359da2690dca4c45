//! Reading an image.

ghost use Rattle.std.specs.Prelude.{◌≡◌, ℕ, ◌≤◌, ◌<◌, ◌+◌, ◌^◌, ◌∷◌, List, length, IfNone, IfSome, IfOk};
ghost use Rattle.elf_form.specs.Faults.{tested, causes};
ghost use Rattle.elf_form.specs.Stages.{section_causes, and_then, identified, parts_by};
ghost use Rattle.elf_form.specs.Answers.{Gives};
ghost use Rattle.elf_form.specs.Order.{IsFirstOf};
ghost use Rattle.guest_ram.specs.Bytes.{part, word32};
ghost use Rattle.elf_form.specs.Whole.{AllFound, IsWhole, IsHeader, IsSection, ArePlaces};
ghost use Rattle.elf_form.specs.Sections.{sites_sections};
ghost use Rattle.elf_form.specs.Segments.{memory_sizes, loads};
ghost use Rattle.elf_form.specs.ImageParts.{ImageParts};
ghost use Rattle.elf_form.specs.declared.cause.ElfCause.{ElfCause};
ghost use Rattle.elf_form.specs.declared.cause.ElfCause.TheVariants.{Sizes};
ghost use Rattle.elf_form.specs.Accepted.{ImageAs};
ghost use Rattle.elf_form.specs.Reading.{wrong_image, image_at, image_in};
ghost use Rattle.elf_form.specs.Reasons.{IsRefusedImage, no_image};

use crate::abi::{E_ENTRY, ET_EXEC, P_FILESZ, P_MEMSZ, P_OFFSET, P_VADDR};
use crate::cause::{ElfCause, ElfFault};
use crate::header::{cut, identified, lower, test};
use crate::image::Image;
use crate::roles::{Role, with_role};
use crate::sections::{compressed, contents, nameless, names, one_of};
use crate::segments::{FILE_LIMIT, Found, loads, order, sizes};
use guest_ram::word;
use std::alloc::Global;

/// The sections of sites, which are found by their name.
fn sites_sections(bytes: &[u8]) -> Found
    requires { IsWhole bytes.now }
    ensures found { result ≡ sites_sections bytes.now }
    ensures inside { AllFound (IsSection bytes.now) result }
{
    with_role(Role::Sites, names(bytes), bytes)
}

/// The tests of program headers and sections in their order.
#[tactic(auto, unfolding(crate::specs::Faults::tested, crate::specs::Reading::wrong_image, crate::specs::Reading::section_form))]
fn section_tested(bytes: &[u8]) -> Result<(usize, usize, usize), ElfFault>
    requires whole { IsWhole bytes.now }
    requires limit { length bytes.now ≤ FILE_LIMIT }
    requires memory { memory_sizes bytes.now (loads bytes.now) ≡ None }
    ensures exact { Gives (parts_by bytes.now) result (tested (wrong_image bytes.now) section_causes (image_at bytes.now)) }
    ensures places { IfOk result (ArePlaces bytes.now) }
{
    let headers = loads(bytes);
    let sites = sites_sections(bytes);
    test(
        ElfCause::SectionForm,
        lower(order(bytes, headers), one_of(sites)),
    )?;
    test(ElfCause::Compressed, compressed(bytes))?;
    test(ElfCause::StringPlace, nameless(bytes))?;
    Ok((headers.first(), headers.second(), sites.first()))
}

/// The tests of the header in their order, and those after them.
#[tactic(auto, unfolding(crate::specs::Faults::tested, crate::specs::Reading::wrong_image))]
fn header_tested(bytes: &[u8]) -> Result<(usize, usize, usize), ElfFault>
    requires { IsWhole bytes.now }
    ensures exact { Gives (parts_by bytes.now) result (and_then (identified ET_EXEC bytes.now)
        (tested (wrong_image bytes.now) (Sizes ∷ section_causes) (image_at bytes.now))) }
    ensures places { IfOk result (ArePlaces bytes.now) }
{
    identified(bytes, ET_EXEC)?;
    test(ElfCause::Sizes, sizes(bytes))?;
    section_tested(bytes)
}

/// All tests in their order.
fn tested(bytes: &[u8]) -> Result<(usize, usize, usize), ElfFault>
    ensures exact { Gives (parts_by bytes.now) result (image_in bytes.now) }
    ensures places { IfOk result (ArePlaces bytes.now) }
{
    match cut(bytes) {
        Some(at) => Err(ElfFault::At {
            at,
            cause: ElfCause::Truncated,
        }),
        None => header_tested(bytes),
    }
}

/// The bytes that a program header names.
#[tactic(auto, unfolding(guest_ram::specs::Bytes::part))]
fn named(bytes: &[u8], h: usize) -> &[u8]
    requires { IsHeader bytes.now h }
    ensures { result.now ≡ part bytes.now (word32 bytes.now (h + P_OFFSET)) (word32 bytes.now (h + P_FILESZ)) }
{
    let at = word(bytes, h + P_OFFSET) as usize;
    let size = word(bytes, h + P_FILESZ) as usize;
    &bytes[at..at + size]
}

#[tactic(auto, unfolding(crate::specs::Reading::parts_at))]
fn image(alloc: Global, bytes: &[u8]) -> Result<Image, ElfFault>
    ensures { Gives (λ image. image) result (image_in bytes.now) }
{
    let (text, data, sites) = tested(bytes)?;
    Ok(Image {
        text: Vec::from_slice(alloc, named(bytes, text))?,
        init: Vec::from_slice(alloc, named(bytes, data))?,
        bss: word(bytes, data + P_MEMSZ) - word(bytes, data + P_FILESZ),
        entry: word(bytes, E_ENTRY),
        text_at: word(bytes, text + P_VADDR),
        init_at: word(bytes, data + P_VADDR),
        sites: Vec::from_slice(alloc, contents(bytes, sites))?,
    })
}

/// The image that a file is, or the first of its faults.
pub fn read_image(alloc: Global, bytes: &[u8]) -> Result<Image, ElfFault>
    // The value is what the file holds, and the file is wrong by no cause.
    ensures image { IfOk result (ImageAs bytes.now) }
    // Where the file holds an image, it is read, unless memory runs out.
    ensures only { (image : ImageParts) → ImageAs bytes.now image → Gives (λ image. image) result (Ok image) }
    // A fault is the first cause that holds, at its place.
    ensures first { (at : ℕ) (cause : ElfCause) → result ≡ Err (ElfFault.At at cause) → IsFirstOf (wrong_image bytes.now) causes at cause }
    // A fault by the causes' conditions: at the cause's place its own holds, and at no place does one of a cause before it.
    ensures refused { (at : ℕ) (cause : ElfCause) → result ≡ Err (ElfFault.At at cause) → IsRefusedImage bytes.now at cause }
    ensures refused_only { (at : ℕ) (cause : ElfCause) → IsRefusedImage bytes.now at cause
        → Gives (λ image. image) result (no_image at cause) }
    ensures exact { Gives (λ image. image) result (image_in bytes.now) }
{
    image(alloc, bytes)
}
