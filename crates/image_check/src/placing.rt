//! The places and sizes of an image's parts.

ghost use Rattle.std.specs.Prelude.{◌≡◌, ◌≤◌, ◌<◌, ◌+◌, length, OnOk, IfOk};
ghost use Rattle.image_check.specs.Refusals.{test};
ghost use Rattle.image_check.specs.Answers.{Gives};
ghost use Rattle.image_check.specs.Conditions.{text_place, init_place, text_size, init_size, entry_place};
ghost use Rattle.image_check.specs.Checking.{placed};

use crate::fault::{CheckCause, CheckFault};
use elf_form::Image;
use ia32_types::{DATA_ADDRESS, TEXT_ADDRESS};
use sites::{INIT_LIMIT, TEXT_LIMIT};

/// Passes where there is no place.
pub fn test(cause: CheckCause, place: Option<u32>) -> Result<(), CheckFault>
    ensures { Gives (λ _. tt) result (test cause place) }
{
    match place {
        None => Ok(()),
        Some(at) => Err(CheckFault::At { at, cause }),
    }
}

fn text_place(image: &Image) -> Option<u32>
    ensures { result ≡ text_place image.now }
{
    (image.text_at != TEXT_ADDRESS).then_some(0)
}

fn init_place(image: &Image) -> Option<u32>
    ensures { result ≡ init_place image.now }
{
    (image.init_at != DATA_ADDRESS).then_some(0)
}

fn text_size(image: &Image) -> Option<u32>
    ensures { result ≡ text_size image.now }
{
    (image.text.len() == 0 || image.text.len() > TEXT_LIMIT).then_some(0)
}

fn init_size(image: &Image) -> Option<u32>
    ensures { result ≡ init_size image.now }
{
    (image.init.len() as u64 + u64::from(image.bss) > INIT_LIMIT as u64).then_some(0)
}

fn entry_place(image: &Image) -> Option<u32>
    ensures { result ≡ entry_place image.now }
{
    let entry = u64::from(image.entry);
    let start = u64::from(TEXT_ADDRESS);
    (entry < start || entry >= start + image.text.len() as u64).then_some(0)
}

/// The tests of places and sizes.
#[tactic(auto, unfolding(crate::specs::Checking::placed))]
pub fn placed(image: &Image) -> Result<(), CheckFault>
    ensures exact { Gives (λ _. tt) result (placed image.now) }
    ensures text { OnOk result ((1 ≤ length image.now.text) × (length image.now.text ≤ TEXT_LIMIT)) }
    ensures init { OnOk result (length image.now.init + image.now.bss ≤ INIT_LIMIT) }
    ensures entry { OnOk result ((TEXT_ADDRESS ≤ image.now.entry) × (image.now.entry < TEXT_ADDRESS + length image.now.text)) }
{
    test(CheckCause::TextPlace, text_place(image))?;
    test(CheckCause::InitPlace, init_place(image))?;
    test(CheckCause::TextSize, text_size(image))?;
    test(CheckCause::InitSize, init_size(image))?;
    test(CheckCause::EntryPlace, entry_place(image))
}
