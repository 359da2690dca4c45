//! The tests of an image in their order.

ghost use Rattle.std.specs.Prelude.{◌≡◌, ℕ, ◌≤◌, ◌<◌, ◌+◌, ◌^◌, ◌&&◌, ◌==◌, not, false, List, length, slice_get, slice_index_or, IfOk, Ok};
ghost use Rattle.std.specs.List.{list_any};
ghost use Rattle.ia32_rows.specs.Spells.{AreBytes};
ghost use Rattle.elf_form.specs.Accepted.{ImageAs};
ghost use Rattle.elf_form.specs.Faults.{Fault, ◌or_lower◌};
ghost use Rattle.elf_form.specs.Order.{IsFirstOf};
ghost use Rattle.elf_form.specs.ImageParts.{ImageParts};
ghost use Rattle.elf_form.specs.Reading.{image_in};
ghost use Rattle.sites.specs.Formats.{told_format, listed};
ghost use Rattle.image_check.specs.Refusals.{Form, Wrong, test};
ghost use Rattle.image_check.specs.Answers.{Gives};
ghost use Rattle.sites.specs.declared.limits.TheConstants.{TEXT_LIMIT};
ghost use Rattle.image_check.specs.Pieces.{all_pieces, is_piece_start};
ghost use Rattle.image_check.specs.Stops.{AreLeft};
ghost use Rattle.image_check.specs.Targets.{is_entrance, wrong_target};
ghost use Rattle.image_check.specs.Conditions.{last_at, ends_at, text_end_by, site_wrong, entry_start_by};
ghost use Rattle.image_check.specs.Checking.{as_form, as_sites, annotated, entered, image_from, image_of, image_with};
ghost use Rattle.image_check.specs.Accepts.{AreStarts, Accepts};
ghost use Rattle.image_check.specs.Causes.{wrong, causes};
ghost use Rattle.image_check.specs.Reasons.{IsRefused};
ghost use Rattle.image_check.specs.Image.{Image as Accepted};
ghost use Rattle.image_check.specs.declared.fault.CheckCause.{CheckCause};
ghost use Rattle.image_check.specs.declared.fault.CheckCause.TheVariants.{SiteWrong};

use crate::checked::Checked;
use crate::fault::{CheckCause, CheckFault};
use crate::placing::{placed, test};
use crate::site::{differ, find_sites};
use crate::sweeping::sweep;
use crate::target::{entrances, wrong_target};
use elf_form::{ElfFault, Image, read_image};
use ia32_types::TEXT_ADDRESS;
use sites::{Sites, SitesFault, read_sites};
use std::alloc::Global;

fn ends_at(text: &[u8], at: usize) -> bool
    requires { at < 2 ^ 32 }
    ensures { result ≡ ends_at text.now at }
{
    at + 2 == text.len() && text[at] == 0xEB && text[at + 1] == 0xFE
}

fn text_end(text: &[u8], last: u32) -> Option<u32>
    ensures { result ≡ text_end_by text.now last }
{
    (!ends_at(text, last as usize)).then_some(last)
}

fn annotations(alloc: Global, bytes: &[u8]) -> Result<Sites, CheckFault>
    requires { length bytes.now < 2 ^ 32 }
    ensures exact { Gives (λ sites. sites.list) result (as_sites (listed bytes.now)) }
    ensures told { IfOk result (λ sites. sites.format ≡ told_format bytes.now) }
{
    match read_sites(alloc, bytes) {
        Ok(sites) => Ok(sites),
        Err(SitesFault::Form { at }) => {
            Err(CheckFault::At {
                at,
                cause: CheckCause::SitesForm,
            })
        }
        Err(SitesFault::Memory) => Err(CheckFault::Memory),
    }
}

/// The lower place.
fn lower(a: Option<u32>, b: Option<u32>) -> Option<u32>
    ensures { result ≡ a or_lower b }
{
    match (a, b) {
        (None, b) => b,
        (Some(a), None) => Some(a),
        (Some(a), Some(b)) => Some(a.min(b)),
    }
}

/// The test of the sites of a text against its annotations.
fn sites_tested(alloc: Global, sites: &Sites, text: &[u8]) -> Result<(), CheckFault>
    requires limit { length text.now ≤ TEXT_LIMIT }
    requires left { AreLeft text.now 0 (all_pieces text.now) }
    ensures { Gives (λ _. tt) result (test SiteWrong (site_wrong sites.now.list (all_pieces text.now))) }
{
    let found = find_sites(alloc, text)?;
    test(
        CheckCause::SiteWrong,
        lower(found.lacking, differ(&sites.list, &found.sites)),
    )
}

fn entry_start(image: &Image, entrances: &[bool]) -> Option<u32>
    requires { TEXT_ADDRESS ≤ image.now.entry }
    ensures { result ≡ entry_start_by (λ i. slice_index_or entrances.now i false) image.now }
{
    let at = image.entry - TEXT_ADDRESS;
    let index = at as usize;
    (index >= entrances.len() || !entrances[index]).then_some(at)
}

/// The tests of the end of the text and of the annotations.
#[tactic(auto, unfolding(crate::specs::Checking::annotated))]
fn annotated(alloc: Global, image: &Image, last: u32) -> Result<Sites, CheckFault>
    requires few { length image.now.sites < 2 ^ 32 }
    requires limit { length image.now.text ≤ TEXT_LIMIT }
    requires left { AreLeft image.now.text 0 (all_pieces image.now.text) }
    requires last { last ≡ last_at (all_pieces image.now.text) }
    ensures exact { Gives (λ sites. sites.list) result (annotated image.now (all_pieces image.now.text)) }
    ensures told { IfOk result (λ sites. sites.format ≡ told_format image.now.sites) }
{
    test(CheckCause::TextEnd, text_end(&image.text, last))?;
    let sites = annotations(alloc, &image.sites)?;
    sites_tested(alloc, &sites, &image.text)?;
    Ok(sites)
}

/// The tests of where control comes in, by a branch and at the entry.
#[tactic(auto, unfolding(crate::specs::Checking::entered))]
fn entered(alloc: Global, image: &Image, starts: &[bool], sites: &Sites) -> Result<(), CheckFault>
    requires limit { length image.now.text ≤ TEXT_LIMIT }
    requires left { AreLeft image.now.text 0 (all_pieces image.now.text) }
    requires starts { (i : ℕ) → slice_index_or starts.now i false ≡ is_piece_start (all_pieces image.now.text) i }
    requires entry { TEXT_ADDRESS ≤ image.now.entry }
    ensures { Gives (λ _. tt) result (entered image.now (all_pieces image.now.text) sites.now.list) }
{
    let entrances = entrances(alloc, starts, &sites.list)?;
    test(CheckCause::Target, wrong_target(&image.text, &entrances))?;
    test(CheckCause::EntryStart, entry_start(image, &entrances))
}

/// The tests of an image in their order: its sites, and the starts of its instructions.
#[tactic(auto, unfolding(crate::specs::Checking::image_from))]
fn tested(alloc: Global, image: &Image) -> Result<(Sites, Vec<bool>), CheckFault>
    requires { length image.now.sites < 2 ^ 32 }
    ensures exact { Gives (λ found. image_with image.now found.0.list) result (image_from image.now) }
    ensures told { IfOk result (λ found. found.0.format ≡ told_format image.now.sites) }
    ensures starts { IfOk result (λ found. AreStarts image.now.text found.1.items) }
{
    placed(image)?;
    let swept = sweep(alloc, &image.text)?;
    let sites = annotated(alloc, image, swept.last)?;
    entered(alloc, image, &swept.starts, &sites)?;
    Ok((sites, swept.starts))
}

fn checked(alloc: Global, image: Image) -> Result<Checked, CheckFault>
    requires short { length image.sites < 2 ^ 32 }
    requires bytes { AreBytes image.text }
    ensures { Gives (λ checked. checked) result (image_from image) }
{
    let (sites, starts) = tested(alloc, &image)?;
    Ok(Checked::of(image, sites, starts))
}

#[tactic(auto, unfolding(crate::specs::Checking::image_of))]
fn check_file(alloc: Global, bytes: &[u8]) -> Result<Checked, CheckFault>
    ensures { Gives (λ checked. checked) result (image_of bytes.now) }
{
    let image = read(alloc, bytes)?;
    checked(alloc, image)
}

fn read(alloc: Global, bytes: &[u8]) -> Result<Image, CheckFault>
    ensures exact { Gives (λ image. image) result (as_form (image_in bytes.now)) }
    ensures short { IfOk result (λ image. length image.sites < 2 ^ 32) }
    ensures bytes { IfOk result (λ image. AreBytes image.text) }
{
    match read_image(alloc, bytes) {
        Ok(image) => Ok(image),
        Err(ElfFault::Memory) => Err(CheckFault::Memory),
        Err(fault) => Err(CheckFault::Elf(fault)),
    }
}

/// The image that a file is, or why it is not accepted.
pub fn check(alloc: Global, bytes: &[u8]) -> Result<Checked, CheckFault>
    // An image that is given is the file's, and accepted.
    ensures accepted { IfOk result (Accepts bytes.now) }
    // Where the file is an accepted image, it is given, unless memory runs out.
    ensures only { (image : Accepted) → Accepts bytes.now image → Gives (λ checked. checked) result (Ok image) }
    // A refusal is the first cause by which the file's image is wrong, at its place.
    ensures first { (at : ℕ) (cause : CheckCause) → result ≡ Err (CheckFault.At at cause) → (parts : ImageParts)
        × ImageAs bytes.now parts × IsFirstOf (wrong parts) causes at cause }
    ensures first_only { (parts : ImageParts) (at : ℕ) (cause : CheckCause) → ImageAs bytes.now parts
        → IsFirstOf (wrong parts) causes at cause → Gives (λ checked. checked) result (Err (Wrong at cause)) }
    // A refusal by the causes' conditions: the cause's holds there, and none before it in their order.
    ensures refused { (at : ℕ) (cause : CheckCause) → result ≡ Err (CheckFault.At at cause) → (parts : ImageParts)
        × ImageAs bytes.now parts × IsRefused parts at cause }
    ensures refused_only { (parts : ImageParts) (at : ℕ) (cause : CheckCause) → ImageAs bytes.now parts
        → IsRefused parts at cause → Gives (λ checked. checked) result (Err (Wrong at cause)) }
    // A file that is no image is refused as the reading refuses it.
    ensures form { (fault : Fault) → image_in bytes.now ≡ Err fault → Gives (λ checked. checked) result (Err (Form fault)) }
    ensures exact { Gives (λ checked. checked) result (image_of bytes.now) }
{
    check_file(alloc, bytes)
}
