//! What an instruction is to a listing.

ghost use Rattle.std.specs.Prelude.{◌≡◌};
ghost use Rattle.pv_look.specs.Here.{swept};
ghost use Rattle.pv_look.specs.Parts as spec;
ghost use Rattle.pv_look.specs.Room.{IsShort};

use crate::here::Here;
use ia32_types::{Op, SiteKind};
use image_check::{AtOffset, Checked};
use image_laws::{inside_sites, outside_sites, places};
use sites::Site;

/// What an instruction is to a listing: the jump to itself that `link` adds, a NOP of a site's padding, the first
/// instruction of a site, or another.
#[derive(Clone, Copy)]
pub enum Part {
    End,
    Padding,
    Site(Site),
    Alone,
}

fn part_inside(at: u32, site: Site) -> Part
    ensures { result ≡ spec.part_inside at site }
{
    if at == site.at {
        Part::Site(site)
    } else if u64::from(site.at) + u64::from(site.len) <= u64::from(at) {
        Part::Padding
    } else {
        Part::Alone
    }
}

fn part_at(at: u32, place: AtOffset) -> Part
    ensures { result ≡ spec.part_at at place }
{
    match place {
        AtOffset::Inside(site) => part_inside(at, site),
        AtOffset::Outside | AtOffset::NotAStart => Part::Alone,
    }
}

/// What an instruction of the text is.
pub fn part_of(image: &Checked, here: &Here) -> Part
    ensures part { result ≡ spec.part_of image.now (swept here.now) }
    ensures short { IsShort result }
{
    image.accepted();
    places();
    inside_sites();
    outside_sites();
    if here.at as usize + here.len as usize == image.text().len() {
        Part::End
    } else {
        part_at(here.at, image.place(here.at))
    }
}

fn is_hlt(op: Op) -> bool
    ensures { result ≡ spec.is_hlt op }
{
    matches!(op, Op::Hlt)
}

fn is_sti_kind(kind: SiteKind) -> bool
    ensures { result ≡ spec.is_sti_kind kind }
{
    matches!(kind, SiteKind::Sti)
}

fn is_sti_at(place: AtOffset) -> bool
    ensures { result ≡ spec.is_sti_at place }
{
    match place {
        AtOffset::Inside(site) => is_sti_kind(site.kind),
        AtOffset::Outside | AtOffset::NotAStart => false,
    }
}

/// Whether it is HLT directly after the site of an STI alone.
pub fn is_kept_apart(image: &Checked, here: &Here) -> bool
    ensures { result ≡ spec.is_kept_apart image.now (swept here.now) }
{
    is_hlt(here.insn.op) && is_sti_at(image.place(here.at.saturating_sub(1)))
}
