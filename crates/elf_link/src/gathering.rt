//! Each object tested after those before it, and what is kept of it.

ghost use Rattle.std.specs.Prelude.{◌≡◌, ◌+◌, ◌≤◌, ◌<◌, ◌^◌, ◌++◌, [], All, length, map, nat_lt, Ok, OnOk, IfOk};
ghost use Rattle.std.specs.List.{list_any};
ghost use Rattle.elf_link.specs.Layout.{numbered, text_end};
ghost use Rattle.elf_link.specs.Symbols.{exports, globals};
ghost use Rattle.elf_link.specs.Sites.{sites_of, moved, linked_sites};
ghost use Rattle.elf_form.specs.Linkable.{IsLinkable};
ghost use Rattle.sites.specs.Form.{AreGapped};
ghost use Rattle.elf_form.specs.Tables.{first_some};
ghost use Rattle.elf_link.specs.Refusals.{refused, doubled_cause, object_refusal};
ghost use Rattle.elf_link.specs.Steps.{IsWithin, AreBelow, totals, with_object, step_cause, is_crowded, own_sites, placed_sites, tested};
ghost use Rattle.elf_link.specs.Answers.{Gives};

use crate::fault::{LinkCause, LinkFault};
use crate::globals::{Globals, export};
use crate::totals::{Totals, size_cause, with_object};
use elf_form::{Bytes, Object};
use sites::{SHORT_TEXT, SITE_LIMIT, Site, Sites, SitesFault, TEXT_LIMIT, are_gapped, read_sites};
use std::alloc::{AllocError, Global};

/// What is known of the objects up to one: their sums, their global names, and their sites, moved
/// with their texts.
#[derive(Drop)]
pub struct Gathered {
    pub totals: Totals,
    pub globals: Globals,
    pub sites: Vec<Site>,
}

/// Refuses an object where there is a cause.
pub fn refuse(number: u32, cause: Option<LinkCause>) -> Result<(), LinkFault>
    ensures { Gives (λ _. tt) result (tested (refused number cause)) }
{
    match cause {
        None => Ok(()),
        Some(cause) => Err(LinkFault::At {
            object: number,
            cause,
        }),
    }
}

fn doubled_cause(name: Option<Bytes>) -> Option<LinkCause>
    ensures { result ≡ doubled_cause name }
{
    match name {
        None => None,
        Some(name) => Some(LinkCause::Doubled(name)),
    }
}

/// Whether a site ends past a text of so many bytes.
fn pass_end(sites: &[Site], text: usize) -> bool
    ensures { result ≡ list_any (λ s. nat_lt text (s.at + s.total)) sites.now }
{
    sites
        .iter()
        .any(|s| text < s.at as usize + s.total as usize)
}

/// The sites of an object, after a number of other sites. They are refused where they do not have
/// their form, pass the end of the text, or are too many.
#[tactic(auto, unfolding(crate::specs::Steps::own_sites, crate::specs::Sites::sites_of))]
fn own_sites(alloc: Global, number: u32, before: usize, object: &Object) -> Result<Sites, LinkFault>
    requires short { length object.now.sites < 2 ^ 32 }
    requires before { before ≤ SITE_LIMIT }
    ensures exact { Gives (λ s. s.list) result (own_sites number before object.now) }
    ensures below { IfOk result (λ s. AreBelow (length object.now.text) s.list) }
    ensures few { IfOk result (λ s. before + length s.list ≤ SITE_LIMIT) }
{
    let sites = match read_sites(alloc, &object.sites) {
        Ok(sites) => sites,
        Err(SitesFault::Memory) => return Err(LinkFault::Memory),
        Err(SitesFault::Form { at: _ }) => {
            return Err(LinkFault::At {
                object: number,
                cause: LinkCause::SitesForm,
            });
        }
    };
    if pass_end(&sites.list, object.text.len()) || before + sites.list.len() > SITE_LIMIT {
        return Err(LinkFault::At {
            object: number,
            cause: LinkCause::SitesForm,
        });
    }
    Ok(sites)
}

/// Adds sites of a text that stands at `by`.
fn put_moved(out: &mut Vec<Site>, sites: &[Site], by: u32) -> Result<(), AllocError>
    requires { All (λ s. s.at + by < 2 ^ 32) sites.now }
    ensures { OnOk result (out.new.items ≡ out.old.items ++ map (moved by) sites.now) }
{
    for s in sites {
        out.push(Site {
            at: s.at + by,
            kind: s.kind,
            len: s.len,
            total: s.total,
        })?;
    }
    Ok(())
}

/// Whether sites after others would have to be written in format 2, for the length of the text, and
/// can't be.
fn are_crowded(
    alloc: Global,
    all: &Gathered,
    object: &Object,
    sites: &[Site],
) -> Result<bool, AllocError>
    requires room { all.now.totals.text + length object.now.text + 2 ≤ TEXT_LIMIT }
    requires below { AreBelow (length object.now.text) sites.now }
    ensures { IfOk result (λ b. b ≡ is_crowded all.now.totals all.now.sites.items (length object.now.text) sites.now) }
{
    if all.totals.text + object.text.len() + 2 <= SHORT_TEXT {
        return Ok(false);
    }
    let mut joined = Vec::from_slice(alloc, &all.sites)?;
    put_moved(&mut joined, sites, all.totals.text as u32)?;
    Ok(!are_gapped(&joined))
}

/// The sites of an object after all others. They are also refused where they are crowded.
#[tactic(auto, unfolding(crate::specs::Steps::placed_sites, crate::specs::Steps::own_sites, crate::specs::Steps::sites_wrong_by))]
fn placed_sites(
    alloc: Global,
    number: u32,
    all: &Gathered,
    object: &Object,
) -> Result<Sites, LinkFault>
    requires short { length object.now.sites < 2 ^ 32 }
    requires within { IsWithin all.now.totals }
    requires room { all.now.totals.text + length object.now.text + 2 ≤ TEXT_LIMIT }
    ensures exact { Gives (λ s. s.list) result (placed_sites number all.now.totals all.now.sites.items object.now) }
    ensures below { IfOk result (λ s. AreBelow (length object.now.text) s.list) }
    ensures few { IfOk result (λ s. all.now.totals.sites + length s.list ≤ SITE_LIMIT) }
{
    let sites = own_sites(alloc, number, all.totals.sites, object)?;
    if are_crowded(alloc, all, object, &sites.list)? {
        return Err(LinkFault::At {
            object: number,
            cause: LinkCause::SitesForm,
        });
    }
    Ok(sites)
}

/// Tests one more object, and keeps what is needed of it.
#[tactic(auto, unfolding(crate::specs::Steps::step_cause))]
fn gather(alloc: Global, number: u32, object: &Object, all: &mut Gathered) -> Result<(), LinkFault>
    requires linkable { IsLinkable object.now }
    requires within { IsWithin all.old.totals }
    ensures exact { Gives (λ _. tt) result (tested (refused number
        (step_cause all.old.totals all.old.sites.items all.old.globals (number, object.now)))) }
    ensures totals { OnOk result (all.new.totals ≡ with_object all.old.totals object.now) }
    ensures globals { OnOk result (all.new.globals ≡ all.old.globals ++ exports (number, object.now)) }
    ensures sites { OnOk result (all.new.sites.items ≡ all.old.sites.items ++ map (moved all.old.totals.text) (sites_of object.now)) }
    ensures below { OnOk result (AreBelow (length object.now.text) (sites_of object.now)) }
    ensures within { OnOk result (IsWithin all.new.totals) }
{
    refuse(number, size_cause(&all.totals, object))?;
    let sites = placed_sites(alloc, number, all, object)?;
    let name = export(alloc, &mut all.globals, number, &object.symbols)?;
    refuse(number, doubled_cause(name))?;
    put_moved(&mut all.sites, &sites.list, all.totals.text as u32)?;
    all.totals = with_object(&all.totals, object, sites.list.len());
    Ok(())
}

/// Each object tested in turn.
pub fn gather_all(alloc: Global, objects: &Vec<Object>) -> Result<Gathered, LinkFault>
    requires few { length objects.now.items ≤ 64 }
    requires linkable { All IsLinkable objects.now.items }
    ensures exact { Gives (λ _. tt) result (tested (first_some (object_refusal objects.now.items) (numbered objects.now.items))) }
    ensures totals { IfOk result (λ all. all.totals ≡ totals objects.now.items) }
    ensures within { IfOk result (λ _. IsWithin (totals objects.now.items)) }
    ensures globals { IfOk result (λ all. all.globals ≡ globals objects.now.items) }
    ensures sites { IfOk result (λ all. all.sites.items ≡ linked_sites objects.now.items) }
    ensures below { IfOk result (λ all. AreBelow (text_end objects.now.items) all.sites.items) }
    ensures count { IfOk result (λ all. length all.sites.items ≤ SITE_LIMIT) }
    ensures fits { IfOk result (λ _. text_end objects.now.items + 2 ≤ TEXT_LIMIT) }
    ensures gaps { IfOk result (λ all. SHORT_TEXT < text_end objects.now.items + 2 → AreGapped 0 all.sites.items) }
{
    let mut all = Gathered {
        totals: Totals {
            text: 0,
            memory: 0,
            symbols: 0,
            sites: 0,
        },
        globals: Globals::new(alloc),
        sites: Vec::new(alloc),
    };
    for (i, object) in objects.iter().enumerate() {
        gather(alloc, i as u32, object, &mut all)?;
    }
    Ok(all)
}
