//! Reading a list of sites: the front of both formats, and format 1.

ghost use Rattle.std.specs.Prelude.{◌≡◌, IfOk, ◌<◌, ◌≤◌, ◌+◌, ◌^◌, length, IfNone, IfSome};
ghost use Rattle.sites.specs.SitesParts.{SitesParts};
ghost use Rattle.sites.specs.Spelling.{spelling};
ghost use Rattle.sites.specs.Form.{AreInForm, IsInForm};
ghost use Rattle.sites.specs.Reading.{differs, cut_before, head_fault, falls, has_no_kind, has_wrong_total, site_fault, sites_fault, site_at, sites_at, placed_in};
ghost use Rattle.sites.specs.Answers.{Gives};
ghost use Rattle.sites.specs.Formats.{told_format, told_count, sites_in};

use crate::gapped::gapped_in;
use crate::kind::kind_numbered;
use crate::site::{Site, Sites, SitesFault};
use crate::words::byte_or_zero;
use guest_ram::{byte, word};
use ia32_types::SiteKind;
use std::alloc::Global;

fn differs(bytes: &[u8], at: usize, v: u8) -> bool
    ensures { result ≡ differs bytes.now at v }
{
    at < bytes.len() && byte(bytes, at) != v
}

/// The first bad byte of the eight at the front.
#[tactic(auto, unfolding(crate::specs::Reading::head_fault))]
pub fn head_fault(bytes: &[u8], format: u8) -> Option<usize>
    ensures place { result ≡ head_fault bytes.now format }
    ensures inside { IfSome result (λ at. at ≤ length bytes.now) }
    ensures room { IfNone result (8 ≤ length bytes.now) }
{
    if differs(bytes, 0, 80) {
        return Some(0);
    }
    if differs(bytes, 1, 86) {
        return Some(1);
    }
    if differs(bytes, 2, 83) {
        return Some(2);
    }
    if differs(bytes, 3, format) {
        return Some(3);
    }
    if bytes.len() < 8 {
        return Some(bytes.len());
    }
    None
}

fn falls(bytes: &[u8], least: u64, a: usize) -> bool
    requires { a < 2 ^ 40 }
    ensures { result ≡ falls bytes.now least a }
{
    bytes.len() >= a + 4 && (word(bytes, a) as u64) < least
}

/// Whether the byte is there, and is the number of no kind of site.
pub fn has_no_kind(bytes: &[u8], at: usize) -> bool
    ensures { result ≡ has_no_kind bytes.now at }
{
    at < bytes.len() && kind_numbered(byte(bytes, at)).is_none()
}

fn has_wrong_total(bytes: &[u8], a: usize) -> bool
    requires { a < 2 ^ 40 }
    ensures { result ≡ has_wrong_total bytes.now a }
{
    a + 6 < bytes.len() && byte(bytes, a + 6) != byte(bytes, a + 5).max(5)
}

/// The first bad byte of a site.
#[tactic(auto, unfolding(crate::specs::Reading::site_fault))]
fn site_fault(bytes: &[u8], least: u64, a: usize) -> Option<usize>
    requires { a < 2 ^ 40 }
    ensures place { result ≡ site_fault bytes.now least a }
    ensures room { IfNone result (a + 8 ≤ length bytes.now) }
    ensures small { IfSome result (λ at. at ≤ length bytes.now) }
{
    if falls(bytes, least, a) {
        return Some(a);
    }
    if has_no_kind(bytes, a + 4) {
        return Some(a + 4);
    }
    if has_wrong_total(bytes, a) {
        return Some(a + 6);
    }
    if differs(bytes, a + 7, 0) {
        return Some(a + 7);
    }
    if bytes.len() < a + 8 {
        return Some(bytes.len());
    }
    None
}

#[tactic(auto, unfolding(crate::specs::Reading::site_at))]
fn site_at(bytes: &[u8], a: usize) -> Site
    requires { a + 8 ≤ length bytes.now }
    ensures { result ≡ site_at bytes.now a }
{
    Site {
        at: word(bytes, a),
        kind: kind_numbered(byte(bytes, a + 4)).unwrap_or(SiteKind::Cli),
        len: byte(bytes, a + 5),
        total: byte(bytes, a + 6),
    }
}

/// The sites in format 1.
fn placed_in(alloc: Global, bytes: &[u8]) -> Result<Sites, SitesFault>
    requires { length bytes.now < 2 ^ 32 }
    ensures { Gives result (placed_in bytes.now) }
{
    if let Some(at) = head_fault(bytes, 49) {
        return Err(SitesFault::Form { at: at as u32 });
    }
    let count = word(bytes, 4);
    let mut list = Vec::new(alloc);
    let mut least: u64 = 0;
    for i in 0..count {
        let a = 8 + 8 * i as usize;
        if let Some(at) = site_fault(bytes, least, a) {
            return Err(SitesFault::Form { at: at as u32 });
        }
        let site = site_at(bytes, a);
        least = site.at as u64 + 1;
        list.push(site)?;
    }
    let end = 8 + 8 * count as usize;
    if end < bytes.len() {
        return Err(SitesFault::Form { at: end as u32 });
    }
    Ok(Sites { list, format: 1 })
}

/// The sites in the format that the fourth byte gives.
#[tactic(auto, unfolding(crate::specs::Formats::sites_in))]
fn sites_in(alloc: Global, bytes: &[u8]) -> Result<Sites, SitesFault>
    requires { length bytes.now < 2 ^ 32 }
    ensures { Gives result (sites_in bytes.now) }
{
    if byte_or_zero(bytes, 3) == 50 {
        return gapped_in(alloc, bytes);
    }
    placed_in(alloc, bytes)
}

/// The sites that the bytes spell in one of the two formats, or the first bad byte.
pub fn read_sites(alloc: Global, bytes: &[u8]) -> Result<Sites, SitesFault>
    requires { length bytes.now < 2 ^ 32 }
    // The bytes are the one spelling of the value, and the format is part of the value.
    ensures spelled { IfOk result (λ s. (bytes.now ≡ spelling s) × IsInForm s) }
    // The offsets rise in both formats.
    ensures rising { IfOk result (λ s. AreInForm 0 s.list) }
    // The fourth byte gives the format.
    ensures told { IfOk result (λ s. s.format ≡ told_format bytes.now) }
    ensures count { IfOk result (λ s. length s.list ≡ told_count bytes.now) }
    // What is spelled is read, unless memory runs out.
    ensures only { (sites : SitesParts) → IsInForm sites → bytes.now ≡ spelling sites → Gives result (Ok sites) }
    ensures exact { Gives result (sites_in bytes.now) }
{
    sites_in(alloc, bytes)
}

/// The count that annotations give: that of their sites, where they are read.
#[tactic(auto, unfolding(crate::specs::Formats::told_count))]
pub fn count(bytes: &[u8]) -> u32
    ensures { result ≡ told_count bytes.now }
{
    if bytes.len() < 8 {
        return 0;
    }
    word(bytes, 4)
}
