//! Format 2: each site by the gap from the end of the one before.

ghost use Rattle.std.specs.Prelude.{◌≡◌, ◌<◌, ◌≤◌, ◌+◌, ◌^◌, ◌++◌, IsTrue, length, IfNone, IfSome, OnOk, IfOk};
ghost use Rattle.sites.specs.Spelling.{gap, gapped};
ghost use Rattle.sites.specs.Form.{AreGapped};
ghost use Rattle.sites.specs.Reading.{cut_before};
ghost use Rattle.sites.specs.Answers.{Gives};
ghost use Rattle.sites.specs.Gapped as spec;

use crate::kind::{kind_numbered, number};
use crate::limits::SITE_LIMIT;
use crate::reading::{has_no_kind, head_fault};
use crate::site::{Site, Sites, SitesFault};
use crate::words::byte_or_zero;
use guest_ram::{byte, word};
use ia32_types::SiteKind;
use std::alloc::{AllocError, Global};

/// The gap before a site, of three bytes.
fn gap_at(bytes: &[u8], a: usize) -> u64
    requires { a + 3 ≤ length bytes.now }
    ensures gap { result ≡ spec.gap_at bytes.now a }
    ensures small { result < 2 ^ 24 }
{
    byte(bytes, a) as u64 + 256 * byte(bytes, a + 1) as u64 + 65536 * byte(bytes, a + 2) as u64
}

/// Where a site ends.
fn end_at(bytes: &[u8], from: u64, a: usize) -> u64
    requires room { a + 3 ≤ length bytes.now }
    requires from { from < 2 ^ 32 }
    ensures { result ≡ spec.end_at bytes.now from a }
{
    from + gap_at(bytes, a) + byte_or_zero(bytes, a + 4).max(5) as u64
}

fn passes(bytes: &[u8], from: u64, a: usize) -> bool
    requires a { a < 2 ^ 40 }
    requires from { from < 2 ^ 32 }
    ensures { result ≡ spec.passes bytes.now from a }
{
    bytes.len() >= a + 3 && end_at(bytes, from, a) > u32::MAX as u64
}

fn has_wrong_length(bytes: &[u8], at: usize) -> bool
    ensures { result ≡ spec.has_wrong_length bytes.now at }
{
    at < bytes.len() && !(byte(bytes, at) > 0 && byte(bytes, at) < 12)
}

/// The first bad byte of a site.
#[tactic(auto, unfolding(crate::specs::Gapped::gap_fault))]
fn gap_fault(bytes: &[u8], from: u64, a: usize) -> Option<usize>
    requires a { a < 2 ^ 40 }
    requires from { from < 2 ^ 32 }
    ensures place { result ≡ spec.gap_fault bytes.now from a }
    ensures room { IfNone result (a + 5 ≤ length bytes.now) }
    ensures end { IfNone result (spec.end_at bytes.now from a < 2 ^ 32) }
    ensures small { IfSome result (λ at. at ≤ length bytes.now) }
{
    if passes(bytes, from, a) {
        return Some(a);
    }
    if has_no_kind(bytes, a + 3) {
        return Some(a + 3);
    }
    if has_wrong_length(bytes, a + 4) {
        return Some(a + 4);
    }
    if bytes.len() < a + 5 {
        return Some(bytes.len());
    }
    None
}

#[tactic(auto, unfolding(crate::specs::Gapped::gap_site))]
fn gap_site(bytes: &[u8], from: u64, a: usize) -> Site
    requires room { a + 5 ≤ length bytes.now }
    requires from { from < 2 ^ 32 }
    requires end { spec.end_at bytes.now from a < 2 ^ 32 }
    ensures { result ≡ spec.gap_site bytes.now from a }
{
    let len = byte(bytes, a + 4);
    Site {
        at: (from + gap_at(bytes, a)) as u32,
        kind: kind_numbered(byte(bytes, a + 3)).unwrap_or(SiteKind::Cli),
        len,
        total: len.max(5),
    }
}

/// The sites in format 2.
pub fn gapped_in(alloc: Global, bytes: &[u8]) -> Result<Sites, SitesFault>
    requires { length bytes.now < 2 ^ 32 }
    ensures { Gives result (spec.gapped_in bytes.now) }
{
    if let Some(at) = head_fault(bytes, 50) {
        return Err(SitesFault::Form { at: at as u32 });
    }
    let count = word(bytes, 4);
    let mut list = Vec::new(alloc);
    let mut from: u64 = 0;
    for i in 0..count {
        let a = 8 + 5 * i as usize;
        if let Some(at) = gap_fault(bytes, from, a) {
            return Err(SitesFault::Form { at: at as u32 });
        }
        let site = gap_site(bytes, from, a);
        from = site.at as u64 + site.total as u64;
        list.push(site)?;
    }
    let end = 8 + 5 * count as usize;
    if end < bytes.len() {
        return Err(SitesFault::Form { at: end as u32 });
    }
    Ok(Sites { list, format: 2 })
}

/// A site in format 2, after one that ends at `from`.
fn put_gap(out: &mut Vec<u8>, from: u64, s: &Site) -> Result<(), AllocError>
    requires rises { from ≤ s.now.at }
    requires near { s.now.at < from + 2 ^ 24 }
    ensures { OnOk result (out.new.items ≡ out.old.items ++ gap from s.now) }
{
    let gap = s.at as u64 - from;
    let low = (gap % 256) as u8;
    let middle = (gap / 256 % 256) as u8;
    let high = (gap / 256 / 256) as u8;
    out.extend_from_slice(&[low, middle, high, number(s.kind), s.len])
}

/// The one spelling in format 2.
pub fn write_gapped(alloc: Global, sites: &[Site]) -> Result<Vec<u8>, AllocError>
    requires count { length sites.now ≤ SITE_LIMIT }
    requires sites { AreGapped 0 sites.now }
    ensures { IfOk result (λ v. v.items ≡ gapped sites.now) }
{
    let mut out = Vec::new(alloc);
    out.extend_from_slice(b"PVS2")?;
    out.extend_from_slice(&(sites.len() as u32).to_le_bytes())?;
    let mut from: u64 = 0;
    for s in sites {
        put_gap(&mut out, from, s)?;
        from = s.at as u64 + s.total as u64;
    }
    Ok(out)
}

fn is_gapped(from: u64, s: &Site) -> bool
    ensures { result ≡ spec.is_gapped from s.now }
{
    let at = s.at as u64;
    at >= from && at - from < 16_777_216 && s.len > 0 && s.len < 12 && s.total == s.len.max(5)
}

fn tested(sites: &[Site]) -> bool
    ensures { result ≡ spec.are_gapped 0 sites.now }
{
    let mut from: u64 = 0;
    for s in sites {
        if !is_gapped(from, s) {
            return false;
        }
        from = s.at as u64 + s.total as u64;
    }
    true
}

/// Whether the sites can be written in format 2.
#[tactic(auto, using(crate::proofs::Gaps::gapped_by, crate::proofs::Gaps::gapped_test))]
pub fn are_gapped(sites: &[Site]) -> bool
    ensures exact { result ≡ spec.are_gapped 0 sites.now }
    ensures are { IsTrue result → AreGapped 0 sites.now }
    ensures only { AreGapped 0 sites.now → IsTrue result }
{
    tested(sites)
}
