//! The sites of a text, and where the annotations differ from them.

ghost use Rattle.std.specs.Prelude.{◌≡◌, ◌≤◌, List, length, IfOk};
ghost use Rattle.sites.specs.Kinds.{number};
ghost use Rattle.sites.specs.declared.limits.TheConstants.{TEXT_LIMIT};
ghost use Rattle.image_check.specs.declared.piece.Piece.{Piece as PieceView};
ghost use Rattle.image_check.specs.Pieces.{all_pieces};
ghost use Rattle.image_check.specs.Stops.{AreLeft};
ghost use Rattle.image_check.specs.TextSites.{is_nop_role, is_sti, is_hlt, has_nops, has_hlt, begun_by, pair, single, found_in, is_same, differ};

use crate::piece::{Piece, Role};
use crate::sweeping::piece_there;
use ia32_types::SiteKind;
use sites::Site;
use std::alloc::{AllocError, Global};

/// What an instruction begins: no site, none for want of its NOPs, or a site.
#[derive(Clone, Copy)]
pub enum Here {
    Nothing,
    Lacks,
    Makes(Site),
}

/// The sites of a text up to the first sensitive instruction that lacks its NOPs, and its offset.
#[derive(Drop)]
pub struct Found {
    pub sites: Vec<Site>,
    pub lacking: Option<u32>,
}

fn is_nop_role(role: Role) -> bool
    ensures { result ≡ is_nop_role role }
{
    matches!(role, Role::Nop)
}

fn is_sti(role: Role) -> bool
    ensures { result ≡ is_sti role }
{
    matches!(role, Role::Site(SiteKind::Sti))
}

fn is_hlt(role: Role) -> bool
    ensures { result ≡ is_hlt role }
{
    matches!(role, Role::Site(SiteKind::Hlt))
}

/// Whether so many NOPs come first of the instructions from an offset on.
fn has_nops(count: u8, text: &[u8], from: usize) -> bool
    requires inside { from ≤ length text.now }
    requires limit { length text.now ≤ TEXT_LIMIT }
    ensures { (ps : List PieceView) → AreLeft text.now from ps → result ≡ has_nops count ps }
{
    let mut at = from;
    for _ in 0..count {
        match piece_there(text, at) {
            None => return false,
            Some(piece) => {
                if !is_nop_role(piece.role) {
                    return false;
                }
                at += piece.len as usize;
            }
        }
    }
    true
}

/// Whether HLT and three NOPs come first of the instructions from an offset on.
fn has_hlt(text: &[u8], at: usize) -> bool
    requires inside { at ≤ length text.now }
    requires limit { length text.now ≤ TEXT_LIMIT }
    ensures { (ps : List PieceView) → AreLeft text.now at ps → result ≡ has_hlt ps }
{
    match piece_there(text, at) {
        None => false,
        Some(first) => {
            if !is_hlt(first.role) {
                return false;
            }
            has_nops(3, text, at + first.len as usize)
        }
    }
}

fn pair(piece: Piece) -> Site
    ensures { result ≡ pair piece }
{
    Site {
        at: piece.at,
        kind: SiteKind::StiHlt,
        len: 2,
        total: 5,
    }
}

fn single(piece: Piece, kind: SiteKind) -> Site
    ensures { result ≡ single piece kind }
{
    Site {
        at: piece.at,
        kind,
        len: piece.len,
        total: piece.len.max(5),
    }
}

/// What an instruction begins, by those from an offset on.
#[tactic(auto, unfolding(crate::specs::TextSites::begun_by))]
fn begun_by(piece: Piece, text: &[u8], at: usize) -> Here
    requires inside { at ≤ length text.now }
    requires limit { length text.now ≤ TEXT_LIMIT }
    ensures { (ps : List PieceView) → AreLeft text.now at ps → result ≡ begun_by piece ps }
{
    if is_sti(piece.role) && has_hlt(text, at) {
        return Here::Makes(pair(piece));
    }
    match piece.role {
        Role::Site(kind) => {
            let site = single(piece, kind);
            if has_nops(site.total - piece.len, text, at) {
                Here::Makes(site)
            } else {
                Here::Lacks
            }
        }
        _ => Here::Nothing,
    }
}

/// The sites of a text.
pub fn find_sites(alloc: Global, text: &[u8]) -> Result<Found, AllocError>
    requires limit { length text.now ≤ TEXT_LIMIT }
    requires left { AreLeft text.now 0 (all_pieces text.now) }
    ensures sites { IfOk result (λ found. found.sites.items ≡ (found_in (all_pieces text.now)).sites) }
    ensures lacking { IfOk result (λ found. found.lacking ≡ (found_in (all_pieces text.now)).lacking) }
{
    let mut sites = Vec::new(alloc);
    let mut skipped: u8 = 0;
    let mut at = 0;
    while let Some(piece) = piece_there(text, at) {
        at += piece.len as usize;
        if skipped > 0 {
            skipped -= 1;
            continue;
        }
        match begun_by(piece, text, at) {
            Here::Nothing => {}
            Here::Lacks => {
                return Ok(Found {
                    sites,
                    lacking: Some(piece.at),
                });
            }
            Here::Makes(site) => {
                sites.push(site)?;
                skipped = site.total.saturating_sub(piece.len);
            }
        }
    }
    Ok(Found {
        sites,
        lacking: None,
    })
}

fn number(kind: SiteKind) -> u8
    ensures { result ≡ number kind }
{
    kind as u8
}

fn is_same(s: Site, t: Site) -> bool
    ensures { result ≡ is_same s t }
{
    s.at == t.at && number(s.kind) == number(t.kind) && s.len == t.len && s.total == t.total
}

/// The lowest offset at which two lists of sites differ.
pub fn differ(a: &[Site], b: &[Site]) -> Option<u32>
    ensures { result ≡ differ a.now b.now }
{
    let both = a.len().min(b.len());
    for i in 0..both {
        let s = a[i];
        let t = b[i];
        if !is_same(s, t) {
            return Some(s.at.min(t.at));
        }
    }
    if both < a.len() {
        let s = a[both];
        return Some(s.at);
    }
    if both < b.len() {
        let t = b[both];
        return Some(t.at);
    }
    None
}
