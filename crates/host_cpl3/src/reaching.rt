//! The ranges of an instruction.

ghost use Rattle.std.specs.Prelude.{◌≡◌, ◌+◌, ◌*◌, ◌/◌, ◌<◌, ◌≤◌, ◌^◌, length, IfOk, OnOk, Ok, Err, Some, MatchResult};
ghost use Rattle.ia32_exec.specs.Short.{IsShort};
ghost use Rattle.host_cpl3.specs.Access.{segment_met, pages_met, range_met, access_met, last_page};
ghost use Rattle.host_cpl3.specs.KeptWalks.{AreKept};
ghost use Rattle.host_cpl3.specs.Reaches.{IsNone, IsReach, IsOf};

use crate::exit::Exit;
use crate::pages::page_met;
use crate::permit::{limit_fault, protection};
use crate::reach::Reach;
use crate::view::{View, is_null, is_past_limit};
use crate::walks::Walks;
use guest_ram::Ram;
use ia32_exec::Range;

/// A null segment denies every access.
pub fn segment_met(view: &View, range: &Option<Range>) -> Result<(), Exit>
    ensures { result ≡ segment_met view.now range.now }
{
    match range {
        Some(range) if is_null(view, range.seg) => Err(protection()),
        _ => Ok(()),
    }
}

// The frames of its first and of its last page.
#[tactic(auto, unfolding(crate::specs::Access::pages_met))]
fn pages_met(
    walks: &mut Walks,
    ram: &Ram,
    root: u32,
    write: bool,
    range: Range,
) -> Result<(u32, u32), Exit>
    requires root { 4096 * root < length ram.now }
    requires kept { AreKept walks.old ram.now root }
    requires short { (1 ≤ range.len) × (range.len ≤ 32) }
    requires fits { range.at + range.len ≤ 2 ^ 32 }
    ensures met { result ≡ pages_met ram.now root write range }
    ensures frames { IfOk result (λ frames. (frames.0 < length ram.now / 4096) × (frames.1 < length ram.now / 4096)) }
    ensures kept { AreKept walks.new ram.now root }
{
    let first = page_met(walks, ram, root, false, write, range.at)?;
    let last_page = (range.at + (range.len - 1)) / 4096;
    if last_page == range.at / 4096 {
        return Ok((first, first));
    }
    let last = page_met(walks, ram, root, false, write, last_page * 4096)?;
    Ok((first, last))
}

// A range that ends with the address space, lies above its segment's limit, and whose pages let the access pass.
#[tactic(auto, unfolding(crate::specs::Access::range_met))]
fn range_met(
    walks: &mut Walks,
    ram: &Ram,
    view: &View,
    write: bool,
    range: Range,
) -> Result<(u32, u32), Exit>
    requires root { 4096 * view.now.root < length ram.now }
    requires kept { AreKept walks.old ram.now view.now.root }
    requires short { (1 ≤ range.len) × (range.len ≤ 32) }
    ensures met { result ≡ range_met ram.now view.now write range }
    ensures frames { IfOk result (λ frames. (frames.0 < length ram.now / 4096) × (frames.1 < length ram.now / 4096)) }
    ensures kept { AreKept walks.new ram.now view.now.root }
{
    if u64::from(range.at) + u64::from(range.len) > 1 << 32 {
        return Err(Exit::Wrap);
    }
    if is_past_limit(view, range.at) {
        return Err(limit_fault(range.seg));
    }
    pages_met(walks, ram, view.root, write, range)
}

// A range that there is.
#[inline(never)]
fn reached(
    walks: &mut Walks,
    ram: &Ram,
    view: &View,
    write: bool,
    range: &Range,
    reach: &mut Reach,
) -> Result<(), Exit>
    requires root { 4096 * view.now.root < length ram.now }
    requires kept { AreKept walks.old ram.now view.now.root }
    requires short { (1 ≤ range.now.len) × (range.now.len ≤ 32) }
    ensures met { result ≡ access_met ram.now view.now write (Some range.now) }
    ensures reach { OnOk result (IsReach ram.now view.now.root reach.new) }
    ensures range { OnOk result (IsOf (Some range.now) reach.new) }
    ensures kept { AreKept walks.new ram.now view.now.root }
{
    let _len = ram.len();
    let (first, last) = range_met(walks, ram, view, write, *range)?;
    *reach = Reach {
        at: range.at,
        len: range.len,
        first,
        last,
    };
    Ok(())
}

/// Reaches a range, if there is one. Where there is none, nothing is written to `reach`.
#[inline(always)]
pub fn reach(
    walks: &mut Walks,
    ram: &Ram,
    view: &View,
    write: bool,
    range: &Option<Range>,
    reach: &mut Reach,
) -> Result<(), Exit>
    requires root { 4096 * view.now.root < length ram.now }
    requires kept { AreKept walks.old ram.now view.now.root }
    requires short { IsShort range.now }
    requires none { IsNone ram.now view.now.root reach.old }
    ensures met { result ≡ access_met ram.now view.now write range.now }
    ensures reach { OnOk result (IsReach ram.now view.now.root reach.new) }
    ensures range { OnOk result (IsOf range.now reach.new) }
    ensures kept { AreKept walks.new ram.now view.now.root }
{
    match range {
        None => Ok(()),
        Some(range) => reached(walks, ram, view, write, range, reach),
    }
}
