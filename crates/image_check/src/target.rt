//! Where control may come in from elsewhere.

ghost use Rattle.std.specs.Prelude.{◌≡◌, ℕ, ◌&&◌, ◌<◌, ◌≤◌, false, not, nat_lt, length, slice_index_or, IfOk};
ghost use Rattle.std.specs.List.{list_any};
ghost use Rattle.sites.specs.declared.limits.TheConstants.{TEXT_LIMIT};
ghost use Rattle.image_check.specs.Pieces.{all_pieces};
ghost use Rattle.image_check.specs.Stops.{AreLeft};
ghost use Rattle.image_check.specs.Targets.{is_inside, leads_wrong, wrong_target};

use crate::piece::Role;
use crate::sweeping::piece_there;
use sites::Site;
use std::alloc::{AllocError, Global};

/// Clears the flags after an offset and before another.
fn clear(flags: &mut Vec<bool>, behind: usize, before: usize)
    requires { behind < usize.MAX }
    ensures flags { (i : ℕ) → slice_index_or flags.new.items i false
        ≡ (slice_index_or flags.old.items i false && not (nat_lt behind i && nat_lt i before)) }
    ensures len { length flags.new.items ≡ length flags.old.items }
{
    let end = before.min(flags.len());
    for i in (behind + 1).min(end)..end {
        flags[i] = false;
    }
}

/// For each byte of a text, whether an instruction begins there that is not in a site past its
/// first byte.
pub fn entrances(alloc: Global, starts: &[bool], sites: &[Site]) -> Result<Vec<bool>, AllocError>
    ensures { IfOk result (λ flags. (i : ℕ) → slice_index_or flags.items i false
        ≡ (slice_index_or starts.now i false && not (list_any (is_inside i) sites.now))) }
{
    let mut flags = Vec::from_slice(alloc, starts)?;
    for site in sites {
        let at = site.at as usize;
        clear(&mut flags, at, at + site.total as usize);
    }
    Ok(flags)
}

fn leads_wrong(entrances: &[bool], role: Role) -> bool
    ensures { result ≡ leads_wrong (λ i. slice_index_or entrances.now i false) role }
{
    match role {
        Role::Branch(target) => {
            let at = target as usize;
            at >= entrances.len() || !entrances[at]
        }
        _ => false,
    }
}

/// The offset of the first direct branch of a text that leads elsewhere.
pub fn wrong_target(text: &[u8], entrances: &[bool]) -> Option<u32>
    requires limit { length text.now ≤ TEXT_LIMIT }
    requires left { AreLeft text.now 0 (all_pieces text.now) }
    ensures { result ≡ wrong_target (λ i. slice_index_or entrances.now i false) (all_pieces text.now) }
{
    let mut at = 0;
    while let Some(piece) = piece_there(text, at) {
        if leads_wrong(entrances, piece.role) {
            return Some(piece.at);
        }
        at += piece.len as usize;
    }
    None
}
