//! Reading the instruction at EIP.

ghost use Rattle.std.specs.Prelude.{◌≡◌, ◌+◌, ◌*◌, ◌-◌, ◌/◌, ◌%◌, ◌<◌, ◌≤◌, ◌^◌, length, IfOk, OnOk, Ok, Err, MatchResult};
ghost use Rattle.host_cpl3.specs.Fetch.{fetching, fetched_by};
ghost use Rattle.ia32_decode.specs.declared.answer.Decoded.TheVariants.{Short};
ghost use Rattle.ia32_decode.specs.Spelled.{IsSpelled};
ghost use Rattle.host_cpl3.specs.KeptWalks.{AreKept};

use crate::exit::Exit;
use crate::pages::page_met;
use crate::walks::Walks;
use guest_ram::Ram;
use ia32_decode::{Decoded, LONGEST, decode_joined, next_page};

// Where the bytes of the first page are a proper prefix of a spelling, the second page is reached too.
#[inline(never)]
#[tactic(auto, unfolding(crate::specs::Fetch::fetched_on))]
fn fetch_over(
    walks: &mut Walks,
    ram: &Ram,
    root: u32,
    eip: u32,
    front: &[u8],
    begun: &mut Decoded,
) -> Result<(), Exit>
    requires root { 4096 * root < length ram.now }
    requires kept { AreKept walks.old ram.now root }
    requires few { length front.now ≤ 11 }
    ensures fetched { MatchResult result (λ _. fetched_by ram.now root eip front.now Short ≡ Ok begun.new)
        (λ exit. fetched_by ram.now root eip front.now Short ≡ Err exit) }
    ensures spelled { OnOk result (IsSpelled begun.new) }
    ensures kept { AreKept walks.new ram.now root }
{
    match next_page(eip) {
        None => Err(Exit::Wrap),
        Some(next) => {
            let more = fetching(walks, ram, root, next, LONGEST)?;
            *begun = decode_joined(front, more);
            Ok(())
        }
    }
}

/// What begins at a linear address, from what the bytes of its page begin. That is what they begin, unless they are a
/// proper prefix of a spelling: then the second page is reached too.
#[inline(always)]
pub fn fetch_whole(
    walks: &mut Walks,
    ram: &Ram,
    root: u32,
    eip: u32,
    front: &[u8],
    begun: &mut Decoded,
) -> Result<(), Exit>
    requires root { 4096 * root < length ram.now }
    requires kept { AreKept walks.old ram.now root }
    requires few { length front.now ≤ 11 }
    requires spelled { IsSpelled begun.old }
    ensures fetched { MatchResult result (λ _. fetched_by ram.now root eip front.now begun.old ≡ Ok begun.new)
        (λ exit. fetched_by ram.now root eip front.now begun.old ≡ Err exit) }
    ensures spelled { OnOk result (IsSpelled begun.new) }
    ensures kept { AreKept walks.new ram.now root }
{
    match begun {
        Decoded::Short => fetch_over(walks, ram, root, eip, front, begun),
        _ => Ok(()),
    }
}

/// Bytes of one page.
#[tactic(auto, unfolding(crate::specs::Fetch::fetching))]
#[inline(always)]
pub fn fetching<'a>(
    walks: &mut Walks,
    ram: &'a Ram,
    root: u32,
    at: u32,
    len: u32,
) -> Result<&'a [u8], Exit>
    requires root { 4096 * root < length ram.now }
    requires kept { AreKept walks.old ram.now root }
    requires one { at % 4096 + len ≤ 4096 }
    ensures fetching { MatchResult result (λ bytes. fetching ram.now root at len ≡ Ok bytes.now)
        (λ exit. fetching ram.now root at len ≡ Err exit) }
    ensures count { IfOk result (λ bytes. length bytes.now ≡ len) }
    ensures kept { AreKept walks.new ram.now root }
{
    let _len = ram.len();
    let frame = page_met(walks, ram, root, true, false, at)?;
    Ok(ram.part(4096 * frame + at % 4096, len))
}
