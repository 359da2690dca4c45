//! Sums over the objects before one, and what they leave to it.

ghost use Rattle.std.specs.Prelude.{◌≡◌, ◌+◌, ◌≤◌, ◌<◌, ◌^◌, length, IfNone};
ghost use Rattle.elf_link.specs.Layout.{round_up};
ghost use Rattle.elf_link.specs.Sites.{sites_of};
ghost use Rattle.elf_link.specs.Steps.{IsWithin, HasRoom, size_cause, with_object};

use crate::fault::LinkCause;
use elf_form::{Object, SYMBOL_LIMIT, pad};
use sites::{INIT_LIMIT, SITE_LIMIT, TEXT_LIMIT};

/// What some objects take: bytes of text and of data with zeroed bytes, each with the gap after
/// it, and numbers of symbols and sites.
#[derive(Clone, Copy)]
pub struct Totals {
    pub text: usize,
    pub memory: usize,
    pub symbols: usize,
    pub sites: usize,
}

/// The next multiple of `to`.
pub fn round_up(to: usize, n: usize) -> usize
    requires to { (1 ≤ to) × (to ≤ 4096) }
    requires small { n < 2 ^ 63 }
    ensures { result ≡ round_up to n }
{
    n + pad(to, n)
}

/// The limit that an object breaks, if it does.
#[tactic(auto, unfolding(crate::specs::Steps::size_cause))]
pub fn size_cause(before: &Totals, object: &Object) -> Option<LinkCause>
    requires { IsWithin before.now }
    ensures cause { result ≡ size_cause before.now object.now }
    ensures room { IfNone result (HasRoom before.now object.now) }
{
    if before.text + object.text.len() + 2 > TEXT_LIMIT {
        return Some(LinkCause::TextTooLarge);
    }
    let memory = before.memory
        + round_up(4096, object.init.len())
        + round_up(4096, object.bss as usize);
    if memory > INIT_LIMIT {
        return Some(LinkCause::InitTooLarge);
    }
    if before.symbols + object.symbols.len() > SYMBOL_LIMIT {
        return Some(LinkCause::TooManySymbols);
    }
    None
}

/// The sums with one more object.
#[tactic(auto, unfolding(crate::specs::Steps::with_object))]
pub fn with_object(before: &Totals, object: &Object, sites: usize) -> Totals
    requires within { IsWithin before.now }
    requires sites { (sites ≡ length (sites_of object.now)) × (before.now.sites + sites ≤ SITE_LIMIT) }
    requires room { HasRoom before.now object.now }
    ensures sums { result ≡ with_object before.now object.now }
    ensures within { IsWithin result }
{
    Totals {
        text: before.text + round_up(16, object.text.len()),
        memory: before.memory
            + round_up(4096, object.init.len())
            + round_up(4096, object.bss as usize),
        symbols: before.symbols + object.symbols.len(),
        sites: before.sites + sites,
    }
}
