//! The frame of an address.

ghost use Rattle.std.specs.Prelude.{◌≡◌, ◌*◌, ◌/◌, ◌<◌, ◌^◌, length, IfOk};
ghost use Rattle.host_cpl3.specs.KeptWalks.{AreKept};
ghost use Rattle.host_cpl3.specs.Pages.{page_met, page_fault};

use crate::exit::Exit;
use crate::walks::Walks;
use guest_ram::Ram;
use paging::{Access, grants};

fn page_fault(there: bool, write: bool, at: u32) -> Exit
    ensures { result ≡ page_fault there write at }
{
    let code = 4 + if there { 1 } else { 0 } + if write { 2 } else { 0 };
    Exit::Fault {
        vector: 14,
        code,
        cr2: at,
    }
}

/// The frame of an address's page, where the view lets the access pass. `at` is the first byte of the access there. It
/// is a fetch, or an access of data.
#[tactic(auto, unfolding(crate::specs::Pages::page_met))]
#[inline(always)]
pub fn page_met(
    walks: &mut Walks,
    ram: &Ram,
    root: u32,
    fetch: bool,
    write: bool,
    at: u32,
) -> Result<u32, Exit>
    requires root { 4096 * root < length ram.now }
    requires kept { AreKept walks.old ram.now root }
    ensures met { result ≡ page_met ram.now root write at }
    ensures frame { IfOk result (λ frame. frame < length ram.now / 4096) }
    ensures kept { AreKept walks.new ram.now root }
{
    match walks.entry(ram, root, fetch, at / 4096) {
        None => Err(page_fault(false, write, at)),
        Some(entry) => {
            let access = Access { write, user: true };
            if grants(&entry, access, true) {
                Ok(entry.frame)
            } else {
                Err(page_fault(true, write, at))
            }
        }
    }
}
