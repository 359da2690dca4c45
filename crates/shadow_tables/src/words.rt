//! The word that keeps an entry: the frame in bits 12 to 31, the entry's user, write and dirty flags in bits 9 to 11,
//! and the host's rights in bits 0 to 2: present (P), write (R/W) and user (U/S). Bit 2 is always set, so that the word
//! isn't 0. Bits 3 to 8 are 0: PWT, PCD, accessed (A), dirty (D), PAT and global (G).

ghost use Rattle.std.specs.Prelude.{◌≡◌, ◌≤◌, ◌<◌, ◌^◌};
ghost use Rattle.shadow_tables.specs.Slots.{is_user, permits, filled, worth, word_of, entry_of, lets};

use paging::{Access, Entry, allows};

/// Whose view it is.
#[derive(Clone, Copy, PartialEq, Eq)]
pub enum Side {
    Kernel,
    User,
}

fn is_user(side: Side) -> bool
    ensures { result ≡ is_user side }
{
    match side {
        Side::Kernel => false,
        Side::User => true,
    }
}

/// The entry lets the view of that side do the access, by the rights that CR0.WP gives it.
pub fn permits(side: Side, entry: &Entry, write: bool, wp: bool) -> bool
    requires page { entry.now.page < 2 ^ 20 }
    requires frame { entry.now.frame < 2 ^ 20 }
    ensures { result ≡ permits side entry.now write wp }
{
    allows(
        entry,
        Access {
            write,
            user: is_user(side),
        },
        wp,
    )
}

fn worth(on: bool) -> u32
    ensures value { result ≡ worth on }
    ensures small { result ≤ 1 }
{
    if on { 1 } else { 0 }
}

/// The word of an entry in a view, perhaps barred from writes.
#[tactic(auto, unfolding(crate::specs::Slots::word_of))]
pub fn word_of(side: Side, entry: &Entry, wp: bool, barred: bool) -> u32
    requires page { entry.now.page < 2 ^ 20 }
    requires frame { entry.now.frame < 2 ^ 20 }
    ensures { result ≡ word_of (filled barred side entry.now wp) }
{
    let reads = permits(side, entry, false, wp);
    let writes = !barred && permits(side, entry, true, wp);
    4096 * entry.frame
        + 2048 * worth(entry.dirty)
        + 1024 * worth(entry.write)
        + 512 * worth(entry.user)
        + 4
        + 2 * worth(writes)
        + worth(reads)
}

/// The entry that a word keeps.
pub fn entry_of(page: u32, word: u32) -> Entry
    ensures { result ≡ entry_of page word }
{
    Entry {
        page,
        frame: word / 4096,
        user: word / 512 % 2 == 1,
        write: word / 1024 % 2 == 1,
        dirty: word / 2048 % 2 == 1,
    }
}

/// A word lets the host do the access.
pub fn lets(word: u32, write: bool) -> bool
    ensures { result ≡ lets word write }
{
    if write {
        word / 2 % 2 == 1
    } else {
        word % 2 == 1
    }
}
