//! The tables of both views that stand, and the words in them that aren't 0: a pass over what is kept follows these.

ghost use Rattle.std.specs.Prelude.{◌≡◌, ◌≢◌, ℕ, ◌+◌, ◌*◌, ◌/◌, ◌≤◌, ◌<◌, ◌^◌, length, None};
ghost use Rattle.guest_ram.specs.Bytes.{word32};
ghost use Rattle.shadow_views.specs.Tables.{by_dir, dir};
ghost use Rattle.shadow_tables.specs.Slots.{slot_at, IsShadow};

use crate::shadow::Shadow;
use crate::words::Side;
use guest_ram::{FRAME, Ram};
use shadow_views::{are_none, dir};

/// The first pair of words, from this one on, that isn't 0 in both frames; 512 where there is none.
fn next_pair_in(ram: &Ram, first: u32, second: u32, from: u32) -> u32
    requires first { 4096 * first + 4096 ≤ length ram.now }
    requires second { 4096 * second + 4096 ≤ length ram.now }
    requires from { from ≤ 512 }
    ensures behind { from ≤ result }
    ensures within { result ≤ 512 }
    ensures first { (i : ℕ) → 2 * from ≤ i → i < 2 * result → word32 ram.now (4096 * first + 4 * i) ≡ 0 }
    ensures second { (i : ℕ) → 2 * from ≤ i → i < 2 * result → word32 ram.now (4096 * second + 4 * i) ≡ 0 }
    ensures found { result < 512 → ((k : ℕ) → k < 2
        → (word32 ram.now (4096 * first + 8 * result + 4 * k) ≡ 0) × (word32 ram.now (4096 * second + 8 * result + 4 * k) ≡ 0)) → ⊥ }
{
    let _bytes = ram.len();
    for pair in from..512 {
        if !are_none(ram, FRAME * first + 8 * pair) {
            return pair;
        }
        if !are_none(ram, FRAME * second + 8 * pair) {
            return pair;
        }
    }
    512
}

/// A word, this one or a later one, before which no other of both tables is another than 0; 1,024 where there is none. The
/// tables are those that two PDEs name.
fn next_word(ram: &Ram, kernel: u32, user: u32, from: u32) -> u32
    requires kernel { kernel ≢ 0 → 4096 * (kernel / 4096) + 4096 ≤ length ram.now }
    requires user { user ≢ 0 → 4096 * (user / 4096) + 4096 ≤ length ram.now }
    requires from { from ≤ 1024 }
    ensures behind { from ≤ result }
    ensures within { result ≤ 1024 }
    ensures kernel { (i : ℕ) → from ≤ i → i < result → by_dir ram.now kernel i ≡ 0 }
    ensures user { (i : ℕ) → from ≤ i → i < result → by_dir ram.now user i ≡ 0 }
{
    let first = if kernel == 0 { user } else { kernel };
    let second = if user == 0 { kernel } else { user };
    if first == 0 {
        return 1024;
    }
    from.max(2 * next_pair_in(ram, first / 4096, second / 4096, from / 2))
}

impl Shadow {
    /// A page of a directory index by its word, this one or a later one, before which neither view keeps another; 1,024 where
    /// there is none.
    pub fn next_kept(&self, ram: &Ram, index: u32, from: u32) -> u32
        requires shadow { IsShadow self.now ram.now }
        requires index { index < 1024 }
        requires from { from ≤ 1024 }
        ensures behind { from ≤ result }
        ensures within { result ≤ 1024 }
        ensures none { (page : ℕ) → page < 2 ^ 20 → 1024 * index + from ≤ page → page < 1024 * index + result
            → slot_at self.now ram.now page ≡ None }
    {
        let kernel = dir(ram, self.root(Side::Kernel), index);
        let user = dir(ram, self.root(Side::User), index);
        next_word(ram, kernel, user, from)
    }

    /// A directory index, this one or a later one, before which neither view has another table; 1,024 where there is none. It,
    /// or its neighbour in their pair of PDEs, has one.
    pub fn next_opened(&self, ram: &Ram, from: u32) -> u32
        requires shadow { IsShadow self.now ram.now }
        requires from { from ≤ 1024 }
        ensures behind { from ≤ result }
        ensures within { result ≤ 1024 }
        ensures none { (page : ℕ) → page < 2 ^ 20 → 1024 * from ≤ page → page < 1024 * result → slot_at self.now ram.now page ≡ None }
        ensures found { result < 1024 → ((d : ℕ) → d / 2 ≡ result / 2
            → (dir ram.now self.now.kernel d ≡ 0) × (dir ram.now self.now.user d ≡ 0)) → ⊥ }
    {
        let kernel = self.root(Side::Kernel);
        let user = self.root(Side::User);
        from.max(2 * next_pair_in(ram, kernel, user, from / 2))
    }
}
