//! Taking the right to write from all pages of a frame.

ghost use Rattle.std.specs.Prelude.{◌≡◌, ◌≢◌, ℕ, ◌+◌, ◌*◌, ◌/◌, ◌≤◌, ◌<◌, ◌^◌, List, [], ◌∷◌, true, false, length};
ghost use Rattle.frame_pool.specs.Held.{Holds, Writes};
ghost use Rattle.shadow_views.specs.Tables.{at, by_dir, owned, IsIn, IsView, Puts};
ghost use Rattle.shadow_tables.specs.Slots.{barred, barred_word, held, slot_at, IsShadow, Becomes, LosesWrites};
ghost use Rattle.shadow_tables.specs.Opened.{KeepsTables};
ghost use Rattle.shadow_tables.specs.Sweeps.{Sweeps};

use crate::shadow::Shadow;
use crate::words::Side;
use guest_ram::{FRAME, Ram};
use shadow_views::{are_none, dir, look, next_pair, set, word_in};

/// The word gives the right to write to this frame.
fn gives(word: u32, frame: u32) -> bool
    ensures none { result ≡ false → barred_word frame word ≡ word }
    ensures some { result ≡ true → barred_word frame word ≢ word }
{
    word / 4096 == frame && word / 2 % 2 == 1
}

/// The first word of a table, from this one on, that gives the right to write to the frame; 1,024 where none does.
fn next_giving(ram: &Ram, table: u32, frame: u32, from: u32) -> u32
    requires lies { table ≢ 0 → 4096 * (table / 4096) + 4096 ≤ length ram.now }
    requires from { from ≤ 1024 }
    ensures behind { from ≤ result }
    ensures within { result ≤ 1024 }
    ensures none { (i : ℕ) → from ≤ i → i < result → barred_word frame (by_dir ram.now table i) ≡ by_dir ram.now table i }
    ensures found { result < 1024 → barred_word frame (by_dir ram.now table result) ≢ by_dir ram.now table result }
{
    if table == 0 {
        return 1024;
    }
    let _bytes = ram.len();
    let mut i = from;
    while i < 1024 {
        if i % 2 == 0 && are_none(ram, FRAME * (table / 4096) + 4 * i) {
            i = 2 * next_pair(ram, table / 4096, i / 2 + 1);
        } else if gives(word_in(ram, table, i), frame) {
            return i;
        } else {
            i += 1;
        }
    }
    1024
}

/// Takes the right to write from the word of a page, where it is of this frame.
fn bar_word(ram: &mut Ram, root: u32, page: u32, frame: u32)
    requires view { IsView ram.old root }
    requires page { page < 2 ^ 20 }
    ensures puts { (rs : List ℕ) → Holds ram.old (owned ram.old rs) → IsIn root rs
        → Puts ram.old ram.new rs root page (barred_word frame (at ram.old root page)) }
{
    let word = look(ram, root, page);
    if word / 4096 == frame && word / 2 % 2 == 1 {
        set(ram, root, page, word - 2);
    }
}

impl Shadow {
    /// From a page of this frame, in both views.
    fn bar_page(&self, ram: &mut Ram, page: u32, frame: u32)
        requires shadow { IsShadow self.now ram.old }
        requires page { page < 2 ^ 20 }
        ensures becomes { Becomes self.now ram.old ram.new page (barred (frame ∷ []) (slot_at self.now ram.old page)) }
        ensures held { held self.now ram.new ≡ held self.now ram.old }
        ensures tables { KeepsTables self.now ram.old ram.new }
        ensures memory { Writes (held self.now ram.old) ram.old ram.new }
    {
        bar_word(ram, self.root(Side::Kernel), page, frame);
        bar_word(ram, self.root(Side::User), page, frame);
    }

    /// The first page of a directory index, from this word on, of which either view gives the right to write to the frame, by
    /// its word; 1,024 where there is none.
    fn next_to_bar(&self, ram: &Ram, index: u32, frame: u32, from: u32) -> u32
        requires shadow { IsShadow self.now ram.now }
        requires index { index < 1024 }
        requires from { from ≤ 1024 }
        ensures behind { from ≤ result }
        ensures within { result ≤ 1024 }
        ensures none { (page : ℕ) → page < 2 ^ 20 → 1024 * index + from ≤ page → page < 1024 * index + result
            → slot_at self.now ram.now page ≡ barred (frame ∷ []) (slot_at self.now ram.now page) }
        ensures found { result < 1024
            → slot_at self.now ram.now (1024 * index + result) ≢ barred (frame ∷ []) (slot_at self.now ram.now (1024 * index + result)) }
    {
        let kernel = dir(ram, self.root(Side::Kernel), index);
        let user = dir(ram, self.root(Side::User), index);
        next_giving(ram, kernel, frame, from).min(next_giving(ram, user, frame, from))
    }

    /// From the pages of a directory index.
    fn bar_dir(&self, ram: &mut Ram, index: u32, frame: u32)
        requires shadow { IsShadow self.now ram.old }
        requires index { index < 1024 }
        ensures { Sweeps self.now ram.old ram.new (1024 * index) (1024 * index + 1024)
            (λ page. barred (frame ∷ []) (slot_at self.now ram.old page)) }
    {
        let mut word = self.next_to_bar(ram, index, frame, 0);
        while word < 1024 {
            self.bar_page(ram, 1024 * index + word, frame);
            word = self.next_to_bar(ram, index, frame, word + 1);
        }
    }

    /// Takes the right to write from every page of this frame.
    pub fn bar(&self, ram: &mut Ram, frame: u32)
        requires shadow { IsShadow self.now ram.old }
        ensures shadow { IsShadow self.now ram.new }
        ensures loses { LosesWrites (slot_at self.now ram.old) (slot_at self.now ram.new) (frame ∷ []) }
        ensures held { held self.now ram.new ≡ held self.now ram.old }
        ensures tables { KeepsTables self.now ram.old ram.new }
        ensures memory { Writes (held self.now ram.old) ram.old ram.new }
    {
        let mut index = self.next_opened(ram, 0);
        while index < 1024 {
            self.bar_dir(ram, index, frame);
            index = self.next_opened(ram, index + 1);
        }
    }
}
