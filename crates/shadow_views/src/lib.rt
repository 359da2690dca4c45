//! Views of a guest's memory that a host walks: directories and tables in frames of a pool.
#![tactic(auto)]

ghost use Rattle.std.specs.Prelude.{◌≡◌, ◌≢◌, ℕ, ◌+◌, ◌*◌, ◌/◌, ◌^◌, ◌<◌, ◌≤◌, ◌↔◌, List, length, true, IsTrue};
ghost use Rattle.guest_ram.specs.Bytes.{word32};
ghost use Rattle.frame_pool.specs.Pool.{free_list, Stands};
ghost use Rattle.frame_pool.specs.Held.{Holds, Owns};
ghost use Rattle.shadow_views.specs.Tables.{dir, at, by_dir, owned, IsIn, IsView, IsOwned, with_at, Puts, Opens, Grows, Closes, Shrinks, Empties};

use frame_pool::Pool;
use guest_ram::{FRAME, Ram};

/// A PDE.
#[tactic(auto, unfolding(crate::specs::Tables::dir))]
pub fn dir(ram: &Ram, root: u32, d: u32) -> u32
    requires view { IsView ram.now root }
    requires index { d < 1024 }
    ensures { result ≡ dir ram.now root d }
{
    let _bytes = ram.len();
    ram.read32(FRAME * root + 4 * d)
}

/// A word of the table that a PDE names, or 0 where it names none.
pub fn word_in(ram: &Ram, table: u32, i: u32) -> u32
    requires lies { table ≢ 0 → 4096 * (table / 4096) + 4096 ≤ length ram.now }
    requires index { i < 1024 }
    ensures { result ≡ by_dir ram.now table i }
{
    let _bytes = ram.len();
    if table == 0 {
        return 0;
    }
    ram.read32(FRAME * (table / 4096) + 4 * i)
}

/// The two words from this place on are 0, as most words of a directory and of a table are.
pub fn are_none(ram: &Ram, at: u32) -> bool
    requires lies { at + 8 ≤ length ram.now }
    ensures none { (result ≡ true) ↔ ((k : ℕ) → k < 2 → word32 ram.now (at + 4 * k) ≡ 0) }
{
    let p = ram.part(at, 8);
    u64::from_le_bytes([p[0], p[1], p[2], p[3], p[4], p[5], p[6], p[7]]) == 0
}

/// The first pair of words of a frame, from this one on, that aren't both 0; 512 where there is none.
pub fn next_pair(ram: &Ram, frame: u32, from: u32) -> u32
    requires lies { 4096 * frame + 4096 ≤ length ram.now }
    requires from { from ≤ 512 }
    ensures behind { from ≤ result }
    ensures within { result ≤ 512 }
    ensures none { (i : ℕ) → 2 * from ≤ i → i < 2 * result → word32 ram.now (4096 * frame + 4 * i) ≡ 0 }
    ensures found { result < 512 → ((k : ℕ) → k < 2 → word32 ram.now (4096 * frame + 8 * result + 4 * k) ≡ 0) → ⊥ }
{
    let _bytes = ram.len();
    for pair in from..512 {
        if !are_none(ram, FRAME * frame + 8 * pair) {
            return pair;
        }
    }
    512
}

/// A PDE, this one or a later one, before which no other names a table: it or the other of its pair (2 k and 2 k + 1)
/// does. 1,024 where there is no such pair.
pub fn next_dir(ram: &Ram, root: u32, from: u32) -> u32
    requires view { IsView ram.now root }
    requires from { from ≤ 1024 }
    ensures behind { from ≤ result }
    ensures within { result ≤ 1024 }
    ensures none { (d : ℕ) → from ≤ d → d < result → dir ram.now root d ≡ 0 }
    ensures found { result < 1024 → dir ram.now root (2 * (result / 2)) ≡ 0 → dir ram.now root (2 * (result / 2) + 1) ≡ 0 → ⊥ }
{
    from.max(2 * next_pair(ram, root, from / 2))
}

/// The word of a page, or 0 where there is no table.
pub fn look(ram: &Ram, root: u32, page: u32) -> u32
    requires view { IsView ram.now root }
    requires page { page < 2 ^ 20 }
    ensures { result ≡ at ram.now root page }
{
    word_in(ram, dir(ram, root, page / 1024), page % 1024)
}

/// A PDE names a table.
pub fn has_table(ram: &Ram, root: u32, d: u32) -> bool
    requires view { IsView ram.now root }
    requires index { d < 1024 }
    ensures { IsTrue result ↔ (dir ram.now root d ≢ 0) }
{
    dir(ram, root, d) != 0
}

/// Changes the word of a page whose table is there. All of its bits are the caller's.
pub fn set(ram: &mut Ram, root: u32, page: u32, v: u32)
    requires view { IsView ram.old root }
    requires page { page < 2 ^ 20 }
    requires some { dir ram.old root (page / 1024) ≢ 0 }
    ensures memory { ram.new ≡ with_at ram.old root page v }
    ensures puts { (rs : List ℕ) → Holds ram.old (owned ram.old rs) → IsIn root rs → Puts ram.old ram.new rs root page v }
{
    let _bytes = ram.len();
    let word = dir(ram, root, page / 1024);
    ram.write32(FRAME * (word / 4096) + 4 * (page % 1024), v);
}

/// Makes the word of a page 0.
pub fn clear(ram: &mut Ram, root: u32, page: u32)
    requires view { IsView ram.old root }
    requires page { page < 2 ^ 20 }
    ensures memory { dir ram.old root (page / 1024) ≢ 0 → ram.new ≡ with_at ram.old root page 0 }
    ensures none { dir ram.old root (page / 1024) ≡ 0 → ram.new ≡ ram.old }
    ensures puts { (rs : List ℕ) → Holds ram.old (owned ram.old rs) → IsIn root rs → Puts ram.old ram.new rs root page 0 }
{
    if dir(ram, root, page / 1024) != 0 {
        set(ram, root, page, 0);
    }
}

/// Takes a frame for the table of a PDE, where none is there.
pub fn open(ram: &mut Ram, pool: &mut Pool, root: u32, d: u32)
    requires view { IsView ram.old root }
    requires index { d < 1024 }
    requires stands { Stands pool.old ram.old }
    requires free { 1 ≤ length (free_list pool.old ram.old) }
    ensures opens { (rs : List ℕ) → Owns pool.old ram.old (owned ram.old rs) → IsIn root rs →
        Opens pool.old pool.new ram.old ram.new rs root d }
    ensures grows { dir ram.old root d ≡ 0 → Grows pool.old pool.new ram.old ram.new root d }
    ensures there { dir ram.old root d ≢ 0 → (pool.new ≡ pool.old) × (ram.new ≡ ram.old) }
{
    let _bytes = ram.len();
    if dir(ram, root, d) != 0 {
        return;
    }
    if let Some(frame) = pool.take(ram) {
        ram.write32(FRAME * root + 4 * d, FRAME * frame + 7);
    }
}

/// Gives the table of a PDE back, where there is one.
pub fn close(ram: &mut Ram, pool: &mut Pool, root: u32, d: u32)
    requires view { IsView ram.old root }
    requires owned { IsOwned pool.old ram.old root }
    requires index { d < 1024 }
    ensures closes { (rs : List ℕ) → Owns pool.old ram.old (owned ram.old rs) → IsIn root rs →
        Closes pool.old pool.new ram.old ram.new rs root d }
    ensures shrinks { dir ram.old root d ≢ 0 → Shrinks pool.old pool.new ram.old ram.new root d }
    ensures none { dir ram.old root d ≡ 0 → (pool.new ≡ pool.old) × (ram.new ≡ ram.old) }
{
    let _bytes = ram.len();
    let word = dir(ram, root, d);
    if word == 0 {
        return;
    }
    ram.write32(FRAME * root + 4 * d, 0);
    pool.give(ram, word / 4096);
}

/// Gives all tables of a view back.
pub fn empty(ram: &mut Ram, pool: &mut Pool, root: u32)
    requires { IsOwned pool.old ram.old root }
    ensures empties { (rs : List ℕ) → Owns pool.old ram.old (owned ram.old rs) → IsIn root rs →
        Empties pool.old pool.new ram.old ram.new rs root 1024 }
{
    let mut d = next_dir(ram, root, 0);
    while d < 1024 {
        close(ram, pool, root, d);
        d = next_dir(ram, root, d + 1);
    }
}
