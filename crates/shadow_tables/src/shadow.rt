//! The views of a kernel and of a user.

ghost use Rattle.std.specs.Prelude.{◌≡◌, ◌≢◌, ℕ, List, ◌+◌, ◌*◌, ◌/◌, ◌≤◌, ◌<◌, ◌^◌, length, Some, None, IfSome, false, [], ◌∷◌};
ghost use Rattle.frame_pool.specs.Pool.{free_list, Stands, Takes};
ghost use Rattle.frame_pool.specs.declared.Pool.{Pool};
ghost use Rattle.frame_pool.specs.Held.{Owns, Writes, Moves};
ghost use Rattle.std.specs.FinMap.{get, insert, remove, empty as no_entries};
ghost use Rattle.shadow_views.specs.Tables.{dir, owned, IsIn, IsView, Opens};
ghost use Rattle.shadow_tables.specs.Entries.{entries_of};
ghost use Rattle.paging.specs.Uses.{without_dir};
ghost use Rattle.shadow_tables.specs.Slots.{filled, barred, held, slot_at, IsShadow, Becomes, LosesDir, LosesWrites, entry_in, is_adequate, root_of, IsEmpty};
ghost use Rattle.shadow_tables.specs.Opened.{KeepsTables, HasOpened};
ghost use Rattle.shadow_tables.specs.Sweeps.{Sweeps};

use crate::words::{Side, entry_of, lets, word_of};
use frame_pool::Pool;
use guest_ram::Ram;
use paging::Entry;
use shadow_views::{clear, empty, has_table, look, set};

/// The roots of both views. A word of a page that isn't 0 has U/S set, in P and R/W what the host may do, and PWT, PCD, A, D,
/// PAT and G clear (`IsMarked`); one that names a table has P, R/W and U/S set, and no other flag (`IsShadow`). The flags are
/// those of Intel SDM volume 3, 32-bit paging.
#[derive(Clone, Copy)]
pub struct Shadow {
    kernel: u32,
    user: u32,
}

/// The first free frame.
fn taken(ram: &mut Ram, pool: &mut Pool) -> u32
    requires stands { Stands pool.old ram.old }
    requires free { 1 ≤ length (free_list pool.old ram.old) }
    ensures { Takes pool.old pool.new ram.old ram.new result }
{
    match pool.take(ram) {
        Some(frame) => frame,
        None => 0,
    }
}

/// Takes a frame for the table of a PDE, where none is there.
fn open(ram: &mut Ram, pool: &mut Pool, root: u32, index: u32)
    requires view { IsView ram.old root }
    requires index { index < 1024 }
    requires stands { Stands pool.old ram.old }
    requires free { 1 ≤ length (free_list pool.old ram.old) }
    ensures opens { (rs : List ℕ) → Owns pool.old ram.old (owned ram.old rs) → IsIn root rs
        → Opens pool.old pool.new ram.old ram.new rs root index }
    ensures there { dir ram.old root index ≢ 0 → (pool.new ≡ pool.old) × (ram.new ≡ ram.old) }
{
    if !has_table(ram, root, index) {
        shadow_views::open(ram, pool, root, index);
    }
}

impl Shadow {
    /// Views that keep nothing.
    pub fn new(ram: &mut Ram, pool: &mut Pool) -> Shadow
        requires stands { Stands pool.old ram.old }
        requires free { 2 ≤ length (free_list pool.old ram.old) }
        ensures empty { IsEmpty result ram.new }
        ensures entries { entries_of (slot_at result ram.new) ≡ no_entries }
        ensures owns { Owns pool.new ram.new (held result ram.new) }
        ensures moves { Moves pool.old pool.new ram.old ram.new [] (held result ram.new) }
    {
        let kernel = taken(ram, pool);
        let user = taken(ram, pool);
        Shadow { kernel, user }
    }

    /// Drops all pages, and gives the tables back.
    pub fn drop_all(&mut self, ram: &mut Ram, pool: &mut Pool)
        requires shadow { IsShadow self.old ram.old }
        requires owns { Owns pool.old ram.old (held self.old ram.old) }
        ensures same { self.new ≡ self.old }
        ensures empty { IsEmpty self.old ram.new }
        ensures entries { entries_of (slot_at self.old ram.new) ≡ no_entries }
        ensures owns { Owns pool.new ram.new (held self.old ram.new) }
        ensures moves { Moves pool.old pool.new ram.old ram.new (held self.old ram.old) (held self.old ram.new) }
    {
        empty(ram, pool, self.kernel);
        empty(ram, pool, self.user);
    }

    /// The root of a view.
    pub fn root(&self, side: Side) -> u32
        ensures { result ≡ root_of self.now side }
    {
        match side {
            Side::Kernel => self.kernel,
            Side::User => self.user,
        }
    }

    /// The entry that either view holds.
    pub fn kept(&self, ram: &Ram, page: u32) -> Option<Entry>
        requires shadow { IsShadow self.now ram.now }
        requires page { page < 2 ^ 20 }
        ensures kept { result ≡ entry_in (slot_at self.now ram.now page) }
        ensures entries { result ≡ get (entries_of (slot_at self.now ram.now)) page }
        ensures fits { IfSome result (λ entry. (entry.page ≡ page) × (entry.frame < 2 ^ 20)) }
    {
        let kernel = look(ram, self.kernel, page);
        if kernel != 0 {
            return Some(entry_of(page, kernel));
        }
        let user = look(ram, self.user, page);
        if user != 0 {
            return Some(entry_of(page, user));
        }
        None
    }

    /// The host may do the access in that view.
    pub fn adequate(&self, ram: &Ram, side: Side, page: u32, write: bool) -> bool
        requires shadow { IsShadow self.now ram.now }
        requires page { page < 2 ^ 20 }
        ensures { result ≡ is_adequate (slot_at self.now ram.now page) side write }
    {
        let word = look(ram, self.root(side), page);
        lets(word, write)
    }

    /// Drops the page in both views.
    pub fn drop_page(&mut self, ram: &mut Ram, page: u32)
        requires shadow { IsShadow self.old ram.old }
        requires page { page < 2 ^ 20 }
        ensures same { self.new ≡ self.old }
        ensures becomes { Becomes self.old ram.old ram.new page None }
        ensures entries { entries_of (slot_at self.old ram.new) ≡ remove (entries_of (slot_at self.old ram.old)) page }
        ensures held { held self.old ram.new ≡ held self.old ram.old }
        ensures tables { KeepsTables self.old ram.old ram.new }
        ensures memory { Writes (held self.old ram.old) ram.old ram.new }
        ensures moves { (p : Pool) → Owns p ram.old (held self.old ram.old)
            → Moves p p ram.old ram.new (held self.old ram.old) (held self.old ram.new) }
    {
        clear(ram, self.kernel, page);
        clear(ram, self.user, page);
    }

    /// Drops every page of a directory index in both views. The frames of tables stay held.
    pub fn drop_dir(&mut self, ram: &mut Ram, index: u32)
        requires shadow { IsShadow self.old ram.old }
        requires index { index < 1024 }
        ensures same { self.new ≡ self.old }
        ensures shadow { IsShadow self.old ram.new }
        ensures loses { LosesDir (slot_at self.old ram.old) (slot_at self.old ram.new) index }
        ensures entries { entries_of (slot_at self.old ram.new) ≡ without_dir (entries_of (slot_at self.old ram.old)) index }
        ensures held { held self.old ram.new ≡ held self.old ram.old }
        ensures tables { KeepsTables self.old ram.old ram.new }
        ensures memory { Writes (held self.old ram.old) ram.old ram.new }
        ensures moves { (p : Pool) → Owns p ram.old (held self.old ram.old)
            → Moves p p ram.old ram.new (held self.old ram.old) (held self.old ram.new) }
    {
        let mut word = self.next_kept(ram, index, 0);
        while word < 1024 {
            self.drop_page(ram, 1024 * index + word);
            word = self.next_kept(ram, index, word + 1);
        }
    }

    /// Drops the page in both views, and then holds it in one, with the rights that its entry gives there.
    pub fn fill(&mut self, ram: &mut Ram, pool: &mut Pool, side: Side, entry: Entry, wp: bool)
        requires shadow { IsShadow self.old ram.old }
        requires owns { Owns pool.old ram.old (held self.old ram.old) }
        requires free { 1 ≤ length (free_list pool.old ram.old) }
        requires page { entry.page < 2 ^ 20 }
        requires frame { entry.frame < 2 ^ 20 }
        ensures same { self.new ≡ self.old }
        ensures becomes { Becomes self.old ram.old ram.new entry.page (Some (filled false side entry wp)) }
        ensures entries { entries_of (slot_at self.old ram.new) ≡ insert (entries_of (slot_at self.old ram.old)) entry.page entry }
        ensures one { length (free_list pool.old ram.old) ≤ length (free_list pool.new ram.new) + 1 }
        ensures table { HasOpened self.old ram.old ram.new side (entry.page / 1024) }
        ensures owns { Owns pool.new ram.new (held self.old ram.new) }
        ensures moves { Moves pool.old pool.new ram.old ram.new (held self.old ram.old) (held self.old ram.new) }
    {
        self.hold(ram, pool, side, entry, wp, false);
    }

    /// Drops the page in both views, and then holds it in one, without the right to write where the frame is barred from writes.
    pub fn hold(
        &mut self,
        ram: &mut Ram,
        pool: &mut Pool,
        side: Side,
        entry: Entry,
        wp: bool,
        barred: bool,
    )
        requires shadow { IsShadow self.old ram.old }
        requires owns { Owns pool.old ram.old (held self.old ram.old) }
        requires free { 1 ≤ length (free_list pool.old ram.old) }
        requires page { entry.page < 2 ^ 20 }
        requires frame { entry.frame < 2 ^ 20 }
        ensures same { self.new ≡ self.old }
        ensures becomes { Becomes self.old ram.old ram.new entry.page (Some (filled barred side entry wp)) }
        ensures entries { entries_of (slot_at self.old ram.new) ≡ insert (entries_of (slot_at self.old ram.old)) entry.page entry }
        ensures one { length (free_list pool.old ram.old) ≤ length (free_list pool.new ram.new) + 1 }
        ensures table { HasOpened self.old ram.old ram.new side (entry.page / 1024) }
        ensures owns { Owns pool.new ram.new (held self.old ram.new) }
        ensures moves { Moves pool.old pool.new ram.old ram.new (held self.old ram.old) (held self.old ram.new) }
    {
        self.drop_page(ram, entry.page);
        let root = self.root(side);
        open(ram, pool, root, entry.page / 1024);
        set(ram, root, entry.page, word_of(side, &entry, wp, barred));
    }

    /// Gives all frames back, the roots too.
    pub fn close(mut self, ram: &mut Ram, pool: &mut Pool)
        requires shadow { IsShadow self ram.old }
        requires owns { Owns pool.old ram.old (held self ram.old) }
        ensures moves { Moves pool.old pool.new ram.old ram.new (held self ram.old) [] }
    {
        self.drop_all(ram, pool);
        pool.give(ram, self.kernel);
        pool.give(ram, self.user);
    }
}
