//! Walks of a view's tables, of which some are kept.

ghost use Rattle.std.specs.Prelude.{◌≡◌, ◌≢◌, ◌+◌, ◌*◌, ◌/◌, ◌%◌, ◌<◌, ◌≤◌, ◌^◌, length, IfSome, ℕ, List, slice_index, None, true, false};

use guest_ram::Ram;
use paging::{Entry, Walk, walk};
use xlate_buffer::Buffer;

/// A walk that is kept by itself.
#[derive(Clone, Copy)]
struct Last {
    page: u32,
    entry: Option<Entry>,
    /// The frame of the table that it was read from.
    table: u32,
}

impl Last {
    /// Nothing is kept.
    fn none() -> Last
        ensures { result.entry ≡ None }
    {
        Last {
            page: 0,
            entry: None,
            table: 0,
        }
    }
}

/// Walks the tables, and keeps up to 64 entries that walks found, with the frames of the tables that they were read
/// from. The entry of the last fetch is kept by itself too, so that data don't take its place.
#[derive(Drop)]
pub struct Walks {
    buffer: Buffer,
    tables: [u32; 64],
    code: Last,
    // The frames of the kept walks' tables are not below the one, and not above the other.
    lowest: u32,
    highest: u32,
    count: u64,
}

impl Walks {
    ghost use Rattle.std.specs.FinMap.{get};
    ghost use Rattle.host_cpl3.specs.Pages.{walked, entry_in};
    ghost use Rattle.host_cpl3.specs.KeptWalks.{AreKept, IsWithin, SameBut, code_of, count_of, walk_count, count_after};

    /// Nothing is kept.
    pub fn new() -> Walks
        ensures kept { (m : List ℕ) (root : ℕ) → AreKept result m root }
        ensures count { count_of result ≡ 0 }
    {
        Walks {
            buffer: Buffer::new(),
            tables: [0; 64],
            code: Last::none(),
            lowest: u32::MAX,
            highest: 0,
            count: 0,
        }
    }

    /// How many walks there were.
    pub fn count(&self) -> u64
        ensures { result ≡ count_of self.now }
    {
        self.count
    }

    /// Nothing is kept any longer.
    pub fn forget(&mut self)
        ensures kept { (m : List ℕ) (root : ℕ) → AreKept self.new m root }
        ensures count { count_of self.new ≡ count_of self.old }
    {
        self.buffer.drop_all();
        self.code = Last::none();
        self.lowest = u32::MAX;
        self.highest = 0;
    }

    // The page is in none of the places.
    #[inline(never)]
    fn walked(&mut self, ram: &Ram, root: u32, page: u32) -> Option<Entry>
        requires root { 4096 * root < length ram.now }
        requires page { page < 2 ^ 20 }
        requires kept { AreKept self.old ram.now root }
        requires none { get self.old.buffer page ≡ None }
        ensures entry { result ≡ entry_in (walked ram.now root page) }
        ensures frame { IfSome result (λ entry. entry.frame < length ram.now / 4096) }
        ensures held { result ≡ get self.new.buffer page }
        ensures kept { AreKept self.new ram.now root }
        ensures count { count_of self.new ≡ (self.old.count + 1) % 2 ^ 64 }
    {
        self.count = self.count.wrapping_add(1);
        match walk(ram, ram.len() / 4096, root * 4096, false, page) {
            Walk::Found { entry, word_at, .. } => {
                let table = word_at / 4096;
                self.tables[page as usize % 64] = table;
                self.lowest = self.lowest.min(table);
                self.highest = self.highest.max(table);
                self.buffer.keep(entry);
                Some(entry)
            }
            _ => None,
        }
    }

    // The entry of a page of data.
    #[inline(always)]
    fn kept_data(&mut self, ram: &Ram, root: u32, page: u32) -> Option<Entry>
        requires root { 4096 * root < length ram.now }
        requires page { page < 2 ^ 20 }
        requires kept { AreKept self.old ram.now root }
        ensures entry { result ≡ entry_in (walked ram.now root page) }
        ensures frame { IfSome result (λ entry. entry.frame < length ram.now / 4096) }
        ensures held { result ≡ get self.new.buffer page }
        ensures kept { AreKept self.new ram.now root }
        ensures count { count_of self.new ≡ walk_count self.old page }
    {
        if let Some(entry) = self.buffer.find(page) {
            return Some(entry);
        }
        self.walked(ram, root, page)
    }

    // Keeps the walk of a page of code that isn't the last one's as the last one.
    #[inline(never)]
    fn take_code(&mut self, ram: &Ram, root: u32, page: u32)
        requires root { 4096 * root < length ram.now }
        requires page { page < 2 ^ 20 }
        requires kept { AreKept self.old ram.now root }
        ensures entry { self.new.code.entry ≡ entry_in (walked ram.now root page) }
        ensures frame { IfSome self.new.code.entry (λ entry. entry.frame < length ram.now / 4096) }
        ensures kept { AreKept self.new ram.now root }
        ensures count { count_of self.new ≡ walk_count self.old page }
    {
        let entry = self.kept_data(ram, root, page);
        let table = self.tables[page as usize % 64];
        self.code = Last { page, entry, table };
    }

    // The entry of the last fetch, if it was of the page.
    #[inline(always)]
    fn last_code(&self, page: u32) -> Option<Entry>
        ensures { result ≡ code_of self.now page }
    {
        if page == self.code.page {
            self.code.entry
        } else {
            None
        }
    }

    // The entry of a page of code.
    #[inline(always)]
    fn kept_code(&mut self, ram: &Ram, root: u32, page: u32) -> Option<Entry>
        requires root { 4096 * root < length ram.now }
        requires page { page < 2 ^ 20 }
        requires kept { AreKept self.old ram.now root }
        ensures entry { result ≡ entry_in (walked ram.now root page) }
        ensures frame { IfSome result (λ entry. entry.frame < length ram.now / 4096) }
        ensures kept { AreKept self.new ram.now root }
        ensures count { count_of self.new ≡ count_after self.old true page }
    {
        if self.last_code(page).is_none() {
            self.take_code(ram, root, page);
        }
        self.code.entry
    }

    /// The entry of a page, where both its words are there.
    #[inline(always)]
    pub fn entry(&mut self, ram: &Ram, root: u32, fetch: bool, page: u32) -> Option<Entry>
        requires root { 4096 * root < length ram.now }
        requires page { page < 2 ^ 20 }
        requires kept { AreKept self.old ram.now root }
        ensures entry { result ≡ entry_in (walked ram.now root page) }
        ensures frame { IfSome result (λ entry. entry.frame < length ram.now / 4096) }
        ensures kept { AreKept self.new ram.now root }
        ensures count { count_of self.new ≡ count_after self.old fetch page }
    {
        if fetch {
            self.kept_code(ram, root, page)
        } else {
            self.kept_data(ram, root, page)
        }
    }

    // Whether a kept walk may have been read from the frame.
    fn reads(&self, root: u32, frame: u32) -> bool
        ensures root { result ≡ false → frame ≢ root }
        ensures tables { result ≡ false → (k : ℕ) → k < 64 → IsWithin self.now (slice_index self.now.tables k) →
            slice_index self.now.tables k ≢ frame }
        ensures code { result ≡ false → IsWithin self.now self.now.code.table → self.now.code.table ≢ frame }
    {
        frame == root
            || (self.lowest <= frame
                && frame <= self.highest
                && (frame == self.code.table || self.tables.contains(&frame)))
    }

    /// Two frames were written. Nothing is kept any longer, if a kept walk was read from one of them.
    pub fn written(&mut self, root: u32, first: u32, last: u32)
        ensures kept { (m m' : List ℕ) → AreKept self.old m root → SameBut m m' first last → AreKept self.new m' root }
        ensures count { count_of self.new ≡ count_of self.old }
    {
        if self.reads(root, first) || self.reads(root, last) {
            self.forget();
        }
    }
}
