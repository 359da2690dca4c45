//! A set of translations that loses none by itself.

ghost use Rattle.std.specs.Prelude.{◌≡◌, ◌≢◌, ℕ, ◌/◌, ◌<◌, ◌≤◌, ◌+◌, ◌*◌, ◌^◌, true, false, length, slice_index, slice_index_or, Some, None, IfOk, IfSome};
ghost use Rattle.std.specs.FinMap.{empty, get, insert};
ghost use Rattle.trace_check.specs.Slots.{word_of, entry_in};
ghost use Rattle.trace_check.specs.Again.{put_again};

use ia32_types::PAGES;
use paging::Entry;
use std::alloc::{AllocError, Global};
use std::marker::Model;
use xlate_buffer::Cache;

/// One word for each page of the address space, and a mark for each directory index whose pages have entries. Seen as the
/// map from each page to its entry.
#[derive(Drop)]
pub struct WholeSet {
    words: Vec<u64>,
    marks: Vec<bool>,
}

impl Model for WholeSet {
    ghost use Rattle.std.specs.Ordering.{nat_cmp};
    ghost use Rattle.std.specs.FinMap as map;
    ghost use Rattle.std.specs.Coded.{coded_ℕ};
    ghost use Rattle.paging.specs.declared.entry.Entry.{Entry};
    ghost use Rattle.xlate_buffer.specs.Places.{coded_entry};
    ghost use Rattle.trace_check.specs.Slots.{entries_of, IsWhole};

    ghost Value = { map.FinMap nat_cmp Entry };

    ghost coded = { map.code coded_ℕ coded_entry };

    ghost view = { λ s. entries_of s.words.items };

    ghost invariant = { λ s. IsWhole s.words.items s.marks.items };
}

impl WholeSet {
    /// It holds no entry. All its memory is taken here.
    pub fn new(alloc: Global) -> Result<WholeSet, AllocError>
        ensures { IfOk result (λ set. set ≡ empty) }
    {
        let words = vec![in alloc; 0; PAGES as usize]?;
        let marks = vec![in alloc; false; 1024]?;
        Ok(WholeSet { words, marks })
    }

    /// The pages of a directory index have no entry any longer.
    fn forget_dir(&mut self, index: usize)
        ensures gone { (page : ℕ) → page / 1024 ≡ index → get self.new page ≡ None }
        ensures others { (other : ℕ) → other / 1024 ≢ index → get self.new other ≡ get self.old other }
    {
        if is_marked(&self.marks, index) {
            clear_dir(&mut self.words, index);
            self.marks[index] = false;
        }
    }
}

fn is_marked(marks: &[bool], index: usize) -> bool
    ensures { result ≡ slice_index_or marks.now index false }
{
    marks.get(index).copied().unwrap_or(false)
}

/// Clears the words of a directory index.
fn clear_dir(words: &mut Vec<u64>, index: usize)
    requires index { index < 1024 }
    requires all { length words.old.items ≡ PAGES }
    ensures all { length words.new.items ≡ PAGES }
    ensures clear { (page : ℕ) → page / 1024 ≡ index → slice_index words.new.items page ≡ 0 }
    ensures others { (page : ℕ) → page / 1024 ≢ index → slice_index words.new.items page ≡ slice_index words.old.items page }
{
    for k in 0..1024 {
        words[1024 * index + k] = 0;
    }
}

/// The word of an entry.
fn word_of(entry: &Entry) -> u64
    ensures word { result ≡ word_of entry.now }
    ensures small { result < 2 ^ 44 }
{
    let write = if entry.write { 2 } else { 0 };
    let user = if entry.user { 4 } else { 0 };
    let dirty = if entry.dirty { 64 } else { 0 };
    4096 * entry.frame as u64 + (1 + write + user + dirty)
}

/// What a page's word says.
fn entry_in(page: u32, word: u64) -> Option<Entry>
    requires { word < 2 ^ 44 }
    ensures { result ≡ entry_in page word }
{
    if word % 2 == 1 {
        Some(Entry {
            page,
            frame: (word / 4096) as u32,
            user: word / 4 % 2 == 1,
            write: word / 2 % 2 == 1,
            dirty: word / 64 % 2 == 1,
        })
    } else {
        None
    }
}

impl Cache for WholeSet {
    ghost entries = { λ set. set };

    ghost is_exact = { λ _. true };

    ghost keeping = { λ set entry. insert set entry.page entry };

    ghost again = { put_again };

    fn find(&self, page: u32) -> Option<Entry> {
        if page < PAGES {
            entry_in(page, self.words[page as usize])
        } else {
            None
        }
    }

    fn keep(&mut self, entry: Entry) {
        self.words[entry.page as usize] = word_of(&entry);
        self.marks[entry.page as usize / 1024] = true;
    }

    fn drop_page(&mut self, page: u32) {
        if page < PAGES {
            self.words[page as usize] = 0;
        }
    }

    fn drop_dir(&mut self, index: u32) {
        self.forget_dir(index as usize);
    }

    fn drop_all(&mut self) {
        let _ = &self.words;
        for index in 0..1024 {
            self.forget_dir(index);
        }
    }

    fn exact(&self) -> bool {
        true
    }
}
