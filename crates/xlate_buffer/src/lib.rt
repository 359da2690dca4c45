//! A TLB of 64 translations, at most one for each remainder of a page's number by 64.
#![tactic(auto)]

ghost use Rattle.std.specs.Prelude.{◌≡◌, ◌<◌, ◌^◌, ◌/◌, ◌%◌, ◌==◌, not};
ghost use Rattle.std.specs.FinMap as map;
ghost use Rattle.xlate_buffer.specs.Places.{of_page, outside};
ghost use Rattle.paging.specs.Uses.{without_dir};

mod cache;
mod laws;

pub use cache::Cache;
pub use laws::finds_the_last_kept;
use paging::Entry;
use std::marker::Model;

/// Seen as the map from each page to its entry.
#[derive(Drop)]
pub struct Buffer {
    places: [Option<Entry>; 64],
}

impl Model for Buffer {
    ghost use Rattle.std.specs.Ordering.{nat_cmp};
    ghost use Rattle.std.specs.FinMap as map;
    ghost use Rattle.std.specs.Coded.{coded_ℕ};
    ghost use Rattle.paging.specs.declared.entry.Entry.{Entry};
    ghost use Rattle.xlate_buffer.specs.Places.{coded_entry, entries_of, IsPlaced};

    ghost Value = { map.FinMap nat_cmp Entry };

    ghost coded = { map.code coded_ℕ coded_entry };

    ghost view = { λ b. entries_of b.places };

    ghost invariant = { λ b. IsPlaced b.places };
}

impl Buffer {
    /// Nothing is kept.
    pub fn new() -> Self
        ensures { result ≡ map.empty }
    {
        Buffer { places: [None; 64] }
    }

    /// The entry of the page; None exactly where it is not kept.
    pub fn find(&self, page: u32) -> Option<Entry>
        ensures { result ≡ map.get self.now page }
    {
        of_page(page, self.places[page as usize % 64])
    }

    /// Keeps the entry, in place of one with the same remainder.
    pub fn keep(&mut self, entry: Entry)
        ensures { self.new ≡ map.insert (map.retain_keys self.old (λ page. not (page % 64 == entry.page % 64))) entry.page entry }
    {
        self.places[entry.page as usize % 64] = Some(entry);
    }

    /// The page is kept no longer.
    pub fn drop_page(&mut self, page: u32)
        ensures { self.new ≡ map.remove self.old page }
    {
        if self.find(page).is_some() {
            self.places[page as usize % 64] = None;
        }
    }

    /// The pages of a directory index are kept no longer.
    pub fn drop_dir(&mut self, index: u32)
        ensures { self.new ≡ without_dir self.old index }
    {
        for k in 0..64 {
            self.places[k] = outside(index, self.places[k]);
        }
    }

    /// Nothing is kept any longer.
    pub fn drop_all(&mut self)
        ensures { self.new ≡ map.empty }
    {
        self.places = [None; 64];
    }
}

/// The entry, if it is of the page.
fn of_page(page: u32, entry: Option<Entry>) -> Option<Entry>
    ensures { result ≡ of_page page entry }
{
    match entry {
        Some(entry) if page == entry.page => Some(entry),
        _ => None,
    }
}

/// The entry, unless its page is of the directory index.
fn outside(index: u32, entry: Option<Entry>) -> Option<Entry>
    ensures { result ≡ outside index entry }
{
    match entry {
        Some(entry) if entry.page / 1024 != index => Some(entry),
        _ => None,
    }
}
