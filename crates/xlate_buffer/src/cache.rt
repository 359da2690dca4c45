//! What keeps translations for a machine, as a trait, and the TLB as one.

ghost use Rattle.std.specs.Prelude.{◌≡◌, ◌≢◌, ℕ, ◌/◌, ◌<◌, ◌^◌, Bool, true, false, Some, None};
ghost use Rattle.std.specs.FinMap.{FinMap, get};
ghost use Rattle.std.specs.Ordering.{nat_cmp};
ghost use Rattle.paging.specs.declared.entry.Entry.{Entry};
ghost use Rattle.xlate_buffer.specs.Caches.{IsSameOrGone};
ghost use Rattle.xlate_buffer.specs.Calls.{made, Keep};
ghost use Rattle.xlate_buffer.specs.Again.{kept_again};

use crate::Buffer;
use paging::Entry;

/// A cache of translations, with at most one for each page.
pub trait Cache: Drop {
    /// The translations that it keeps, by page.
    ghost entries: { Self → FinMap nat_cmp Entry };

    /// It loses none by itself. It is the same at any time.
    ghost is_exact: { Self → Bool };

    /// What a cache of this type makes of its translations where it keeps an entry.
    ghost keeping: { FinMap nat_cmp Entry → Entry → FinMap nat_cmp Entry };

    /// The entry of the page; None exactly where it is not kept.
    fn find(&self, page: u32) -> Option<Entry>
        ensures { result ≡ get (entries self.now) page };

    /// Keeps the entry, in place of another one of its page. Entries of other pages may go, but not from an exact cache.
    fn keep(&mut self, entry: Entry)
        requires page { entry.page < 2 ^ 20 }
        ensures kept { get (entries self.new) entry.page ≡ Some entry }
        ensures others { (page : ℕ) → page ≢ entry.page → IsSameOrGone (get (entries self.old) page) (get (entries self.new) page) }
        ensures exact { is_exact self.old ≡ true → (page : ℕ) → page ≢ entry.page →
            get (entries self.new) page ≡ get (entries self.old) page }
        ensures whole { entries self.new ≡ keeping (entries self.old) entry }
        ensures same { is_exact self.new ≡ is_exact self.old };

    /// The page is kept no longer.
    fn drop_page(&mut self, page: u32)
        ensures gone { get (entries self.new) page ≡ None }
        ensures others { (other : ℕ) → other ≢ page → get (entries self.new) other ≡ get (entries self.old) other }
        ensures same { is_exact self.new ≡ is_exact self.old };

    /// The pages of a directory index are kept no longer.
    fn drop_dir(&mut self, index: u32)
        ensures gone { (page : ℕ) → page / 1024 ≡ index → get (entries self.new) page ≡ None }
        ensures others { (other : ℕ) → other / 1024 ≢ index → get (entries self.new) other ≡ get (entries self.old) other }
        ensures same { is_exact self.new ≡ is_exact self.old };

    /// Nothing is kept any longer.
    fn drop_all(&mut self)
        ensures gone { (page : ℕ) → get (entries self.new) page ≡ None }
        ensures same { is_exact self.new ≡ is_exact self.old };

    /// It loses no entry by itself.
    fn exact(&self) -> bool
        ensures { result ≡ is_exact self.now };

    /// To keep an entry again at once changes nothing.
    ghost again: { (set : FinMap nat_cmp Entry) (entry : Entry) → keeping (keeping set entry) entry ≡ keeping set entry };
}

impl Cache for Buffer {
    ghost entries = { λ buffer. buffer };

    ghost is_exact = { λ _. false };

    ghost keeping = { λ set entry. made (Keep entry) set };

    ghost again = { kept_again };

    fn find(&self, page: u32) -> Option<Entry> {
        self.find(page)
    }

    fn keep(&mut self, entry: Entry) {
        self.keep(entry);
    }

    fn drop_page(&mut self, page: u32) {
        self.drop_page(page);
    }

    fn drop_dir(&mut self, index: u32) {
        self.drop_dir(index);
    }

    fn drop_all(&mut self) {
        self.drop_all();
    }

    fn exact(&self) -> bool {
        false
    }
}
