//! What a step leaves for the cache to keep.

ghost use Rattle.std.specs.Prelude.{◌≡◌, ◌≤◌, ◌<◌, ◌^◌, ℕ, length, true, map, IfSome, Some, [], ◌∷◌};
ghost use Rattle.std.specs.FinMap.{get};
ghost use Rattle.paging.specs.Part.{IsPartOf};
ghost use Rattle.step_mem.specs.Changes.{AreOfPages, AreToldIn, AreWithin, changed};
ghost use Rattle.step_mem.specs.declared.changes.Change.TheVariants.{Now};
ghost use Rattle.bare_mem.specs.Keeping.{kept_after, new_entries, new_entry};
ghost use Rattle.machine_step.specs.Worked.{dropping, IsDropped};
ghost use Rattle.bare_machine.specs.Dropping.{drops, is_change};

use bare_mem::{Cached, drop_all, drop_dir, drop_gone, drop_page, settle};
use machine_step::Dropped;
use paging::Entry;
use step_mem::{Change, Changes, Visited, last_change};
use xlate_buffer::Cache;

/// Keeps what a step left that used these pages. What it drops leaves first; then each new entry is kept, in the order in
/// which the step used the pages.
#[inline(always)]
pub fn leave<C: Cache>(kept: &mut Cached<C>, changes: &Changes, pages: &Visited, dropped: Dropped)
    requires told { AreToldIn pages.now changes.now }
    requires few { length pages.now ≤ 64 }
    requires page { IsDropped dropped }
    ensures kept { C.entries kept.new.cache ≡ kept_after C.keeping (C.entries kept.old.cache) pages.now
        (dropping dropped (changed (C.entries kept.old.cache) changes.now)) }
    ensures part { (frames : ℕ) → AreWithin frames (changed (C.entries kept.old.cache) changes.now)
        → IsPartOf (C.entries kept.new.cache) (dropping dropped (changed (C.entries kept.old.cache) changes.now)) }
    ensures exact { (frames : ℕ) → AreWithin frames (changed (C.entries kept.old.cache) changes.now)
        → C.is_exact kept.old.cache ≡ true
        → C.entries kept.new.cache ≡ dropping dropped (changed (C.entries kept.old.cache) changes.now) }
    ensures same { C.is_exact kept.new.cache ≡ C.is_exact kept.old.cache }
{
    let list = changes.as_slice();
    if list.is_empty() {
        drop_from(kept, dropped);
    } else if list.len() == 1 && is_nothing(dropped) {
        keep_one(kept, changes, list[0], pages);
    } else {
        keep_new(kept, changes, pages, dropped);
    }
}

/// Nothing leaves at the end of a step.
fn is_nothing(dropped: Dropped) -> bool
    ensures { result ≡ true → dropped ≡ Dropped.Nothing }
{
    match dropped {
        Dropped::Nothing => true,
        _ => false,
    }
}

/// Keeps what a step leaves in the cache, of a step that changed one translation and drops none.
fn keep_one<C: Cache>(kept: &mut Cached<C>, changes: &Changes, change: Change, pages: &Visited)
    requires one { changes.now ≡ change ∷ [] }
    requires told { AreToldIn pages.now changes.now }
    ensures kept { C.entries kept.new.cache ≡ kept_after C.keeping (C.entries kept.old.cache) pages.now
        (changed (C.entries kept.old.cache) changes.now) }
    ensures part { IsPartOf (C.entries kept.new.cache) (changed (C.entries kept.old.cache) changes.now) }
    ensures exact { C.is_exact kept.old.cache ≡ true → C.entries kept.new.cache ≡ changed (C.entries kept.old.cache) changes.now }
    ensures same { C.is_exact kept.new.cache ≡ C.is_exact kept.old.cache }
{
    if is_change(&kept.cache, change) {
        settle(kept, changes);
    }
}

/// The change leaves another entry than the page had, or none.
fn is_change<C: Cache>(cache: &C, change: Change) -> bool
    ensures { result ≡ is_change (C.entries cache.now) change }
{
    match change {
        Change::Gone(_) => true,
        Change::Now(entry) => unless_same(cache.find(entry.page), entry).is_some(),
    }
}

/// Keeps what a step leaves in the cache, of a step that changed some translations, which few steps do with more than one.
#[inline(never)]
fn keep_new<C: Cache>(kept: &mut Cached<C>, changes: &Changes, pages: &Visited, dropped: Dropped)
    requires told { AreToldIn pages.now changes.now }
    requires few { length pages.now ≤ 64 }
    requires page { IsDropped dropped }
    ensures kept { C.entries kept.new.cache ≡ kept_after C.keeping (C.entries kept.old.cache) pages.now
        (dropping dropped (changed (C.entries kept.old.cache) changes.now)) }
    ensures part { (frames : ℕ) → AreWithin frames (changed (C.entries kept.old.cache) changes.now)
        → IsPartOf (C.entries kept.new.cache) (dropping dropped (changed (C.entries kept.old.cache) changes.now)) }
    ensures exact { (frames : ℕ) → AreWithin frames (changed (C.entries kept.old.cache) changes.now)
        → C.is_exact kept.old.cache ≡ true
        → C.entries kept.new.cache ≡ dropping dropped (changed (C.entries kept.old.cache) changes.now) }
    ensures same { C.is_exact kept.new.cache ≡ C.is_exact kept.old.cache }
{
    let entries = new_entries(&kept.cache, changes, pages, dropped);
    drop_from(kept, dropped);
    drop_gone(kept, changes);
    settle(kept, &entries);
}

fn drop_from<C: Cache>(kept: &mut Cached<C>, dropped: Dropped)
    requires page { IsDropped dropped }
    ensures all { C.entries kept.new.cache ≡ dropping dropped (C.entries kept.old.cache) }
    ensures same { C.is_exact kept.new.cache ≡ C.is_exact kept.old.cache }
{
    match dropped {
        Dropped::Nothing => {}
        Dropped::Page(page) => drop_page(kept, page),
        Dropped::Dir(index) => drop_dir(kept, index),
        Dropped::All => drop_all(kept),
    }
}

/// The entries that a step leaves where they are new, as changes: of its pages, in their order.
fn new_entries<C: Cache>(cache: &C, changes: &Changes, pages: &Visited, dropped: Dropped) -> Changes
    requires few { length pages.now ≤ 64 }
    ensures { result ≡ map Now (new_entries (C.entries cache.now)
        (dropping dropped (changed (C.entries cache.now) changes.now)) pages.now) }
{
    let mut entries = Changes::new();
    for page in pages.as_slice() {
        let found = new_entry(cache, changes, dropped, *page);
        if let Some(entry) = found {
            entries.push(Change::Now(entry));
        }
    }
    entries
}

/// The entry that a step leaves of a page, where it had another one before, or none.
fn new_entry<C: Cache>(cache: &C, changes: &Changes, dropped: Dropped, page: u32) -> Option<Entry>
    ensures entry { result ≡ new_entry (get (C.entries cache.now) page)
        (get (dropping dropped (changed (C.entries cache.now) changes.now)) page) }
    ensures page { IfSome result (λ entry. entry.page < 2 ^ 20) }
{
    if drops(dropped, page) {
        return None;
    }
    let found = last_change(changes.as_slice(), page);
    match found {
        Some(left) => match left {
            Some(entry) => unless_same(cache.find(page), entry),
            None => None,
        },
        None => None,
    }
}

/// The entry, unless the page had it before.
fn unless_same(old: Option<Entry>, entry: Entry) -> Option<Entry>
    ensures entry { result ≡ new_entry old (Some entry) }
    ensures same { IfSome result (λ found. found ≡ entry) }
{
    match old {
        Some(old) if old == entry => None,
        _ => Some(entry),
    }
}

/// The page's entry leaves at the end of a step.
fn drops(dropped: Dropped, page: u32) -> bool
    ensures { result ≡ drops dropped page }
{
    match dropped {
        Dropped::Nothing => false,
        Dropped::Page(gone) => page == gone,
        Dropped::Dir(index) => page / 1024 == index,
        Dropped::All => true,
    }
}
