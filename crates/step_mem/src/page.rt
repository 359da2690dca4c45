//! One page of a range.

ghost use Rattle.std.specs.Prelude.{◌≡◌, ◌+◌, ◌≤◌, ◌<◌, ◌^◌, length, IfSome, IsSome, false};
ghost use Rattle.std.specs.Option.{ForSome};
ghost use Rattle.std.specs.FinMap.{get};
ghost use Rattle.paging.specs.Uses.{page_uses, settled, decided, usable, is_barred};
ghost use Rattle.step_mem.specs.Changes.{changed};
ghost use Rattle.step_mem.specs.Guard.{mode_of};
ghost use Rattle.step_mem.specs.Pages.{BeginsPage, LeavesPage, ChangesOne};
ghost use Rattle.step_mem.specs.Space.{Rest, space_of, with_tables, after_page};
ghost use Rattle.step_mem.specs.Tables.{tables as tables_at};

use crate::changes::{Change, Changes, change_of, last_change};
use crate::guard::{Guard, is_barred};
use crate::translations::Translations;
use crate::visited::Visited;
use crate::walking::{Control, decide, note_tables};
use guest_ram::Ram;
use ia32_types::Stop;
use paging::{Access, Entry, Touch, allows};

/// One page of a range.
#[derive(Clone, Copy)]
pub struct PageUse {
    /// To fetch code, and not for data.
    pub fetch: bool,
    /// The page's number: its linear address by 4,096.
    pub page: u32,
    /// The first byte of the range that lies in the page, a linear address.
    pub at: u32,
    pub access: Access,
}

/// The entry of a page in the set of now.
#[tactic(auto, using(crate::proofs::Changed::get_changed))]
pub fn look<B: Translations>(ram: &Ram, base: &B, changes: &[Change], page: u32) -> Option<Entry>
    requires { ∥ B.stands base.now ram.now ∥₁ }
    ensures { result ≡ get (changed (B.entries base.now ram.now) changes.now) page }
{
    match last_change(changes, page) {
        Some(entry) => entry,
        None => base.entry(ram, page),
    }
}

/// The page's entry leaves the set, and a fresh walk decides.
#[inline(never)]
fn settle<B: Translations>(
    ram: &mut Ram,
    base: &B,
    control: Control,
    guard: &Guard,
    changes: &mut Changes,
    tables: &mut Visited,
    asked: PageUse,
) -> Touch
    requires begins { BeginsPage B.Translations base.now control guard.now ram.old changes.old tables.old }
    requires page { asked.page < 2 ^ 20 }
    ensures settled { (rest : Rest)
        → settled (space_of (B.entries base.now) ram.old control guard.now changes.old (with_tables rest tables.old)) asked.page
        (decided (tables_at ram.old control guard.now) asked.fetch asked.page asked.at asked.access)
        ≡ (result, space_of (B.entries base.now) ram.new control guard.now changes.new (with_tables rest tables.new)) }
    ensures noted { length tables.new ≤ length tables.old + 2 }
    ensures leaves { LeavesPage B.Translations base.now control guard.now ram.old ram.new changes.new }
    ensures counted { length changes.new ≡ length changes.old + 1 }
    ensures changes { ChangesOne asked.page changes.old changes.new (changed (B.entries base.now ram.old) changes.old)
        (changed (B.entries base.now ram.new) changes.new) }
    ensures found { result ≡ Touch.Ready → IsSome (get (changed (B.entries base.now ram.new) changes.new) asked.page) }
    ensures clear { result ≡ Touch.Ready → ForSome (get (changed (B.entries base.now ram.new) changes.new) asked.page)
        (λ entry. is_barred (mode_of guard.now) asked.fetch asked.access.user asked.page entry.frame ≡ false) }
{
    let PageUse {
        fetch,
        page,
        at,
        access,
    } = asked;
    note_tables(ram, control, guard, page, tables);
    let (met, entry) = decide(ram, control, guard, fetch, page, at, access);
    changes.push(change_of(page, entry));
    met
}

/// Translates one page of a range.
#[tactic(auto, unfolding(paging::specs::Uses::page_uses))]
pub fn page_use<B: Translations>(
    ram: &mut Ram,
    base: &B,
    control: Control,
    guard: &Guard,
    changes: &mut Changes,
    tables: &mut Visited,
    asked: PageUse,
) -> Touch
    requires begins { BeginsPage B.Translations base.now control guard.now ram.old changes.old tables.old }
    requires page { asked.page < 2 ^ 20 }
    ensures uses { (rest : Rest)
        → page_uses (space_of (B.entries base.now) ram.old control guard.now changes.old (with_tables rest tables.old))
        asked.fetch asked.page asked.at asked.access
        ≡ (result, space_of (B.entries base.now) ram.new control guard.now changes.new (after_page rest asked.page tables.new)) }
    ensures noted { length tables.new ≤ length tables.old + 2 }
    ensures leaves { LeavesPage B.Translations base.now control guard.now ram.old ram.new changes.new }
    ensures counted { length changes.new ≤ length changes.old + 1 }
    ensures changes { ChangesOne asked.page changes.old changes.new (changed (B.entries base.now ram.old) changes.old)
        (changed (B.entries base.now ram.new) changes.new) }
    // An entry that lets the access pass stays as it is.
    ensures passed { IsSome (usable (get (changed (B.entries base.now ram.old) changes.old) asked.page) asked.access control.wp)
        → changes.new ≡ changes.old }
    ensures grown { length changes.old ≤ length changes.new }
    ensures found { result ≡ Touch.Ready → IsSome (get (changed (B.entries base.now ram.new) changes.new) asked.page) }
    ensures clear { result ≡ Touch.Ready → ForSome (get (changed (B.entries base.now ram.new) changes.new) asked.page)
        (λ entry. is_barred (mode_of guard.now) asked.fetch asked.access.user asked.page entry.frame ≡ false) }
{
    let _len = ram.len();
    let PageUse {
        fetch,
        page,
        access,
        ..
    } = asked;
    match usable(
        look(ram, base, changes.as_slice(), page),
        access,
        control.wp,
    ) {
        Some(entry) if is_barred(guard, fetch, access.user, page, entry.frame) => {
            Touch::Stop(Stop::TextMapped)
        }
        Some(_) => Touch::Ready,
        None => settle(ram, base, control, guard, changes, tables, asked),
    }
}

/// The entry, if it lets the access pass.
fn usable(found: Option<Entry>, access: Access, wp: bool) -> Option<Entry>
    requires { IfSome found (λ entry. (entry.page < 2 ^ 20) × (entry.frame < 2 ^ 20)) }
    ensures { result ≡ usable found access wp }
{
    match found {
        Some(entry) if allows(&entry, access, wp) => Some(entry),
        _ => None,
    }
}
