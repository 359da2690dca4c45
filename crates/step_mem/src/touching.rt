//! Translating the pages of a range, or of a fetch.

ghost use Rattle.std.specs.Prelude.{◌≡◌, ◌≢◌, ℕ, ◌+◌, ◌*◌, ◌/◌, ◌%◌, ◌≤◌, ◌<◌, ◌^◌, length, ◌++◌, IsSome, false, true};
ghost use Rattle.std.specs.FinMap.{get};
ghost use Rattle.paging.specs.Ready.{Readied, IsReach};
ghost use Rattle.paging.specs.Space.{earlier_of, frame_by, frames_of};
ghost use Rattle.paging.specs.Uses.{unready, page_uses, second_page, made_ready, by_pages, uses, fetches};
ghost use Rattle.step_mem.specs.Changes.{changed, HasEntry, HaveEntries};
ghost use Rattle.step_mem.specs.Guard.{mode_of, IsApart, IsApartAt, AreApart};
ghost use Rattle.step_mem.specs.Pages.{IsShortRange, KeepsReady};
ghost use Rattle.step_mem.specs.Shown.{hidden};
ghost use Rattle.step_mem.specs.Sound.{IsSoundOver, StaysIn, space};

use crate::changes::Changes;
use crate::guard::window_stop;
use crate::page::{PageUse, look, page_use};
use crate::state::{Earlier, Reach, StepState};
use crate::translations::Translations;
use guest_ram::Ram;
use ia32_types::Stop;
use paging::{Access, Touch};

/// A touch begins: nothing is ready, and what was ready is so no more than before it.
fn begin<B: Translations>(ram: &Ram, base: &B, state: &mut StepState)
    requires { IsSoundOver B.Translations base.now ram.now state.old }
    ensures sound { IsSoundOver B.Translations base.now ram.now state.new }
    ensures space { space B.Translations base.now ram.now state.new ≡ unready (space B.Translations base.now ram.now state.old) }
    ensures pages { state.new.pages ≡ state.old.pages }
    ensures control { state.new.control ≡ state.old.control }
    ensures guard { state.new.guard ≡ state.old.guard }
    ensures unready { state.new.ready.len ≡ 0 }
    ensures wrote { state.new.wrote ≡ state.old.wrote }
{
    state.earlier = Earlier {
        start: state.ready.start,
        len: state.ready.len,
        count: state.changes.as_slice().len(),
    };
    state.ready = Reach {
        start: 0,
        len: 0,
        write: false,
    };
}

/// Translates one page, while nothing is ready.
fn one_page<B: Translations>(
    ram: &mut Ram,
    base: &B,
    state: &mut StepState,
    fetch: bool,
    page: u32,
    at: u32,
    access: Access,
) -> Touch
    requires sound { IsSoundOver B.Translations base.now ram.old state.old }
    requires room { state.old.pages < 64 }
    requires page { page < 2 ^ 20 }
    requires unready { state.old.ready.len ≡ 0 }
    ensures sound { IsSoundOver B.Translations base.now ram.new state.new }
    ensures uses { page_uses (space B.Translations base.now ram.old state.old) fetch page at access
        ≡ (result, space B.Translations base.now ram.new state.new) }
    ensures pages { state.new.pages ≡ state.old.pages + 1 }
    ensures stays { StaysIn state.old state.new ram.old ram.new }
    ensures keeps { KeepsReady state.old state.new (space B.Translations base.now ram.old state.old)
        (space B.Translations base.now ram.new state.new) }
    ensures found { result ≡ Touch.Ready → IsSome (get (space B.Translations base.now ram.new state.new).set page) }
    ensures apart { result ≡ Touch.Ready → fetch ≡ false
        → IsApart (mode_of state.new.guard) (get (space B.Translations base.now ram.new state.new).set page) }
    ensures others { (other : ℕ) → other ≢ page → get (space B.Translations base.now ram.new state.new).set other
        ≡ get (space B.Translations base.now ram.old state.old).set other }
{
    state.pages += 1;
    state.visited.push(page);
    page_use(
        ram,
        base,
        state.control,
        &state.guard,
        &mut state.changes,
        &mut state.tables,
        PageUse {
            fetch,
            page,
            at,
            access,
        },
    )
}

/// Translates the second page of a range that reaches one.
fn second_page<B: Translations>(
    ram: &mut Ram,
    base: &B,
    state: &mut StepState,
    at: u32,
    len: u32,
    access: Access,
) -> Touch
    requires sound { IsSoundOver B.Translations base.now ram.old state.old }
    requires room { state.old.pages < 64 }
    requires range { IsShortRange at len }
    requires unready { state.old.ready.len ≡ 0 }
    ensures sound { IsSoundOver B.Translations base.now ram.new state.new }
    ensures more { state.old.pages ≤ state.new.pages }
    ensures uses { second_page at len access (space B.Translations base.now ram.old state.old)
        ≡ (result, space B.Translations base.now ram.new state.new) }
    ensures pages { state.new.pages ≤ state.old.pages + 1 }
    ensures stays { StaysIn state.old state.new ram.old ram.new }
    ensures keeps { KeepsReady state.old state.new (space B.Translations base.now ram.old state.old)
        (space B.Translations base.now ram.new state.new) }
    ensures found { result ≡ Touch.Ready → HasEntry (space B.Translations base.now ram.old state.old).set at
        → HaveEntries (space B.Translations base.now ram.new state.new).set at len }
    ensures apart { result ≡ Touch.Ready → IsApartAt (mode_of state.new.guard) (space B.Translations base.now ram.old state.old).set at
        → AreApart (mode_of state.new.guard) (space B.Translations base.now ram.new state.new).set at len }
{
    let last = (at + (len - 1)) / 4096;
    if last == at / 4096 {
        return Touch::Ready;
    }
    one_page(ram, base, state, false, last, last * 4096, access)
}

/// Translates the pages of a range that lies in the address space, while nothing is ready.
fn touch_pages<B: Translations>(
    ram: &mut Ram,
    base: &B,
    state: &mut StepState,
    at: u32,
    len: u32,
    access: Access,
) -> Touch
    requires sound { IsSoundOver B.Translations base.now ram.old state.old }
    requires room { state.old.pages ≤ 62 }
    requires range { IsShortRange at len }
    requires unready { state.old.ready.len ≡ 0 }
    ensures sound { IsSoundOver B.Translations base.now ram.new state.new }
    ensures uses { by_pages at len access (space B.Translations base.now ram.old state.old)
        ≡ (result, space B.Translations base.now ram.new state.new) }
    ensures pages { state.new.pages ≤ state.old.pages + 2 }
    ensures stays { StaysIn state.old state.new ram.old ram.new }
    ensures ready { Readied (space B.Translations base.now ram.new state.new) at len access.write result }
    ensures earlier { (space B.Translations base.now ram.new state.new).earlier
        ≡ (space B.Translations base.now ram.old state.old).earlier }
{
    match one_page(ram, base, state, false, at / 4096, at, access) {
        Touch::Ready => {}
        met => return met,
    }
    match second_page(ram, base, state, at, len, access) {
        Touch::Ready => {}
        met => return met,
    }
    make_ready(ram, base, state, at, len, access.write);
    Touch::Ready
}

/// Translates a range.
#[tactic(auto, unfolding(paging::specs::Uses::uses))]
pub fn touch<B: Translations>(
    ram: &mut Ram,
    base: &B,
    state: &mut StepState,
    at: u32,
    len: u32,
    access: Access,
) -> Touch
    requires sound { IsSoundOver B.Translations base.now ram.old state.old }
    requires room { state.old.pages ≤ 62 }
    requires some { 1 ≤ len }
    requires short { len ≤ 32 }
    ensures sound { IsSoundOver B.Translations base.now ram.new state.new }
    ensures uses { uses (space B.Translations base.now ram.old state.old) at len access
        ≡ (result, space B.Translations base.now ram.new state.new) }
    ensures pages { state.new.pages ≤ state.old.pages + 2 }
    ensures control { state.new.control ≡ state.old.control }
    ensures hidden { hidden state.old.guard state.old.control.frames ram.new ≡ hidden state.old.guard state.old.control.frames ram.old }
    ensures guard { state.new.guard ≡ state.old.guard }
    ensures ready { Readied (space B.Translations base.now ram.new state.new) at len access.write result }
    ensures earlier { (space B.Translations base.now ram.new state.new).earlier
        ≡ earlier_of (space B.Translations base.now ram.old state.old) }
{
    begin(ram, base, state);
    if len - 1 > u32::MAX - at {
        return Touch::Stop(Stop::WrapAccess);
    }
    if let Some(stop) = window_stop(&state.guard, access, at) {
        return Touch::Stop(stop);
    }
    touch_pages(ram, base, state, at, len, access)
}

/// A range whose pages were translated is ready, and what it is to write is noted.
fn make_ready<B: Translations>(
    ram: &Ram,
    base: &B,
    state: &mut StepState,
    at: u32,
    len: u32,
    write: bool,
)
    requires sound { IsSoundOver B.Translations base.now ram.now state.old }
    requires room { length state.old.wrote + 2 ≤ 2 * state.old.pages }
    requires range { IsShortRange at len }
    requires found { HaveEntries (space B.Translations base.now ram.now state.old).set at len }
    requires apart { AreApart (mode_of state.old.guard) (space B.Translations base.now ram.now state.old).set at len }
    ensures sound { IsSoundOver B.Translations base.now ram.now state.new }
    ensures made { made_ready at len write (space B.Translations base.now ram.now state.old)
        ≡ (Touch.Ready, space B.Translations base.now ram.now state.new) }
    ensures pages { state.new.pages ≡ state.old.pages }
    ensures control { state.new.control ≡ state.old.control }
    ensures guard { state.new.guard ≡ state.old.guard }
    ensures ready { IsReach (space B.Translations base.now ram.now state.new) at len write }
    ensures earlier { (space B.Translations base.now ram.now state.new).earlier
        ≡ (space B.Translations base.now ram.now state.old).earlier }
{
    if write {
        note_written(ram, base, state, at, len);
    }
    state.ready = Reach {
        start: at,
        len,
        write,
    };
}

/// Notes the frames of a range that is ready for a write.
fn note_written<B: Translations>(ram: &Ram, base: &B, state: &mut StepState, at: u32, len: u32)
    requires sound { IsSoundOver B.Translations base.now ram.now state.old }
    requires room { length state.old.wrote ≤ 126 }
    requires range { IsShortRange at len }
    requires found { HaveEntries (space B.Translations base.now ram.now state.old).set at len }
    ensures noted { state.new
        ≡ record state.old { wrote = state.old.wrote ++ frames_of (space B.Translations base.now ram.now state.old) at len } }
    ensures few { length state.new.wrote ≤ length state.old.wrote + 2 }
{
    let last = (at + (len - 1)) / 4096;
    let first_frame = frame(ram, base, &state.changes, at / 4096);
    state.wrote.push(first_frame);
    if last != at / 4096 {
        let last_frame = frame(ram, base, &state.changes, last);
        state.wrote.push(last_frame);
    }
}

/// The frame of a page that has an entry.
fn frame<B: Translations>(ram: &Ram, base: &B, changes: &Changes, page: u32) -> u32
    requires { ∥ B.stands base.now ram.now ∥₁ }
    ensures { result ≡ frame_by (get (changed (B.entries base.now ram.now) changes.now) page) }
{
    match look(ram, base, changes.as_slice(), page) {
        Some(entry) => entry.frame,
        None => 0,
    }
}

/// Translates a fetch, which lies in one page.
#[tactic(auto, unfolding(paging::specs::Uses::fetches), using(crate::proofs::Changed::page_found))]
pub fn fetch<B: Translations>(
    ram: &mut Ram,
    base: &B,
    state: &mut StepState,
    at: u32,
    len: u32,
    user: bool,
) -> Touch
    requires sound { IsSoundOver B.Translations base.now ram.old state.old }
    requires room { state.old.pages ≤ 63 }
    requires one { at % 4096 + len ≤ 4096 }
    ensures sound { IsSoundOver B.Translations base.now ram.new state.new }
    ensures fetches { fetches (space B.Translations base.now ram.old state.old) at len user
        ≡ (result, space B.Translations base.now ram.new state.new) }
    ensures pages { state.new.pages ≤ state.old.pages + 1 }
    ensures control { state.new.control ≡ state.old.control }
    ensures hidden { hidden state.old.guard state.old.control.frames ram.new ≡ hidden state.old.guard state.old.control.frames ram.old }
    ensures guard { state.new.guard ≡ state.old.guard }
    ensures ready { Readied (space B.Translations base.now ram.new state.new) at len false result }
{
    begin(ram, base, state);
    let access = Access { write: false, user };
    match one_page(ram, base, state, true, at / 4096, at, access) {
        Touch::Ready => {}
        met => return met,
    }
    state.ready = Reach {
        start: at,
        len,
        write: false,
    };
    Touch::Ready
}
