//! A fresh walk, and what it decides.

ghost use Rattle.std.specs.Prelude.{◌≡◌, ◌+◌, ◌*◌, ◌≤◌, ◌<◌, ◌^◌, ◌++◌, length, drop, IfSome, IsSome, false};
ghost use Rattle.paging.specs.Uses.{decided, walks_text, marks_own, fault_code, is_barred};
ghost use Rattle.paging.specs.Fresh.{fresh, is_large, tables_read};
ghost use Rattle.paging.specs.Walks.{FoundIn};
ghost use Rattle.step_mem.specs.Guard.{mode_of, IsLaid};
ghost use Rattle.step_mem.specs.Shown.{shown, hidden, IsFoundApart};
ghost use Rattle.step_mem.specs.Tables.{tables};

use crate::guard::{Guard, is_barred, is_own, is_text};
use crate::shown::{mark, read, read_shown_word, read_word};
use crate::visited::Visited;
use guest_ram::Ram;
use ia32_types::Stop;
use paging::{Access, Entry, Touch, Walk, grants, walk};

/// The registers that govern a walk.
#[derive(Clone, Copy)]
pub struct Control {
    pub frames: u32,
    pub cr3: u32,
    /// The PSE flag of CR4.
    pub pse: bool,
    /// The WP flag of CR0.
    pub wp: bool,
}

/// The PDE maps a page of 4 MB by itself.
fn is_large(pse: bool, dir: u32) -> bool
    ensures { result ≡ is_large pse dir }
{
    pse && dir / 128 % 2 == 1
}

#[tactic(auto, unfolding(paging::specs::Uses::walks_text))]
fn walks_text(ram: &Ram, control: Control, guard: &Guard, page: u32) -> bool
    requires frames { 4096 * control.frames ≤ length ram.now }
    requires laid { IsLaid guard.now.text.now control.frames }
    requires page { page < 2 ^ 20 }
    ensures { result ≡ walks_text (tables ram.now control guard.now) page }
{
    let dir_frame = control.cr3 / 4096;
    if is_text(guard, dir_frame) {
        return true;
    }
    if dir_frame >= control.frames {
        return false;
    }
    let _len = ram.len();
    let dir = read_word(
        ram,
        guard,
        control.frames,
        dir_frame * 4096 + page / 1024 * 4,
    );
    dir % 2 == 1 && (!is_large(control.pse, dir) && is_text(guard, dir / 4096))
}

/// A walk over words that lie in frames that hold no text.
fn walk_apart(ram: &Ram, control: Control, guard: &Guard, page: u32) -> Walk
    requires frames { 4096 * control.frames ≤ length ram.now }
    requires laid { IsLaid guard.now.text.now control.frames }
    requires page { page < 2 ^ 20 }
    requires apart { walks_text (tables ram.now control guard.now) page ≡ false }
    ensures walk { result ≡ fresh (shown guard.now control.frames ram.now) control.frames control.cr3 control.pse page }
    ensures found { FoundIn control.frames page result }
    ensures apart { IsFoundApart (mode_of guard.now) result }
{
    walk(ram, control.frames, control.cr3, control.pse, page)
}

#[tactic(auto, unfolding(paging::specs::Uses::marks_own))]
fn marks_own(
    ram: &Ram,
    control: Control,
    guard: &Guard,
    dir_at: u32,
    word_at: u32,
    write: bool,
) -> bool
    requires frames { 4096 * control.frames ≤ length ram.now }
    requires laid { IsLaid guard.now.text.now control.frames }
    requires dir { dir_at < 4096 * control.frames }
    requires word { word_at < 4096 * control.frames }
    ensures { result ≡ marks_own (tables ram.now control guard.now) dir_at word_at write }
{
    if is_own(guard, dir_at) && read(ram, guard, control.frames, dir_at) / 32 % 2 != 1 {
        return true;
    }
    let word = read(ram, guard, control.frames, word_at);
    is_own(guard, word_at) && (word / 32 % 2 != 1 || (write && word / 64 % 2 != 1))
}

/// Notes the frames that a walk of a page reads as tables.
#[tactic(auto, unfolding(paging::specs::Fresh::tables_read))]
#[inline(always)]
pub fn note_tables(ram: &Ram, control: Control, guard: &Guard, page: u32, tables: &mut Visited)
    requires frames { 4096 * control.frames ≤ length ram.now }
    requires laid { IsLaid guard.now.text.now control.frames }
    requires page { page < 2 ^ 20 }
    requires room { length tables.old ≤ 126 }
    ensures noted { tables.new
        ≡ tables.old ++ tables_read (shown guard.now control.frames ram.now) control.frames control.cr3 control.pse page }
    ensures few { length tables.new ≤ length tables.old + 2 }
{
    let dir_frame = control.cr3 / 4096;
    if dir_frame >= control.frames {
        return;
    }
    tables.push(dir_frame);
    let _len = ram.len();
    let dir = read_shown_word(
        ram,
        guard,
        control.frames,
        dir_frame * 4096 + page / 1024 * 4,
    );
    if dir % 2 == 1 && (!is_large(control.pse, dir) && dir / 4096 < control.frames) {
        tables.push(dir / 4096);
    }
}

fn fault_code(present: bool, access: Access) -> u32
    ensures { result ≡ fault_code present access }
{
    let present = if present { 1 } else { 0 };
    let write = if access.write { 2 } else { 0 };
    let user = if access.user { 4 } else { 0 };
    present + write + user
}

/// The answer of a fresh walk, and the page's new entry. The flags are set where it is ready.
#[tactic(auto, unfolding(paging::specs::Uses::decided))]
pub fn decide(
    ram: &mut Ram,
    control: Control,
    guard: &Guard,
    fetch: bool,
    page: u32,
    at: u32,
    access: Access,
) -> (Touch, Option<Entry>)
    requires frames { 4096 * control.frames ≤ length ram.old }
    requires laid { IsLaid guard.now.text.now control.frames }
    requires page { page < 2 ^ 20 }
    ensures decided { decided (tables ram.old control guard.now) fetch page at access
        ≡ record { met = result.0; entry = result.1; ram = shown guard.now control.frames ram.new } }
    ensures length { length ram.new ≡ length ram.old }
    ensures above { drop (4096 * control.frames) ram.new ≡ drop (4096 * control.frames) ram.old }
    ensures hidden { hidden guard.now control.frames ram.new ≡ hidden guard.now control.frames ram.old }
    ensures found { IfSome result.1 (λ entry. (entry.page ≡ page) × (entry.frame < control.frames)) }
    ensures ready { result.0 ≡ Touch.Ready → IsSome result.1 }
    ensures clear { IfSome result.1 (λ entry. is_barred (mode_of guard.now) fetch access.user page entry.frame ≡ false) }
{
    if walks_text(ram, control, guard, page) {
        return (Touch::Stop(Stop::TableInText), None);
    }
    match walk_apart(ram, control, guard, page) {
        Walk::Absent => (
            Touch::Fault {
                code: fault_code(false, access),
                at,
            },
            None,
        ),
        Walk::Beyond => (Touch::Stop(Stop::BeyondRam), None),
        Walk::Reserved => (Touch::Stop(Stop::ControlBits), None),
        Walk::Found {
            entry,
            dir_at,
            word_at,
        } => {
            if !grants(&entry, access, control.wp) {
                let code = fault_code(true, access);
                return (Touch::Fault { code, at }, None);
            }
            if is_barred(guard, fetch, access.user, entry.page, entry.frame) {
                return (Touch::Stop(Stop::TextMapped), None);
            }
            if marks_own(ram, control, guard, dir_at, word_at, access.write) {
                return (Touch::Stop(Stop::CodeIsTable), None);
            }
            mark(ram, guard, control.frames, dir_at, word_at, access.write);
            let dirty = entry.dirty || access.write;
            (Touch::Ready, Some(Entry { dirty, ..entry }))
        }
    }
}
