//! Whether the next step's instruction uses a page twice, and what is kept for the page doesn't allow the later use. It
//! is found without doing the step.

ghost use Rattle.std.specs.Prelude.{◌≡◌, ℕ, ◌+◌, ◌*◌, ◌/◌, ◌%◌, ◌≤◌, ◌<◌, ◌^◌, ◌==◌, ◌++◌, Bool, true, false, List, [], ◌∷◌, Ok, Some, IfSome, length, map};
ghost use Rattle.std.specs.FinMap.{get};
ghost use Rattle.std.specs.List.{All};
ghost use Rattle.guest_ram.specs.Among.{is_among};
ghost use Rattle.descriptors.specs.Controls.{wp_of};
ghost use Rattle.board.specs.declared.devices.Board.{Board};
ghost use Rattle.board.specs.Scripts.{Events};
ghost use Rattle.ia32_types.specs.declared.addresses.TheConstants.{LAST_PAGE, TEXT_PLACE};
ghost use Rattle.ia32_types.specs.declared.insn.Insn.{Insn};
ghost use Rattle.ia32_decode.specs.declared.answer.Decoded.TheVariants as begins;
ghost use Rattle.ia32_decode.specs.Decoding.{decoded};
ghost use Rattle.ia32_exec.specs.Effect.{ranges_of};
ghost use Rattle.ia32_exec.specs.Short.{IsShort};
ghost use Rattle.paging.specs.Space.{Space};
ghost use Rattle.machine_model.specs.Clash.{clash_in, instruction_clashes, is_refused_by, ranges_used, uses_of};
ghost use Rattle.machine_model.specs.Instruction.{fetched};
ghost use Rattle.machine_model.specs.State.{State, space_at_start, wedge};
ghost use Rattle.native_steps.specs.Looking.{marked, next_seen, uses_from, uses_on, uses_seen};
ghost use Rattle.native_steps.specs.Mirrors.{shown};
ghost use Rattle.shadow_tables.specs.Entries.{entries_of};
ghost use Rattle.step_mem.specs.Changes.{AreWithin};
ghost use Rattle.wedge_step.specs.Clashing.{looked, AreIn, marks_of, seen_of, before, model_uses};
ghost use Rattle.wedge_step.specs.Looked.{bytes_of, ground_of, looked_at, set_at};
ghost use Rattle.wedge_step.specs.Standing.{ground};

use crate::looking::{Seen, fetched, fetched_next, read};
use crate::sight::{GuestView, are_bytes};
use arrayvec::ArrayVec;
use descriptors::{Cpu, by_level};
use guest_ram::Ram;
use ia32_decode::{Bytes, Decoded, LONGEST, decode, front_len, next_page};
use ia32_exec::{Range, ranges};
use ia32_types::{Insn, PAGES};
use image_check::Checked;
use native_steps::uses_are_seen;
use paging::{Access, allows};
use shadow_tables::Shadows;

/// One use of a page.
#[derive(Clone, Copy)]
pub struct PageUse {
    pub page: u32,
    pub write: bool,
}

impl Default for PageUse {
    fn default() -> PageUse {
        PageUse {
            page: 0,
            write: false,
        }
    }
}

/// The uses of an instruction: two pages of its fetch, and two of either range at most.
type Uses = ArrayVec<PageUse, 6>;

/// Adds the first page of a range, and its last where that is another.
fn add_range(uses: &mut Uses, range: Option<Range>, write: bool)
    requires short { IsShort range }
    requires room { length uses.old.items ≤ 4 }
    ensures uses { (user : Bool) → model_uses user uses.new.items
        ≡ model_uses user uses.old.items ++ uses_of (record { write = write; user = user }) range }
    ensures few { length uses.new.items ≤ length uses.old.items + 2 }
{
    if let Some(range) = range {
        let first = range.at / 4096;
        let last = ((u64::from(range.at) + u64::from(range.len) - 1) / 4096) as u32;
        uses.push(PageUse { page: first, write });
        if last != first {
            uses.push(PageUse { page: last, write });
        }
    }
}

/// Adds the uses of an instruction's ranges. Where a null segment denies one it uses neither.
#[inline(always)]
fn add_ranges(uses: &mut Uses, insn: &Insn, cpu: &Cpu)
    requires room { length uses.old.items ≤ 2 }
    ensures uses { model_uses (cpu.now.cpl == 3) uses.new.items
        ≡ model_uses (cpu.now.cpl == 3) uses.old.items ++ ranges_used cpu.now (ranges_of insn.now cpu.now.regs) }
    ensures few { length uses.new.items ≤ 6 }
{
    let ranges = ranges(insn, &cpu.regs);
    if step_exec::is_refused(cpu, &ranges) {
        return;
    }
    add_range(uses, ranges.read, false);
    add_range(uses, ranges.write, true);
}

/// The pages that the instruction at EIP uses.
fn uses<S: Shadows>(cpu: &Cpu, shadows: &S, view: &GuestView<'_>) -> Uses
    requires stands { ∥ S.stands shadows.now view.now.ram.now ∥₁ }
    requires kept { AreWithin view.now.frames (set_at S.Shadows shadows.now view.now) }
    ensures { model_uses (cpu.now.cpl == 3) result.items
        ≡ uses_seen (ground_of view.now) (looked_at S.Shadows cpu.now shadows.now view.now) }
{
    let page = cpu.regs.eip / 4096;
    let mut uses: Uses = ArrayVec::new();
    uses.push(PageUse { page, write: false });
    if let Some(first) = fetched(cpu, shadows, view, page) {
        add_first(cpu, shadows, view, first, &mut uses);
    }
    uses
}

/// Adds the uses that the bytes of the first page show, and those of the next page where an instruction goes on there.
fn add_first<S: Shadows>(cpu: &Cpu, shadows: &S, view: &GuestView<'_>, first: Seen, uses: &mut Uses)
    requires stands { ∥ S.stands shadows.now view.now.ram.now ∥₁ }
    requires kept { AreWithin view.now.frames (set_at S.Shadows shadows.now view.now) }
    requires marks { AreIn view.now.frames (marks_of first.marks) }
    requires frame { first.frame < view.now.frames }
    requires one { model_uses (cpu.now.cpl == 3) uses.old.items
        ≡ record { page = cpu.now.regs.eip / 4096; access = record { write = false; user = cpu.now.cpl == 3 } } ∷ [] }
    requires single { length uses.old.items ≡ 1 }
    ensures { model_uses (cpu.now.cpl == 3) uses.new.items
        ≡ uses_from (ground_of view.now) (looked_at S.Shadows cpu.now shadows.now view.now) (Some (seen_of first)) }
{
    let eip = cpu.regs.eip;
    let mut bytes: Bytes = ArrayVec::new();
    read(view, None, first, eip, front_len(eip), &mut bytes);
    match decode(bytes.as_slice()) {
        Decoded::Insn(insn, _) => add_ranges(uses, &insn, cpu),
        Decoded::Outside => {}
        Decoded::Short => match next_page(eip) {
            None => {}
            Some(_) => add_next(cpu, shadows, view, first, &mut bytes, uses),
        },
    }
}

/// Adds the uses that the bytes of the next page show.
fn add_next<S: Shadows>(
    cpu: &Cpu,
    shadows: &S,
    view: &GuestView<'_>,
    first: Seen,
    bytes: &mut Bytes,
    uses: &mut Uses,
)
    requires stands { ∥ S.stands shadows.now view.now.ram.now ∥₁ }
    requires kept { AreWithin view.now.frames (set_at S.Shadows shadows.now view.now) }
    requires marks { AreIn view.now.frames (marks_of first.marks) }
    requires frame { first.frame < view.now.frames }
    requires page { cpu.now.regs.eip / 4096 < LAST_PAGE }
    requires few { length bytes.old.items ≤ 11 }
    requires one { model_uses (cpu.now.cpl == 3) uses.old.items
        ≡ record { page = cpu.now.regs.eip / 4096; access = record { write = false; user = cpu.now.cpl == 3 } } ∷ [] }
    requires single { length uses.old.items ≡ 1 }
    ensures { model_uses (cpu.now.cpl == 3) uses.new.items ≡ uses_on (looked_at S.Shadows cpu.now shadows.now view.now)
        (marked (bytes_of view.now) (marks_of first.marks)) bytes.old.items
        (next_seen (ground_of view.now) (looked_at S.Shadows cpu.now shadows.now view.now) (seen_of first)) }
{
    let page = cpu.regs.eip / 4096 + 1;
    uses.push(PageUse { page, write: false });
    if let Some(second) = fetched_next(cpu, shadows, view, first) {
        read(view, first.marks, second, page * 4096, LONGEST, bytes);
        if let Decoded::Insn(insn, _) = decode(bytes.as_slice()) {
            add_ranges(uses, &insn, cpu);
        }
    }
}

/// One of the first n uses is of this page.
fn was_used(uses: &[PageUse], n: usize, page: u32) -> bool
    requires within { n ≤ length uses.now }
    ensures { result ≡ is_among page (before uses.now n) }
{
    let mut i = n;
    while i > 0 {
        i -= 1;
        if page == uses[i].page {
            return true;
        }
    }
    false
}

/// What is kept for the page doesn't allow the access.
fn is_refused<S: Shadows>(shadows: &S, ram: &Ram, page: u32, access: Access, wp: bool) -> bool
    requires stands { ∥ S.stands shadows.now ram.now ∥₁ }
    ensures { result ≡ is_refused_by (get (entries_of (S.slots shadows.now ram.now)) page) access wp }
{
    if page >= PAGES {
        return false;
    }
    match shadows.kept(ram, page) {
        None => false,
        Some(entry) => !allows(&entry, access, wp),
    }
}

/// A page is used twice, and what is kept for it doesn't allow the later use.
fn is_clash<S: Shadows>(cpu: &Cpu, shadows: &S, ram: &Ram, uses: &[PageUse]) -> bool
    requires stands { ∥ S.stands shadows.now ram.now ∥₁ }
    ensures { result ≡ clash_in (get (entries_of (S.slots shadows.now ram.now))) (wp_of cpu.now) (model_uses (cpu.now.cpl == 3) uses.now) }
{
    for i in 0..uses.len() {
        let page = uses[i].page;
        let access = by_level(cpu, uses[i].write);
        if was_used(uses, i, page) && is_refused(shadows, ram, page, access, cpu.wp()) {
            return true;
        }
    }
    false
}

/// The next instruction of this processor clashes with what the shadows keep, by the pages that a look at it finds. These
/// are those that the step itself uses, where its fetch gives an instruction; where it gives none, no clash is found.
pub fn clashes<S: Shadows>(cpu: &Cpu, frames: u32, shadows: &S, ram: &Ram, image: &Checked) -> bool
    requires frames { 4096 * frames ≤ length ram.now }
    requires laid { TEXT_PLACE + length image.now.text ≤ 4096 * frames }
    requires stands { ∥ S.stands shadows.now ram.now ∥₁ }
    requires kept { AreWithin frames (entries_of (S.slots shadows.now ram.now)) }
    ensures looked { result ≡ clash_in (get (entries_of (S.slots shadows.now ram.now))) (wp_of cpu.now)
        (uses_seen (ground image.now frames)
        (looked cpu.now (shown (ground image.now frames) ram.now) (entries_of (S.slots shadows.now ram.now)))) }
    ensures step { (script : Events) (b : State) (insn : Insn) (len : ℕ) (fetch : Space) → b.cpu ≡ cpu.now
        → b.ram ≡ shown (ground image.now frames) ram.now → b.set ≡ entries_of (S.slots shadows.now ram.now)
        → fetched (b.cpu.cpl == 3) b.cpu.regs.eip (space_at_start (wedge image.now script frames).mode frames b.cpu b.ram b.set)
        ≡ Ok (begins.Insn insn len, fetch)
        → result ≡ instruction_clashes (wedge image.now script frames) b }
    ensures clashes { result ≡ true → (script : Events) (b : State) → b.cpu ≡ cpu.now
        → b.ram ≡ shown (ground image.now frames) ram.now → b.set ≡ entries_of (S.slots shadows.now ram.now)
        → instruction_clashes (wedge image.now script frames) b ≡ true }
{
    uses_are_seen();
    are_bytes(ram, image, frames);
    let _eip = cpu.regs.eip;
    let view = GuestView { ram, image, frames };
    let uses = uses(cpu, shadows, &view);
    is_clash(cpu, shadows, ram, uses.as_slice())
}
