//! The end of a step, for what is kept of the translations.

ghost use Rattle.std.specs.Prelude.{◌≡◌, ◌&&◌, ◌||◌, not, ℕ, List, Bool, true, false, ◌+◌, ◌*◌, ◌/◌, ◌≤◌, is_none, IfSome};
ghost use Rattle.std.specs.FinMap.{empty};
ghost use Rattle.frame_pool.specs.Held.{Owns, Moves};
ghost use Rattle.frame_pool.specs.Pool.{base_of};
ghost use Rattle.frame_pool.specs.declared.Pool.{Pool};
ghost use Rattle.descriptors.specs.Controls.{pse_of, wp_of};
ghost use Rattle.descriptors.specs.declared.cpu.Cpu.{Cpu};
ghost use Rattle.image_check.specs.Image.{Image};
ghost use Rattle.image_load.specs.Boot.{text_pages};
ghost use Rattle.guest_ram.specs.Among.{is_among};
ghost use Rattle.machine_step.specs.Worked.{dropping, IsDropped};
ghost use Rattle.machine_model.specs.State.{Setting};
ghost use Rattle.wedge_step.specs.Parts.{left_of};
ghost use Rattle.wedge_step.specs.Ready.{AllOpen, is_all, leaving, left_out};
ghost use Rattle.wedge_step.specs.Standing.{AreOpen};
ghost use Rattle.shadow_tables.specs.Sight.{StaysBeside, sight};
ghost use Rattle.wedge_step.specs.Sight.{IsBare, Sheds, StayOpen, one_dropped, pages_dropped};
ghost use Rattle.kept_laws.specs.OverSteps.{Tells};
ghost use Rattle.wedge_step.specs.Leaving.{ChangesRules, Leaves, Loads, RulesSame};
ghost use Rattle.wedge_step.specs.Stand.{AreFoundIn, ClosesIn, IsFilledBy, IsOwned, IsReadyBehindIn, IsReadyButIn, IsReadyIn, IsSoundIn, KeepsRules, MayCloseIn, Moved, OpensFor, OpensNoMore, count_in, free_in, pages_through, room_in, set_behind, set_in, stand};

use crate::opened::are_open;
use descriptors::Cpu;
use frame_pool::Pool;
use guest_ram::Ram;
use ia32_types::PAGES;
use machine_step::{Dropped, Worked};
use shadow_cache::Reloads;
use shadow_tables::{Shadows, Side};
use step_mem::StepState;
use wedge_mem::settle;

/// Settles the shadows to what a step left. Answers how many pages were filled. None where a view of this side may not
/// show one of its pages, or frames lack for them: all is dropped then.
pub fn settle_or_drop<S: Shadows>(
    shadows: &mut S,
    pool: &mut Pool,
    ram: &mut Ram,
    state: &StepState,
    side: Side,
    count: u32,
) -> Option<u32>
    requires sound { IsSoundIn S.Shadows (stand shadows.old pool.old ram.old) state.now }
    ensures moved { Moved S.Shadows (stand shadows.old pool.old ram.old) (stand shadows.new pool.new ram.new) }
    ensures left { set_in S.Shadows (stand shadows.new pool.new ram.new)
        ≡ left_of (is_none result) (set_behind S.Shadows (stand shadows.old pool.old ram.old) state.now) }
    ensures shows { (image : Image) → count ≡ text_pages image
        → AreOpen image state.now.control.wp (S.slots shadows.old ram.old)
        → AreOpen image state.now.control.wp (S.slots shadows.new ram.new) }
    ensures whole { MayCloseIn S.Shadows count side (stand shadows.old pool.old ram.old) state.now
        → (is_none result ≡ false)
        × ClosesIn S.Shadows side (stand shadows.old pool.old ram.old) (stand shadows.new pool.new ram.new) state.now }
    ensures opens { (image : Image) (wp : Bool)
        → AllOpen image wp (S.other_roots shadows.old ram.old) → AllOpen image wp (S.other_roots shadows.new ram.new) }
    ensures filled { IfSome result
        (λ n. IsFilledBy S.Shadows side (stand shadows.old pool.old ram.old) (stand shadows.new pool.new ram.new) state.now n) }
    ensures fewer { is_none result ≡ true → count_in S.Shadows (stand shadows.new pool.new ram.new) ≡ 0 }
    ensures told { is_none result ≡ false
        → Tells state.now.tables state.now.wrote (sight S.Shadows shadows.old ram.old) (sight S.Shadows shadows.new ram.new) }
    ensures cr3 { S.cr3 shadows.new ≡ S.cr3 shadows.old }
    ensures has_tables_under { OpensFor S.Shadows (pages_through state.now)
        (stand shadows.old pool.old ram.old) (stand shadows.new pool.new ram.new) }
    ensures ready { (out : ℕ → Bool) (m : Setting) (cpu : Cpu) → m.frames ≡ state.now.control.frames
        → IsReadyBehindIn S.Shadows out m cpu (stand shadows.old pool.old ram.old) state.now
        → IsReadyButIn S.Shadows out m cpu (stand shadows.new pool.new ram.new) }
{
    if !are_open(shadows, ram, state, side, count) {
        shadows.drop_all(ram, pool);
        return None;
    }
    settle(shadows, ram, pool, state, side)
}

/// What leaves the translations at the end of a step.
pub fn drop_from<S: Shadows>(shadows: &mut S, pool: &mut Pool, ram: &mut Ram, dropped: Dropped)
    requires owned { IsOwned S.Shadows (stand shadows.old pool.old ram.old) }
    requires page { IsDropped dropped }
    ensures moved { Moved S.Shadows (stand shadows.old pool.old ram.old) (stand shadows.new pool.new ram.new) }
    ensures entries { set_in S.Shadows (stand shadows.new pool.new ram.new)
        ≡ dropping dropped (set_in S.Shadows (stand shadows.old pool.old ram.old)) }
    ensures shown { (image : Image) (wp : Bool)
        → StayOpen image wp wp (sight S.Shadows shadows.old ram.old) (sight S.Shadows shadows.new ram.new) }
    ensures fewer { count_in S.Shadows (stand shadows.new pool.new ram.new) ≤ count_in S.Shadows (stand shadows.old pool.old ram.old) }
    ensures stay { is_all dropped ≡ false → StaysBeside (sight S.Shadows shadows.old ram.old) (sight S.Shadows shadows.new ram.new) }
    ensures has_tables_under { OpensNoMore S.Shadows (stand shadows.old pool.old ram.old) (stand shadows.new pool.new ram.new) }
    ensures ready { (m : Setting) (cpu : Cpu) (pages : List ℕ) → m.frames ≤ base_of pool.old → is_all dropped ≡ false
        → IsReadyButIn S.Shadows (leaving dropped pages) m cpu (stand shadows.old pool.old ram.old)
        → IsReadyIn S.Shadows m cpu (stand shadows.new pool.new ram.new) }
{
    match dropped {
        Dropped::Nothing => {}
        Dropped::Page(page) => shadows.drop_page(ram, page),
        Dropped::Dir(index) => shadows.drop_dir(ram, index),
        Dropped::All => shadows.drop_all(ram, pool),
    }
}

/// What is kept after a step that is done, but for what the instruction itself drops: nothing, where all were dropped;
/// what was kept under the value of CR3 that it loaded came back.
#[derive(Clone, Copy)]
pub struct Left {
    pub none: bool,
    pub reloaded: bool,
}

/// The rules by which rights are given and tables are read aren't the same: CR0.WP and CR4.PSE.
fn are_rules_changed(before: &Cpu, after: &Cpu) -> bool
    ensures same { result ≡ false → (wp_of after.now ≡ wp_of before.now) × (pse_of after.now ≡ pse_of before.now) }
    ensures other { result ≡ true → RulesSame before.now after.now → ⊥ }
{
    before.wp() != after.wp() || before.pse() != after.pse()
}

fn is_all(dropped: Dropped) -> bool
    ensures { result ≡ is_all dropped }
{
    match dropped {
        Dropped::All => true,
        Dropped::Nothing | Dropped::Page(_) | Dropped::Dir(_) => false,
    }
}

/// Drops a page, if it is one of the address space.
fn drop_one<S: Shadows>(shadows: &mut S, ram: &mut Ram, page: u32)
    requires stands { ∥ S.stands shadows.old ram.old ∥₁ }
    ensures stands { ∥ S.stands shadows.new ram.new ∥₁ }
    ensures sight { S.sight shadows.new ram.new ≡ one_dropped page (S.sight shadows.old ram.old) }
    ensures has_tables_under { (indices : ℕ → Bool) → S.has_tables_under shadows.old ram.old indices
        → S.has_tables_under shadows.new ram.new indices }
    ensures moves { (p : Pool) → Owns p ram.old (S.frames shadows.old ram.old)
        → Moves p p ram.old ram.new (S.frames shadows.old ram.old) (S.frames shadows.new ram.new) }
{
    if page < PAGES {
        shadows.drop_page(ram, page);
    }
}

/// Drops pages, of which some may be none of the address space.
fn drop_pages<S: Shadows>(shadows: &mut S, ram: &mut Ram, pages: &[u32])
    requires stands { ∥ S.stands shadows.old ram.old ∥₁ }
    ensures stands { ∥ S.stands shadows.new ram.new ∥₁ }
    ensures sight { S.sight shadows.new ram.new ≡ pages_dropped pages.now (S.sight shadows.old ram.old) }
    ensures has_tables_under { (indices : ℕ → Bool) → S.has_tables_under shadows.old ram.old indices
        → S.has_tables_under shadows.new ram.new indices }
    ensures moves { (p : Pool) → Owns p ram.old (S.frames shadows.old ram.old)
        → Moves p p ram.old ram.new (S.frames shadows.old ram.old) (S.frames shadows.new ram.new) }
{
    for page in pages {
        drop_one(shadows, ram, *page);
    }
}

/// Before CR3 is loaded these pages are dropped. Where notes are wanted, or frames lack, all is dropped.
fn make_way<S: Shadows>(
    shadows: &mut S,
    pool: &mut Pool,
    ram: &mut Ram,
    pages: &[u32],
    notes_wanted: bool,
)
    requires owned { IsOwned S.Shadows (stand shadows.old pool.old ram.old) }
    requires enough { 4 ≤ room_in S.Shadows (stand shadows.old pool.old ram.old) }
    ensures moved { Moved S.Shadows (stand shadows.old pool.old ram.old) (stand shadows.new pool.new ram.new) }
    ensures room { 2 ≤ free_in (stand shadows.new pool.new ram.new) }
    ensures emptied { notes_wanted ≡ true → IsBare (sight S.Shadows shadows.new ram.new) }
    ensures sheds { notes_wanted ≡ false → 2 ≤ free_in (stand shadows.old pool.old ram.old)
        → Sheds pages.now (sight S.Shadows shadows.old ram.old) (sight S.Shadows shadows.new ram.new) }
    ensures cr3 { S.cr3 shadows.new ≡ S.cr3 shadows.old }
    ensures has_tables_under { OpensNoMore S.Shadows (stand shadows.old pool.old ram.old) (stand shadows.new pool.new ram.new) }
    ensures fewer { count_in S.Shadows (stand shadows.new pool.new ram.new) ≤ count_in S.Shadows (stand shadows.old pool.old ram.old) }
    ensures shown { (image : Image) (wp : Bool)
        → StayOpen image wp wp (sight S.Shadows shadows.old ram.old) (sight S.Shadows shadows.new ram.new) }
    ensures ready { (m : Setting) (cpu : Cpu) → m.frames ≤ base_of pool.old
        → IsReadyButIn S.Shadows (λ page. is_among page pages.now) m cpu (stand shadows.old pool.old ram.old)
        → IsReadyIn S.Shadows m cpu (stand shadows.new pool.new ram.new) }
{
    if notes_wanted || pool.free() < 2 {
        shadows.drop_all(ram, pool);
    } else {
        drop_pages(shadows, ram, pages);
    }
}

/// Puts by what is kept, but for these pages, and goes to what was kept under this value of CR3. Where notes are wanted, or
/// frames lack, all is dropped first.
// Pairs of views are moved here, 2 KB each: the frame of a step that loads no CR3 is without them.
#[inline(never)]
fn load<S: Reloads>(
    shadows: &mut S,
    pool: &mut Pool,
    ram: &mut Ram,
    cr3: u32,
    pages: &[u32],
    notes_wanted: bool,
)
    requires owned { IsOwned S.Shadows (stand shadows.old pool.old ram.old) }
    requires enough { 4 ≤ room_in S.Shadows (stand shadows.old pool.old ram.old) }
    ensures moved { Moved S.Shadows (stand shadows.old pool.old ram.old) (stand shadows.new pool.new ram.new) }
    ensures emptied { notes_wanted ≡ true → set_in S.Shadows (stand shadows.new pool.new ram.new) ≡ empty }
    ensures loads { notes_wanted ≡ false → 2 ≤ free_in (stand shadows.old pool.old ram.old)
        → Loads cr3 pages.now (sight S.Shadows shadows.old ram.old) (sight S.Shadows shadows.new ram.new) }
    ensures has_tables_under { OpensNoMore S.Shadows (stand shadows.old pool.old ram.old) (stand shadows.new pool.new ram.new) }
    ensures fewer { count_in S.Shadows (stand shadows.new pool.new ram.new) ≤ count_in S.Shadows (stand shadows.old pool.old ram.old) }
    ensures shows { (image : Image) (wp : Bool) → AreOpen image wp (S.slots shadows.old ram.old)
        → AllOpen image wp (S.other_roots shadows.old ram.old) → AreOpen image wp (S.slots shadows.new ram.new) }
    ensures ready { (m : Setting) (before after : Cpu) → m.frames ≤ base_of pool.old → after.cr3 ≡ cr3
        → pse_of after ≡ pse_of before → wp_of after ≡ wp_of before → AreOpen m.image (wp_of before) (S.slots shadows.old ram.old)
        → IsReadyButIn S.Shadows (λ page. is_among page pages.now) m before (stand shadows.old pool.old ram.old)
        → IsReadyIn S.Shadows m after (stand shadows.new pool.new ram.new)
        × AreFoundIn S.Shadows m after cr3 (stand shadows.new pool.new ram.new) }
{
    make_way(shadows, pool, ram, pages, notes_wanted);
    shadows.switch(ram, pool, cr3);
}

/// What leaves at the end of a step that went, by a change of the rules, or else by the instruction, where it doesn't drop
/// all. Answers whether all left by such a change.
fn drop_by<S: Shadows>(
    shadows: &mut S,
    pool: &mut Pool,
    ram: &mut Ram,
    before: &Cpu,
    worked: &Worked,
) -> bool
    requires owned { IsOwned S.Shadows (stand shadows.old pool.old ram.old) }
    requires page { IsDropped worked.now.dropped }
    ensures moved { Moved S.Shadows (stand shadows.old pool.old ram.old) (stand shadows.new pool.new ram.new) }
    ensures left { is_all worked.now.dropped ≡ false → set_in S.Shadows (stand shadows.new pool.new ram.new)
        ≡ left_of result (dropping worked.now.dropped (set_in S.Shadows (stand shadows.old pool.old ram.old))) }
    ensures changed { result ≡ true
        → ChangesRules before.now worked.now.cpu (sight S.Shadows shadows.old ram.old) (sight S.Shadows shadows.new ram.new) }
    ensures same { result ≡ false → KeepsRules S.Shadows worked.now.dropped before.now worked.now.cpu
        (stand shadows.old pool.old ram.old) (stand shadows.new pool.new ram.new) }
    ensures has_tables_under { OpensNoMore S.Shadows (stand shadows.old pool.old ram.old) (stand shadows.new pool.new ram.new) }
    ensures fewer { count_in S.Shadows (stand shadows.new pool.new ram.new) ≤ count_in S.Shadows (stand shadows.old pool.old ram.old) }
    ensures shown { (image : Image) → StayOpen image (wp_of before.now) (wp_of worked.now.cpu)
        (sight S.Shadows shadows.old ram.old) (sight S.Shadows shadows.new ram.new) }
    ensures ready { (m : Setting) (pages : List ℕ) → m.frames ≤ base_of pool.old
        → IsReadyButIn S.Shadows (leaving worked.now.dropped pages) m before.now (stand shadows.old pool.old ram.old)
        → IsReadyButIn S.Shadows (left_out worked.now.dropped pages) m (record worked.now.cpu { cr3 = before.now.cr3 })
        (stand shadows.new pool.new ram.new) }
{
    if are_rules_changed(before, &worked.cpu) {
        shadows.drop_all(ram, pool);
        return true;
    }
    if !is_all(worked.dropped) {
        drop_from(shadows, pool, ram, worked.dropped);
    }
    false
}

/// CR3 wasn't loaded: it is the same, and what was dropped by the instruction isn't all, unless the rules changed.
fn is_through(before: &Cpu, worked: &Worked, changed: bool) -> bool
    ensures same { result ≡ true → worked.now.cpu.cr3 ≡ before.now.cr3 }
    ensures other { result ≡ true → (changed || not (is_all worked.now.dropped)) ≡ true }
    ensures loaded { result ≡ false → worked.now.cpu.cr3 ≡ before.now.cr3 → (changed ≡ false) × (is_all worked.now.dropped ≡ true) }
{
    if worked.cpu.cr3 != before.cr3 {
        return false;
    }
    changed || !is_all(worked.dropped)
}

/// All was dropped, and not by the instruction.
fn is_lost(dropped: bool, by: Dropped) -> bool
    ensures { result ≡ (dropped && not (is_all by)) }
{
    dropped && !is_all(by)
}

/// What leaves at the end of a step that went, and what comes back. An instruction that drops all has loaded CR3, unless
/// the rules changed with it. These are the pages that the step went through or changed.
pub fn drop_and_switch<S: Reloads>(
    shadows: &mut S,
    pool: &mut Pool,
    ram: &mut Ram,
    before: &Cpu,
    worked: &Worked,
    pages: &[u32],
    notes_wanted: bool,
) -> Left
    requires owned { IsOwned S.Shadows (stand shadows.old pool.old ram.old) }
    requires page { IsDropped worked.now.dropped }
    requires enough { 4 ≤ room_in S.Shadows (stand shadows.old pool.old ram.old) }
    ensures moved { Moved S.Shadows (stand shadows.old pool.old ram.old) (stand shadows.new pool.new ram.new) }
    ensures left { result.reloaded ≡ false → set_in S.Shadows (stand shadows.new pool.new ram.new)
        ≡ left_of result.none (dropping worked.now.dropped (set_in S.Shadows (stand shadows.old pool.old ram.old))) }
    ensures notes_wanted { notes_wanted ≡ true → result.reloaded ≡ false }
    ensures leaves { Leaves worked.now before.now pages.now notes_wanted (free_in (stand shadows.old pool.old ram.old))
        (sight S.Shadows shadows.old ram.old) (sight S.Shadows shadows.new ram.new) }
    ensures has_tables_under { OpensNoMore S.Shadows (stand shadows.old pool.old ram.old) (stand shadows.new pool.new ram.new) }
    ensures fewer { count_in S.Shadows (stand shadows.new pool.new ram.new) ≤ count_in S.Shadows (stand shadows.old pool.old ram.old) }
    ensures shows { (image : Image) → AreOpen image (wp_of before.now) (S.slots shadows.old ram.old)
        → AllOpen image (wp_of before.now) (S.other_roots shadows.old ram.old)
        → AreOpen image (wp_of worked.now.cpu) (S.slots shadows.new ram.new) }
    ensures ready { (m : Setting) → m.frames ≤ base_of pool.old → AreOpen m.image (wp_of before.now) (S.slots shadows.old ram.old)
        → IsReadyButIn S.Shadows (leaving worked.now.dropped pages.now) m before.now (stand shadows.old pool.old ram.old)
        → IsReadyIn S.Shadows m worked.now.cpu (stand shadows.new pool.new ram.new)
        × (result.reloaded ≡ true → AreFoundIn S.Shadows m worked.now.cpu worked.now.cpu.cr3 (stand shadows.new pool.new ram.new)) }
{
    let changed = drop_by(shadows, pool, ram, before, worked);
    if is_through(before, worked, changed) {
        return Left {
            none: is_lost(changed, worked.dropped),
            reloaded: false,
        };
    }
    load(shadows, pool, ram, worked.cpu.cr3, pages, notes_wanted);
    Left {
        none: is_lost(true, worked.dropped),
        reloaded: !notes_wanted,
    }
}
