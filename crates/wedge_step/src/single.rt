//! One step that the host has no part in; of a sensitive instruction this is trap and emulate.

ghost use Rattle.std.specs.Prelude.{◌≡◌, ℕ, Bool, true, false, OnErr, OnOk, ◌+◌, ◌*◌, ◌/◌, ◌==◌, ◌≤◌, ◌<◌, ◌^◌};
ghost use Rattle.board.specs.Boards.{board_step};
ghost use Rattle.board.specs.Scripts.{Events};
ghost use Rattle.image_check.specs.Image.{Image};
ghost use Rattle.image_load.specs.Boot.{text_pages};
ghost use Rattle.descriptors.specs.declared.cpu.Cpu.{Cpu};
ghost use Rattle.descriptors.specs.Controls.{wp_of};
ghost use Rattle.machine_step.specs.Worked.{dropping};
ghost use Rattle.machine_model.specs.State.{Setting, wedge};
ghost use Rattle.wedge_step.specs.Alone.{AloneAs};
ghost use Rattle.wedge_step.specs.Ending.{EndsCount, IsUnderWay, IsWorked, KeepsCount, KeepsRest, MayEnd, Passes};
ghost use Rattle.wedge_step.specs.Leaves.{Accounts, CarriesOn, IsBetween, Stays};
ghost use Rattle.wedge_step.specs.Leaving.{Ends, IsToldOf};
ghost use Rattle.wedge_step.specs.Original.{IsOriginal};
ghost use Rattle.wedge_step.specs.Parts.{left_of};
ghost use Rattle.wedge_step.specs.Ready.{AllOpen, leaving};
ghost use Rattle.wedge_step.specs.Scene.{scene, state_in};
ghost use Rattle.shadow_tables.specs.Sight.{sight};
ghost use Rattle.wedge_step.specs.Stand.{AreFoundIn, AreUnder, ClosesIn, IsReadyBehindIn, IsReadyButIn, IsReadyIn, MayCloseIn, Moved, OpensFor, Suffices, pages_through, room_in, set_behind, set_in, stand};
ghost use Rattle.wedge_step.specs.Standing.{AreOpen, side_of};

use crate::beginning::begin_over;
use crate::carrying::known_laws;
use crate::close::{drop_and_switch, settle_or_drop};
use crate::running::Running;
use crate::settled::is_settled;
use crate::sight::are_bytes;
use board::Board;
use descriptors::Cpu;
use frame_pool::Pool;
use guest_ram::Ram;
use ia32_types::Stop;
use image_check::Checked;
use machine_model::steps_follow;
use machine_step::{Dropped, Rules, Seen, Worked, step_at};
use shadow_cache::Reloads;
use shadow_tables::{Shadows, Side};
use step_mem::{StepState, Text};
use wedge_mem::Lent;

/// How many frames hold the text, the last one in part perhaps.
pub fn text_frames(image: &Checked) -> u32
    ensures { result ≡ text_pages image.now }
{
    (image.text().len() as u32 + 4095) / 4096
}

/// The side of the view that a processor at this level uses.
pub fn side_of(cpl: u8) -> Side
    ensures { result ≡ side_of (cpl == 3) }
{
    if cpl == 3 { Side::User } else { Side::Kernel }
}

/// One step by the rules, or the stop that it meets. The events of the step were given. Where notes are wanted nothing
/// comes back with a value of CR3. The text is the image's, and the step's state takes the place of an earlier one's.
pub fn step_alone<'t, S: Reloads + Drop>(
    running: &mut Running<S>,
    pool: &mut Pool,
    ram: &mut Ram,
    image: &Checked,
    text: &'t Option<Text<'t>>,
    notes_wanted: bool,
    state: &mut StepState<'t>,
) -> Result<Seen, Stop>
    requires text { IsOriginal image.now text.now }
    requires between { IsBetween S.Shadows image.now (scene running.old pool.old ram.old) }
    requires bound { running.old.step < 2 ^ 40 }
    ensures between { OnOk result (IsBetween S.Shadows image.now (scene running.new pool.new ram.new)) }
    ensures notes_wanted { OnOk result (notes_wanted ≡ true → running.new.lost.reloaded ≡ false) }
    ensures carried { OnOk result (CarriesOn S.Shadows image.now notes_wanted
        (set_in S.Shadows (stand running.old.shadows pool.old ram.old))
        (scene running.old pool.old ram.old) (scene running.new pool.new ram.new)) }
    ensures step { (script : Events) → let m = wedge image.now script running.old.frames in
        AloneAs m (state_in S.Shadows m (scene running.old pool.old ram.old)) running.new.lost result
        (state_in S.Shadows m (scene running.new pool.new ram.new)) }
    ensures before { running.new.lost.before ≡ running.old.lost.before }
    ensures count { OnOk result (running.new.step ≡ running.old.step + 1) }
    ensures stays { OnErr result (Stays (scene running.old pool.old ram.old) (scene running.new pool.new ram.new)) }
    ensures accounts { Accounts S.Shadows (scene running.old pool.old ram.old) (scene running.new pool.new ram.new) }
{
    let rules = Rules { image: Some(image) };
    let kept = Lent {
        shadows: &running.shadows,
        pool: &*pool,
    };
    begin_over(&running.cpu, ram, &kept, running.frames, image, text, state);
    let mut worked = Worked {
        seen: Seen::Nothing,
        completed: None,
        cpu: running.cpu,
        dropped: Dropped::Nothing,
        raised: None,
    };
    match step_at(&rules, &mut worked, &mut running.board, ram, &kept, state) {
        Ok(()) => {
            steps_follow();
            known_laws();
            are_bytes(ram, image, running.frames);
            let count = text_frames(image);
            finish_step(running, pool, ram, state, &worked, count, notes_wanted);
            Ok(worked.seen)
        }
        Err(stop) => Err(stop),
    }
}

/// What a step left of its translations is kept, where so many frames hold the text; or nothing, where a view of its level
/// may not show one of its pages, or frames lack for them. Which of both is noted, and the pages that were filled are counted.
/// Mostly there is nothing to settle.
#[inline(always)]
pub fn fill_used<S: Shadows + Drop>(
    running: &mut Running<S>,
    pool: &mut Pool,
    ram: &mut Ram,
    state: &StepState,
    count: u32,
)
    requires under { IsUnderWay S.Shadows (scene running.old pool.old ram.old) state.now }
    requires fills { running.old.fills ≤ 2 ^ 48 }
    ensures moved { Moved S.Shadows (stand running.old.shadows pool.old ram.old) (stand running.new.shadows pool.new ram.new) }
    ensures left { set_in S.Shadows (stand running.new.shadows pool.new ram.new)
        ≡ left_of running.new.lost.after (set_behind S.Shadows (stand running.old.shadows pool.old ram.old) state.now) }
    ensures shows { (image : Image) → count ≡ text_pages image
        → AreOpen image state.now.control.wp (S.slots running.old.shadows ram.old)
        → AreOpen image state.now.control.wp (S.slots running.new.shadows ram.new) }
    ensures whole { MayCloseIn S.Shadows count (side_of (running.old.cpu.cpl == 3)) (stand running.old.shadows pool.old ram.old) state.now
        → (running.new.lost.after ≡ false)
        × ClosesIn S.Shadows (side_of (running.old.cpu.cpl == 3)) (stand running.old.shadows pool.old ram.old)
        (stand running.new.shadows pool.new ram.new) state.now }
    ensures ready { (out : ℕ → Bool) (m : Setting) (cpu : Cpu) → m.frames ≡ state.now.control.frames
        → IsReadyBehindIn S.Shadows out m cpu (stand running.old.shadows pool.old ram.old) state.now
        → IsReadyButIn S.Shadows out m cpu (stand running.new.shadows pool.new ram.new) }
    ensures opens { (image : Image) (wp : Bool)
        → AllOpen image wp (S.other_roots running.old.shadows ram.old) → AllOpen image wp (S.other_roots running.new.shadows ram.new) }
    ensures told { IsToldOf state.now.tables state.now.wrote running.new.lost.after
        (sight S.Shadows running.old.shadows ram.old) (sight S.Shadows running.new.shadows ram.new) }
    ensures has_tables_under { OpensFor S.Shadows (pages_through state.now)
        (stand running.old.shadows pool.old ram.old) (stand running.new.shadows pool.new ram.new) }
    ensures counts { KeepsCount S.Shadows (scene running.old pool.old ram.old) (scene running.new pool.new ram.new) state.now }
    ensures same { KeepsRest running.old running.new }
{
    if is_settled(&running.shadows, ram, state, side_of(running.cpu.cpl)) {
        running.lost.after = false;
        return;
    }
    settle_used(running, pool, ram, state, count);
}

/// What a step left of its translations is kept, or nothing, where there may be something to settle.
#[inline(never)]
fn settle_used<S: Shadows + Drop>(
    running: &mut Running<S>,
    pool: &mut Pool,
    ram: &mut Ram,
    state: &StepState,
    count: u32,
)
    requires under { IsUnderWay S.Shadows (scene running.old pool.old ram.old) state.now }
    requires fills { running.old.fills ≤ 2 ^ 48 }
    ensures moved { Moved S.Shadows (stand running.old.shadows pool.old ram.old) (stand running.new.shadows pool.new ram.new) }
    ensures left { set_in S.Shadows (stand running.new.shadows pool.new ram.new)
        ≡ left_of running.new.lost.after (set_behind S.Shadows (stand running.old.shadows pool.old ram.old) state.now) }
    ensures shows { (image : Image) → count ≡ text_pages image
        → AreOpen image state.now.control.wp (S.slots running.old.shadows ram.old)
        → AreOpen image state.now.control.wp (S.slots running.new.shadows ram.new) }
    ensures whole { MayCloseIn S.Shadows count (side_of (running.old.cpu.cpl == 3)) (stand running.old.shadows pool.old ram.old) state.now
        → (running.new.lost.after ≡ false)
        × ClosesIn S.Shadows (side_of (running.old.cpu.cpl == 3)) (stand running.old.shadows pool.old ram.old)
        (stand running.new.shadows pool.new ram.new) state.now }
    ensures ready { (out : ℕ → Bool) (m : Setting) (cpu : Cpu) → m.frames ≡ state.now.control.frames
        → IsReadyBehindIn S.Shadows out m cpu (stand running.old.shadows pool.old ram.old) state.now
        → IsReadyButIn S.Shadows out m cpu (stand running.new.shadows pool.new ram.new) }
    ensures opens { (image : Image) (wp : Bool)
        → AllOpen image wp (S.other_roots running.old.shadows ram.old) → AllOpen image wp (S.other_roots running.new.shadows ram.new) }
    ensures told { IsToldOf state.now.tables state.now.wrote running.new.lost.after
        (sight S.Shadows running.old.shadows ram.old) (sight S.Shadows running.new.shadows ram.new) }
    ensures has_tables_under { OpensFor S.Shadows (pages_through state.now)
        (stand running.old.shadows pool.old ram.old) (stand running.new.shadows pool.new ram.new) }
    ensures counts { KeepsCount S.Shadows (scene running.old pool.old ram.old) (scene running.new pool.new ram.new) state.now }
    ensures same { KeepsRest running.old running.new }
{
    let all = pool.free() + running.held;
    let side = side_of(running.cpu.cpl);
    let settled = settle_or_drop(&mut running.shadows, pool, ram, state, side, count);
    running.held = all - pool.free();
    match settled {
        None => running.lost.after = true,
        Some(filled) => {
            running.lost.after = false;
            running.fills += u64::from(filled);
        }
    }
}

/// The end of a step that went: its translations are settled, the count rises, and the board advances. Whether all
/// translations were dropped, or some came back, is noted. So many frames hold the text; where notes are wanted nothing
/// comes back with a value of CR3.
pub fn finish_step<S: Reloads + Drop>(
    running: &mut Running<S>,
    pool: &mut Pool,
    ram: &mut Ram,
    state: &StepState,
    worked: &Worked,
    count: u32,
    notes_wanted: bool,
)
    requires under { IsUnderWay S.Shadows (scene running.old pool.old ram.old) state.now }
    requires counts { MayEnd S.Shadows (scene running.old pool.old ram.old) }
    requires worked { IsWorked running.old.cpu state.now worked.now }
    ensures moved { Moved S.Shadows (stand running.old.shadows pool.old ram.old) (stand running.new.shadows pool.new ram.new) }
    ensures left { running.new.lost.reloaded ≡ false → set_in S.Shadows (stand running.new.shadows pool.new ram.new)
        ≡ left_of running.new.lost.after (dropping worked.now.dropped
        (set_behind S.Shadows (stand running.old.shadows pool.old ram.old) state.now)) }
    ensures notes_wanted { notes_wanted ≡ true → running.new.lost.reloaded ≡ false }
    ensures has_tables_under { OpensFor S.Shadows (pages_through state.now)
        (stand running.old.shadows pool.old ram.old) (stand running.new.shadows pool.new ram.new) }
    ensures ends { notes_wanted ≡ false
        → MayCloseIn S.Shadows count (side_of (running.old.cpu.cpl == 3)) (stand running.old.shadows pool.old ram.old) state.now
        → (indices : ℕ → Bool) → AreUnder (pages_through state.now) indices → S.has_tables_under running.old.shadows ram.old indices
        → Suffices S.Shadows indices (room_in S.Shadows (stand running.old.shadows pool.old ram.old))
        → Ends worked.now.dropped running.old.cpu worked.now.cpu (pages_through state.now) state.now.tables state.now.wrote
        (set_behind S.Shadows (stand running.old.shadows pool.old ram.old) state.now)
        (sight S.Shadows running.old.shadows ram.old) (sight S.Shadows running.new.shadows ram.new) }
    ensures ready { (m : Setting) → m.frames ≡ state.now.control.frames → count ≡ text_pages m.image
        → AreOpen m.image state.now.control.wp (S.slots running.old.shadows ram.old)
        → IsReadyBehindIn S.Shadows (leaving worked.now.dropped (pages_through state.now)) m running.old.cpu
        (stand running.old.shadows pool.old ram.old) state.now
        → IsReadyIn S.Shadows m running.new.cpu (stand running.new.shadows pool.new ram.new)
        × (running.new.lost.reloaded ≡ true
        → AreFoundIn S.Shadows m running.new.cpu running.new.cpu.cr3 (stand running.new.shadows pool.new ram.new)) }
    ensures shows { (image : Image) → count ≡ text_pages image
        → AreOpen image state.now.control.wp (S.slots running.old.shadows ram.old)
        → AllOpen image state.now.control.wp (S.other_roots running.old.shadows ram.old)
        → AreOpen image (wp_of worked.now.cpu) (S.slots running.new.shadows ram.new) }
    ensures counts { EndsCount S.Shadows (scene running.old pool.old ram.old) (scene running.new pool.new ram.new) state.now }
    ensures passes { Passes worked.now running.old running.new }
{
    fill_used(running, pool, ram, state, count);
    let all = pool.free() + running.held;
    let left = drop_and_switch(
        &mut running.shadows,
        pool,
        ram,
        &running.cpu,
        worked,
        state.visited.as_slice(),
        notes_wanted,
    );
    running.lost.after |= left.none;
    running.lost.reloaded = left.reloaded;
    running.held = all - pool.free();
    pass(
        &mut running.cpu,
        &mut running.step,
        &mut running.board,
        worked,
    );
}

/// The processor is as the step left it, the count rises, and the board advances.
fn pass(cpu: &mut Cpu, step: &mut u64, board: &mut Board, worked: &Worked)
    requires bound { step.old < 2 ^ 40 }
    ensures cpu { cpu.new ≡ worked.now.cpu }
    ensures step { step.new ≡ step.old + 1 }
    ensures board { board.new ≡ board_step board.old }
{
    *cpu = worked.cpu;
    *step += 1;
    board.advance(1);
}
