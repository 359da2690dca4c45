//! One step whose instruction the host does, where it is done.

ghost use Rattle.std.specs.Prelude.{
  ◌≡◌,
  ℕ,
  Bool,
  ◌+◌,
  ◌*◌,
  ◌/◌,
  ◌%◌,
  ◌==◌,
  ◌≤◌,
  ◌<◌,
  ◌^◌,
  List,
  length,
  true,
  false,
  take,
  None,
  Ok,
  OnOk,
  OnErr,
  IfErr,
  IfOk,
  IfSome,
};
ghost use Rattle.std.specs.FinMap.{empty};
ghost use Rattle.frame_pool.specs.Pool.{free_list};
ghost use Rattle.frame_pool.specs.Held.{Moves};
ghost use Rattle.frame_pool.specs.declared.Pool.{Pool};
ghost use Rattle.shadow_tables.specs.OtherRoot.{AreSame};
ghost use Rattle.shadow_tables.specs.Entries.{entries_of};
ghost use Rattle.ia32_rows.specs.Spells.{Spells};
ghost use Rattle.image_check.specs.Image.{Image};
ghost use Rattle.paging.specs.Gives.{Gives};
ghost use Rattle.step_mem.specs.Sound.{FetchesIn, IsSoundOver, space};
ghost use Rattle.machine_model.specs.Alone.{is_native};
ghost use Rattle.machine_model.specs.State.{Setting, State as Whole};
ghost use Rattle.machine_model.specs.UsedPages.{AtRefusal, Uses};
ghost use Rattle.machine_step.specs.Roots.{RootsAs};
ghost use Rattle.machine_step.specs.Ruled.{IsRuled};
ghost use Rattle.machine_step.specs.Worked.{IsDropped};
ghost use Rattle.wedge_step.specs.Leaves.{Accounts, IsBetween};
ghost use Rattle.wedge_step.specs.Original.{IsOriginal};
ghost use Rattle.wedge_step.specs.Parts.{left_of};
ghost use Rattle.wedge_step.specs.Scene.{scene, set_in};
ghost use Rattle.wedge_step.specs.Standing.{IsAble, ground};
ghost use Rattle.wedge_core.specs.Attempted.{Attempts, TriesOnce};
ghost use Rattle.wedge_core.specs.Losing.{IsClearIn, KeepsOtherRoots, LosesByClash, MovesInEach, StaysBeside};
ghost use Rattle.wedge_core.specs.Prepared.{PreparesAs, gone, prepared};
ghost use Rattle.wedge_core.specs.Scenes.{IsHeldIn, IsReadyIn, StaysHeld};
ghost use Rattle.wedge_core.specs.Tries.{TriesAs, tried};
ghost use Rattle.wedge_core.specs.Views.{may_run};

use crate::laws::native_laws;
use board::Board;
use descriptors::Cpu;
use frame_pool::Pool;
use guest_ram::Ram;
use ia32_decode::Decoded;
use ia32_exec::Outcome;
use ia32_types::{Insn, Op, Stop, sensitive};
use image_check::Checked;
use machine_model::works_use;
use machine_step::{Rules, Seen, Worked, carry_out, fetch_at, refuse};
use shadow_cache::Reloads;
use shadow_tables::Shadows;
use step_exec::{Memory, StepMemory, reach_both, user_outcome};
use step_mem::{StepState, Text, Translations};
use sys_exec::Refusal;
use wedge_mem::Lent;
use wedge_step::{
    Running, are_bytes, begin_over, clashes, fill_used, finish_step, known_laws, text_frames,
};

/// Such a step went, or the host is to do it: its pages are filled, and nothing else is done.
#[derive(Clone, Copy)]
pub enum Attempt {
    Stepped(Seen),
    Asked,
}

/// How many frames are free at least where the pages of one instruction are filled.
const ROOM: u32 = 8;

/// The instruction is one that the host does by itself: at level 0 an insensitive one, at level 3 any that needs neither
/// a higher level nor a descriptor.
fn is_native(insn: &Insn, cpu: &Cpu) -> bool
    ensures { result ≡ is_native (cpu.now.cpl == 3) insn.now.op }
{
    match insn.op {
        Op::Int | Op::Int3 => false,
        Op::PushFlags
        | Op::PopFlags
        | Op::ReadSeg
        | Op::PushSeg
        | Op::Return
        | Op::JumpTo
        | Op::CallTo => cpu.cpl == 3,
        _ => sensitive(insn).is_none(),
    }
}

/// Begins the step of a processor that takes no interrupt, is not halted, and is at level 3 or at a start outside sites.
/// Its state and its outcome take the places of an earlier step's.
pub fn begin_native<'t, S: Reloads + Drop>(
    running: &mut Running<S>,
    pool: &mut Pool,
    ram: &mut Ram,
    image: &Checked,
    text: &'t Option<Text<'t>>,
    notes_wanted: bool,
    state: &mut StepState<'t>,
    worked: &mut Worked,
) -> Result<Attempt, Stop>
    requires text { IsOriginal image.now text.now }
    requires between { IsBetween S.Shadows image.now (scene running.old pool.old ram.old) }
    requires able { IsAble running.old.cpu }
    requires runs { may_run running.old.cpu running.old.board image.now ≡ true }
    requires bound { running.old.step < 2 ^ 40 }
    requires kept { (running.old.lost.before ≡ false) × (running.old.lost.reloaded ≡ false) }
    ensures attempts { Attempts S.Shadows image.now notes_wanted (scene running.old pool.old ram.old)
        (scene running.new pool.new ram.new) result }
    ensures accounts { Accounts S.Shadows (scene running.old pool.old ram.old) (scene running.new pool.new ram.new) }
{
    known_laws();
    make_room(running, pool, ram, image);
    try_once(running, pool, ram, image, text, notes_wanted, state, worked)
}

/// Begins the step, where frames are free for the pages of an instruction, and the next one doesn't clash with what is kept.
fn try_once<'t, S: Reloads + Drop>(
    running: &mut Running<S>,
    pool: &mut Pool,
    ram: &mut Ram,
    image: &Checked,
    text: &'t Option<Text<'t>>,
    notes_wanted: bool,
    state: &mut StepState<'t>,
    worked: &mut Worked,
) -> Result<Attempt, Stop>
    requires text { IsOriginal image.now text.now }
    requires held { IsHeldIn S.Shadows (ground image.now running.old.frames) (scene running.old pool.old ram.old) }
    requires ready { IsReadyIn S.Shadows (ground image.now running.old.frames) (scene running.old pool.old ram.old) }
    requires able { IsAble running.old.cpu }
    requires runs { may_run running.old.cpu running.old.board image.now ≡ true }
    requires bound { running.old.step < 2 ^ 40 }
    requires room { 8 ≤ length (free_list pool.old ram.old) }
    requires clear { IsClearIn S.Shadows image.now running.old.frames (scene running.old pool.old ram.old) }
    requires kept { running.old.lost.reloaded ≡ false }
    ensures tries { TriesOnce S.Shadows image.now notes_wanted (scene running.old pool.old ram.old)
        (scene running.new pool.new ram.new) result }
    ensures accounts { Accounts S.Shadows (scene running.old pool.old ram.old) (scene running.new pool.new ram.new) }
{
    native_laws();
    known_laws();
    are_bytes(ram, image, running.frames);
    eip_fits(&running.cpu);
    let rules = Rules { image: Some(image) };
    let kept = Lent {
        shadows: &running.shadows,
        pool: &*pool,
    };
    let mut cpu = running.cpu;
    cpu.held = false;
    begin_over(&cpu, ram, &kept, running.frames, image, text, state);
    match try_native(&rules, &cpu, &mut running.board, ram, &kept, state, worked) {
        Err(stop) => Err(stop),
        Ok(went) => {
            if went {
                are_bytes(ram, image, running.frames);
                let count = text_frames(image);
                finish_step(running, pool, ram, state, worked, count, notes_wanted);
                Ok(Attempt::Stepped(worked.seen))
            } else {
                fill_used(running, pool, ram, state, text_frames(image));
                Ok(Attempt::Asked)
            }
        }
    }
}

/// EIP is a number of 32 bits.
fn eip_fits(cpu: &Cpu)
    ensures { cpu.now.regs.eip < 2 ^ 32 }
{
    let _eip = cpu.regs.eip;
}

/// All translations leave before a step for whose pages frames may lack, and those that are present before one that clashes.
/// Before another they stay.
fn make_room<S: Reloads + Drop>(
    running: &mut Running<S>,
    pool: &mut Pool,
    ram: &mut Ram,
    image: &Checked,
)
    requires held { IsHeldIn S.Shadows (ground image.now running.old.frames) (scene running.old pool.old ram.old) }
    requires enough { 16 ≤ length (free_list pool.old ram.old) + running.old.held }
    requires kept { running.old.lost.before ≡ false }
    ensures held { IsHeldIn S.Shadows (ground image.now running.old.frames) (scene running.new pool.new ram.new) }
    ensures left { set_in S.Shadows (scene running.new pool.new ram.new)
        ≡ left_of running.new.lost.before (set_in S.Shadows (scene running.old pool.old ram.old)) }
    ensures room { 8 ≤ length (free_list pool.new ram.new) }
    ensures clear { IsClearIn S.Shadows image.now running.old.frames (scene running.new pool.new ram.new) }
    ensures same { running.new ≡ record running.old { shadows = running.new.shadows; held = running.new.held; lost = running.new.lost } }
    ensures beside { StaysBeside S.Shadows (scene running.old pool.old ram.old) (scene running.new pool.new ram.new) }
    ensures clashed { LosesByClash S.Shadows image.now (scene running.old pool.old ram.old) (scene running.new pool.new ram.new) }
    ensures stay { 8 ≤ length (free_list pool.old ram.old)
        → KeepsOtherRoots S.Shadows running.old.shadows running.new.shadows ram.old ram.new }
    ensures moves { Moves pool.old pool.new ram.old ram.new (S.frames running.old.shadows ram.old) (S.frames running.new.shadows ram.new) }
{
    if pool.free() < ROOM {
        drop_kept(running, pool, ram);
    } else if clashes(&running.cpu, running.frames, &running.shadows, ram, image) {
        drop_present(running, ram);
    }
}

/// All translations leave before a step, and with them all frames but two. It is noted.
fn drop_kept<S: Shadows + Drop>(running: &mut Running<S>, pool: &mut Pool, ram: &mut Ram)
    requires held { (image : Image) × IsHeldIn S.Shadows (ground image running.old.frames) (scene running.old pool.old ram.old) }
    ensures held { StaysHeld S.Shadows (scene running.old pool.old ram.old) (scene running.new pool.new ram.new) }
    ensures none { set_in S.Shadows (scene running.new pool.new ram.new) ≡ empty }
    ensures room { length (free_list pool.new ram.new) + 2 ≡ length (free_list pool.old ram.old) + running.old.held }
    ensures lost { running.new.lost.before ≡ true }
    ensures same { running.new ≡ record running.old { shadows = running.new.shadows; held = running.new.held; lost = running.new.lost } }
    ensures beside { StaysBeside S.Shadows (scene running.old pool.old ram.old) (scene running.new pool.new ram.new) }
    ensures moves { Moves pool.old pool.new ram.old ram.new (S.frames running.old.shadows ram.old) (S.frames running.new.shadows ram.new) }
{
    let free = pool.free() + running.held;
    running.shadows.drop_all(ram, pool);
    running.held = free - pool.free();
    running.lost.before = true;
}

/// What is present leaves before a step that clashes; what is kept for other values of CR3 stays. It is noted.
fn drop_present<S: Reloads + Drop>(running: &mut Running<S>, ram: &mut Ram)
    requires held { (image : Image) × (pool : Pool)
        × IsHeldIn S.Shadows (ground image running.old.frames) (scene running.old pool ram.old) }
    ensures held { (pool : Pool) → StaysHeld S.Shadows (scene running.old pool ram.old) (scene running.new pool ram.new) }
    ensures none { entries_of (S.slots running.new.shadows ram.new) ≡ empty }
    ensures lost { running.new.lost.before ≡ true }
    ensures same { running.new ≡ record running.old { shadows = running.new.shadows; lost = running.new.lost } }
    ensures beside { (pool : Pool) → StaysBeside S.Shadows (scene running.old pool ram.old) (scene running.new pool ram.new) }
    ensures stay { KeepsOtherRoots S.Shadows running.old.shadows running.new.shadows ram.old ram.new }
    ensures frames { S.frames running.new.shadows ram.new ≡ S.frames running.old.shadows ram.old }
    ensures moves { MovesInEach S.Shadows running.old.shadows running.new.shadows ram.old ram.new }
{
    drop_dirs(&mut running.shadows, ram);
    running.lost.before = true;
}

/// Drops every page of each directory index of which any may be kept. What is kept for other values of CR3, and what was noted, stays.
fn drop_dirs<S: Reloads>(shadows: &mut S, ram: &mut Ram)
    requires stands { ∥ S.stands shadows.old ram.old ∥₁ }
    ensures stands { ∥ S.stands shadows.new ram.new ∥₁ }
    ensures none { (page : ℕ) → page < 2 ^ 20 → S.slots shadows.new ram.new page ≡ None }
    ensures entries { entries_of (S.slots shadows.new ram.new) ≡ empty }
    ensures read_from { (f : ℕ) → S.read_from shadows.new f ≡ S.read_from shadows.old f }
    ensures stale { S.stale shadows.new ≡ S.stale shadows.old }
    ensures cr3 { S.cr3 shadows.new ≡ S.cr3 shadows.old }
    ensures other_roots { AreSame (S.other_roots shadows.old ram.old) (S.other_roots shadows.new ram.new) }
    ensures has_tables_under { (indices : ℕ → Bool) → S.has_tables_under shadows.old ram.old indices
        → S.has_tables_under shadows.new ram.new indices }
    ensures frames { S.frames shadows.new ram.new ≡ S.frames shadows.old ram.old }
    ensures moves { MovesInEach S.Shadows shadows.old shadows.new ram.old ram.new }
{
    let mut index = shadows.next_opened(ram, 0);
    while index < 1024 {
        shadows.drop_dir(ram, index);
        index = shadows.next_opened(ram, index + 1);
    }
}

/// Fetches the instruction. False where the host is to do it: its ranges are translated, and its effect is found. Else the
/// step went, and is recorded in its place. From here on the parts of the step's memory are one value.
fn try_native<B: Translations>(
    rules: &Rules,
    cpu: &Cpu,
    board: &mut Board,
    ram: &mut Ram,
    kept: &B,
    state: &mut StepState,
    worked: &mut Worked,
) -> Result<bool, Stop>
    requires able { IsAble cpu.now }
    requires sound { IsSoundOver B.Translations kept.now ram.old state.old }
    requires pages { state.old.pages ≡ 0 }
    ensures sound { IsSoundOver B.Translations kept.now ram.new state.new }
    ensures uses { IfOk result (λ _. Uses (cpu.now.cpl == 3) (space B.Translations kept.now ram.old state.old)
        (space B.Translations kept.now ram.new state.new)) }
    ensures tries { (m : Setting) (b : Whole) → IsRuled m rules.now → TriesAs m (record b { cpu = cpu.now; board = board.old })
        (space B.Translations kept.now ram.old state.old) (tried result worked.new) board.new
        (space B.Translations kept.now ram.new state.new) }
    ensures dropped { IfOk (tried result worked.new) (λ o. IfSome o (λ w. IsDropped w.dropped)) }
    ensures roots { IfOk (tried result worked.new) (λ o. IfSome o (λ w. RootsAs cpu.now w)) }
    ensures stays { FetchesIn state.old state.new ram.old ram.new }
{
    try_over(rules, cpu, board, &mut Memory { ram, kept, state }, worked)
}

fn try_over<M: StepMemory>(
    rules: &Rules,
    cpu: &Cpu,
    board: &mut Board,
    mem: &mut M,
    worked: &mut Worked,
) -> Result<bool, Stop>
    requires able { IsAble cpu.now }
    requires pages { (M.space mem.old).pages ≡ 0 }
    ensures uses { IfOk result (λ _. Uses (cpu.now.cpl == 3) (M.space mem.old) (M.space mem.new)) }
    ensures tries { (m : Setting) (b : Whole) → IsRuled m rules.now → TriesAs m (record b { cpu = cpu.now; board = board.old })
        (M.space mem.old) (tried result worked.new) board.new (M.space mem.new) }
    ensures dropped { IfOk (tried result worked.new) (λ o. IfSome o (λ w. IsDropped w.dropped)) }
    ensures roots { IfOk (tried result worked.new) (λ o. IfSome o (λ w. RootsAs cpu.now w)) }
    ensures frame { M.frame mem.new ≡ M.frame mem.old }
{
    match fetch_at(mem, cpu.cpl == 3, cpu.regs.eip) {
        Err(refusal) => gone(refuse(rules, cpu, mem, refusal), worked),
        Ok(Decoded::Insn(insn, len)) => {
            if is_native(&insn, cpu) {
                prepare(rules, &insn, len, cpu, mem, worked)
            } else {
                gone(carry_out(rules, &insn, len, cpu, board, mem), worked)
            }
        }
        Ok(_) => Err(Stop::Unsupported),
    }
}

/// A step of which the host does nothing: it went, and is recorded in its place, or it stops.
fn gone(came: Result<Worked, Stop>, worked: &mut Worked) -> Result<bool, Stop>
    ensures { tried result worked.new ≡ gone came }
{
    match came {
        Ok(came) => {
            *worked = came;
            Ok(true)
        }
        Err(stop) => Err(stop),
    }
}

/// Prepares an instruction that was fetched for the host. Where it raises or stops, the step goes on so.
fn prepare<M: StepMemory>(
    rules: &Rules,
    insn: &Insn,
    len: u8,
    cpu: &Cpu,
    mem: &mut M,
    worked: &mut Worked,
) -> Result<bool, Stop>
    requires spelled { (bytes : List ℕ) × Spells bytes insn.now }
    requires native { is_native (cpu.now.cpl == 3) insn.now.op ≡ true }
    requires able { IsAble cpu.now }
    requires pages { (M.space mem.old).pages ≤ 8 }
    ensures uses { IfOk result (λ _. Uses (cpu.now.cpl == 3) (M.space mem.old) (M.space mem.new)) }
    ensures prepares { (m : Setting) (b : Whole) → IsRuled m rules.now → PreparesAs m (record b { cpu = cpu.now }) insn.now len
        (M.space mem.old) (tried result worked.new) (M.space mem.new) }
    ensures dropped { IfOk (tried result worked.new) (λ o. IfSome o (λ w. IsDropped w.dropped)) }
    ensures roots { IfOk (tried result worked.new) (λ o. IfSome o (λ w. RootsAs cpu.now w)) }
    ensures frame { M.frame mem.new ≡ M.frame mem.old }
{
    match weigh(insn, len, cpu, mem) {
        Ok(()) => Ok(false),
        Err(refusal) => gone(refuse(rules, cpu, mem, refusal), worked),
    }
}

/// Translates the ranges of an instruction and finds its effect, of which nothing is done. What refuses a range, or raises
/// or stops in its place, is the refusal.
#[tactic(auto, unfolding(crate::specs::Prepared::prepared))]
fn weigh<M: StepMemory>(insn: &Insn, len: u8, cpu: &Cpu, mem: &mut M) -> Result<(), Refusal>
    requires spelled { (bytes : List ℕ) × Spells bytes insn.now }
    requires native { is_native (cpu.now.cpl == 3) insn.now.op ≡ true }
    requires pages { (M.space mem.old).pages ≤ 8 }
    ensures uses { IfOk result (λ _. Uses (cpu.now.cpl == 3) (M.space mem.old)
        (M.space mem.new)) }
    ensures refused { IfErr result (λ refusal. AtRefusal (cpu.now.cpl == 3) (M.space mem.old) refusal
        (M.space mem.new)) }
    ensures prepared { Gives result (M.space mem.new)
        (prepared insn.now len cpu.now (M.space mem.old)) }
    ensures pages { (M.space mem.new).pages ≤ (M.space mem.old).pages + 4 }
    ensures frame { M.frame mem.new ≡ M.frame mem.old }
{
    works_use();
    reach_both(insn, cpu, mem)?;
    match user_outcome(insn, len, cpu, mem) {
        Outcome::Done(_, _) => Ok(()),
        Outcome::Raise(vector, code) => Err(Refusal::Raise { vector, code }),
        Outcome::Stop(stop) => Err(Refusal::Stop(stop)),
    }
}
