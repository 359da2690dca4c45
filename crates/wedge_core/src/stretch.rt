//! Instructions that the host does one after the other (direct execution).

ghost use Rattle.std.specs.Prelude.{◌≡◌, ℕ, ◌+◌, ◌-◌, ◌*◌, ◌/◌, ◌%◌, ◌==◌, ◌≤◌, ◌<◌, ◌^◌, true, false};
ghost use Rattle.frame_pool.specs.declared.Pool.{Pool as Frames};
ghost use Rattle.board.specs.Quiet.{comes_within};
ghost use Rattle.board.specs.ScriptForm.{is_script};
ghost use Rattle.host_cpl3.specs.Hosts.{standing};
ghost use Rattle.machine_model.specs.State.{wedge};
ghost use Rattle.wedge_step.specs.Scene.{scene};
ghost use Rattle.wedge_step.specs.Standing.{IsAble, ground};
ghost use Rattle.wedge_core.specs.Ran.{LeadsLow, Ran, RanOn, hosted, landed};
ghost use Rattle.wedge_core.specs.Scenes.{IsHeldIn};
ghost use Rattle.wedge_core.specs.Counts.{counts_of};
ghost use Rattle.wedge_core.specs.Stretches.{StretchCounts, StretchGoes, StretchLeaves};
ghost use Rattle.wedge_core.specs.Views.{may_run, view_by};

use crate::laws::views_lend;
use board::{Board, Script};
use descriptors::Cpu;
use host_cpl3::{Exit, Host, View, borders, each_is_run};
use ia32_types::{Regs, WINDOW_BELOW};
use image_check::{AtOffset, Checked};
use machine_step::interrupt;
use native_steps::advances;
use shadow_tables::{Shadows, Side};
use wedge_step::{Running, side_of};

/// The processor's next instruction is one that the host may do: no interrupt is taken, and at level 0 it stands at a start outside sites.
#[inline(always)]
pub fn may_run(cpu: &Cpu, board: &Board, image: &Checked) -> bool
    ensures { result ≡ may_run cpu.now board.now image.now }
{
    if cpu.halted || interrupt(cpu, board).is_some() {
        return false;
    }
    if cpu.cpl == 3 {
        return true;
    }
    matches!(image.place_at(cpu.regs.eip), AtOffset::Outside)
}

/// The view of this processor.
fn view_of<S: Shadows>(cpu: &Cpu, shadows: &S) -> View
    ensures { result ≡ view_by (S.directory shadows.now) cpu.now }
{
    let side = side_of(cpu.cpl);
    View {
        kernel: cpu.cpl != 3,
        root: shadows.root(side),
        es: cpu.seg[0].sel,
        cs: cpu.seg[1].sel,
        ss: cpu.seg[2].sel,
        ds: cpu.seg[3].sel,
        es_null: cpu.seg[0].null,
        ds_null: cpu.seg[3].null,
    }
}

/// The registers after an exit. A jump into the window is taken back, so that EIP is the site's.
fn landed(exit: Exit, regs: Regs) -> Regs
    requires { LeadsLow exit }
    ensures { result ≡ landed exit regs }
{
    match exit {
        Exit::Entry(at) => Regs {
            eip: at + WINDOW_BELOW,
            ..regs
        },
        _ => regs,
    }
}

/// Lets the host do at most so many instructions, and says how many it has done. The board and the count follow.
pub fn run_on<S: Shadows + Drop, H: Host>(running: &mut Running<S>, host: &mut H, k: u64) -> u64
    requires started { H.is_started host.old ≡ true }
    requires stands { ∥ S.stands running.old.shadows (H.bytes host.old) ∥₁ }
    requires bound { running.old.step + k ≤ 2 ^ 40 }
    requires room { H.retired host.old + k < 2 ^ 64 }
    ensures ran { Ran (view_by (S.directory running.old.shadows) running.old.cpu) k
        (standing running.old.cpu.regs (H.bytes host.old) (H.retired host.old) (H.passed host.old)) running.old result running.new
        (hosted H.Host host.new) }
    ensures started { H.is_started host.new ≡ true }
{
    each_is_run();
    borders();
    let view = view_of(&running.cpu, &running.shadows);
    let before = host.retired();
    let mut regs = running.cpu.regs;
    let exit = host.resume(&view, &mut regs, k);
    let done = host.retired() - before;
    if done == 0 {
        return 0;
    }
    running.cpu.regs = landed(exit, regs);
    running.cpu.held = false;
    running.step += done;
    running.board.advance(done);
    done
}

/// A stretch up to the bound, the next edge or the next event: of so many instructions the host does as many as it can one
/// after the other, and none where the next one doesn't run there. The events of this step were given. Where the host
/// ended a stretch short of that it isn't asked once more at the next instruction, before which it would end again.
pub fn stretch<S: Shadows + Drop, H: Host>(
    running: &mut Running<S>,
    host: &mut H,
    image: &Checked,
    script: &Script,
    bound: u64,
    runs: bool,
    cut: &mut bool,
) -> u64
    requires runs { runs ≡ may_run running.old.cpu running.old.board image.now }
    requires started { H.is_started host.old ≡ true }
    requires held { (pool : Frames) × IsHeldIn S.Shadows (ground image.now running.old.frames) (scene running.old pool (H.bytes host.old)) }
    requires able { IsAble running.old.cpu }
    requires script { is_script script.now.list ≡ true }
    requires bound { (running.old.step ≤ bound) × (bound ≤ 2 ^ 40) }
    requires room { H.retired host.old + (bound - running.old.step) < 2 ^ 64 }
    ensures goes { StretchGoes S.Shadows (wedge image.now script.now.list running.old.frames) running.old running.new
        (H.bytes host.old) (H.bytes host.new) result (counts_of H.Host host.old) (counts_of H.Host host.new) }
    ensures leaves { StretchLeaves S.Shadows image.now running.old running.new (H.bytes host.old) (H.bytes host.new) }
    ensures counts { StretchCounts bound running.old.step running.new.step result (counts_of H.Host host.old) (counts_of H.Host host.new) }
    ensures ran { cut.old ≡ false → running.old.cpu.held ≡ false → may_run running.old.cpu running.old.board image.now ≡ true
        → RanOn (view_by (S.directory running.old.shadows) running.old.cpu) script.now.list (bound - running.old.step)
        (standing running.old.cpu.regs (H.bytes host.old) (H.retired host.old) (H.passed host.old)) running.old result running.new
        (hosted H.Host host.new) cut.new }
    // It is the next stretch alone that the host isn't asked for.
    ensures once { cut.old ≡ true → cut.new ≡ false }
    ensures cut { cut.new ≡ true → 0 < result }
    ensures started { H.is_started host.new ≡ true }
{
    if *cut {
        *cut = false;
        return 0;
    }
    if running.cpu.held || !runs {
        return 0;
    }
    views_lend();
    advances();
    let k = steps_until_next(&running.board, script, running.step, bound - running.step);
    let done = run_on(running, host, k);
    *cut = is_cut(done, k);
    done
}

/// Of so many instructions the host did some, and not all.
fn is_cut(done: u64, asked: u64) -> bool
    ensures { result ≡ true → (0 < done) × (done < asked) }
{
    0 < done && done < asked
}

/// How many steps, up to a number, pass before an edge or an event can come. The events of this step were given.
fn steps_until_next(board: &Board, script: &Script, step: u64, most: u64) -> u64
    requires script { is_script script.now.list ≡ true }
    ensures most { result ≤ most }
    ensures quiet { 0 < result → comes_within board.now script.now.list step (result - 1) ≡ false }
    // Fewer than that number only where something comes after them.
    ensures furthest { result < most → comes_within board.now script.now.list step result ≡ true }
{
    match board.next_event(script, step) {
        None => most,
        Some(next) => most.min(next),
    }
}
