//! Shadows of several values of CR3.

ghost use Rattle.std.specs.Prelude.{◌≡◌, ◌≤◌, ◌<◌, ◌^◌, length};
ghost use Rattle.frame_pool.specs.Held.{Owns};
ghost use Rattle.frame_pool.specs.Pool.{Stands, free_list};
ghost use Rattle.shadow_cache.specs.Pairs.{frames_of};
ghost use Rattle.shadow_cache.specs.Roots.{pairs_of, IsStanding};
ghost use Rattle.shadow_cache.specs.Replayed.{IsFitCall, AreFitCalls};

use crate::asked::{comes_so, given, is_so};
use crate::memory::ram_of;
use crate::pool::pool_of;
use frame_pool::Pool;
use guest_ram::Ram;
use paging::Entry;
use shadow_cache::{Reloads, Roots, RootsCall, replay};
use shadow_tables::{Call, Shadows, Side};
use std::alloc::Global;
use std::process::Abort;

/// A page of the kernel's that may be written.
fn entry(frame: u32) -> Entry
    ensures page { result.page ≡ 69632 }
    ensures frame { result.frame ≡ frame }
{
    Entry {
        page: 0x11000,
        frame,
        user: false,
        write: true,
        dirty: true,
    }
}

#[derive(Drop)]
struct Bench {
    ram: Ram,
    pool: Pool,
    roots: Roots,
}

/// Pairs of 0x1000 alone, over a pool of 64 frames.
fn begin(rt: &impl Abort, alloc: Global) -> Bench
    ensures stands { ∥ IsStanding result.roots result.ram ∥₁ }
    ensures owns { Owns result.pool result.ram (frames_of (pairs_of result.roots) result.ram) }
{
    let mut ram = ram_of(rt, alloc, 128);
    let mut pool = pool_of(rt, &mut ram, 64, 64);
    let roots = Roots::new(alloc, &mut ram, &mut pool, 0x1000).expect(rt, "memory");
    Bench { ram, pool, roots }
}

fn go(rt: &impl Abort, bench: Bench, cr3: u32) -> Bench
    requires stands { ∥ IsStanding bench.roots bench.ram ∥₁ }
    requires owns { Owns bench.pool bench.ram (frames_of (pairs_of bench.roots) bench.ram) }
    ensures stands { ∥ IsStanding result.roots result.ram ∥₁ }
    ensures owns { Owns result.pool result.ram (frames_of (pairs_of result.roots) result.ram) }
{
    let Bench {
        mut ram,
        mut pool,
        mut roots,
    } = bench;
    given(rt, "two are free", pool.free() >= 2);
    Reloads::switch(&mut roots, &mut ram, &mut pool, cr3);
    Bench { ram, pool, roots }
}

fn fill(rt: &impl Abort, bench: Bench, frame: u32) -> Bench
    requires stands { ∥ IsStanding bench.roots bench.ram ∥₁ }
    requires owns { Owns bench.pool bench.ram (frames_of (pairs_of bench.roots) bench.ram) }
    ensures stands { ∥ IsStanding result.roots result.ram ∥₁ }
    ensures owns { Owns result.pool result.ram (frames_of (pairs_of result.roots) result.ram) }
{
    let Bench {
        mut ram,
        mut pool,
        mut roots,
    } = bench;
    given(rt, "one is free", pool.free() >= 1);
    given(rt, "a frame", frame < 0x10_0000);
    roots.fill(&mut ram, &mut pool, Side::Kernel, entry(frame), true);
    Bench { ram, pool, roots }
}

fn note(rt: &impl Abort, bench: Bench, frame: u32) -> Bench
    requires stands { ∥ IsStanding bench.roots bench.ram ∥₁ }
    requires owns { Owns bench.pool bench.ram (frames_of (pairs_of bench.roots) bench.ram) }
    ensures stands { ∥ IsStanding result.roots result.ram ∥₁ }
    ensures owns { Owns result.pool result.ram (frames_of (pairs_of result.roots) result.ram) }
{
    let Bench {
        mut ram,
        pool,
        mut roots,
    } = bench;
    given(rt, "a frame of memory", frame < 16384);
    roots.note(&mut ram, frame);
    Bench { ram, pool, roots }
}

fn written(bench: Bench, frame: u32) -> Bench
    requires stands { ∥ IsStanding bench.roots bench.ram ∥₁ }
    requires owns { Owns bench.pool bench.ram (frames_of (pairs_of bench.roots) bench.ram) }
    ensures stands { ∥ IsStanding result.roots result.ram ∥₁ }
    ensures owns { Owns result.pool result.ram (frames_of (pairs_of result.roots) result.ram) }
{
    let Bench {
        mut ram,
        mut pool,
        mut roots,
    } = bench;
    roots.written(&mut ram, &mut pool, frame);
    Bench { ram, pool, roots }
}

/// What is kept for the page.
fn kept(bench: &Bench) -> Option<Entry>
    requires { ∥ IsStanding bench.now.roots bench.now.ram ∥₁ }
{
    bench.roots.kept(&bench.ram, 0x11000)
}

/// Whether the page may be written.
fn may_write(bench: &Bench) -> bool
    requires { ∥ IsStanding bench.now.roots bench.now.ram ∥₁ }
{
    bench
        .roots
        .adequate(&bench.ram, Side::Kernel, 0x11000, true)
}

/// What is done, or what is kept for the page, whether anything is and whether it may be written, and how many frames
/// are free.
#[derive(Clone, Copy)]
enum Step {
    Fill(u32),
    Note(u32),
    Go(u32),
    Written(u32),
    Keeps(u32),
    KeepsAny(bool),
    MayWrite(bool),
    Free(u32),
}

/// Whether that is seen.
fn sees(bench: &Bench, step: Step) -> bool
    requires { ∥ IsStanding bench.now.roots bench.now.ram ∥₁ }
{
    match step {
        Step::Keeps(frame) => kept(bench) == Some(entry(frame)),
        Step::KeepsAny(any) => kept(bench).is_some() == any,
        Step::MayWrite(may) => may_write(bench) == may,
        Step::Free(frames) => bench.pool.free() == frames,
        _ => false,
    }
}

fn did(rt: &impl Abort, shown: &str, bench: Bench, k: usize, step: Step) -> Bench
    requires stands { ∥ IsStanding bench.roots bench.ram ∥₁ }
    requires owns { Owns bench.pool bench.ram (frames_of (pairs_of bench.roots) bench.ram) }
    ensures stands { ∥ IsStanding result.roots result.ram ∥₁ }
    ensures owns { Owns result.pool result.ram (frames_of (pairs_of result.roots) result.ram) }
{
    match step {
        Step::Fill(frame) => fill(rt, bench, frame),
        Step::Note(frame) => note(rt, bench, frame),
        Step::Go(cr3) => go(rt, bench, cr3),
        Step::Written(frame) => written(bench, frame),
        seen => {
            comes_so(rt, shown, k, sees(&bench, seen));
            bench
        }
    }
}

fn follow(rt: &impl Abort, shown: &str, bench: Bench, steps: &[Step]) -> Bench
    requires stands { ∥ IsStanding bench.roots bench.ram ∥₁ }
    requires owns { Owns bench.pool bench.ram (frames_of (pairs_of bench.roots) bench.ram) }
    ensures stands { ∥ IsStanding result.roots result.ram ∥₁ }
    ensures owns { Owns result.pool result.ram (frames_of (pairs_of result.roots) result.ram) }
{
    let mut bench = bench;
    let mut k = 0usize;
    for row in steps {
        bench = did(rt, shown, bench, k, *row);
        k = k.wrapping_add(1);
    }
    bench
}

/// The steps, from the beginning.
fn show(rt: &impl Abort, alloc: Global, shown: &str, steps: &[Step]) {
    let _ = follow(rt, shown, begin(rt, alloc), steps);
}

const BACK: [Step; 11] = [
    Step::Fill(0x20),
    Step::Note(0x14),
    Step::Go(0x30000),
    Step::MayWrite(false),
    Step::Go(0x1000),
    Step::MayWrite(true),
    Step::Written(0x14),
    Step::MayWrite(true),
    Step::Go(0x30000),
    Step::Go(0x1000),
    Step::MayWrite(false),
];

// An entry comes back with its value of CR3, unless a frame that its tables were read from was written.
#[test]
fn brings_entries_back_until_a_table_is_written(rt: HostRuntime) {
    show(&rt, rt.alloc(), "back", &BACK);
}

/// Seven other values between.
const SEVEN: [Step; 12] = [
    Step::Go(0x2000),
    Step::Fill(0x20),
    Step::Go(0x3000),
    Step::Go(0x4000),
    Step::Go(0x5000),
    Step::Go(0x6000),
    Step::Go(0x7000),
    Step::Go(0x8000),
    Step::Go(0x9000),
    Step::Go(0x2000),
    Step::KeepsAny(true),
    Step::Free(47),
];

/// Eight others.
const EIGHT: [Step; 13] = [
    Step::Go(0x2000),
    Step::Fill(0x20),
    Step::Go(0x3000),
    Step::Go(0x4000),
    Step::Go(0x5000),
    Step::Go(0x6000),
    Step::Go(0x7000),
    Step::Go(0x8000),
    Step::Go(0x9000),
    Step::Go(0xA000),
    Step::Go(0x2000),
    Step::KeepsAny(false),
    Step::Free(48),
];

// A ninth value takes the place of the first, and an eighth does not. Eight pairs hold 16 frames and a table.
#[test]
fn keeps_eight_values(rt: HostRuntime) {
    show(&rt, rt.alloc(), "seven others", &SEVEN);
    show(&rt, rt.alloc(), "eight others", &EIGHT);
}

const BARRED: [Step; 13] = [
    Step::Fill(0x14),
    Step::MayWrite(true),
    Step::Go(0x30000),
    Step::Note(0x14),
    Step::Fill(0x14),
    Step::Keeps(0x14),
    Step::MayWrite(false),
    Step::Go(0x1000),
    Step::Keeps(0x14),
    Step::MayWrite(false),
    Step::Written(0x14),
    Step::Fill(0x14),
    Step::MayWrite(true),
];

// No page of a frame that any pair reads as a table is writable.
#[test]
fn bars_writes_to_tables_of_all_pairs(rt: HostRuntime) {
    show(&rt, rt.alloc(), "barred", &BARRED);
}

/// A fill that the present pair's tables don't bar, in a kernel's view.
fn filled(frame: u32) -> RootsCall
    requires { frame < 2 ^ 20 }
    ensures { IsFitCall result }
{
    RootsCall::Shared(Call::Fill(Side::Kernel, entry(frame), true))
}

/// What is kept for the page after a list of calls, whether it may be written, how many calls were done, and how many
/// frames are free then.
type Told = (Option<Entry>, bool, usize, u32);

/// What is reported of these calls over a memory and its pool.
fn replayed(
    rt: &impl Abort,
    alloc: Global,
    ram: &mut Ram,
    pool: &mut Pool,
    calls: &[RootsCall],
) -> Told
    requires stands { Stands pool.old ram.old }
    requires free { 2 ≤ length (free_list pool.old ram.old) }
    requires fit { AreFitCalls calls.now }
{
    let after = replay(alloc, ram, pool, 0x1000, calls).expect(rt, "memory");
    (
        after.roots.kept(ram, 0x11000),
        after.roots.adequate(ram, Side::Kernel, 0x11000, true),
        after.count,
        pool.free(),
    )
}

/// What is reported of these calls over a pool of so many frames.
fn told(rt: &impl Abort, alloc: Global, frames: u32, calls: &[RootsCall]) -> Told
    requires fit { AreFitCalls calls.now }
    requires frames { 2 ≤ frames × frames ≤ 64 }
{
    let mut ram = ram_of(rt, alloc, 128);
    let mut pool = pool_of(rt, &mut ram, 64, frames);
    replayed(rt, alloc, &mut ram, &mut pool, calls)
}

fn is_told(told: &Told, want: &Told) -> bool {
    told == want
}

/// These calls are reported so.
fn are_told(rt: &impl Abort, alloc: Global, frames: u32, calls: &[RootsCall], want: Told)
    requires fit { AreFitCalls calls.now }
    requires frames { 2 ≤ frames × frames ≤ 64 }
{
    let told = told(rt, alloc, frames, calls);
    is_so(rt, "what is told", is_told(&told, &want));
}

// As calls of a list. A write to a frame that was noted, by whichever pair, is not adequate until the frame was written
// and the page filled again.
#[test]
fn replays_a_list(rt: HostRuntime) {
    let list = [
        filled(0x20),
        RootsCall::Shared(Call::Note(0x14)),
        RootsCall::Switch(0x30000),
        RootsCall::Shared(Call::Note(0x20)),
        RootsCall::Switch(0x1000),
        RootsCall::Shared(Call::Written(0x20)),
        filled(0x20),
    ];
    let alloc = rt.alloc();
    let kept = Some(entry(0x20));
    are_told(&rt, alloc, 64, &list[..1], (kept, true, 1, 61));
    are_told(&rt, alloc, 64, &list[..3], (None, false, 3, 59));
    are_told(&rt, alloc, 64, &list[..5], (kept, false, 5, 59));
    are_told(&rt, alloc, 64, &list[..6], (kept, false, 6, 61));
    are_told(&rt, alloc, 64, &list, (kept, true, 7, 61));
    are_told(&rt, alloc, 4, &list, (kept, true, 2, 1));
}
