//! Shadow tables, against a plain map.

ghost use Rattle.std.specs.Prelude.{◌≡◌, ◌+◌, ◌<◌, ◌≤◌, ◌^◌};
ghost use Rattle.shadow_tables.specs.Calls.{IsFit};
ghost use Rattle.shadow_tables.specs.Slots.{held, IsShadow};
ghost use Rattle.frame_pool.specs.Held.{Owns};

use crate::asked::{comes_so, given, is_so};
use crate::memory::ram_of;
use crate::pool::pool_of;
use frame_pool::Pool;
use guest_ram::Ram;
use paging::Entry;
use shadow_tables::{Call, Shadow, Shadows, Side, replay};
use std::alloc::Global;
use std::process::Abort;

fn entry(frame: u32, write: bool, dirty: bool) -> Entry
    ensures page { result.page ≡ 69632 }
    ensures frame { result.frame ≡ frame }
{
    Entry {
        page: 0x11000,
        frame,
        user: true,
        write,
        dirty,
    }
}

#[derive(Drop)]
struct Bench {
    ram: Ram,
    pool: Pool,
    shadow: Shadow,
}

/// An empty shadow over a pool of the frames from one on, of so many.
fn begin(rt: &impl Abort, alloc: Global, first: u32, frames: u32) -> Bench
    requires { first + 2 ≤ frames × frames ≤ 64 }
    ensures shadow { IsShadow result.shadow result.ram }
    ensures owns { Owns result.pool result.ram (held result.shadow result.ram) }
{
    let mut ram = ram_of(rt, alloc, frames);
    let mut pool = pool_of(rt, &mut ram, first, frames - first);
    let shadow = Shadow::new(&mut ram, &mut pool);
    Bench { ram, pool, shadow }
}

/// What is done, or seen: a fill has a frame, and whether its entry has the rights to write and dirty.
#[derive(Clone, Copy)]
enum Step {
    Fill(Side, u32, bool, bool, bool),
    DropAll,
    Adequate(Side, bool, bool),
    Keeps(u32),
    KeepsNone,
    Free(u32),
}

fn fill(rt: &impl Abort, bench: Bench, side: Side, entry: Entry, wp: bool) -> Bench
    requires shadow { IsShadow bench.shadow bench.ram }
    requires owns { Owns bench.pool bench.ram (held bench.shadow bench.ram) }
    ensures shadow { IsShadow result.shadow result.ram }
    ensures owns { Owns result.pool result.ram (held result.shadow result.ram) }
{
    let Bench {
        mut ram,
        mut pool,
        mut shadow,
    } = bench;
    given(rt, "one is free", pool.free() >= 1);
    given(rt, "a page", entry.page < 0x10_0000);
    given(rt, "a frame", entry.frame < 0x10_0000);
    shadow.fill(&mut ram, &mut pool, side, entry, wp);
    Bench { ram, pool, shadow }
}

fn emptied(bench: Bench) -> Bench
    requires shadow { IsShadow bench.shadow bench.ram }
    requires owns { Owns bench.pool bench.ram (held bench.shadow bench.ram) }
    ensures shadow { IsShadow result.shadow result.ram }
    ensures owns { Owns result.pool result.ram (held result.shadow result.ram) }
{
    let Bench {
        mut ram,
        mut pool,
        mut shadow,
    } = bench;
    shadow.drop_all(&mut ram, &mut pool);
    Bench { ram, pool, shadow }
}

/// Whether that is seen.
fn sees(bench: &Bench, step: Step) -> bool
    requires { IsShadow bench.now.shadow bench.now.ram }
{
    let Bench { ram, pool, shadow } = bench;
    match step {
        Step::Fill(..) | Step::DropAll => false,
        Step::Adequate(side, write, want) => shadow.adequate(ram, side, 0x11000, write) == want,
        Step::Keeps(frame) => shadow.kept(ram, 0x11000) == Some(entry(frame, true, true)),
        Step::KeepsNone => shadow.kept(ram, 0x11000).is_none(),
        Step::Free(frames) => pool.free() == frames,
    }
}

fn did(rt: &impl Abort, bench: Bench, k: usize, step: Step) -> Bench
    requires shadow { IsShadow bench.shadow bench.ram }
    requires owns { Owns bench.pool bench.ram (held bench.shadow bench.ram) }
    ensures shadow { IsShadow result.shadow result.ram }
    ensures owns { Owns result.pool result.ram (held result.shadow result.ram) }
{
    match step {
        Step::Fill(side, frame, write, dirty, wp) => {
            fill(rt, bench, side, entry(frame, write, dirty), wp)
        }
        Step::DropAll => emptied(bench),
        seen => {
            comes_so(rt, "views", k, sees(&bench, seen));
            bench
        }
    }
}

fn do_all(rt: &impl Abort, bench: Bench, steps: &[Step]) -> Bench
    requires shadow { IsShadow bench.shadow bench.ram }
    requires owns { Owns bench.pool bench.ram (held bench.shadow bench.ram) }
    ensures shadow { IsShadow result.shadow result.ram }
    ensures owns { Owns result.pool result.ram (held result.shadow result.ram) }
{
    let mut bench = bench;
    let mut k = 0usize;
    for row in steps {
        bench = did(rt, bench, k, *row);
        k = k.wrapping_add(1);
    }
    bench
}

const VIEWS: [Step; 17] = [
    Step::Free(10),
    Step::Fill(Side::Kernel, 3, true, false, true),
    Step::Adequate(Side::Kernel, true, false),
    Step::Adequate(Side::Kernel, false, true),
    Step::Free(9),
    Step::Fill(Side::User, 2, true, true, true),
    Step::Adequate(Side::Kernel, false, false),
    Step::Adequate(Side::User, true, true),
    Step::Keeps(2),
    Step::Free(8),
    Step::Fill(Side::Kernel, 1, false, true, false),
    Step::Adequate(Side::Kernel, true, true),
    Step::Fill(Side::Kernel, 1, false, true, true),
    Step::Adequate(Side::Kernel, true, false),
    Step::DropAll,
    Step::KeepsNone,
    Step::Free(10),
];

// An entry without dirty lets no write pass. A fill on the other side takes the page away from the first. The kernel
// writes where the entry is not writable exactly if `wp` is false.
#[test]
fn holds_a_page_in_one_view(rt: HostRuntime) {
    let _ = do_all(&rt, begin(&rt, rt.alloc(), 4, 16), &VIEWS);
}

// What a plain map keeps for a page.
#[derive(Clone, Copy)]
struct Plain {
    side: Side,
    entry: Entry,
    wp: bool,
}

// Eight pages under four PDEs.
fn page_of(k: u32) -> u32
    requires { k < 8 }
    ensures { result < 2 ^ 20 }
{
    k % 4 * 0x3_0000 + k
}

// The next of a linear congruential sequence; the high bits are the ones to use.
fn next(seed: u32) -> u32 {
    seed.wrapping_mul(1664525).wrapping_add(1013904223)
}

fn side_of(kind: u32) -> Side {
    if kind % 2 == 0 {
        Side::Kernel
    } else {
        Side::User
    }
}

fn entry_of(page: u32, n: u32) -> Entry
    ensures page { result.page ≡ page }
    ensures frame { result.frame < 2 ^ 20 }
{
    Entry {
        page,
        frame: n % 0x10_0000,
        user: n / 0x1000 % 2 == 0,
        write: n / 0x2000 % 2 == 0,
        dirty: n / 0x4000 % 2 == 0,
    }
}

fn call_of(n: u32) -> Call
    ensures { IsFit result }
{
    let page = page_of(n / 0x10_0000 % 8);
    match n / 0x100_0000 % 16 {
        0 => Call::DropAll,
        1 | 2 => Call::DropPage(page),
        3 => Call::DropDir(page / 1024),
        4 => Call::Note(n % 16384),
        5 => Call::Written(n % 16384),
        kind => Call::Fill(side_of(kind), entry_of(page, n), n / 0x8000 % 2 == 0),
    }
}

/// What is kept of a page after a call.
fn after(kept: Option<Plain>, call: Call, page: u32) -> Option<Plain> {
    match call {
        Call::DropAll => None,
        Call::DropPage(dropped) if dropped == page => None,
        Call::DropDir(index) if page / 1024 == index => None,
        Call::Fill(side, entry, wp) if entry.page == page => Some(Plain { side, entry, wp }),
        _ => kept,
    }
}

fn follow(plain: &mut [Option<Plain>; 8], call: Call) {
    for (k, kept) in plain.iter_mut().enumerate() {
        *kept = after(*kept, call, page_of(k as u32));
    }
}

/// Whether what is kept lets an access pass.
fn lets(kept: &Plain, kernel: bool, write: bool) -> bool {
    let entry = &kept.entry;
    let may_write = entry.dirty && (entry.write || kernel && !kept.wp);
    (entry.user || kernel) && (!write || may_write)
}

fn passes(kept: Option<Plain>, side: Side, write: bool) -> bool {
    match kept {
        None => false,
        Some(kept) => kept.side == side && lets(&kept, side == Side::Kernel, write),
    }
}

// One view lets the same pass.
fn agrees_in(shadow: &Shadow, ram: &Ram, page: u32, side: Side, kept: Option<Plain>) -> bool
    requires shadow { IsShadow shadow.now ram.now }
    requires page { page < 2 ^ 20 }
{
    shadow.adequate(ram, side, page, false) == passes(kept, side, false)
        && shadow.adequate(ram, side, page, true) == passes(kept, side, true)
}

fn agrees(shadow: &Shadow, ram: &Ram, page: u32, kept: Option<Plain>) -> bool
    requires shadow { IsShadow shadow.now ram.now }
    requires page { page < 2 ^ 20 }
{
    let entry = match kept {
        None => None,
        Some(kept) => Some(kept.entry),
    };
    shadow.kept(ram, page) == entry
        && agrees_in(shadow, ram, page, Side::Kernel, kept)
        && agrees_in(shadow, ram, page, Side::User, kept)
}

fn agree(shadow: &Shadow, ram: &Ram, plain: &[Option<Plain>; 8]) -> bool
    requires { IsShadow shadow.now ram.now }
{
    for k in 0..8 {
        if !agrees(shadow, ram, page_of(k), plain[k as usize]) {
            return false;
        }
    }
    true
}

/// Whether a call is done.
fn replay_one(ram: &mut Ram, pool: &mut Pool, shadow: &mut Shadow, call: Call) -> bool
    requires shadow { IsShadow shadow.old ram.old }
    requires owns { Owns pool.old ram.old (held shadow.old ram.old) }
    requires fit { IsFit call }
    ensures shadow { IsShadow shadow.new ram.new }
    ensures owns { Owns pool.new ram.new (held shadow.new ram.new) }
{
    let done = replay(shadow, ram, pool, &[call]);
    done == 1
}

/// Whether a call is done, and what is kept after it is what the plain map keeps.
fn is_kept(
    ram: &mut Ram,
    pool: &mut Pool,
    shadow: &mut Shadow,
    plain: &mut [Option<Plain>; 8],
    call: Call,
) -> bool
    requires shadow { IsShadow shadow.old ram.old }
    requires owns { Owns pool.old ram.old (held shadow.old ram.old) }
    requires fit { IsFit call }
    ensures shadow { IsShadow shadow.new ram.new }
    ensures owns { Owns pool.new ram.new (held shadow.new ram.new) }
{
    let done = replay_one(ram, pool, shadow, call);
    follow(plain, call);
    done && agree(shadow, ram, plain)
}

/// Each of 200 calls is.
fn are_kept(rt: &impl Abort, ram: &mut Ram, pool: &mut Pool, shadow: &mut Shadow)
    requires shadow { IsShadow shadow.old ram.old }
    requires owns { Owns pool.old ram.old (held shadow.old ram.old) }
    ensures shadow { IsShadow shadow.new ram.new }
    ensures owns { Owns pool.new ram.new (held shadow.new ram.new) }
{
    let mut plain = [None; 8];
    let mut seed = 1;
    for step in 0..200usize {
        seed = next(seed);
        let kept = is_kept(ram, pool, shadow, &mut plain, call_of(seed));
        comes_so(rt, "a plain map", step, kept);
    }
}

#[test]
fn keeps_what_a_plain_map_keeps(rt: HostRuntime) {
    let Bench {
        mut ram,
        mut pool,
        mut shadow,
    } = begin(&rt, rt.alloc(), 8, 40);
    are_kept(&rt, &mut ram, &mut pool, &mut shadow);
    shadow.drop_all(&mut ram, &mut pool);
    is_so(&rt, "all but two are free", pool.free() == 30);
}
