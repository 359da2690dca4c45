//! A run that pauses and goes on elsewhere: from a guest's processor, board and memory, on a fresh host and on the bare
//! machine.

ghost use Rattle.std.specs.Prelude.{◌≡◌, ◌+◌, ◌*◌, ◌≤◌, ◌^◌, length};
ghost use Rattle.bare_machine.specs.Machine.{state_of, IsKept};
ghost use Rattle.frame_pool.specs.Pool.{base_of, free_list, Stands};
ghost use Rattle.guest_ram.specs.Bytes.{part};
ghost use Rattle.machine_model.specs.Fit.{Fit};
ghost use Rattle.machine_runs.specs.Going.{IsGoing};

use crate::common::{image_of, is_so, sink, took};
use crate::guests::{guest_after, guest_steps_on, is_same};
use crate::slices::{INTERRUPTED, begun, no_event, put_bound, steps_on};
use bare_machine::Bare;
use board::Board;
use frame_pool::Pool;
use guest_ram::Ram;
use host_cpl3::{Host, Machine};
use image_check::Checked;
use machine_model::each_run_begins_fit;
use run_trace::Pause;
use std::alloc::Global;
use std::process::Abort;
use wedge_core::Guest;
use worked_kernels::{IS_INTERRUPTED, SENDS_A_BYTE};
use xlate_buffer::Buffer;

/// The bytes of the guest's frames.
const FRONT: u32 = 0x80_0000;

const TEXT_AT: u32 = 0x10_0000;

/// The bare machine before its first step.
fn first(rt: &impl Abort, alloc: Global, image: &Checked) -> Bare<Buffer>
    ensures fit { Fit result.cpu }
    ensures kept { IsKept result.frames (state_of (λ buffer. buffer) result) }
    ensures step { result.step ≡ 0 }
{
    each_run_begins_fit();
    begun(rt, alloc, image)
}

/// The bare machine after its first `k` steps.
pub fn bare_after(rt: &impl Abort, alloc: Global, image: &Checked, k: u64) -> Bare<Buffer>
    requires bound { k ≤ 2 ^ 40 }
    ensures fit { Fit result.cpu }
{
    let script = no_event(rt, alloc);
    let mut out = sink(rt, alloc);
    let mut machine = first(rt, alloc, image);
    match machine.slice(&script, k, &mut out) {
        Ok(Pause::Reached) => machine,
        _ => panic!(rt; "the machine stops"),
    }
}

fn copied(rt: &impl Abort, board: &Board) -> Board {
    Board::restore(&board.save()).expect(rt, "a board")
}

/// Lays the guest's frames into a memory, with the text as it was before it was patched.
fn lay(rt: &impl Abort, ram: &mut Ram, from: &Ram, image: &Checked)
    ensures len { length ram.new ≡ length ram.old }
{
    assert!(rt; ram.len() >= FRONT && from.len() >= FRONT && image.text().len() <= 4096);
    ram.put(0, from.part(0, FRONT));
    ram.put(TEXT_AT, image.text());
}

/// Lays the guest's frames into a memory so, and makes a pool of the frames after them.
fn lay_with_pool(rt: &impl Abort, ram: &mut Ram, from: &Ram, image: &Checked) -> Pool
    ensures len { length ram.new ≡ 10485760 }
    ensures short { length image.now.text ≤ 4096 }
    ensures text { part ram.new 0x100000 (length image.now.text) ≡ image.now.text }
    ensures stands { Stands result ram.new }
    ensures base { base_of result ≡ 2048 }
    ensures free { 2 ≤ length (free_list result ram.new) }
{
    lay(rt, ram, from, image);
    assert!(rt; ram.len() == 10_485_760);
    let pool = Pool::new(ram, 2048, 512);
    assert!(rt; image.text().len() <= 4096 && pool.free() >= 2);
    let len = image.text().len() as u32;
    assert!(rt; ram.part(TEXT_AT, len) == image.text());
    pool
}

/// A guest that goes on from that one's state, over its memory, on a host that is fresh.
fn adopted(
    rt: &impl Abort,
    alloc: Global,
    image: &Checked,
    guest: &Guest,
    pool: &Pool,
    from: &Machine,
    host: &mut Machine,
) -> (Guest, Pool)
    requires going { IsGoing image.now guest.now pool.now from.now.ram }
    ensures going { IsGoing image.now result.0 result.1 host.new.ram }
    ensures step { result.0.step ≡ guest.now.step }
{
    let board = copied(rt, guest.board());
    assert!(rt; host.start(alloc, 2560).is_ok());
    let mut pool = lay_with_pool(rt, host.ram_mut(), from.ram(), image);
    let (cpu, step) = (*guest.cpu(), guest.step());
    let guest = Guest::adopt(alloc, image, cpu, board, step, 2048, host, &mut pool);
    (guest.expect(rt, "memory"), pool)
}

/// A memory of the guest's frames, as above.
fn memory(rt: &impl Abort, alloc: Global, frames: u32, from: &Ram, image: &Checked) -> Ram
    requires frames { (1 ≤ frames) × (frames ≤ 32768) }
    ensures len { length result ≡ frames * 4096 }
{
    let mut ram = Ram::new(alloc, frames).expect(rt, "memory");
    lay(rt, &mut ram, from, image);
    ram
}

/// The bare machine that goes on from such a state, with an empty cache.
fn adopted_bare(
    rt: &impl Abort,
    alloc: Global,
    image: &Checked,
    bare: &Bare<Buffer>,
    guest: &Guest,
    from: &Ram,
) -> Bare<Buffer>
    requires fit { Fit bare.now.cpu }
    ensures kept { IsKept result.frames (state_of (λ buffer. buffer) result) }
    ensures step { result.step ≡ guest.now.step }
{
    assert!(rt; is_same(guest.cpu(), bare.cpu()) && guest.board().save() == bare.board().save());
    let board = copied(rt, guest.board());
    let ram = memory(rt, alloc, 2048, from, image);
    Bare::adopt(*bare.cpu(), board, guest.step(), ram, Buffer::new())
}

/// Empties a machine's cache.
fn empty(machine: &mut Bare<Buffer>)
    requires kept { IsKept machine.old.frames (state_of (λ buffer. buffer) machine.old) }
    ensures kept { IsKept machine.new.frames (state_of (λ buffer. buffer) machine.new) }
    ensures step { machine.new.step ≡ machine.old.step }
{
    machine.cache_mut().drop_all();
}

/// The bare machine that stands where this guest does, over its memory, with nothing cached.
fn moved_to_bare(
    rt: &impl Abort,
    alloc: Global,
    image: &Checked,
    guest: &Guest,
    from: &Ram,
) -> Bare<Buffer>
    requires bound { guest.now.step ≤ 2 ^ 40 }
    ensures kept { IsKept result.frames (state_of (λ buffer. buffer) result) }
    ensures step { result.step ≡ guest.now.step }
{
    let bare = bare_after(rt, alloc, image, guest.step());
    let mut moved = adopted_bare(rt, alloc, image, &bare, guest, from);
    empty(&mut moved);
    moved
}

/// The bare machine that goes on from this guest's state makes `k` steps and prints the rest.
fn ends_so_on_bare(
    rt: &impl Abort,
    alloc: Global,
    image: &Checked,
    guest: &Guest,
    from: &Ram,
    k: u64,
    rest: &[u8],
)
    requires bound { guest.now.step + k ≤ 2 ^ 40 }
{
    let script = no_event(rt, alloc);
    let mut out = sink(rt, alloc);
    let mut bare = moved_to_bare(rt, alloc, image, guest, from);
    steps_on(rt, &mut bare, &script, k, &mut out);
    put_bound(rt, bare.step(), 0, &mut out);
    took(rt, &out, rest);
}

/// A guest that makes `k` steps prints the rest.
fn ends_so(
    rt: &impl Abort,
    alloc: Global,
    image: &Checked,
    guest: &mut Guest,
    pool: &mut Pool,
    host: &mut Machine,
    k: u64,
    rest: &[u8],
)
    requires going { IsGoing image.now guest.old pool.old host.old.ram }
    requires bound { guest.old.step + k ≤ 2 ^ 40 }
{
    let script = no_event(rt, alloc);
    let mut out = sink(rt, alloc);
    guest_steps_on(rt, guest, image, &script, k, pool, host, &mut out);
    put_bound(rt, guest.step(), guest.fills(), &mut out);
    took(rt, &out, rest);
}

/// The guest that goes on from this guest's state, on another host, makes `k` steps and prints the rest.
fn ends_so_elsewhere(
    rt: &impl Abort,
    alloc: Global,
    image: &Checked,
    guest: &Guest,
    pool: &Pool,
    from: &Machine,
    k: u64,
    rest: &[u8],
)
    requires going { IsGoing image.now guest.now pool.now from.now.ram }
    requires bound { guest.now.step + k ≤ 2 ^ 40 }
{
    let mut host = Machine::new();
    let (mut moved, mut pool) = adopted(rt, alloc, image, guest, pool, from, &mut host);
    ends_so(rt, alloc, image, &mut moved, &mut pool, &mut host, k, rest);
}

/// What goes on from this guest's state for `k` steps, on the bare machine and on another host, prints the rest. The guest's
/// own shadows are dropped then.
fn goes_on_elsewhere(
    rt: &impl Abort,
    alloc: Global,
    image: &Checked,
    guest: &mut Guest,
    pool: &mut Pool,
    host: &mut Machine,
    k: u64,
    rest: &[u8],
)
    requires going { IsGoing image.now guest.old pool.old host.old.ram }
    requires bound { guest.old.step + k ≤ 2 ^ 40 }
{
    ends_so_on_bare(rt, alloc, image, guest, host.ram(), k, rest);
    ends_so_elsewhere(rt, alloc, image, guest, pool, host, k, rest);
    guest.release(pool, host);
    is_so(rt, "held", guest.held() == 2 && pool.free() == 510);
}

/// A guest that pauses at a step of a kernel goes on to the bound on another host and on the bare machine, and the rest is
/// printed each time.
fn goes_on(rt: &impl Abort, alloc: Global, source: &str, pause: u64, bound: u64, rest: &[u8])
    requires bound { pause + 100 ≤ 2 ^ 40 }
    requires later { pause ≤ bound }
    requires soon { bound ≤ pause + 100 }
{
    let image = image_of(rt, alloc, source);
    let mut host = Machine::new();
    let (mut guest, mut pool) = guest_after(rt, alloc, &image, pause, &mut host);
    let k = bound - pause;
    goes_on_elsewhere(rt, alloc, &image, &mut guest, &mut pool, &mut host, k, rest);
}

#[test]
fn a_paused_guest_goes_on_elsewhere(rt: HostRuntime) {
    goes_on(&rt, rt.alloc(), SENDS_A_BYTE, 4, 8, b"end steps 8\n");
    goes_on(
        &rt,
        rt.alloc(),
        SENDS_A_BYTE,
        1,
        8,
        b"2 out8 03f8 48\n2 tx 48\nend steps 8\n",
    );
    goes_on(&rt, rt.alloc(), IS_INTERRUPTED, 60, 80, INTERRUPTED);
}
