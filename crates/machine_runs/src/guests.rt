//! Patched runs that pause and go on, beside the bare machine.

ghost use Rattle.std.specs.Prelude.{◌≡◌, ◌+◌, ◌≤◌, ◌^◌, true};
ghost use Rattle.bare_machine.specs.Machine.{state_of, IsKept};
ghost use Rattle.board.specs.ScriptForm.{is_script};
ghost use Rattle.machine_runs.specs.Going.{IsGoing};

use crate::common::{are_same, holds, image_of, is_so, sink, took};
use crate::slices::{
    FIRST_LINE, INTERRUPTED, SENT, begun, no_event, put_bound, second_put_fails, steps_on,
};
use bare_machine::Bare;
use board::Script;
use descriptors::Cpu;
use frame_pool::Pool;
use guest_ram::Ram;
use host_cpl3::{Host, Machine};
use image_check::Checked;
use pv_io::MemSink;
use run_trace::{NoNotes, Pause};
use std::alloc::Global;
use std::process::Abort;
use wedge_core::Guest;
use worked_kernels::{IS_INTERRUPTED, SENDS_A_BYTE};
use xlate_buffer::Buffer;

/// A guest of 2,048 frames, and a pool of 512, on this host where every run begins.
pub fn started(rt: &impl Abort, alloc: Global, image: &Checked, host: &mut Machine) -> (Guest, Pool)
    ensures going { IsGoing image.now result.0 result.1 host.new.ram }
    ensures step { result.0.step ≡ 0 }
{
    match Guest::start(alloc, image, 2048, 512, host) {
        Ok((guest, pool)) => (guest, pool),
        Err(_) => panic!(rt; "no guest"),
    }
}

/// The guest makes `k` steps.
pub fn guest_steps_on(
    rt: &impl Abort,
    guest: &mut Guest,
    image: &Checked,
    script: &Script,
    k: u64,
    pool: &mut Pool,
    host: &mut Machine,
    out: &mut MemSink,
)
    requires going { IsGoing image.now guest.old pool.old host.old.ram }
    requires script { is_script script.now.list ≡ true }
    requires bound { guest.old.step + k ≤ 2 ^ 40 }
    ensures going { IsGoing image.now guest.new pool.new host.new.ram }
    ensures step { guest.new.step ≡ guest.old.step + k }
{
    assert!(rt; Host::retired(host) <= 1 << 62);
    assert!(rt; u64::from(pool.free()) + u64::from(guest.held()) >= 16);
    match guest.slice(image, script, k, pool, host, out, &mut NoNotes) {
        Ok(Pause::Reached) => {}
        _ => panic!(rt; "the guest stops"),
    }
}

/// A guest after its first `k` steps, and its pool, on this host.
pub fn guest_after(
    rt: &impl Abort,
    alloc: Global,
    image: &Checked,
    k: u64,
    host: &mut Machine,
) -> (Guest, Pool)
    requires bound { k ≤ 2 ^ 40 }
    ensures going { IsGoing image.now result.0 result.1 host.new.ram }
    ensures step { result.0.step ≡ k }
{
    let script = no_event(rt, alloc);
    let mut out = sink(rt, alloc);
    let (mut guest, mut pool) = started(rt, alloc, image, host);
    guest_steps_on(rt, &mut guest, image, &script, k, &mut pool, host, &mut out);
    (guest, pool)
}

/// What a patched run of at most `n` steps prints that pauses after the first `first` steps, and then after each `each` of
/// them.
fn prints(rt: &impl Abort, alloc: Global, image: &Checked, first: u64, each: u64, n: u64) -> MemSink
    requires { n ≤ 2 ^ 40 }
{
    let script = no_event(rt, alloc);
    let mut out = sink(rt, alloc);
    let mut host = Machine::new();
    let (mut guest, mut pool) = started(rt, alloc, image, &mut host);
    let mut k = first;
    for _ in 0..100u64 {
        let left = n.saturating_sub(guest.step()).min(k);
        guest_steps_on(
            rt, &mut guest, image, &script, left, &mut pool, &mut host, &mut out,
        );
        k = each;
    }
    put_bound(rt, guest.step(), guest.fills(), &mut out);
    out
}

/// Whether two processors are one.
pub fn is_same(mine: &Cpu, yours: &Cpu) -> bool {
    *mine == *yours
}

/// The guest's memory is the bare machine's, but for the text, which has one page.
fn is_memory(mine: &Ram, yours: &Ram) -> bool {
    mine.len() >= 0x80_0000
        && yours.len() >= 0x80_0000
        && are_same(mine.part(0, 0x10_0000), yours.part(0, 0x10_0000))
        && are_same(
            mine.part(0x10_1000, 0x6F_F000),
            yours.part(0x10_1000, 0x6F_F000),
        )
}

/// Both machines stand after so many steps, with one processor.
fn stand_alike(rt: &impl Abort, guest: &Guest, bare: &Bare<Buffer>, step: u64)
    ensures steps { (guest.now.step ≡ step) × (bare.now.step ≡ step) }
{
    assert!(rt; guest.step() == step && bare.step() == step);
    holds(rt, step as usize, is_same(guest.cpu(), bare.cpu()));
}

/// Both machines make 80 steps of a kernel, whose text has one page. They stand alike before each step, print the same, and
/// have one memory at the end.
fn step_alike(
    rt: &impl Abort,
    alloc: Global,
    image: &Checked,
    guest: &mut Guest,
    pool: &mut Pool,
    host: &mut Machine,
    bare: &mut Bare<Buffer>,
)
    requires going { IsGoing image.now guest.old pool.old host.old.ram }
    requires kept { IsKept bare.old.frames (state_of (λ buffer. buffer) bare.old) }
{
    let script = no_event(rt, alloc);
    let mut bare_out = sink(rt, alloc);
    let mut out = sink(rt, alloc);
    for step in 0..80u64 {
        stand_alike(rt, guest, bare, step);
        guest_steps_on(rt, guest, image, &script, 1, pool, host, &mut out);
        steps_on(rt, bare, &script, 1, &mut bare_out);
    }
    took(rt, &out, bare_out.bytes());
    is_so(rt, "one memory", is_memory(host.ram(), bare.ram()));
}

/// Both machines do so from the start.
fn side_by_side(rt: &impl Abort, alloc: Global, image: &Checked) {
    let mut host = Machine::new();
    let mut bare = begun(rt, alloc, image);
    let (mut guest, mut pool) = started(rt, alloc, image, &mut host);
    step_alike(
        rt, alloc, image, &mut guest, &mut pool, &mut host, &mut bare,
    );
}

/// A run of 80 steps that pauses there prints this.
fn prints_with_a_pause(rt: &impl Abort, alloc: Global, image: &Checked, pause: u64, text: &[u8]) {
    let parts = prints(rt, alloc, image, pause, 80, 80);
    holds(rt, pause as usize, are_same(parts.bytes(), text));
}

/// A run of 80 steps ends with these lines, and prints the same with a pause at any step from the 40th on.
fn prints_with_any_pause(rt: &impl Abort, alloc: Global, image: &Checked, last: &[u8]) {
    let whole = prints(rt, alloc, image, 80, 80, 80);
    is_so(rt, "the last lines", whole.bytes().ends_with(last));
    for pause in 40..80u64 {
        prints_with_a_pause(rt, alloc, image, pause, whole.bytes());
    }
}

/// A run in slices of one step prints what is sent of a byte.
fn sends_in_slices(rt: &impl Abort, alloc: Global) {
    let image = image_of(rt, alloc, SENDS_A_BYTE);
    took(rt, &prints(rt, alloc, &image, 1, 1, 8), SENT);
}

#[test]
fn patched_slices_print_the_same_and_both_machines_go_on_alike(rt: HostRuntime) {
    let alloc = rt.alloc();
    sends_in_slices(&rt, alloc);
    let image = image_of(&rt, alloc, IS_INTERRUPTED);
    prints_with_any_pause(&rt, alloc, &image, INTERRUPTED);
    side_by_side(&rt, alloc, &image);
}

/// A slice of eight steps fails, whose second line does. It ends after that line's step, and the first line went out.
fn ends_at_the_line_that_fails(
    rt: &impl Abort,
    alloc: Global,
    image: &Checked,
    guest: &mut Guest,
    pool: &mut Pool,
    host: &mut Machine,
)
    requires going { IsGoing image.now guest.old pool.old host.old.ram }
    requires bound { guest.old.step + 8 ≤ 2 ^ 40 }
{
    let script = no_event(rt, alloc);
    let mut out = second_put_fails(rt, alloc);
    assert!(rt; Host::retired(host) <= 1 << 62);
    assert!(rt; u64::from(pool.free()) + u64::from(guest.held()) >= 16);
    let answer = guest.slice(image, &script, 8, pool, host, &mut out, &mut NoNotes);
    is_so(rt, "the slice fails", answer.is_err());
    is_so(rt, "three steps", guest.step() == 3);
    // the OUT was the monitor's
    is_so(rt, "two of the host", Host::retired(host) == 2);
    took(rt, &out, FIRST_LINE);
}

#[test]
fn a_line_that_fails_ends_a_patched_slice_at_its_step(rt: HostRuntime) {
    let alloc = rt.alloc();
    let image = image_of(&rt, alloc, SENDS_A_BYTE);
    let mut host = Machine::new();
    let (mut guest, mut pool) = started(&rt, alloc, &image, &mut host);
    ends_at_the_line_that_fails(&rt, alloc, &image, &mut guest, &mut pool, &mut host);
}
