//! Runs of the bare machine that pause and go on.

ghost use Rattle.std.specs.Prelude.{◌≡◌, ◌+◌, ◌≤◌, ◌^◌, true};
ghost use Rattle.bare_machine.specs.Machine.{state_of, IsKept};
ghost use Rattle.bare_machine.specs.Settings.{bare};
ghost use Rattle.board.specs.Scripts.{Events};
ghost use Rattle.board.specs.ScriptForm.{is_script};
ghost use Rattle.machine_model.specs.State.{boot};

use crate::common::{are_same, holds, image_of, is_so, sink, took};
use bare_machine::{Bare, run_bare, run_fresh};
use board::{Script, read_script};
use image_check::Checked;
use image_load::{RunFault, TooSmall};
use kernel_gen::kernel;
use pv_io::MemSink;
use run_trace::{End, Ended, Pause, put_end};
use std::alloc::Global;
use std::process::Abort;
use worked_kernels::{IS_INTERRUPTED, SENDS_A_BYTE};
use xlate_buffer::Buffer;

/// The line that went out before the one that failed.
pub const FIRST_LINE: &[u8] = b"2 out8 03f8 48\n";

/// What is sent of that byte.
pub const SENT: &[u8] = b"2 out8 03f8 48\n2 tx 48\nend steps 8\n";

/// The last lines of a run of 80 steps of that kernel.
pub const INTERRUPTED: &[u8] =
    b"65 irq 20\n67 out32 0080 10000075\n76 out8 0080 55\nend steps 80\n";

/// A script of no event.
pub fn no_event(rt: &impl Abort, alloc: Global) -> Script
    ensures { is_script result.list ≡ true }
{
    read_script(alloc, b"").expect(rt, "memory")
}

/// The machine, with 2,048 frames, in the state in which every run begins.
pub fn begun(rt: &impl Abort, alloc: Global, image: &Checked) -> Bare<Buffer>
    ensures kept { IsKept result.frames (state_of (λ buffer. buffer) result) }
    ensures step { result.step ≡ 0 }
    ensures boots { (script : Events) → state_of (λ buffer. buffer) result ≡ boot (bare image.now script 2048) }
{
    match Bare::start(alloc, image, 2048, Buffer::new()) {
        Ok(machine) => machine,
        Err(_) => panic!(rt; "no machine"),
    }
}

/// The machine makes `k` steps.
pub fn steps_on(
    rt: &impl Abort,
    machine: &mut Bare<Buffer>,
    script: &Script,
    k: u64,
    out: &mut MemSink,
)
    requires script { is_script script.now.list ≡ true }
    requires kept { IsKept machine.old.frames (state_of (λ buffer. buffer) machine.old) }
    requires bound { machine.old.step + k ≤ 2 ^ 40 }
    ensures kept { IsKept machine.new.frames (state_of (λ buffer. buffer) machine.new) }
    ensures step { machine.new.step ≡ machine.old.step + k }
{
    match machine.slice(script, k, out) {
        Ok(Pause::Reached) => {}
        _ => panic!(rt; "the machine stops"),
    }
}

/// A sink whose second put fails.
pub fn second_put_fails(rt: &impl Abort, alloc: Global) -> MemSink {
    let fail = Vec::from_slice(alloc, &[1u64]).expect(rt, "memory");
    MemSink::new(alloc, 4096, fail).expect(rt, "memory")
}

/// The line of a run that made all its steps.
pub fn put_bound(rt: &impl Abort, steps: u64, fills: u64, out: &mut MemSink) {
    let ended = Ended {
        steps,
        end: End::Bound,
        fills,
    };
    assert!(rt; put_end(&ended, out).is_ok());
}

/// What a run of at most `n` steps prints that pauses after the first `first` steps, and then after each `each` of them.
fn prints(rt: &impl Abort, alloc: Global, image: &Checked, first: u64, each: u64, n: u64) -> MemSink
    requires { n ≤ 2 ^ 40 }
{
    let script = no_event(rt, alloc);
    let mut out = sink(rt, alloc);
    let mut machine = begun(rt, alloc, image);
    let mut k = first;
    for _ in 0..100u64 {
        let left = n.saturating_sub(machine.step());
        steps_on(rt, &mut machine, &script, k.min(left), &mut out);
        k = each;
    }
    put_bound(rt, machine.step(), 0, &mut out);
    out
}

/// What a run of at most `n` steps prints, before each of which nothing is cached.
fn prints_fresh(rt: &impl Abort, alloc: Global, image: &Checked, n: u64) -> MemSink
    requires { n ≤ 2 ^ 40 }
{
    let script = no_event(rt, alloc);
    let mut out = sink(rt, alloc);
    let ended = run_fresh(alloc, image, &script, 2048, n, &mut out);
    assert!(rt; ended.is_ok());
    out
}

/// The image of the first generated kernel.
fn generated(rt: &impl Abort, alloc: Global) -> Checked {
    let source = kernel(alloc, 0).expect(rt, "memory");
    image_of(rt, alloc, str::from_utf8(&source).expect(rt, "a text"))
}

/// A run of at most `n` steps, before each of which nothing is cached, prints this.
fn prints_so_fresh(rt: &impl Abort, alloc: Global, image: &Checked, n: u64, text: &[u8])
    requires { n ≤ 2 ^ 40 }
{
    took(rt, &prints_fresh(rt, alloc, image, n), text);
}

/// A run in slices of one step and a fresh one print what is sent of a byte.
fn sends_in_slices(rt: &impl Abort, alloc: Global) {
    let image = image_of(rt, alloc, SENDS_A_BYTE);
    took(rt, &prints(rt, alloc, &image, 1, 1, 8), SENT);
    prints_so_fresh(rt, alloc, &image, 8, SENT);
}

#[test]
fn slices_of_one_step_and_fresh_runs_print_the_same(rt: HostRuntime) {
    let alloc = rt.alloc();
    sends_in_slices(&rt, alloc);
    let shown = b"1 out32 0080 3c6ef35f\nend steps 2\n";
    prints_so_fresh(&rt, alloc, &generated(&rt, alloc), 2, shown);
}

/// A run of 80 steps that pauses there prints this.
fn prints_with_a_pause(rt: &impl Abort, alloc: Global, image: &Checked, pause: u64, text: &[u8]) {
    let parts = prints(rt, alloc, image, pause, 80, 80);
    holds(rt, pause as usize, are_same(parts.bytes(), text));
}

#[test]
fn a_pause_at_any_step_changes_nothing(rt: HostRuntime) {
    let alloc = rt.alloc();
    let image = image_of(&rt, alloc, IS_INTERRUPTED);
    let whole = prints(&rt, alloc, &image, 80, 80, 80);
    is_so(&rt, "the last lines", whole.bytes().ends_with(INTERRUPTED));
    prints_so_fresh(&rt, alloc, &image, 80, whole.bytes());
    for pause in 40..80u64 {
        prints_with_a_pause(&rt, alloc, &image, pause, whole.bytes());
    }
}

/// Whether a run answers that its image needs 2,305 frames and has 2,048.
fn is_too_small(answer: Result<Ended, RunFault>) -> bool {
    match answer {
        Err(RunFault::TooSmall(TooSmall { need, have })) => need == 2305 && have == 2048,
        _ => false,
    }
}

/// Whether both runs answer so on the bare machine.
fn are_too_small(alloc: Global, image: &Checked, script: &Script, out: &mut MemSink) -> bool
    requires script { is_script script.now.list ≡ true }
{
    is_too_small(run_bare(alloc, image, script, 2048, 1, out))
        && is_too_small(run_fresh(alloc, image, script, 2048, 1, out))
}

#[test]
fn a_large_image_is_told_with_both_numbers_of_frames(rt: HostRuntime) {
    let alloc = rt.alloc();
    let image = image_of(&rt, alloc, ".bss\n.zero 8388608\n");
    let script = no_event(&rt, alloc);
    let mut out = sink(&rt, alloc);
    let are_so = are_too_small(alloc, &image, &script, &mut out);
    is_so(&rt, "both numbers", are_so);
    took(&rt, &out, b"");
}

/// A slice of eight steps fails, whose second line does, and ends after that line's step.
fn ends_at_the_line_that_fails(
    rt: &impl Abort,
    machine: &mut Bare<Buffer>,
    script: &Script,
    out: &mut MemSink,
)
    requires script { is_script script.now.list ≡ true }
    requires kept { IsKept machine.old.frames (state_of (λ buffer. buffer) machine.old) }
    requires bound { machine.old.step + 8 ≤ 2 ^ 40 }
{
    let answer = machine.slice(script, 8, out);
    is_so(rt, "the slice fails", answer.is_err());
    is_so(rt, "three steps", machine.step() == 3);
}

#[test]
fn a_line_that_fails_ends_a_slice_at_its_step(rt: HostRuntime) {
    let alloc = rt.alloc();
    let image = image_of(&rt, alloc, SENDS_A_BYTE);
    let script = no_event(&rt, alloc);
    let mut out = second_put_fails(&rt, alloc);
    let mut machine = begun(&rt, alloc, &image);
    ends_at_the_line_that_fails(&rt, &mut machine, &script, &mut out);
    took(&rt, &out, FIRST_LINE);
}
