//! The steps of a kernel's turn.

ghost use Rattle.std.specs.Prelude.{◌≡◌, ◌+◌, ◌≤◌, ◌<◌, ◌^◌, true, OnOk, OnErr};
ghost use Rattle.board.specs.ScriptForm.{is_script};
ghost use Rattle.pv_io.specs.Causes.{Rose};
ghost use Rattle.pv_io.specs.Sink.{Appends, AppendsFront};
ghost use Rattle.run_trace.specs.Text.{end_line};
ghost use Rattle.wedge_step.specs.Leaves.{IsBetween};
ghost use Rattle.wedge_step.specs.Scene.{scene};
ghost use Rattle.wedge_step.specs.Standing.{IsAble};
ghost use Rattle.wedge_core.specs.Calls.{GuestLeaves};
ghost use Rattle.wedge_core.specs.OfRoots.{of_roots};
ghost use Rattle.wedge_core.specs.Sliced.{FaultsOf, SliceLeaves, outward};
ghost use Rattle.guest_sched.specs.Tags.{tag_of, tagged};
ghost use Rattle.guest_sched.specs.Turns.{TurnIn};

use crate::kernel::Kernel;
use crate::tagged::Tagged;
use frame_pool::Pool;
use host_cpl3::Host;
use pv_io::{Failed, Sink};
use run_trace::{Ended, NoNotes, Pause, put_end};
use wedge_core::Guest;

/// A kernel that stands in the host's memory makes `k` steps, or ends before a step that stops. Its lines are put with its
/// number before each.
pub(crate) fn steps_on<H: Host, O: Sink>(
    guest: &mut Guest,
    kernel: &Kernel,
    number: u8,
    k: u64,
    pool: &mut Pool,
    host: &mut H,
    out: &mut O,
) -> Result<Pause, Failed>
    requires number { number < 10 }
    requires started { H.is_started host.old ≡ true }
    requires between { IsBetween of_roots kernel.now.image (scene guest.old pool.old (H.bytes host.old)) }
    requires able { IsAble guest.old.cpu }
    requires script { is_script kernel.now.script.list ≡ true }
    requires bound { guest.old.step + k ≤ 2 ^ 40 }
    requires room { H.retired host.old + k < 2 ^ 64 }
    ensures turn { TurnIn kernel.now number k (scene guest.old pool.old (H.bytes host.old))
        (scene guest.new pool.new (H.bytes host.new)) (outward H.Host O.Sink host.old host.new out.old out.new) result }
    ensures leaves { SliceLeaves of_roots kernel.now.image (guest.old.step + k)
        (scene guest.old pool.old (H.bytes host.old)) (scene guest.new pool.new (H.bytes host.new)) result }
    ensures own { GuestLeaves kernel.now.image kernel.now.script.list (scene guest.old pool.old (H.bytes host.old))
        (scene guest.new pool.new (H.bytes host.new)) result }
    ensures faults { FaultsOf (O.faults out.old) (O.faults out.new) result }
    ensures started { H.is_started host.new ≡ true }
{
    let mut tagged = Tagged::new(number, out);
    let pause = guest.slice(
        &kernel.image,
        &kernel.script,
        k,
        pool,
        host,
        &mut tagged,
        &mut NoNotes,
    );
    if tagged.has_failed() {
        return Err(Failed);
    }
    pause
}

/// Puts the last line of a kernel, with its number before it.
pub(crate) fn put_last<O: Sink>(number: u8, ended: &Ended, out: &mut O) -> Result<(), Failed>
    requires { number < 10 }
    ensures ok { OnOk result (Appends (O.taken out.old) (O.taken out.new)
        (tagged (tag_of number) (end_line ended.now.steps ended.now.end))) }
    ensures failed { OnErr result (AppendsFront (O.taken out.old) (O.taken out.new)
        (tagged (tag_of number) (end_line ended.now.steps ended.now.end))) }
    ensures kept { OnOk result (O.faults out.new ≡ O.faults out.old) }
    ensures cause { OnErr result (Rose (O.faults out.old) (O.faults out.new)) }
{
    let mut tagged = Tagged::new(number, out);
    let result = put_end(ended, &mut tagged);
    if tagged.has_failed() {
        return Err(Failed);
    }
    result
}
