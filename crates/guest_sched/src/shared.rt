//! Several kernels on one host, in turns.

ghost use Rattle.std.specs.Prelude.{◌≡◌, ◌+◌, ◌≤◌, ◌<◌, ◌^◌, true, length, OnOk, OnErr};
ghost use Rattle.std.specs.List.{All};
ghost use Rattle.board.specs.ScriptForm.{is_script};
ghost use Rattle.pv_io.specs.Causes.{Rose};
ghost use Rattle.wedge_core.specs.Surroundings.{around};
ghost use Rattle.wedge_core.specs.Counts.{counts_of};
ghost use Rattle.wedge_core.specs.Sliced.{outward};
ghost use Rattle.guest_sched.specs.Answers.{SharedAnswers};
ghost use Rattle.guest_sched.specs.Between.{StandsNext, TurnFails, TurnGoes};
ghost use Rattle.guest_sched.specs.Schedules.{IsSchedule};
ghost use Rattle.guest_sched.specs.Seating.{HasGoneOn, TakesTurn};
ghost use Rattle.guest_sched.specs.Stages.{end_with, stage};
ghost use Rattle.guest_sched.specs.Went.{HasFailed, HasTurned};

use crate::admit::{admit_all, no_ends};
use crate::finish::finish;
use crate::kernel::{Kernel, SharedFault};
use crate::schedule::{Schedule, Slice};
use crate::tenants::{Tenant, Tenants};
use crate::turn::{put_last, steps_on};
use frame_pool::Pool;
use host_cpl3::Host;
use pv_io::{Failed, Sink};
use run_trace::{End, Ended, Pause};
use std::alloc::Global;
use wedge_step::carry_laws;

/// Runs several kernels on one host with one pool, in the turns of a schedule, and puts the text of each with the kernel's
/// number before each line. Returns how each of them ended, in their order.
pub fn run_shared<H: Host, O: Sink>(
    alloc: Global,
    kernels: &Vec<Kernel>,
    schedule: &Schedule,
    frames: u32,
    host: &mut H,
    out: &mut O,
) -> Result<Vec<Ended>, SharedFault>
    requires some { (1 ≤ length kernels.now.items) × (length kernels.now.items ≤ 4) }
    requires scripts { All (λ kernel. is_script kernel.script.list ≡ true) kernels.now.items }
    requires schedule { IsSchedule (length kernels.now.items) schedule.now.list }
    requires frames { (2048 ≤ frames) × (frames ≤ 16384) }
    requires room { H.retired host.old ≤ 2 ^ 63 }
    ensures shared { SharedAnswers kernels.now.items schedule.now.list frames
        (around H.Host O.Sink host.old host.new out.old out.new) (H.bytes host.new) result }
{
    let mut tenants = admit_all(alloc, kernels, frames, host)?;
    let mut ended = no_ends(alloc, kernels.len())?;
    for slice in &schedule.list {
        if turn(&mut tenants, kernels, slice, host, out).is_err() {
            return Err(SharedFault::Write);
        }
    }
    match finish(&tenants, &mut ended, out) {
        Ok(()) => Ok(ended),
        Err(_) => Err(SharedFault::Write),
    }
}

/// A kernel's turn. One that has met a stop does nothing.
#[tactic(none)]
fn turn<H: Host, O: Sink>(
    tenants: &mut Tenants,
    kernels: &Vec<Kernel>,
    slice: &Slice,
    host: &mut H,
    out: &mut O,
) -> Result<(), Failed>
    requires started { H.is_started host.old ≡ true }
    requires scripts { All (λ kernel. is_script kernel.script.list ≡ true) kernels.now.items }
    requires next { StandsNext kernels.now.items tenants.old.frames slice.now (stage tenants.old (H.bytes host.old))
        (counts_of H.Host host.old) (O.taken out.old) }
    ensures turned { OnOk result (TurnGoes kernels.now.items tenants.old.frames slice.now (stage tenants.old (H.bytes host.old))
        (stage tenants.new (H.bytes host.new)) (outward H.Host O.Sink host.old host.new out.old out.new)) }
    ensures failed { OnErr result (TurnFails kernels.now.items tenants.old.frames slice.now (stage tenants.old (H.bytes host.old))
        (outward H.Host O.Sink host.old host.new out.old out.new)) }
    ensures frames { tenants.new.frames ≡ tenants.old.frames }
    ensures started { H.is_started host.new ≡ true }
    ensures kept { OnOk result (O.faults out.new ≡ O.faults out.old) }
    ensures cause { OnErr result (Rose (O.faults out.old) (O.faults out.new)) }
{
    carry_laws();
    let number = slice.kernel as usize;
    if tenants.list[number].stop.is_some() {
        return Ok(());
    }
    tenants.bring(number, host);
    tenants.make_room(host);
    let tenant = &mut tenants.list[number];
    go_on(
        tenant,
        &kernels[number],
        slice,
        &mut tenants.pool,
        host,
        out,
    )
}

/// The steps of a turn, and the last line where they end at a stop.
fn go_on<H: Host, O: Sink>(
    tenant: &mut Tenant,
    kernel: &Kernel,
    slice: &Slice,
    pool: &mut Pool,
    host: &mut H,
    out: &mut O,
) -> Result<(), Failed>
    requires number { slice.now.kernel < 10 }
    requires started { H.is_started host.old ≡ true }
    requires takes { TakesTurn kernel.now pool.old (H.bytes host.old) tenant.old }
    requires script { is_script kernel.now.script.list ≡ true }
    requires bound { tenant.old.guest.step + slice.now.steps ≤ 2 ^ 40 }
    requires room { H.retired host.old + slice.now.steps < 2 ^ 64 }
    ensures turned { OnOk result (HasTurned kernel.now slice.now.kernel slice.now.steps pool.old (H.bytes host.old) (H.bytes host.new)
        tenant.old tenant.new (outward H.Host O.Sink host.old host.new out.old out.new)) }
    ensures failed { OnErr result (HasFailed kernel.now slice.now.kernel slice.now.steps (H.bytes host.old) tenant.old
        (O.taken out.old) (O.taken out.new)) }
    ensures gone { OnOk result (HasGoneOn kernel.now pool.old pool.new (H.bytes host.old) (H.bytes host.new)
        tenant.old tenant.new) }
    ensures started { H.is_started host.new ≡ true }
    ensures kept { OnOk result (O.faults out.new ≡ O.faults out.old) }
    ensures cause { OnErr result (Rose (O.faults out.old) (O.faults out.new)) }
{
    let guest = &mut tenant.guest;
    let pause = steps_on(guest, kernel, slice.kernel, slice.steps, pool, host, out)?;
    if let Pause::Stopped(stop) = pause {
        tenant.stop = Some(stop);
        put_last(slice.kernel, &end_of(tenant), out)?;
    }
    Ok(())
}

/// How a kernel has ended.
pub(crate) fn end_of(tenant: &Tenant) -> Ended
    ensures steps { result.steps ≡ tenant.now.guest.step }
    ensures fills { result.fills ≡ tenant.now.guest.fills }
    ensures end { result.end ≡ end_with tenant.now.stop }
{
    let end = match tenant.stop {
        Some(stop) => End::Stopped(stop),
        None => End::Bound,
    };
    Ended {
        steps: tenant.guest.step(),
        end,
        fills: tenant.guest.fills(),
    }
}
