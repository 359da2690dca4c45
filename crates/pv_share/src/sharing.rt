//! The command `share`: several kernels on one host.

ghost use Rattle.std.specs.Prelude.{◌≡◌, ◌≤◌, ◌^◌, true, map, string_bytes};
ghost use Rattle.std.specs.List.{list_any};
ghost use Rattle.pv_words.specs.Words.{names_in_pairs};
ghost use Rattle.pv_words.specs.View.{AreKernels};
ghost use Rattle.pv_tasks.specs.Outside.{outside};
ghost use Rattle.pv_tasks.specs.Faulting.{FaultsEnd};
ghost use Rattle.pv_tasks.specs.Tasks.{Means, FaultCounts};
ghost use Rattle.pv_share.specs.Sharing.{has_stopped, status_of_all, share_task};
ghost use Rattle.pv_share.specs.Told.{SharedToldAs, run_fault};

use crate::kernel::shared_in_files;
use guest_sched::{SharedFault, run_shared};
use host_cpl3::Host;
use image_load::RunFault;
use pv_build::{Status, end, tell_run};
use pv_io::{Files, Sink};
use pv_words::ShareWords;
use run_trace::{End, Ended};
use std::alloc::Global;

/// Runs several kernels on one host in the turns of a schedule, and prints the trace of each with its number.
pub fn share<F: Files, S: Sink, H: Host>(
    alloc: Global,
    words: ShareWords<'_>,
    files: &mut F,
    out: &mut S,
    host: &mut H,
) -> Status
    requires within { AreKernels words }
    requires room { H.retired host.old ≤ 2 ^ 63 }
    ensures meaning { Means
        (share_task words.entry.schedule.now words.entry.frames (names_in_pairs (map string_bytes words.entry.kernels.now)))
        (outside F.Files S.Sink H.Host (files.old, files.new) (out.old, out.new) (host.old, host.new)) result }
    ensures counts { FaultCounts
        (share_task words.entry.schedule.now words.entry.frames (names_in_pairs (map string_bytes words.entry.kernels.now)))
        (outside F.Files S.Sink H.Host (files.old, files.new) (out.old, out.new) (host.old, host.new)) }
    ensures ends { FaultsEnd F.Files S.Sink (files.old, files.new) (out.old, out.new) result }
{
    match shared_in_files(alloc, words.schedule, words.kernels, files) {
        Err(halt) => end(&halt, out),
        Ok(found) => {
            let ran = run_shared(
                alloc,
                &found.kernels,
                &found.schedule,
                words.frames,
                host,
                out,
            );
            tell_shared(alloc, ran, out)
        }
    }
}

// The status of kernels that have put their text. The line of a refusal is printed.
fn tell_shared<S: Sink>(alloc: Global, ran: Result<Vec<Ended>, SharedFault>, out: &mut S) -> Status
    ensures { SharedToldAs ran (S.taken out.old) (S.taken out.new) (S.faults out.old) (S.faults out.new) result }
{
    match ran {
        Ok(ended) => status_of_all(&ended),
        Err(fault) => tell_run(alloc, Err(run_fault(fault)), out),
    }
}

// Why the run of several kernels has no end, reported as that of one.
fn run_fault(fault: SharedFault) -> RunFault
    ensures { result ≡ run_fault fault }
{
    match fault {
        SharedFault::Write => RunFault::Write,
        SharedFault::TooSmall(small) => RunFault::TooSmall(small),
        SharedFault::Memory => RunFault::Memory,
    }
}

// Stopped, exactly where a kernel ended at a stop.
fn status_of_all(ended: &[Ended]) -> Status
    ensures { result ≡ status_of_all ended.now }
{
    if any_stopped(ended) {
        return Status::Stopped;
    }
    Status::Done
}

#[tactic(auto, using(crate::proofs::ShareMeanings::stopped_at, crate::proofs::ShareMeanings::stopped_end))]
fn any_stopped(ended: &[Ended]) -> bool
    ensures { result ≡ list_any has_stopped ended.now }
{
    for one in ended {
        if has_stopped(one) {
            return true;
        }
    }
    false
}

fn has_stopped(ended: &Ended) -> bool
    ensures { result ≡ has_stopped ended.now }
{
    match ended.end {
        End::Bound => false,
        End::Stopped(_) => true,
    }
}
