//! Several kernels and their schedule, read from files.

ghost use Rattle.std.specs.Prelude.{◌≡◌, ◌≤◌, ◌++◌, true, List, length, map, string_bytes, IfOk, IfErr};
ghost use Rattle.std.specs.List.{All};
ghost use Rattle.board.specs.ScriptForm.{is_script};
ghost use Rattle.guest_sched.specs.Schedules.{IsSchedule};
ghost use Rattle.pv_build.specs.Readings.{OnlyRead};
ghost use Rattle.pv_build.specs.Failures.{NoneFailedIn};
ghost use Rattle.pv_share.specs.ScheduleLines.{schedule_number};
ghost use Rattle.pv_build.specs.Telling.{HaltsOverFiles};
ghost use Rattle.pv_words.specs.Words.{names_in_pairs};
ghost use Rattle.pv_share.specs.Kernels.{IsShared, FindsKernels, NoKernel};
ghost use Rattle.pv_share.specs.Unshared.{AreKernels, FindsShared, NoShared};

use guest_sched::{Kernel, Schedule, ScheduleCause, ScheduleFault, read_schedule};
use pv_build::{Halt, load, refusal_at_line, refused, runnable_in_files};
use pv_io::Files;
use std::alloc::Global;

/// Kernels that share a host, and whose turn comes when.
#[derive(Drop)]
pub struct Shared {
    pub kernels: Vec<Kernel>,
    pub schedule: Schedule,
}

/// The schedule and the kernels that files hold; the names are by turns those of an image and of its script. The schedule's
/// file is loaded first and read last. Each kernel is read before the next is loaded.
#[tactic(auto, using(pv_build::proofs::Failures::none_here, pv_build::proofs::Failures::none_since, pv_build::proofs::Failures::none_in))]
pub fn shared_in_files<F: Files>(
    alloc: Global,
    schedule: &str,
    names: &[String],
    files: &mut F,
) -> Result<Shared, Halt>
    requires { length names.now ≤ 8 }
    ensures shared { IfOk result (λ found. IsShared (F.held files.old) schedule.now
        (names_in_pairs (map string_bytes names.now)) found.kernels.items found.schedule.list) }
    ensures scripts { IfOk result (λ found. All (λ kernel. is_script kernel.script.list ≡ true) found.kernels.items) }
    ensures form { IfOk result (λ found. IsSchedule (length found.kernels.items) found.schedule.list) }
    ensures halted { IfErr result (HaltsOverFiles F.Files
        (FindsShared (F.held files.old) schedule.now (names_in_pairs (map string_bytes names.now)))
        files.old files.new (NoShared (F.held files.old) schedule.now (names_in_pairs (map string_bytes names.now)))) }
    ensures read { OnlyRead F.Files (FindsShared (F.held files.old) schedule.now
        (names_in_pairs (map string_bytes names.now))) files.old files.new }
    ensures kept { NoneFailedIn F.Files files.old files.new result }
{
    let text = load(alloc, schedule, files)?;
    let kernels = kernels_behind(alloc, Vec::new(alloc), names, files)?;
    match read_schedule(alloc, &text, kernels.len() as u8) {
        Ok(schedule) => Ok(Shared { kernels, schedule }),
        Err(ScheduleFault::Memory) => Err(Halt::Memory),
        Err(ScheduleFault::At { line, cause }) => {
            Err(refused(refusal_at_line(alloc, number_of_schedule(cause), line)))
        }
    }
}

// The kernels that files hold, after those that were read.
fn kernels_behind<F: Files>(
    alloc: Global,
    kernels: Vec<Kernel>,
    names: &[String],
    files: &mut F,
) -> Result<Vec<Kernel>, Halt>
    ensures kernels { IfOk result (λ all. (more : List Kernel) × (all.items ≡ kernels.items ++ more)
        × AreKernels (F.held files.old) (names_in_pairs (map string_bytes names.now)) more) }
    ensures halted { IfErr result (HaltsOverFiles F.Files (FindsKernels (F.held files.old) (names_in_pairs (map string_bytes names.now)))
        files.old files.new (NoKernel (F.held files.old) (names_in_pairs (map string_bytes names.now)))) }
    ensures read { OnlyRead F.Files (FindsKernels (F.held files.old) (names_in_pairs (map string_bytes names.now))) files.old files.new }
    ensures kept { NoneFailedIn F.Files files.old files.new result }
{
    match names {
        [image, script, later @ ..] => {
            let mut kernels = kernels;
            let found = runnable_in_files(alloc, image.as_str(), script.as_str(), files)?;
            kernels.push(Kernel {
                image: found.image,
                script: found.script,
            })?;
            kernels_behind(alloc, kernels, later, files)
        }
        _ => Ok(kernels),
    }
}

// The number of a cause of a schedule.
fn number_of_schedule(cause: ScheduleCause) -> u32
    ensures { result ≡ schedule_number cause }
{
    match cause {
        ScheduleCause::NoForm => 100,
        ScheduleCause::BadNumber => 101,
        ScheduleCause::TooMany => 102,
    }
}
