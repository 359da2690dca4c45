//! The command `save`: a run rests after so many steps, and its state is stored.

ghost use Rattle.std.specs.Prelude.{◌≡◌, ◌≤◌, ◌^◌, true, ℕ, List, length};
ghost use Rattle.guest_ram.specs.Bytes.{part};
ghost use Rattle.ia32_types.specs.declared.addresses.TheConstants.{TEXT_PLACE};
ghost use Rattle.board.specs.ScriptForm.{is_script};
ghost use Rattle.machine_model.specs.Able.{IsAble};
ghost use Rattle.wedge_core.specs.Counts.{Counts as HostCounts};
ghost use Rattle.wedge_core.specs.Surroundings.{around};
ghost use Rattle.checkpoint.specs.InForm.{IsInForm};
ghost use Rattle.pv_words.specs.View.{AreWithin};
ghost use Rattle.pv_tasks.specs.Outside.{outside};
ghost use Rattle.pv_tasks.specs.Beside.{beside};
ghost use Rattle.pv_tasks.specs.Unread.{NotRead};
ghost use Rattle.pv_tasks.specs.Faulting.{FaultsEnd};
ghost use Rattle.pv_save.specs.Answering.{AnswersStart, AnswersState, HasForm};
ghost use Rattle.pv_save.specs.Leaving.{LeavesAs};
ghost use Rattle.pv_tasks.specs.Tasks.{Means, FaultCounts};
ghost use Rattle.pv_save.specs.Resting.{save_task, save_from_task};

use crate::checkpoints::{Resumable, checkpoint_file, resumable_in_files};
use crate::machine::is_wedge;
use checkpoint::{Rested, save_bare, save_bare_from, save_wedge, save_wedge_from};
use host_cpl3::Host;
use image_load::RunFault;
use pv_build::{Runnable, Status, end, runnable_in_files, tell_run};
use pv_io::{Files, Sink};
use pv_tasks::deliver;
use pv_words::{RestWords, RunMode, RunWords};
use std::alloc::Global;

/// Runs an image under a script for `n` steps, prints its items, and stores its state.
pub fn save<F: Files, S: Sink, H: Host>(
    alloc: Global,
    mode: RunMode,
    words: RunWords<'_>,
    file: &str,
    files: &mut F,
    out: &mut S,
    host: &mut H,
) -> Status
    requires within { AreWithin words }
    requires room { H.retired host.old ≤ 2 ^ 63 }
    ensures meaning { Means
        (save_task mode words.entry.image.now words.entry.script.now words.entry.frames words.entry.n file.now)
        (outside F.Files S.Sink H.Host (files.old, files.new) (out.old, out.new) (host.old, host.new)) result }
    ensures counts { FaultCounts
        (save_task mode words.entry.image.now words.entry.script.now words.entry.frames words.entry.n file.now)
        (outside F.Files S.Sink H.Host (files.old, files.new) (out.old, out.new) (host.old, host.new)) }
    ensures leaves { result ≡ Status.Done
        → (save_task mode words.entry.image.now words.entry.script.now words.entry.frames words.entry.n file.now).leaves
        (F.held files.old) (F.held files.new) }
    ensures host { mode ≡ RunMode.Bare → host.new ≡ host.old }
    ensures ends { FaultsEnd F.Files S.Sink (files.old, files.new) (out.old, out.new) result }
{
    match runnable_in_files(alloc, words.image, words.script, files) {
        Err(halt) => end(&halt, out),
        Ok(found) => {
            let rested = rest_found(alloc, mode, &found, words.frames, words.n, host, out);
            leave(alloc, rested, file, files, out)
        }
    }
}

/// Goes on from a checkpoint until `n` steps are done in all, prints the items of these, and stores the state anew.
pub fn save_from<F: Files, S: Sink, H: Host>(
    alloc: Global,
    mode: RunMode,
    words: RestWords<'_>,
    new: &str,
    files: &mut F,
    out: &mut S,
    host: &mut H,
) -> Status
    requires within { words.n ≤ 2 ^ 40 }
    requires room { H.retired host.old ≤ 2 ^ 63 }
    ensures meaning { Means
        (save_from_task mode words.entry.image.now words.entry.script.now words.entry.file.now words.entry.n new.now)
        (outside F.Files S.Sink H.Host (files.old, files.new) (out.old, out.new) (host.old, host.new)) result }
    ensures counts { FaultCounts
        (save_from_task mode words.entry.image.now words.entry.script.now words.entry.file.now words.entry.n new.now)
        (outside F.Files S.Sink H.Host (files.old, files.new) (out.old, out.new) (host.old, host.new)) }
    ensures leaves { result ≡ Status.Done
        → (save_from_task mode words.entry.image.now words.entry.script.now words.entry.file.now words.entry.n new.now).leaves
        (F.held files.old) (F.held files.new) }
    ensures host { mode ≡ RunMode.Bare → host.new ≡ host.old }
    ensures ends { FaultsEnd F.Files S.Sink (files.old, files.new) (out.old, out.new) result }
{
    let wedge = is_wedge(mode);
    match resumable_in_files(
        alloc,
        words.image,
        words.script,
        words.file,
        wedge,
        words.n,
        files,
    ) {
        Err(halt) => end(&halt, out),
        Ok(found) => {
            let rested = rest_again(alloc, mode, found, words.n, host, out);
            leave(alloc, rested, new, files, out)
        }
    }
}

// Runs what was found from the start until it rests.
fn rest_found<S: Sink, H: Host>(
    alloc: Global,
    mode: RunMode,
    found: &Runnable,
    frames: u32,
    n: u64,
    host: &mut H,
    out: &mut S,
) -> Result<Rested, RunFault>
    requires script { is_script found.now.script.list ≡ true }
    requires limits { (2048 ≤ frames) × (frames ≤ 16384) × (n ≤ 2 ^ 40) }
    requires room { H.retired host.old ≤ 2 ^ 63 }
    ensures answers { AnswersStart mode frames n found.now.image found.now.script.list
        (around H.Host S.Sink host.old host.new out.old out.new) (H.bytes host.new) result }
    ensures form { HasForm result }
    ensures host { mode ≡ RunMode.Bare → host.new ≡ host.old }
{
    match mode {
        RunMode::Bare => save_bare(alloc, &found.image, &found.script, frames, n, out),
        RunMode::Wedge => save_wedge(alloc, &found.image, &found.script, frames, n, host, out),
    }
}

// Goes on from a state that was found until it rests again.
fn rest_again<S: Sink, H: Host>(
    alloc: Global,
    mode: RunMode,
    found: Resumable,
    n: u64,
    host: &mut H,
    out: &mut S,
) -> Result<Rested, RunFault>
    requires script { is_script found.script.list ≡ true }
    requires form { IsInForm found.state }
    requires able { mode ≡ RunMode.Wedge → IsAble found.state.cpu }
    requires text { part found.state.ram TEXT_PLACE (length found.image.text) ≡ found.image.text }
    requires begun { found.state.step ≤ n }
    requires bound { n ≤ 2 ^ 40 }
    requires room { H.retired host.old ≤ 2 ^ 63 }
    ensures answers { AnswersState mode n found.image found.script.list found.state
        (around H.Host S.Sink host.old host.new out.old out.new) (H.bytes host.new) result }
    ensures form { HasForm result }
    ensures host { mode ≡ RunMode.Bare → host.new ≡ host.old }
{
    let Resumable {
        image,
        script,
        state,
    } = found;
    match mode {
        RunMode::Bare => save_bare_from(state, &script, n, out),
        RunMode::Wedge => save_wedge_from(alloc, state, &image, &script, n, host, out),
    }
}

// Stores the state of a run that rests, and prints the line for it; or reports how a run ended that doesn't.
#[tactic(auto, using(pv_tasks::proofs::Faults::ends_none, pv_tasks::proofs::Faults::puts_told))]
fn leave<F: Files, S: Sink>(
    alloc: Global,
    rested: Result<Rested, RunFault>,
    name: &str,
    files: &mut F,
    out: &mut S,
) -> Status
    requires form { HasForm rested }
    ensures leaves { (completed : HostCounts) (memory : List ℕ)
        → LeavesAs rested name.now (beside F.Files S.Sink (files.old, files.new) (out.old, out.new) completed memory) result }
    ensures stored { NotRead F.Files files.old files.new }
    ensures ends { FaultsEnd F.Files S.Sink (files.old, files.new) (out.old, out.new) result }
{
    match rested {
        Ok(Rested::At(state)) => match checkpoint_file(alloc, &state) {
            Err(_) => Status::Memory,
            Ok(made) => deliver(&made, name, Status::Done, files, out),
        },
        Ok(Rested::Stopped(ended)) => tell_run(alloc, Ok(ended), out),
        Err(fault) => tell_run(alloc, Err(fault), out),
    }
}
