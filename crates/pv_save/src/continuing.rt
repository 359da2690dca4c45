//! The command `continue`: a run goes on from a checkpoint.

ghost use Rattle.std.specs.Prelude.{◌≡◌, ◌≤◌, ◌^◌, true, length};
ghost use Rattle.guest_ram.specs.Bytes.{part};
ghost use Rattle.ia32_types.specs.declared.addresses.TheConstants.{TEXT_PLACE};
ghost use Rattle.board.specs.ScriptForm.{is_script};
ghost use Rattle.machine_model.specs.Able.{IsAble};
ghost use Rattle.wedge_core.specs.Surroundings.{around};
ghost use Rattle.checkpoint.specs.InForm.{IsInForm};
ghost use Rattle.pv_tasks.specs.Outside.{outside};
ghost use Rattle.pv_tasks.specs.Faulting.{FaultsEnd};
ghost use Rattle.pv_save.specs.Answering.{AnswersOnwards};
ghost use Rattle.pv_tasks.specs.Tasks.{Means, FaultCounts};
ghost use Rattle.pv_save.specs.Continuing.{continue_task};

use crate::checkpoints::{Resumable, resumable_in_files};
use crate::machine::is_wedge;
use checkpoint::{continue_bare, continue_wedge};
use host_cpl3::Host;
use image_load::RunFault;
use pv_build::{Status, end, tell_run};
use pv_io::{Files, Sink};
use pv_words::{RestWords, RunMode};
use run_trace::Ended;
use std::alloc::Global;

/// Goes on from a checkpoint until `n` steps are done in all, and prints the rest of the trace.
pub fn go_on<F: Files, S: Sink, H: Host>(
    alloc: Global,
    mode: RunMode,
    words: RestWords<'_>,
    files: &mut F,
    out: &mut S,
    host: &mut H,
) -> Status
    requires within { words.n ≤ 2 ^ 40 }
    requires room { H.retired host.old ≤ 2 ^ 63 }
    ensures meaning { Means
        (continue_task mode words.entry.image.now words.entry.script.now words.entry.file.now words.entry.n)
        (outside F.Files S.Sink H.Host (files.old, files.new) (out.old, out.new) (host.old, host.new)) result }
    ensures counts { FaultCounts
        (continue_task mode words.entry.image.now words.entry.script.now words.entry.file.now words.entry.n)
        (outside F.Files S.Sink H.Host (files.old, files.new) (out.old, out.new) (host.old, host.new)) }
    ensures host { mode ≡ RunMode.Bare → host.new ≡ host.old }
    ensures ends { FaultsEnd F.Files S.Sink (files.old, files.new) (out.old, out.new) result }
{
    let wedge = is_wedge(mode);
    match resumable_in_files(
        alloc,
        words.image,
        words.script,
        words.file,
        wedge,
        words.n,
        files,
    ) {
        Err(halt) => end(&halt, out),
        Ok(found) => {
            let ran = run_onwards(alloc, mode, found, words.n, host, out);
            tell_run(alloc, ran, out)
        }
    }
}

// Goes on from a state that was found, and answers how the run ended.
fn run_onwards<S: Sink, H: Host>(
    alloc: Global,
    mode: RunMode,
    found: Resumable,
    n: u64,
    host: &mut H,
    out: &mut S,
) -> Result<Ended, RunFault>
    requires script { is_script found.script.list ≡ true }
    requires form { IsInForm found.state }
    requires able { mode ≡ RunMode.Wedge → IsAble found.state.cpu }
    requires text { part found.state.ram TEXT_PLACE (length found.image.text) ≡ found.image.text }
    requires begun { found.state.step ≤ n }
    requires bound { n ≤ 2 ^ 40 }
    requires room { H.retired host.old ≤ 2 ^ 63 }
    ensures answers { AnswersOnwards mode n found.image found.script.list found.state
        (around H.Host S.Sink host.old host.new out.old out.new) (H.bytes host.new) result }
    ensures host { mode ≡ RunMode.Bare → host.new ≡ host.old }
{
    let Resumable {
        image,
        script,
        state,
    } = found;
    match mode {
        RunMode::Bare => continue_bare(state, &script, n, out),
        RunMode::Wedge => continue_wedge(alloc, state, &image, &script, n, host, out),
    }
}
