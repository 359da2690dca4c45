//! The command `replay`: a text is judged by a certificate.

ghost use Rattle.std.specs.Prelude.{◌≡◌, ◌≤◌, ◌^◌, true, List, ℕ};
ghost use Rattle.pv_io.specs.Taking.{taking};
ghost use Rattle.board.specs.ScriptForm.{is_script};
ghost use Rattle.trace_check.specs.Form.{AreChoices};
ghost use Rattle.wedge_core.specs.Counts.{Counts as HostCounts};
ghost use Rattle.pv_words.specs.View.{AreWithin};
ghost use Rattle.pv_tasks.specs.Beside.{beside};
ghost use Rattle.pv_tasks.specs.Faulting.{FaultsEnd};
ghost use Rattle.pv_prove.specs.Judging.{JudgesAs};
ghost use Rattle.pv_tasks.specs.Tasks.{Means, FaultCounts};
ghost use Rattle.pv_prove.specs.Replaying.{replay_task};

use crate::certificate_lines::verdict_line;
use crate::certificates::{Replayable, replayable_in_files};
use pv_build::{Status, end, print, too_small_line};
use pv_io::{Files, Sink};
use pv_words::RunWords;
use std::alloc::Global;
use trace_check::{ReplayFault, replay as replay_text};

/// Prints whether a text is that of the run of the bare machine that follows a certificate.
pub fn replay<F: Files, S: Sink>(
    alloc: Global,
    words: RunWords<'_>,
    certificate: &str,
    text: &str,
    files: &mut F,
    out: &mut S,
) -> Status
    requires within { AreWithin words }
    ensures meaning { (completed : HostCounts) (memory : List ℕ) → Means
        (replay_task words.entry.image.now words.entry.script.now words.entry.frames words.entry.n certificate.now text.now)
        (beside F.Files S.Sink (files.old, files.new) (out.old, out.new) completed memory) result }
    ensures counts { (completed : HostCounts) (memory : List ℕ) → FaultCounts
        (replay_task words.entry.image.now words.entry.script.now words.entry.frames words.entry.n certificate.now text.now)
        (beside F.Files S.Sink (files.old, files.new) (out.old, out.new) completed memory) }
    ensures ends { FaultsEnd F.Files S.Sink (files.old, files.new) (out.old, out.new) result }
{
    match replayable_in_files(alloc, words.image, words.script, certificate, text, files) {
        Err(halt) => end(&halt, out),
        Ok(found) => judge(alloc, &found, words.frames, words.n, out),
    }
}

// Judges what was found, and prints the verdict.
fn judge<S: Sink>(alloc: Global, found: &Replayable, frames: u32, n: u64, out: &mut S) -> Status
    requires script { is_script found.now.runnable.script.list ≡ true }
    requires limits { (2048 ≤ frames) × (frames ≤ 16384) × (n ≤ 2 ^ 40) }
    requires entries { AreChoices found.now.choices.list }
    ensures { JudgesAs frames n found.now.runnable.image found.now.runnable.script.list found.now.choices.list found.now.text.items
        (taking S.Sink out.old out.new) result }
{
    let runnable = &found.runnable;
    let judged = replay_text(
        alloc,
        &runnable.image,
        &runnable.script,
        frames,
        n,
        &found.choices,
        &found.text,
    );
    match judged {
        Err(fault) => match fault {
            ReplayFault::Memory => Status::Memory,
            ReplayFault::TooSmall(small) => match too_small_line(alloc, small) {
                Err(_) => Status::Memory,
                Ok(line) => print(&line, Status::Refused, out),
            },
        },
        Ok(verdict) => match verdict_line(alloc, verdict) {
            Err(_) => Status::Memory,
            Ok(line) => print(&line, Status::Done, out),
        },
    }
}
