//! The call that does all that the program does.

ghost use Rattle.std.specs.Prelude.{◌≡◌, ◌↔◌, List, ℕ, Some, None, map, string_bytes};
ghost use Rattle.wedge_core.specs.Counts.{Counts as HostCounts};
ghost use Rattle.pv_tasks.specs.Beside.{beside};
ghost use Rattle.pv_tasks.specs.Outside.{Untouched};
ghost use Rattle.pv_tasks.specs.Faulting.{FaultsEnd};
ghost use Rattle.pv_tasks.specs.Tasks.{Means, FaultCounts};
ghost use Rattle.look_words.specs.Words.{Look, form_of};
ghost use Rattle.look_words.specs.View.{look_view, IsWithin};
ghost use Rattle.pv_look.specs.Looking.{task_of};

use crate::before::before;
use crate::file::of_file;
use crate::listing::list;
use crate::stepping::steps;
use look_words::{LookWords, form};
use pv_build::Status;
use pv_io::{Files, Sink};
use std::alloc::Global;

/// Looks up what a form asks for.
fn look_up<F: Files, S: Sink>(
    alloc: Global,
    asked: LookWords<'_>,
    files: &mut F,
    out: &mut S,
) -> Status
    requires within { IsWithin asked }
    ensures meaning { (completed : HostCounts) (memory : List ℕ)
        → Means (task_of (look_view asked.entry))
        (beside F.Files S.Sink (files.old, files.new) (out.old, out.new) completed memory) result }
    ensures counts { (completed : HostCounts) (memory : List ℕ)
        → FaultCounts (task_of (look_view asked.entry)) (beside F.Files S.Sink (files.old, files.new) (out.old, out.new) completed memory) }
    ensures ends { FaultsEnd F.Files S.Sink (files.old, files.new) (out.old, out.new) result }
{
    match asked {
        LookWords::List(image) => list(alloc, image, files, out),
        LookWords::Steps {
            run,
            from,
            to,
            only,
        } => steps(alloc, run, from, to, only, files, out),
        LookWords::Before { run, steps, aspect } => before(alloc, run, &steps, aspect, files, out),
        LookWords::InFile { state, aspect } => of_file(alloc, state, aspect, files, out),
    }
}

/// Looks up what the words ask for, and answers how it ended. It stores no file.
pub fn look<F: Files, S: Sink>(
    alloc: Global,
    words: &Vec<String>,
    files: &mut F,
    out: &mut S,
) -> Status
    // Words: exactly where the words are of no form. Nothing is done then.
    ensures words { (result ≡ Status.Words) ↔ (form_of (map string_bytes words.now.items) ≡ None) }
    ensures untouched { result ≡ Status.Words → (completed : HostCounts) (memory : List ℕ)
        → Untouched (beside F.Files S.Sink (files.old, files.new) (out.old, out.new) completed memory) }
    // What each other status says of the files and of what was printed.
    ensures meaning { (asked : Look) → form_of (map string_bytes words.now.items) ≡ Some asked
        → (completed : HostCounts) (memory : List ℕ)
        → Means (task_of asked) (beside F.Files S.Sink (files.old, files.new) (out.old, out.new) completed memory) result }
    // Files that are sure stay so. Over them no load fails where each file that is reached is held, and nothing is ever stored.
    ensures counts { (asked : Look) → form_of (map string_bytes words.now.items) ≡ Some asked
        → (completed : HostCounts) (memory : List ℕ)
        → FaultCounts (task_of asked) (beside F.Files S.Sink (files.old, files.new) (out.old, out.new) completed memory) }
    // A load that failed ends the work as a read fault, and a put that failed as a write fault.
    ensures ends { FaultsEnd F.Files S.Sink (files.old, files.new) (out.old, out.new) result }
{
    match form(words) {
        None => Status::Words,
        Some(asked) => look_up(alloc, asked, files, out),
    }
}
