//! The call that does all that the program does.

ghost use Rattle.std.specs.Prelude.{◌≡◌, ◌↔◌, ◌≤◌, ◌^◌, None, map, string_bytes};
ghost use Rattle.pv_words.specs.Words.{form_of};
ghost use Rattle.pv_tasks.specs.Outside.{outside};
ghost use Rattle.pv_tool.specs.Top.{Meaning, Completes, LeavesFiles, KeepsOthers, LeavesAlone, CountsFaults, EndsAtFaults, Headlines, Compared, Proves, Judges};

use crate::dispatch::do_command;
use host_cpl3::Host;
use machine_model::runs_agree;
use pv_build::Status;
use pv_io::{Files, Sink};
use pv_words::form;
use std::alloc::Global;
use trace_check::judgements_are_runs;

/// Does what the words ask for, and answers how it ended. `run --wedge`, `share`, `prove` and the wedge forms of `save`
/// and `continue` run on the host, and so does the second run of `work`.
pub fn top<F: Files, S: Sink, H: Host>(
    alloc: Global,
    words: &Vec<String>,
    files: &mut F,
    out: &mut S,
    host: &mut H,
) -> Status
    requires { H.retired host.old ≤ 2 ^ 63 }

    // Words: exactly where the words are of no form.
    ensures words { (result ≡ Status.Words) ↔ (form_of (map string_bytes words.now.items) ≡ None) }

    // What each other status says of the files and of what was printed.
    ensures meaning { Meaning (map string_bytes words.now.items)
        (outside F.Files S.Sink H.Host (files.old, files.new) (out.old, out.new) (host.old, host.new)) result }

    // Where no load, store or put failed and memory was found, the work comes to its outcome: it is done, stopped or refused as its
    // definition says. What that is of each command the laws `outcomes` and `outcomes_of_work` say.
    ensures complete { Completes (map string_bytes words.now.items)
        (outside F.Files S.Sink H.Host (files.old, files.new) (out.old, out.new) (host.old, host.new)) result }

    // What is burnt, linked or saved is stored as a file that is read back as that object, image or state.
    ensures leaves { LeavesFiles (map string_bytes words.now.items)
        (outside F.Files S.Sink H.Host (files.old, files.new) (out.old, out.new) (host.old, host.new)) result }

    // No file is changed but the one that the command makes.
    ensures held { KeepsOthers (map string_bytes words.now.items)
        (outside F.Files S.Sink H.Host (files.old, files.new) (out.old, out.new) (host.old, host.new)) }

    // Words of no form do nothing. All commands but `run --wedge`, `work`, `share`, `prove` and the wedge forms of `save` and
    // `continue` leave the host as it was. `work` touches no file, and doesn't end as a read fault.
    ensures untouched { LeavesAlone (map string_bytes words.now.items) (files.old, files.new) (host.old, host.new)
        (outside F.Files S.Sink H.Host (files.old, files.new) (out.old, out.new) (host.old, host.new)) result }

    // Files that are sure stay so. Over them no store fails, and no load where each file that is reached is held.
    ensures counts { CountsFaults (map string_bytes words.now.items)
        (outside F.Files S.Sink H.Host (files.old, files.new) (out.old, out.new) (host.old, host.new)) }

    // A load that failed ends the work as a read fault, a store or a put that failed as a write fault: it isn't tried again.
    ensures ends { EndsAtFaults (outside F.Files S.Sink H.Host (files.old, files.new) (out.old, out.new) (host.old, host.new)) result }

    // The headline. Where `run --wedge` is done or stopped, the files hold an accepted image and a script, and what was printed
    // is the text of a trace that the unpatched image can give.
    ensures headline { Headlines (map string_bytes words.now.items)
        (outside F.Files S.Sink H.Host (files.old, files.new) (out.old, out.new) (host.old, host.new)) result }

    // Where `work` is done, both of its runs are compared: the text of the first is a function of the kernel, the second has the
    // headline, and both lines are printed.
    ensures compared { Compared (map string_bytes words.now.items)
        (outside F.Files S.Sink H.Host (files.old, files.new) (out.old, out.new) (host.old, host.new)) result }

    // Where `prove` is done or stopped, it has printed the text of a run and stored the choices of its notes, by which the text is
    // judged yes, or yes before a stop of the monitor's own.
    ensures proved { Proves (map string_bytes words.now.items)
        (outside F.Files S.Sink H.Host (files.old, files.new) (out.old, out.new) (host.old, host.new)) result }

    // Where `replay` is done, it has said exactly what is judged of the text. A text that is judged yes is that of the run of the
    // bare machine which follows the certificate's choices.
    ensures replayed { Judges (map string_bytes words.now.items)
        (outside F.Files S.Sink H.Host (files.old, files.new) (out.old, out.new) (host.old, host.new)) result }
{
    runs_agree();
    judgements_are_runs();
    match form(words) {
        None => Status::Words,
        Some(command) => do_command(alloc, command, files, out, host),
    }
}
