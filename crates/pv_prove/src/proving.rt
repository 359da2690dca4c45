//! The command `prove`: a run of a patched image, with a certificate of its translations.

ghost use Rattle.std.specs.Prelude.{◌≡◌, ◌≤◌, ◌^◌, true, List, ℕ, length};
ghost use Rattle.board.specs.ScriptForm.{is_script};
ghost use Rattle.run_trace.specs.Notes.{Note};
ghost use Rattle.wedge_core.specs.Counts.{Counts as HostCounts};
ghost use Rattle.trace_check.specs.Form.{AreChoices, most_choices};
ghost use Rattle.trace_check.specs.ChoicesTold.{choices_of};
ghost use Rattle.trace_check.specs.NotesKept.{AreKept};
ghost use Rattle.pv_build.specs.Images.{HasImage};
ghost use Rattle.pv_build.specs.Scripts.{HasScript};
ghost use Rattle.pv_prove.specs.CertificateLines.{no_certificate_line};
ghost use Rattle.pv_build.specs.Telling.{Says};
ghost use Rattle.pv_build.specs.Statuses.{status_of};
ghost use Rattle.pv_words.specs.View.{AreWithin};
ghost use Rattle.pv_tasks.specs.Outside.{outside};
ghost use Rattle.pv_tasks.specs.Beside.{beside};
ghost use Rattle.pv_tasks.specs.Unread.{NotRead};
ghost use Rattle.pv_tasks.specs.Faulting.{FaultsEnd};
ghost use Rattle.pv_prove.specs.Proving.{prove_task};
ghost use Rattle.pv_prove.specs.Certifying.{Certifies};
ghost use Rattle.pv_tasks.specs.Tasks.{Means, FaultCounts};

use crate::certificates::certificate_file;
use host_cpl3::Host;
use pv_build::{Runnable, Status, end, runnable_in_files, tell_run};
use pv_io::{Files, Sink};
use pv_tasks::deliver;
use pv_words::RunWords;
use run_trace::End;
use std::alloc::Global;
use trace_check::{KeptNotes, run_noted};

/// Runs a patched image on a host, prints its trace, and stores what is reported of its translations.
pub fn prove<F: Files, S: Sink, H: Host>(
    alloc: Global,
    words: RunWords<'_>,
    certificate: &str,
    files: &mut F,
    out: &mut S,
    host: &mut H,
) -> Status
    requires within { AreWithin words }
    requires room { H.retired host.old ≤ 2 ^ 63 }
    ensures meaning { Means
        (prove_task words.entry.image.now words.entry.script.now words.entry.frames words.entry.n certificate.now)
        (outside F.Files S.Sink H.Host (files.old, files.new) (out.old, out.new) (host.old, host.new)) result }
    ensures counts { FaultCounts
        (prove_task words.entry.image.now words.entry.script.now words.entry.frames words.entry.n certificate.now)
        (outside F.Files S.Sink H.Host (files.old, files.new) (out.old, out.new) (host.old, host.new)) }
    ensures ends { FaultsEnd F.Files S.Sink (files.old, files.new) (out.old, out.new) result }
{
    match runnable_in_files(alloc, words.image, words.script, files) {
        Err(halt) => end(&halt, out),
        Ok(found) => prove_found(
            alloc,
            &found,
            words.frames,
            words.n,
            certificate,
            files,
            out,
            host,
        ),
    }
}

// Runs what was found, and stores its certificate.
fn prove_found<F: Files, S: Sink, H: Host>(
    alloc: Global,
    found: &Runnable,
    frames: u32,
    n: u64,
    certificate: &str,
    files: &mut F,
    out: &mut S,
    host: &mut H,
) -> Status
    requires script { is_script found.now.script.list ≡ true }
    requires limits { (2048 ≤ frames) × (frames ≤ 16384) × (n ≤ 2 ^ 40) }
    requires room { H.retired host.old ≤ 2 ^ 63 }
    ensures meaning { (image script : List ℕ) → HasImage (F.held files.old) image found.now.image
        → HasScript (F.held files.old) script found.now.script.list →
        Means (prove_task image script frames n certificate.now)
        (outside F.Files S.Sink H.Host (files.old, files.new) (out.old, out.new) (host.old, host.new)) result }
    ensures stored { NotRead F.Files files.old files.new }
    ensures ends { FaultsEnd F.Files S.Sink (files.old, files.new) (out.old, out.new) result }
{
    match KeptNotes::new(alloc) {
        Err(_) => Status::Memory,
        Ok(notes) => {
            let mut notes = notes;
            match run_noted(
                alloc,
                &found.image,
                &found.script,
                frames,
                n,
                host,
                out,
                &mut notes,
            ) {
                Err(fault) => tell_run(alloc, Err(fault), out),
                Ok(ended) => certify(alloc, &notes, status_of(ended.end), certificate, files, out),
            }
        }
    }
}

// How the work of a run has ended.
fn status_of(end: End) -> Status
    ensures { result ≡ status_of end }
{
    match end {
        End::Bound => Status::Done,
        End::Stopped(_) => Status::Stopped,
    }
}

// Stores the certificate of notes, and reports it. The status is the one that is meant unless that fails.
fn certify<F: Files, S: Sink>(
    alloc: Global,
    notes: &KeptNotes,
    meant: Status,
    name: &str,
    files: &mut F,
    out: &mut S,
) -> Status
    requires { (told : List Note) × AreKept notes.now told × (length told ≤ most_choices → AreChoices (choices_of told)) }
    ensures certified { (completed : HostCounts) (memory : List ℕ) (told : List Note) → AreKept notes.now told →
        Certifies name.now told meant (beside F.Files S.Sink (files.old, files.new) (out.old, out.new) completed memory) result }
    ensures stored { NotRead F.Files files.old files.new }
    ensures ends { FaultsEnd F.Files S.Sink (files.old, files.new) (out.old, out.new) result }
{
    match notes.choices() {
        None => tell_none(meant, out),
        Some(choices) => match certificate_file(alloc, choices) {
            Err(_) => Status::Memory,
            Ok(made) => deliver(&made, name, meant, files, out),
        },
    }
}

// There are too many notes for a file.
fn tell_none<S: Sink>(meant: Status, out: &mut S) -> Status
    ensures { Says no_certificate_line meant (S.taken out.old) (S.taken out.new) (S.faults out.old) (S.faults out.new) result }
{
    match out.put(b"certificate none\n") {
        Ok(()) => meant,
        Err(_) => Status::WriteFault,
    }
}
