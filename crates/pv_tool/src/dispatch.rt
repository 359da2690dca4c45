//! Which part of the program does the work of which command.

ghost use Rattle.std.specs.Prelude.{◌≡◌, ◌≢◌, ◌≤◌, ◌^◌, false, Some};
ghost use Rattle.pv_words.specs.View.{command_view, IsWithin};
ghost use Rattle.pv_tasks.specs.Outside.{outside};
ghost use Rattle.pv_tasks.specs.Faulting.{FaultsEnd};
ghost use Rattle.pv_tasks.specs.Tasks.{Means, FaultCounts};
ghost use Rattle.pv_tool.specs.Asked.{task_of, is_on_host, reads_files};

use host_cpl3::Host;
use pv_build::Status;
use pv_io::{Files, Sink};
use pv_prove::{prove, replay};
use pv_save::{go_on, save, save_from};
use pv_share::share;
use pv_tasks::{burn, check, link, run, work};
use pv_words::{CommandWords, RunMode};
use std::alloc::Global;

/// Does the work of a command.
pub fn do_command<F: Files, S: Sink, H: Host>(
    alloc: Global,
    command: CommandWords<'_>,
    files: &mut F,
    out: &mut S,
    host: &mut H,
) -> Status
    requires within { IsWithin command }
    requires room { H.retired host.old ≤ 2 ^ 63 }
    ensures meaning { Means (task_of (command_view command.entry))
        (outside F.Files S.Sink H.Host (files.old, files.new) (out.old, out.new) (host.old, host.new)) result }
    ensures counts { FaultCounts (task_of (command_view command.entry))
        (outside F.Files S.Sink H.Host (files.old, files.new) (out.old, out.new) (host.old, host.new)) }
    ensures leaves { result ≡ Status.Done → (task_of (command_view command.entry)).leaves (F.held files.old) (F.held files.new) }
    ensures host { is_on_host (Some (command_view command.entry)) ≡ false → host.new ≡ host.old }
    ensures files { reads_files (Some (command_view command.entry)) ≡ false → (files.new ≡ files.old) × (result ≢ Status.ReadFault) }
    ensures ends { FaultsEnd F.Files S.Sink (files.old, files.new) (out.old, out.new) result }
{
    match command {
        CommandWords::Burn { source, object } => burn(alloc, source, object, files, out),
        CommandWords::Link { image, objects } => link(alloc, image, objects, files, out),
        CommandWords::Check(image) => check(alloc, image, files, out),
        CommandWords::RunBare(words) => run(alloc, RunMode::Bare, words, files, out, host),
        CommandWords::RunWedge(words) => run(alloc, RunMode::Wedge, words, files, out, host),
        CommandWords::Work(number) => work(alloc, number, out, host),
        CommandWords::Share(words) => share(alloc, words, files, out, host),
        CommandWords::Save { mode, run, file } => save(alloc, mode, run, file, files, out, host),
        CommandWords::SaveFrom { mode, rest, new } => {
            save_from(alloc, mode, rest, new, files, out, host)
        }
        CommandWords::Continue { mode, rest } => go_on(alloc, mode, rest, files, out, host),
        CommandWords::Prove { run, certificate } => {
            prove(alloc, run, certificate, files, out, host)
        }
        CommandWords::Replay {
            run,
            certificate,
            text,
        } => replay(alloc, run, certificate, text, files, out),
    }
}
