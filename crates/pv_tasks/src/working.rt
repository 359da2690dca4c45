//! The command `work`.

ghost use Rattle.std.specs.Prelude.{◌≡◌, ◌≤◌, ◌<◌, ◌^◌, ℕ, [], IfOk, IfErr};
ghost use Rattle.image_load.specs.Boot.{need};
ghost use Rattle.image_load.specs.declared.boot.TooSmall.{TooSmall};
ghost use Rattle.wedge_core.specs.Counts.{counts_of};
ghost use Rattle.wedge_core.specs.Promises.{Promise, HasOwnFills};
ghost use Rattle.wedge_core.specs.Surroundings.{around};
ghost use Rattle.run_trace.specs.declared.items.End.{End};
ghost use Rattle.pv_build.specs.Lines.{too_small_line};
ghost use Rattle.pv_build.specs.Telling.{RefusesAs};
ghost use Rattle.pv_tasks.specs.Working.{first_text, second_setting};
ghost use Rattle.pv_tasks.specs.Worked.{HasTexts, IsTooLarge, WorkedAs};

use crate::keeping::TextSink;
use crate::patched::patched_run;
use bare_machine::run_fresh;
use board::Script;
use host_cpl3::Host;
use image_check::Checked;
use image_load::RunFault;
use pv_build::{Halt, Status, Texts, built, end, refused, tell_both, too_small_line};
use pv_io::Sink;
use std::alloc::Global;

/// How many frames of memory each run has.
const FRAMES: u32 = 4096;

/// How many steps each run does at most.
const STEPS: u64 = 100_000;

/// Builds the kernel of a number, runs it on the bare machine and patched on a host, and says whether both print the same.
pub fn work<S: Sink, H: Host>(alloc: Global, number: u32, out: &mut S, host: &mut H) -> Status
    requires room { H.retired host.old ≤ 2 ^ 63 }
    ensures { WorkedAs number (around H.Host S.Sink host.old host.new out.old out.new) (H.bytes host.new) result }
{
    match built(alloc, number) {
        Err(halt) => end(&halt, out),
        Ok(image) => match both(alloc, &image, host) {
            Err(halt) => end(&halt, out),
            Ok(texts) => tell_both(alloc, number, &image, &texts, out),
        },
    }
}

// Runs an image on the bare machine with nothing cached, and then patched on a host, each under an empty script.
fn both<H: Host>(alloc: Global, image: &Checked, host: &mut H) -> Result<Texts, Halt>
    requires room { H.retired host.old ≤ 2 ^ 63 }
    ensures texts { IfOk result (λ t. HasTexts image.now t.first.items t.second.items t.fills (counts_of H.Host host.old)
        (counts_of H.Host host.new) (H.bytes host.new)) }
    ensures refused { IfErr result (RefusesAs (IsTooLarge image.now (counts_of H.Host host.old) (counts_of H.Host host.new))) }
{
    let events = Script {
        list: Vec::new(alloc),
    };
    let first = fresh(alloc, image, &events)?;
    let (second, fills) = patched(alloc, image, &events, host)?;
    Ok(Texts {
        first,
        second,
        fills,
    })
}

// What the bare machine prints.
fn fresh(alloc: Global, image: &Checked, events: &Script) -> Result<Vec<u8>, Halt>
    requires { events.now.list ≡ [] }
    ensures text { IfOk result (λ text. text.items ≡ first_text image.now) }
    ensures fits { IfOk result (λ text. need image.now ≤ 4096) }
    ensures refused { IfErr result (RefusesAs (λ line. (4096 < need image.now) × (line ≡ too_small_line (need image.now) 4096))) }
{
    let mut kept = TextSink::new(alloc);
    match run_fresh(alloc, image, events, FRAMES, STEPS, &mut kept) {
        Ok(_) => Ok(kept.into_text()),
        Err(fault) => Err(halt_of(alloc, fault)),
    }
}

// What the patched image prints on a host, and its fills.
fn patched<H: Host>(
    alloc: Global,
    image: &Checked,
    events: &Script,
    host: &mut H,
) -> Result<(Vec<u8>, u64), Halt>
    requires events { events.now.list ≡ [] }
    requires room { H.retired host.old ≤ 2 ^ 63 }
    ensures text { IfOk result (λ ran. (count : ℕ) × (end : End)
        × (run : Promise (second_setting image.now) 100000 512 ran.0.items count end (counts_of H.Host host.old)
        (counts_of H.Host host.new) (H.bytes host.new))
        × HasOwnFills (second_setting image.now) 100000 512 run.sets run.last end run.run.ends ran.1) }
    ensures refused { IfErr result (RefusesAs (IsTooLarge image.now (counts_of H.Host host.old) (counts_of H.Host host.new))) }
{
    let mut kept = TextSink::new(alloc);
    match patched_run(alloc, image, events, FRAMES, STEPS, host, &mut kept) {
        Ok(ended) => Ok((kept.into_text(), ended.fills)),
        Err(fault) => Err(halt_of(alloc, fault)),
    }
}

// Why a run into a sink that keeps its text has no end: such a sink fails only for want of memory.
fn halt_of(alloc: Global, fault: RunFault) -> Halt
    ensures { RefusesAs (λ line. (small : TooSmall) × (fault ≡ RunFault.TooSmall small)
        × (line ≡ too_small_line small.need small.have)) result }
{
    match fault {
        RunFault::TooSmall(small) => refused(too_small_line(alloc, small)),
        RunFault::Write => Halt::Memory,
        RunFault::Memory => Halt::Memory,
    }
}
