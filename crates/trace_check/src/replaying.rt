//! Whether the run that follows some choices has a text.

ghost use Rattle.std.specs.Prelude.{◌≡◌, ◌≤◌, ◌^◌, true};
ghost use Rattle.board.specs.ScriptForm.{is_script};
ghost use Rattle.image_check.specs.Image.{Image};
ghost use Rattle.bare_machine.specs.Machine.{state_of, IsKept};
ghost use Rattle.bare_machine.specs.Settings.{bare};
ghost use Rattle.trace_check.specs.Form.{AreChoices};
ghost use Rattle.trace_check.specs.Courses.{course};
ghost use Rattle.trace_check.specs.Judged.{unless_differs};
ghost use Rattle.trace_check.specs.Replayed.{Replays};
ghost use Rattle.trace_check.specs.Begins.{BeginsAs, EndsAlone, DiffersUnlessBad, ComparesAs, JudgesAs, end_verdict, whole_entries};

use crate::answer::{CourseEnd, ReplayFault, Verdict};
use crate::course::follow;
use crate::list::{Choice, Choices};
use crate::matching::{Matching, line_behind};
use crate::told::read_told;
use crate::whole_set::WholeSet;
use bare_machine::Bare;
use board::Script;
use ia32_types::Stop;
use image_check::Checked;
use image_load::StartFault;
use pv_io::SureSink;
use run_trace::{End, Ended, put_end};
use std::alloc::Global;

/// The machine of a replay, where every run begins.
fn begun(alloc: Global, image: &Checked, frames: u32) -> Result<Bare<WholeSet>, ReplayFault>
    requires { (2048 ≤ frames) × (frames ≤ 16384) }
    ensures { BeginsAs image.now frames result }
{
    match WholeSet::new(alloc) {
        Err(_) => Err(ReplayFault::Memory),
        Ok(set) => match Bare::start(alloc, image, frames, set) {
            Ok(machine) => Ok(machine),
            Err(StartFault::TooSmall(small)) => Err(ReplayFault::TooSmall(small)),
            Err(StartFault::Memory) => Err(ReplayFault::Memory),
        },
    }
}

/// How the course of the choices ends, with its text left aside.
fn end_alone(
    alloc: Global,
    image: &Checked,
    script: &Script,
    frames: u32,
    bound: u64,
    list: &[Choice],
) -> Result<CourseEnd, ReplayFault>
    requires frames { (2048 ≤ frames) × (frames ≤ 16384) }
    requires script { is_script script.now.list ≡ true }
    requires bound { bound ≤ 2 ^ 40 }
    requires form { AreChoices list.now }
    ensures { EndsAlone image.now script.now.list frames bound list.now result }
{
    let mut machine = begun(alloc, image, frames)?;
    let mut out = SureSink::new();
    match follow(&mut machine, script, bound, list, &mut out) {
        Ok(end) => Ok(end),
        Err(_) => unreachable!(),
    }
}

/// The verdict on a text that differs at a line: a choice that can't be made, after it, comes first.
fn differs_unless_bad(
    alloc: Global,
    image: &Checked,
    script: &Script,
    frames: u32,
    bound: u64,
    list: &[Choice],
    line: u64,
) -> Result<Verdict, ReplayFault>
    requires frames { (2048 ≤ frames) × (frames ≤ 16384) }
    requires script { is_script script.now.list ≡ true }
    requires bound { bound ≤ 2 ^ 40 }
    requires form { AreChoices list.now }
    ensures { DiffersUnlessBad image.now script.now.list frames bound list.now line result }
{
    match end_alone(alloc, image, script, frames, bound, list)? {
        CourseEnd::BadAt(bad) => Ok(Verdict::BadEntry(bad)),
        CourseEnd::Ended(_) => Ok(Verdict::Differs(line)),
    }
}

/// The verdict by what was compared.
fn unless_differs(difference: Option<u64>, verdict: Verdict) -> Verdict
    ensures { result ≡ unless_differs difference verdict }
{
    match difference {
        Some(line) => Verdict::Differs(line),
        None => verdict,
    }
}

/// The verdict on a text whose lines before its last one are right.
fn end_verdict(end: End, stop: Stop, line: u64) -> Verdict
    ensures { result ≡ end_verdict end stop line }
{
    match end {
        End::Bound => Verdict::YesBefore(stop),
        End::Stopped(_) => Verdict::Differs(line),
    }
}

/// What the course of the choices says of a text, or the line at which the text differs before the course's end. With a stop
/// the text is what stands before a last line that reports this stop of a monitor's own.
fn compare(
    machine: &mut Bare<WholeSet>,
    script: &Script,
    bound: u64,
    list: &[Choice],
    text: &[u8],
    told: Option<Stop>,
) -> Result<Verdict, u64>
    requires script { is_script script.now.list ≡ true }
    requires kept { IsKept machine.old.frames (state_of whole_entries machine.old) }
    requires begin { machine.old.step ≡ 0 }
    requires bound { bound ≤ 2 ^ 40 }
    requires form { AreChoices list.now }
    ensures { (image : Image) → ComparesAs text.now told
        (course (bare image script.now.list machine.old.frames) list.now bound (state_of whole_entries machine.old)) result }
{
    let mut out = Matching::new(text);
    match follow(machine, script, bound, list, &mut out) {
        Ok(course) => match course {
            CourseEnd::BadAt(at) => Ok(Verdict::BadEntry(at)),
            CourseEnd::Ended(end) => match told {
                None => {
                    let ended = Ended {
                        steps: machine.step(),
                        end,
                        fills: 0,
                    };
                    let _ = put_end(&ended, &mut out);
                    Ok(unless_differs(out.difference(), Verdict::Yes))
                }
                Some(stop) => {
                    let verdict = end_verdict(end, stop, line_behind(text));
                    Ok(unless_differs(out.difference(), verdict))
                }
            },
        },
        Err(_) => match out.difference() {
            Some(line) => Err(line),
            None => unreachable!(),
        },
    }
}

/// The judgement of a text. With a stop the text is what stands before a last line that reports this stop of a monitor's
/// own.
fn judge(
    alloc: Global,
    image: &Checked,
    script: &Script,
    frames: u32,
    bound: u64,
    list: &[Choice],
    text: &[u8],
    told: Option<Stop>,
) -> Result<Verdict, ReplayFault>
    requires frames { (2048 ≤ frames) × (frames ≤ 16384) }
    requires script { is_script script.now.list ≡ true }
    requires bound { bound ≤ 2 ^ 40 }
    requires form { AreChoices list.now }
    ensures { JudgesAs image.now script.now.list frames bound list.now text.now told result }
{
    let mut machine = begun(alloc, image, frames)?;
    match compare(&mut machine, script, bound, list, text, told) {
        Ok(verdict) => Ok(verdict),
        Err(line) => differs_unless_bad(alloc, image, script, frames, bound, list, line),
    }
}

/// Runs the image on the bare machine for at most n steps under the choices, and says whether the run has the text: the
/// judgement, exactly.
pub fn replay(
    alloc: Global,
    image: &Checked,
    script: &Script,
    frames: u32,
    n: u64,
    choices: &Choices,
    text: &[u8],
) -> Result<Verdict, ReplayFault>
    requires frames { (2048 ≤ frames) × (frames ≤ 16384) }
    requires script { is_script script.now.list ≡ true }
    requires bound { n ≤ 2 ^ 40 }
    requires form { AreChoices choices.now.list }
    ensures judged { Replays image.now script.now.list frames n choices.now.list text.now result }
{
    let list = &choices.list;
    match read_told(text, n) {
        None => judge(alloc, image, script, frames, n, list, text, None),
        Some(told) => {
            let front = &text[..told.at];
            judge(
                alloc,
                image,
                script,
                frames,
                told.steps,
                list,
                front,
                Some(told.stop),
            )
        }
    }
}
