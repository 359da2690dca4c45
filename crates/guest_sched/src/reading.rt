//! Reading a schedule from its text.

ghost use Rattle.std.specs.Prelude.{◌≡◌, ◌+◌, ◌<◌, ◌≤◌, length, IfOk};
ghost use Rattle.std.specs.Option.{IfNone};
ghost use Rattle.text_lines.specs.Cuts.{cut_at};
ghost use Rattle.guest_sched.specs.Bounds.{max_steps, max_slices, bound_of};
ghost use Rattle.guest_sched.specs.Schedules.{IsSchedule};
ghost use Rattle.guest_sched.specs.Texts.{objection, schedule_rule, schedule_of};
ghost use Rattle.guest_sched.specs.Lines.{AnswerSays};
ghost use Rattle.guest_sched.specs.Reads.{ReadAs};

use crate::fault::{ScheduleCause, ScheduleFault};
use crate::read::read_line;
use crate::schedule::{Schedule, Slice};
use std::alloc::Global;
use text_lines::{LineFault, LineReader, read_lines};

const MAX_SLICES: usize = 1024;

const MAX_STEPS: u64 = 1 << 40;

/// How the lines of a schedule are read, for so many kernels.
#[derive(Drop)]
struct ScheduleLines {
    kernels: u8,
}

impl LineReader for ScheduleLines {
    type Item = Slice;

    type Cause = ScheduleCause;

    ghost rule = { λ lines. schedule_rule lines.kernels };

    ghost fits = { λ lines slices. IsSchedule lines.kernels slices };

    fn read(&self, before: &[Slice], line: &[u8]) -> Result<Option<Slice>, ScheduleCause> {
        match read_line(self.kernels, line) {
            Err(cause) => Err(cause),
            Ok(None) => Ok(None),
            Ok(Some(slice)) => match objection(before, slice) {
                Some(cause) => Err(cause),
                None => Ok(Some(slice)),
            },
        }
    }
}

/// The steps of a kernel in its slices.
fn steps_in(slices: &[Slice], kernel: u8) -> u64
    requires { bound_of kernel slices.now ≤ max_steps }
    ensures { result ≡ bound_of kernel slices.now }
{
    let mut steps = 0;
    for slice in slices {
        if slice.kernel == kernel {
            steps += slice.steps;
        }
    }
    steps
}

/// Why a slice isn't taken after these.
fn objection(before: &[Slice], slice: Slice) -> Option<ScheduleCause>
    requires before { bound_of slice.kernel before.now ≤ max_steps }
    requires slice { slice.steps ≤ max_steps }
    ensures cause { result ≡ objection before.now slice }
    ensures sum { IfNone result (bound_of slice.kernel before.now + slice.steps ≤ max_steps) }
    ensures room { IfNone result (length before.now < max_slices) }
{
    if steps_in(before, slice.kernel) + slice.steps > MAX_STEPS {
        Some(ScheduleCause::BadNumber)
    } else if before.len() >= MAX_SLICES {
        Some(ScheduleCause::TooMany)
    } else {
        None
    }
}

/// Reads a schedule for so many kernels from its text: lines `J STEPS` with a single space, empty lines, and lines that
/// begin with `#`. The first bad line decides.
pub fn read_schedule(alloc: Global, text: &[u8], kernels: u8) -> Result<Schedule, ScheduleFault>
    ensures read { ReadAs result (schedule_of kernels text.now) }
    ensures lines { AnswerSays kernels (cut_at 10 text.now) result }
    ensures form { IfOk result (λ schedule. IsSchedule kernels schedule.list) }
{
    match read_lines(alloc, &ScheduleLines { kernels }, text) {
        Ok(list) => Ok(Schedule { list }),
        Err(LineFault::At { line, cause }) => Err(ScheduleFault::At { line, cause }),
        Err(LineFault::Memory) => Err(ScheduleFault::Memory),
    }
}
