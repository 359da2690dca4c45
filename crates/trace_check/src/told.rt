//! The last line of a text, and the stop that it reports.

ghost use Rattle.std.specs.Prelude.{◌≡◌, ◌<◌, ◌≤◌, ◌^◌, length, drop, find};
ghost use Rattle.std.specs.Str.{bytes_eq};
ghost use Rattle.run_trace.specs.declared.items.End.TheVariants.{Stopped};
ghost use Rattle.run_trace.specs.Text.{end_line};
ghost use Rattle.trace_check.specs.Lines.{monitor_stops, number_of};
ghost use Rattle.trace_check.specs.Tells.{IsLastLine, IsNumber, TellsAs};

use crate::matching::Matching;
use ia32_types::Stop;
use run_trace::{End, Ended, put_end};

/// The most steps of a run.
const MOST_STEPS: u64 = 1 << 40;

/// The stops that a monitor's rules add to those of the bare machine.
const MONITOR_STOPS: [Stop; 8] = [
    Stop::TextTouched,
    Stop::WedgeTouched,
    Stop::LowTouched,
    Stop::NotAStart,
    Stop::TextMapped,
    Stop::TableInText,
    Stop::UserFlags,
    Stop::CodeIsTable,
];

/// What the last line of a text reports of a run that a monitor ended: after how many steps and at which stop, and where
/// the line begins.
#[derive(Clone, Copy)]
pub struct Told {
    pub steps: u64,
    pub stop: Stop,
    pub at: usize,
}

/// Where the last line of a text begins.
fn last_line(text: &[u8]) -> usize
    requires { 0 < length text.now }
    ensures { IsLastLine text.now result }
{
    let mut start = 0;
    for (i, b) in text.iter().enumerate() {
        if *b == b'\n' && i + 1 < text.len() {
            start = i + 1;
        }
    }
    start
}

/// The line after its first ten bytes.
fn behind_ten(line: &[u8]) -> &[u8]
    ensures { result.now ≡ drop 10 line.now }
{
    if line.len() < 10 {
        return &line[line.len()..];
    }
    &line[10..]
}

/// The number that the digits at the front of a text say, where it is no larger than the most steps of a run.
fn number_told(text: &[u8]) -> Option<u64>
    ensures { IsNumber (number_of text.now) result }
{
    let mut number: u64 = 0;
    for b in text {
        if !b.is_ascii_digit() {
            return Some(number);
        }
        number = 10 * number + (*b - b'0') as u64;
        if number > MOST_STEPS {
            return None;
        }
    }
    Some(number)
}

/// Whether the line is the last one of a run that ended so.
fn is_end_line(line: &[u8], steps: u64, stop: Stop) -> bool
    ensures { result ≡ bytes_eq line.now (end_line steps (Stopped stop)) }
{
    let mut out = Matching::new(line);
    let ended = Ended {
        steps,
        end: End::Stopped(stop),
        fills: 0,
    };
    let _ = put_end(&ended, &mut out);
    out.difference().is_none()
}

/// The stop of a monitor's own with which this is the last line of a run.
fn stop_in(line: &[u8], steps: u64) -> Option<Stop>
    ensures { result ≡ find (λ stop. bytes_eq line.now (end_line steps (Stopped stop))) monitor_stops }
{
    first_stop(line, steps, &MONITOR_STOPS)
}

/// The first of these stops with which this is the last line of a run.
fn first_stop(line: &[u8], steps: u64, stops: &[Stop]) -> Option<Stop>
    ensures { result ≡ find (λ stop. bytes_eq line.now (end_line steps (Stopped stop))) stops.now }
{
    stops
        .iter()
        .copied()
        .find(|stop| is_end_line(line, steps, *stop))
}

/// The stop of a monitor's own that the last line of a text reports, after at most n steps.
pub fn read_told(text: &[u8], n: u64) -> Option<Told>
    requires { n ≤ 2 ^ 40 }
    ensures { TellsAs text.now n result }
{
    if text.is_empty() {
        return None;
    }
    let at = last_line(text);
    let line = &text[at..];
    let steps = match number_told(behind_ten(line)) {
        Some(steps) => steps,
        None => return None,
    };
    if steps > n {
        return None;
    }
    match stop_in(line, steps) {
        Some(stop) => Some(Told { steps, stop, at }),
        None => None,
    }
}
