//! Reading one line of a schedule.

ghost use Rattle.std.specs.Prelude.{◌≡◌, ◌≤◌, ◌^◌, IfOk, IfSome};
ghost use Rattle.std.specs.List.{list_all};
ghost use Rattle.std.specs.Char.{is_ascii_digit};
ghost use Rattle.text_lines.specs.Cuts.{cut_at};
ghost use Rattle.guest_sched.specs.Schedules.{IsSlice};
ghost use Rattle.guest_sched.specs.Texts.{is_digits, slice_with, slice_of, slice_in, slice_of_line};

use crate::fault::ScheduleCause;
use crate::schedule::Slice;
use text_lines::{first_cut, is_skipped, number};

const MAX_STEPS: u64 = 1 << 40;

fn are_digits(word: &[u8]) -> bool
    ensures { result ≡ list_all is_ascii_digit word.now }
{
    word.iter().all(|b| b.is_ascii_digit())
}

fn is_digits(word: &[u8]) -> bool
    ensures { result ≡ is_digits word.now }
{
    match word {
        [] => false,
        digits => are_digits(digits),
    }
}

fn slice_with(kernels: u8, kernel: Option<u64>, steps: Option<u64>) -> Result<Slice, ScheduleCause>
    requires kernel { IfSome kernel (λ n. n ≤ 255) }
    requires steps { IfSome steps (λ n. (1 ≤ n) × (n ≤ 2 ^ 40)) }
    ensures slice { result ≡ slice_with kernels kernel steps }
    ensures form { IfOk result (IsSlice kernels) }
{
    match (kernel, steps) {
        (Some(kernel), Some(steps)) => {
            if kernel < kernels as u64 {
                Ok(Slice {
                    kernel: kernel as u8,
                    steps,
                })
            } else {
                Err(ScheduleCause::BadNumber)
            }
        }
        _ => Err(ScheduleCause::BadNumber),
    }
}

/// The two words of a line.
#[tactic(auto, unfolding(crate::specs::Texts::slice_of))]
fn read_words(kernels: u8, kernel: &[u8], steps: &[u8]) -> Result<Slice, ScheduleCause>
    ensures slice { result ≡ slice_of kernels kernel.now steps.now }
    ensures form { IfOk result (IsSlice kernels) }
{
    if !is_digits(kernel) || !is_digits(steps) {
        return Err(ScheduleCause::NoForm);
    }
    slice_with(kernels, number(kernel, 0, 255), number(steps, 1, MAX_STEPS))
}

/// The slice of a line.
#[tactic(auto, unfolding(crate::specs::Texts::slice_in))]
fn read_slice(kernels: u8, line: &[u8]) -> Result<Slice, ScheduleCause>
    ensures slice { result ≡ slice_in kernels (cut_at 32 line.now) }
    ensures form { IfOk result (IsSlice kernels) }
{
    let Some(first) = first_cut(line, b' ') else {
        return Err(ScheduleCause::NoForm);
    };
    let steps = &line[first + 1..];
    if let Some(_) = first_cut(steps, b' ') {
        return Err(ScheduleCause::NoForm);
    }
    read_words(kernels, &line[..first], steps)
}

/// What a line says.
#[tactic(auto, unfolding(crate::specs::Texts::slice_of_line))]
pub fn read_line(kernels: u8, line: &[u8]) -> Result<Option<Slice>, ScheduleCause>
    ensures slice { result ≡ slice_of_line kernels line.now }
    ensures form { IfOk result (λ o. IfSome o (IsSlice kernels)) }
{
    if is_skipped(line) {
        return Ok(None);
    }
    match read_slice(kernels, line) {
        Ok(slice) => Ok(Some(slice)),
        Err(cause) => Err(cause),
    }
}
