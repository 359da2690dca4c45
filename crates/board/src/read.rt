//! Reading one line of a script.

ghost use Rattle.std.specs.Prelude.{◌≡◌, ◌≤◌, true, IfOk, IfSome, nat_le};
ghost use Rattle.std.specs.Option.{option_map};
ghost use Rattle.std.specs.List.{list_all};
ghost use Rattle.text_lines.specs.Cuts.{cut_at};
ghost use Rattle.text_lines.specs.Numbers.{number_upto};
ghost use Rattle.board.specs.declared.script.Event.TheVariants.{Line};
ghost use Rattle.board.specs.Scripts.{max_step};
ghost use Rattle.board.specs.ScriptForm.{event_fits};
ghost use Rattle.board.specs.Texts.{free_line_of, event_of, event_in, is_printable, event_of_line};

use crate::fault::ScriptCause;
use crate::script::Event;
use text_lines::{first_cut, hex_byte, is_skipped, number_upto};

const MAX_STEP: u64 = 1 << 40;

/// The three words of a line.
#[tactic(auto, unfolding(crate::specs::Texts::event_of))]
fn read_words(step: &[u8], kind: &[u8], value: &[u8]) -> Result<(u64, Event), ScriptCause>
    ensures event { result ≡ event_of step.now kind.now value.now }
    ensures fits { IfOk result (λ e. (e.0 ≤ max_step) × (event_fits e.1 ≡ true)) }
{
    if step.is_empty() || value.is_empty() {
        return Err(ScriptCause::NoForm);
    }
    let event = if kind == b"rx".as_slice() {
        hex_byte(value).map(Event::Rx)
    } else if kind == b"line".as_slice() {
        read_line_number(value)
    } else {
        return Err(ScriptCause::NoForm);
    };
    match (number_upto(step, MAX_STEP), event) {
        (Some(step), Some(event)) => Ok((step, event)),
        _ => Err(ScriptCause::BadNumber),
    }
}

fn read_line_number(value: &[u8]) -> Option<Event>
    ensures event { result ≡ option_map Line (free_line_of (number_upto 15 value.now)) }
    ensures fits { IfSome result (λ e. event_fits e ≡ true) }
{
    match number_upto(value, 15) {
        Some(n) => {
            if n >= 1 && n != 2 && n != 4 {
                Some(Event::Line(n as u8))
            } else {
                None
            }
        }
        None => None,
    }
}

/// The event of a line.
#[tactic(auto, unfolding(crate::specs::Texts::event_in), using(crate::proofs::Words::four_words))]
fn read_event(line: &[u8]) -> Result<(u64, Event), ScriptCause>
    ensures event { result ≡ event_in (cut_at 32 line.now) }
    ensures fits { IfOk result (λ e. (e.0 ≤ max_step) × (event_fits e.1 ≡ true)) }
{
    let Some(first) = first_cut(line, b' ') else {
        return Err(ScriptCause::NoForm);
    };
    let after_step = &line[first + 1..];
    let Some(second) = first_cut(after_step, b' ') else {
        return Err(ScriptCause::NoForm);
    };
    let value = &after_step[second + 1..];
    if let Some(_) = first_cut(value, b' ') {
        return Err(ScriptCause::NoForm);
    }
    read_words(&line[..first], &after_step[..second], value)
}

/// Whether no byte is a control or above 0x7E.
fn is_plain_text(line: &[u8]) -> bool
    ensures { result ≡ list_all is_printable line.now }
{
    line.iter().all(|b| 0x20 <= *b && *b <= 0x7E)
}

/// What a line says.
#[tactic(auto, unfolding(crate::specs::Texts::event_of_line))]
pub fn read_line(line: &[u8]) -> Result<Option<(u64, Event)>, ScriptCause>
    ensures event { result ≡ event_of_line line.now }
    ensures fits { IfOk result (λ o. IfSome o (λ e. (e.0 ≤ max_step) × (event_fits e.1 ≡ true))) }
{
    if !is_plain_text(line) {
        return Err(ScriptCause::NotAscii);
    }
    if is_skipped(line) {
        return Ok(None);
    }
    match read_event(line) {
        Ok(event) => Ok(Some(event)),
        Err(cause) => Err(cause),
    }
}
