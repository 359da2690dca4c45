//! Reading a script from its text.

ghost use Rattle.std.specs.Prelude.{◌≡◌, ◌<◌, ◌≤◌, true, length, IfOk};
ghost use Rattle.text_lines.specs.Cuts.{cut_at};
ghost use Rattle.std.specs.Option.{IfNone};
ghost use Rattle.board.specs.Scripts.{max_events};
ghost use Rattle.board.specs.ScriptForm.{is_script};
ghost use Rattle.board.specs.Texts.{script_rule, script_of, last_step, objection};
ghost use Rattle.board.specs.Lines.{AnswerSays};
ghost use Rattle.board.specs.Reads.{ReadAs};

use crate::fault::{ScriptCause, ScriptFault};
use crate::read::read_line;
use crate::script::{Event, Script};
use std::alloc::Global;
use text_lines::{LineFault, LineReader, read_lines};

const MAX_EVENTS: usize = 65536;

/// How the lines of a script are read.
struct ScriptLines;

impl LineReader for ScriptLines {
    type Item = (u64, Event);

    type Cause = ScriptCause;

    ghost rule = { λ _. script_rule };

    ghost fits = { λ _ events. is_script events ≡ true };

    fn read(
        &self,
        before: &[(u64, Event)],
        line: &[u8],
    ) -> Result<Option<(u64, Event)>, ScriptCause> {
        match read_line(line) {
            Err(cause) => Err(cause),
            Ok(None) => Ok(None),
            Ok(Some(event)) => match objection(before, event) {
                Some(cause) => Err(cause),
                None => Ok(Some(event)),
            },
        }
    }
}

/// The step of the last event, or 0.
fn last_step(events: &[(u64, Event)]) -> u64
    ensures { result ≡ last_step events.now }
{
    match events {
        [] => 0,
        [.., (step, _)] => *step,
    }
}

/// Why an event isn't taken after these.
fn objection(before: &[(u64, Event)], event: (u64, Event)) -> Option<ScriptCause>
    ensures cause { result ≡ objection before.now event }
    ensures order { IfNone result (last_step before.now ≤ event.0) }
    ensures room { IfNone result (length before.now < max_events) }
{
    if event.0 < last_step(before) {
        Some(ScriptCause::StepFalls)
    } else if before.len() >= MAX_EVENTS {
        Some(ScriptCause::TooMany)
    } else {
        None
    }
}

/// Reads a script from its text: lines `STEP rx HH` and `STEP line N` with single spaces, empty lines, and lines
/// that begin with `#`. The first bad line decides, and on it a byte that is no printable ASCII before all else.
pub fn read_script(alloc: Global, text: &[u8]) -> Result<Script, ScriptFault>
    ensures read { ReadAs result (script_of text.now) }
    ensures lines { AnswerSays (cut_at 10 text.now) result }
    ensures form { IfOk result (λ script. is_script script.list ≡ true) }
{
    match read_lines(alloc, &ScriptLines, text) {
        Ok(list) => Ok(Script { list }),
        Err(LineFault::At { line, cause }) => Err(ScriptFault::At { line, cause }),
        Err(LineFault::Memory) => Err(ScriptFault::Memory),
    }
}
