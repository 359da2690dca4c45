//! How a slice of a run pauses.

ghost use Rattle.std.specs.Prelude.{◌≡◌};
ghost use Rattle.run_trace.specs.Pauses.{end_of};

use crate::items::End;
use ia32_types::Stop;

/// Where a slice of a run ended: after all its steps, or before a step that stops.
#[derive(Clone, Copy)]
pub enum Pause {
    Reached,
    Stopped(Stop),
}

/// The end of a run whose last slice paused so.
pub fn end_of(pause: Pause) -> End
    ensures { result ≡ end_of pause }
{
    match pause {
        Pause::Reached => End::Bound,
        Pause::Stopped(stop) => End::Stopped(stop),
    }
}
