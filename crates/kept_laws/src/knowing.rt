//! What a run knows between two of its steps.

ghost use Rattle.kept_laws.specs.Known.{KnownAtStart, KnownStill, KnownQuiet, KnownOn};

use crate::carrying::next_is_kept;
use crate::judging::found_goes_on;

/// At the start of a run nothing is kept and nothing is owed, and what is known stays so while the same is kept. A step that
/// the run has no part in goes on with it, and one that the run settles and ends.
pub fn known_goes_on()
    ensures start { KnownAtStart }
    ensures still { KnownStill }
    ensures quiet { KnownQuiet }
    ensures on { KnownOn }
{
    found_goes_on();
    next_is_kept();
}
