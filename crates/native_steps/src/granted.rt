//! A law of what a step's translations leave for the host.

ghost use Rattle.native_steps.specs.Granted.{Grants};

use crate::effects::effects;

/// What the translations of a step that doesn't clash leave is enough for the host: every page that the instruction uses
/// is granted, and the rest of the step is the pure effect over them, whatever its outcome is.
pub fn grants()
    ensures { Grants }
{
    effects();
}
