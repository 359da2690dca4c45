//! What a patched run carries from step to step.

ghost use Rattle.wedge_step.specs.CarryLaws.{CarryLaws, KnownLaws};

use kept_laws::{known_goes_on, roomy_is_few, settling_tells, taken_on};
use machine_model::kept_on;

/// What a run knows goes on over a step that it settles and ends, and while it is roomy its shadows hold few frames.
pub fn known_laws()
    ensures { KnownLaws }
{
    settling_tells();
    known_goes_on();
    roomy_is_few();
}

/// What a run knows goes on over a step that it settles and ends, and over steps in which the run has no part; the rule for
/// kept translations holds of one step more.
pub fn carry_laws()
    ensures { CarryLaws }
{
    known_laws();
    known_goes_on();
    taken_on();
    kept_on();
}
