//! Laws of the definitions: steps in which a halted processor has nothing to do.

ghost use Rattle.machine_model.specs.Resting.{HaltedSteps};

use board::{edges_are_one, steps_are_quiet};

/// Where a halted processor takes no interrupt, the board alone goes on in each step: up to the next edge or event, or up to the
/// next event where an edge of the timer wouldn't wake it either.
pub fn halted_steps_rest()
    ensures { HaltedSteps }
{
    steps_are_quiet();
    edges_are_one();
}
