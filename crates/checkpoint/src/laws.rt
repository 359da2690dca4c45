//! Laws of the first bad field, and of runs in legs.

ghost use Rattle.checkpoint.specs.Least.{FirstBadIsLeast};
ghost use Rattle.checkpoint.specs.Legs.{LegsAreSteps, LegsAreARun, LegsAreParts, TracesJoin};

use machine_model::{runs_agree, steps_join};

/// The first bad field is the least place of a demand that is tested and isn't met.
#[tactic(auto, using(crate::proofs::Leasts::first_bad_least))]
pub fn first_bad_is_least()
    ensures { FirstBadIsLeast }
{}

/// Legs, each of which goes on from a checkpoint of the one before, are one run of the bare machine: the empty set of
/// translations with which a leg begins may always be chosen. Each leg is a part of that run by its own rules, and the last ends it.
pub fn legs_are_a_run()
    ensures steps { LegsAreSteps }
    ensures run { LegsAreARun }
    ensures parts { LegsAreParts }
    ensures traces { TracesJoin }
{
    steps_join();
    runs_agree();
}
