//! Laws of the definitions.

ghost use Rattle.machine_model.specs.Ends.{EachStepCounts, EachRunHasAnEnd, EachRunBeginsFit};

/// A step that goes raises the count of steps by one.
#[tactic(auto, using(crate::proofs::Counting::each_counts))]
pub fn each_step_counts()
    ensures { EachStepCounts }
{}

/// From every state there is a run up to any later count of steps, or up to a stop before.
#[tactic(auto, using(crate::proofs::Ending::each_ends))]
pub fn each_run_has_an_end()
    ensures { EachRunHasAnEnd }
{}

/// The processor at the start is fit.
pub fn each_run_begins_fit()
    ensures { EachRunBeginsFit }
{}
