//! Laws of runs in parts, and of runs that begin each step with nothing cached.

ghost use Rattle.bare_machine.specs.FreshLaws.{EachCourseIsARun};
ghost use Rattle.bare_machine.specs.KeptLaws.{EachKeptCourseIsARun, EachBufferedRunIsARun, KeptSets};
ghost use Rattle.bare_machine.specs.Parts.{BeginsHere, SliceGoesOn, ChangeGoesOn, LossGoesOn, PartsAreARun};

/// Slices, between which a cache was changed, are one run, where what was left in it is loosened from what the last step
/// left, or from what the cache held.
pub fn parts_join()
    ensures begins { BeginsHere }
    ensures slices { SliceGoesOn }
    ensures changes { ChangeGoesOn }
    ensures losses { LossGoesOn }
    ensures run { PartsAreARun }
{}

/// The course of a run with nothing cached is a run, the set before each step of which is empty.
pub fn each_course_is_a_run()
    ensures { EachCourseIsARun }
{}

/// The course of a run of which a cache keeps what each step has left is a run; so is the run with a TLB that is empty at
/// the start.
pub fn each_kept_course_is_a_run()
    ensures courses { EachKeptCourseIsARun }
    ensures buffered { EachBufferedRunIsARun }
{}

/// After one step by itself that went the cache holds what it keeps of what the step left, and nothing else.
pub fn kept_sets()
    ensures { KeptSets }
{}
