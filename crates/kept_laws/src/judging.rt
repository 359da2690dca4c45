//! By which translations steps are judged.

ghost use Rattle.kept_laws.specs.Judged.{TakenOn, HeldStays, HeldBack, FoundAtStart, FoundGoesOn, ClashesAgree, ClashesAreJudged};

use machine_model::{accesses_follow, found_follows, steps_join, words_stay_found};

/// The steps that a run takes, with one more after them.
pub fn taken_on()
    ensures { TakenOn }
{
    steps_join();
}

/// After a step that loads no CR3 a step is judged by what was left, and after a load by what was left with the value.
pub fn held_is()
    ensures stays { HeldStays }
    ensures back { HeldBack }
{}

/// What is owed is found in memory as it is.
pub fn found_goes_on()
    ensures start { FoundAtStart }
    ensures on { FoundGoesOn }
{
    words_stay_found();
}

/// Where translations are missing that are found from the directory in use, a step that clashes by the others clashes by
/// all: so after a load of CR3 a step that clashes by what came back is one that the rule names.
pub fn clashes_agree()
    ensures agree { ClashesAgree }
    ensures judged { ClashesAreJudged }
{
    accesses_follow();
    found_follows();
}
