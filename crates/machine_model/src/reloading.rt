//! Laws of what steps leave of the words that walks read: for translations that are used again when the value of CR3 that
//! they were found by comes back.

ghost use Rattle.machine_model.specs.Reloading.{FoundStays, FollowsItself, FollowsOn, FoundOver, AllFoundOver, UsesFollow, FetchesFollow};
ghost use Rattle.machine_model.specs.Following.{FetchedFollows, RangesFollow, InstructedFollows, DeliveredFollows, StepsFollow, StepsKeepMemory, OthersStay, WordsStayFound, SetsAreFound, FoundAreCacheable};

/// Memory within a step follows itself, and memory that follows goes on following.
pub fn following_goes_on()
    ensures itself { FollowsItself }
    ensures on { FollowsOn }
{}

/// Over memory that follows, what walks find by words in frames that aren't written they find still, and so each
/// translation of the set.
pub fn found_follows()
    ensures one { FoundOver }
    ensures all { AllFoundOver }
{}

/// Each translation of a range, ready or not, and each fetch, leaves memory that follows.
pub fn accesses_follow()
    ensures uses { UsesFollow }
    ensures fetches { FetchesFollow }
{}

/// So does each part of a step, done or refused.
pub fn works_follow()
    ensures fetched { FetchedFollows }
    ensures ranges { RangesFollow }
    ensures instructed { InstructedFollows }
    ensures delivered { DeliveredFollows }
{}

/// And each step that goes, up to what its instruction drops at its end.
pub fn steps_follow()
    ensures { StepsFollow }
{}

/// A step changes memory in the frames that it reports as written and, outside them, by flags that come on in words of the
/// frames that it reports as tables.
pub fn memory_follows()
    ensures words { StepsKeepMemory }
    ensures others { OthersStay }
{}

/// What a walk finds by words in frames that a step doesn't write is found after it.
pub fn words_stay_found()
    ensures { WordsStayFound }
{}

/// The translations that a step leaves were there before, or a walk finds them.
pub fn sets_are_found()
    ensures { SetsAreFound }
{}

/// What a walk finds it finds still where its words have at most flags more. From the directory in use it is what may be
/// added to the translations before a step.
pub fn found_stays()
    ensures stays { FoundStays }
    ensures cacheable { FoundAreCacheable }
{}
