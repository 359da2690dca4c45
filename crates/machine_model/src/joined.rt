//! Laws of steps that stand one after the other.

ghost use Rattle.machine_model.specs.Joined.{StepsJoin, TakenJoin, CountsJoin, DigestsJoin, StepsAreTaken, KeptOn, KeptBefore};

/// Steps of a run, and others after them, are steps of a run: those that are taken stand one
/// after the other, what is counted of them is a sum, and the digest goes on.
pub fn steps_join()
    ensures steps { StepsJoin }
    ensures taken { TakenJoin }
    ensures counts { CountsJoin }
    ensures digests { DigestsJoin }
{}

/// The steps that a run takes have its sets and reports.
pub fn steps_are_taken()
    ensures { StepsAreTaken }
{}

/// Where the rule for the translations that a run keeps holds of some steps, and of the next, it holds with the next. Where
/// it holds of some steps it holds of the first of them.
pub fn kept_on()
    ensures on { KeptOn }
    ensures before { KeptBefore }
{}
