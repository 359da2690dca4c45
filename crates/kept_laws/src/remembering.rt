//! Over the steps of a run, what is owed for each value of CR3 is kept.

ghost use Rattle.kept_laws.specs.OverSteps.{StartRemembers, StillRemembers, StepsRemember, SameRemembers, SettlingTells, DroppedComesFrom, DroppedRemembers, CausesOweNothing, LoadsRemember, LoadsBringBack};

/// At first nothing is owed.
pub fn start_remembers()
    ensures { StartRemembers }
{}

/// What is remembered stays so while no more is noted or marked, and the same is kept for other values of CR3.
pub fn still_remembers()
    ensures { StillRemembers }
{}

/// A step that doesn't load CR3 keeps what is owed, where it notes, marks and leaves out as shadows do.
pub fn steps_remember()
    ensures settled { StepsRemember }
    ensures same { SameRemembers }
{}

/// What shadows say of themselves where they are settled is what these laws ask. Where the pages that a step used are then
/// dropped, what is kept comes from its set.
pub fn settling_tells()
    ensures told { SettlingTells }
    ensures dropped { DroppedComesFrom }
{}

/// Where nothing is owed, all may be dropped.
pub fn dropped_remembers()
    ensures { DroppedRemembers }
{}

/// After a step that clashes, or that changes CR0 or CR4, nothing is owed.
pub fn causes_owe_nothing()
    ensures { CausesOweNothing }
{}

/// A step that loads CR3 keeps what is owed for the other values, and what is owed for the loaded one is present after it.
/// The next step then uses what the rule for kept translations asks for.
pub fn loads_remember()
    ensures remember { LoadsRemember }
    ensures back { LoadsBringBack }
{}
