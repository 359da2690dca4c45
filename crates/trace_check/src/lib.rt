//! Certificates: the translations that a run used, as a list of changes of its set, in a file and in a run of the bare
//! machine.
#![tactic(auto)]

mod answer;
mod course;
mod kept_notes;
mod laws;
mod list;
mod matching;
mod proving;
mod reading;
mod replaying;
mod told;
mod whole_set;
mod writing;

pub use answer::{ReplayFault, Verdict};
pub use kept_notes::KeptNotes;
pub use laws::{judgements_are_runs, notes_are_judged};
pub use list::{Choice, ChoiceKind, Choices, ChoicesFault};
pub use proving::run_noted;
pub use reading::read_choices;
pub use replaying::replay;
pub use whole_set::WholeSet;
pub use writing::write_choices;
