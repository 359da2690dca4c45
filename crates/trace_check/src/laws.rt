//! What a judgement says of runs of the bare machine.

ghost use Rattle.trace_check.specs.RunLaws.{YesIsARun, YesBeforeIsSteps, NotesAreJudged, NotesAreChoices};

use machine_model::steps_agree;

/// Where a text is judged yes, a run of the bare machine has it: before each step its set of translations is one that the
/// bare machine may use. Where it is judged yes before a stop, steps of the bare machine have its items; the stop isn't
/// judged.
pub fn judgements_are_runs()
    ensures yes { YesIsARun }
    ensures before { YesBeforeIsSteps }
{}

/// A run under a monitor's rules has the text that the choices of its notes say. Where it ended at a stop of the monitor's
/// own, it is right before that stop.
pub fn notes_are_judged()
    ensures judged { NotesAreJudged }
    // They have the form that a replay needs.
    ensures form { NotesAreChoices }
{
    steps_agree();
}
