//! What each command comes to, by the clauses of `top` alone.

ghost use Rattle.pv_tool.specs.Outcomes.{Follows, FollowsUnread, RefusesWork, BurnsAll, LinksAll, ChecksAll, RunsOnBare, RunsOnHost, WorkDone, WorkRefused, SharesAll, SavesAll, SavesAgain, ContinuesAll, ProvesAll, JudgesAll};

use machine_model::runs_agree;

/// By the clause `complete` of `top`, over files that tell what they hold: work that is refused prints the line of its first
/// refusal, and changes no file. A source that is burnt is stored as its object, objects that are linked as their image, whatever
/// else the files hold. An accepted image is reported as one. Its run is printed, in memory that is large enough and under a
/// script that is read; that of the patched image has the headline. Several kernels run in the turns of their schedule. An
/// image's state is saved after n steps, or its run ends at a stop; so is a run that goes on from a checkpoint that fits, and
/// `continue` goes on to its end. `prove` stores the proof of what it prints, and `replay` prints what is judged.
pub fn outcomes()
    ensures refused { Follows RefusesWork }
    ensures burn { Follows BurnsAll }
    ensures link { Follows LinksAll }
    ensures check { Follows ChecksAll }
    ensures run_bare { Follows RunsOnBare }
    ensures run_wedge { Follows RunsOnHost }
    ensures share { Follows SharesAll }
    ensures save { Follows SavesAll }
    ensures save_from { Follows SavesAgain }
    ensures go_on { Follows ContinuesAll }
    ensures prove { Follows ProvesAll }
    ensures replay { Follows JudgesAll }
{
    runs_agree();
}

/// By the clauses `meaning` and `untouched` of `top`, where no put failed and memory was found, over any files: `work` is done
/// with its comparison where its kernel is built into an image for which there are frames, and refused where a part refuses the
/// kernel.
pub fn outcomes_of_work()
    ensures done { FollowsUnread WorkDone }
    ensures refused { FollowsUnread WorkRefused }
{
    runs_agree();
}
