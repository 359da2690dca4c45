//! Laws of the definitions.

ghost use Rattle.board.specs.Quiet.{EdgesAreOne, EventsComeLater, StepsAreQuiet};

/// Up to the next edge or event nothing reaches the board, and the vector that would be delivered stays.
pub fn steps_are_quiet()
    ensures { StepsAreQuiet }
{}

/// Up to the next event none reaches the board, and many edges of the timer request no more than one does.
pub fn edges_are_one()
    ensures events { EventsComeLater }
    ensures edges { EdgesAreOne }
{}
