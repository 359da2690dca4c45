//! Laws of several kernels in turns: of their runs, of the frames that they hold, and of their lines.

ghost use Rattle.guest_sched.specs.Joined.{TurnsJoin, TurnStops, OneMoves, OneReleases};
ghost use Rattle.guest_sched.specs.TaggedLines.{BytesAreLines, PiecesAreTagged, ThreeAreTagged};

/// A turn goes on from where the kernel's turn before has left it.
pub fn turns_join()
    ensures join { TurnsJoin }
    ensures stops { TurnStops }
{}

/// While one kernel goes on, or gives up frames, the others stay as they are.
pub fn kernels_stay_apart()
    ensures moves { OneMoves }
    ensures releases { OneReleases }
{}

/// The text of several kernels in turns is lines, each with its kernel's number before it, in the order of the turns. It is so
/// however a text is cut where it is put.
pub fn turns_put_lines()
    ensures lines { BytesAreLines }
    ensures pieces { PiecesAreTagged }
    ensures three { ThreeAreTagged }
{}
