//! What a run carries from step to step is what the rule for kept translations asks of the next.

ghost use Rattle.kept_laws.specs.Carried.{NextIsKept, RoomyBefore, RoomyIsFew, IndicesGrow};

use machine_model::{accesses_follow, found_follows};

/// The next step uses what the rule asks for, where it uses what is kept, or nothing where it clashes by that.
pub fn next_is_kept()
    ensures { NextIsKept }
{
    accesses_follow();
    found_follows();
}

/// While a run is roomy its shadows hold few frames.
pub fn roomy_is_few()
    ensures before { RoomyBefore }
    ensures few { RoomyIsFew }
    ensures grow { IndicesGrow }
{}
