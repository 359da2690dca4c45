//! Laws of the pages that a step uses: where their translations lead, and that no other translation changes. So a view may
//! show each of them, and translations stay those of pages of the address space.

ghost use Rattle.machine_model.specs.HeldPages.{StepsLeavePages, RunsHoldPages};
ghost use Rattle.machine_model.specs.UsedPages.{FetchedUses, RangesUse, InstructedUses, DeliveredUses, StepsUse, UsedPagesLeadWell};

/// Pages lead well over each part of a step that is done, or refused without a stop.
pub fn works_use()
    ensures fetched { FetchedUses }
    ensures ranges { RangesUse }
    ensures instructed { InstructedUses }
    ensures delivered { DeliveredUses }
{}

/// And over each step that goes, up to what its instruction drops at its end.
pub fn steps_use()
    ensures { StepsUse }
{}

/// Each page that a step used, and that has a translation after it, leads at level 3 to no text; at level 0 it is of the
/// text window, with the frame that the loader gave it, or lies past the window and leads to no text.
pub fn used_pages_are_open()
    ensures { UsedPagesLeadWell }
{}

/// Where steps use pages of the address space alone, translations of such pages alone are left and gone by.
pub fn sets_hold_pages()
    ensures steps { StepsLeavePages }
    ensures runs { RunsHoldPages }
{}
