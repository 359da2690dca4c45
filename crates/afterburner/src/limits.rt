//! The limits of an object.

ghost use Rattle.std.specs.Prelude.{OnOk};
ghost use Rattle.afterburner.specs.Burnt.{limited};
ghost use Rattle.afterburner.specs.Answers.{Makes};
ghost use Rattle.afterburner.specs.Sound.{IsWithin};

use crate::assembly::Assembly;
use crate::fault::{BurnCause, ItemFault};
use sites::{INIT_LIMIT, SITE_LIMIT, TEXT_LIMIT};

/// Tests the limits after an item.
#[tactic(auto, unfolding(crate::specs::Burnt::limited))]
pub fn limited(made: &Assembly) -> Result<(), ItemFault>
    ensures makes { Makes made.now result (limited made.now) }
    ensures within { OnOk result (IsWithin made.now) }
{
    if made.text.len() > TEXT_LIMIT {
        return Err(ItemFault::Cause(BurnCause::TextTooLarge));
    }
    let init = made.init.len();
    if init > INIT_LIMIT || made.bss > INIT_LIMIT - init {
        return Err(ItemFault::Cause(BurnCause::InitTooLarge));
    }
    if made.sites.len() > SITE_LIMIT {
        return Err(ItemFault::Cause(BurnCause::TooManySites));
    }
    Ok(())
}
