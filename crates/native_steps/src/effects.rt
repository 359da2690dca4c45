//! The laws of the outcomes of instructions, in one.

ghost use Rattle.native_steps.specs.EffectLaws.{EffectLaws};

use ia32_exec::{same_over_ranges, system_flags_stay};
use sys_exec::user_flags_agree;

/// What the laws of instructions say of the outcome of one.
pub fn effects()
    ensures { EffectLaws }
{
    user_flags_agree();
    system_flags_stay();
    same_over_ranges();
}
