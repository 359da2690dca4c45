//! The outcome of an instruction that user code does by itself.

ghost use Rattle.std.specs.Prelude.{◌≡◌};
ghost use Rattle.ia32_types.specs.Shape.{IsShaped};
ghost use Rattle.ia32_exec.specs.Effect.{ranges_of};
ghost use Rattle.ia32_exec.specs.Readable.{IsReadReady};
ghost use Rattle.ia32_exec.specs.UserEffect.{user_effect, IsUserDone};

use crate::effect_of::effect;
use crate::memory::LinearBytes;
use crate::outcome::Outcome;
use crate::selectors::{Selectors, selector_pushed, selector_read};
use crate::transfers::{called_through, jumped_through, returned};
use ia32_types::{Insn, Op, Regs};

/// The outcome of an instruction at CPL 3 and IOPL 0, with these selectors.
#[tactic(auto, unfolding(crate::specs::UserEffect::user_effect, crate::specs::Effect::ranges_of))]
pub fn user_effect<M: LinearBytes>(
    selectors: &Selectors,
    insn: &Insn,
    len: u8,
    regs: &Regs,
    mem: &M,
) -> Outcome
    requires kind { IsUserDone insn.now.op }
    requires shape { IsShaped insn.now }
    requires ready { IsReadReady (M.readable mem.now) (ranges_of insn.now regs.now) }
    ensures { result ≡ user_effect selectors.now insn.now len regs.now (M.byte mem.now) }
{
    match insn.op {
        Op::Return => returned(insn, regs, mem),
        Op::JumpTo => jumped_through(insn, regs, mem),
        Op::CallTo => called_through(insn, len, regs, mem),
        Op::ReadSeg => selector_read(selectors, insn, len, regs),
        Op::PushSeg => selector_pushed(selectors, insn, len, regs),
        _ => effect(insn, len, regs, mem),
    }
}
