//! RET, and jumps and calls through an operand. Intel SDM volume 2, RET, JMP and CALL.

ghost use Rattle.std.specs.Prelude.{◌≡◌, ◌<◌, ◌+◌};
ghost use Rattle.ia32_types.specs.declared.size.Size.TheVariants.{Long};
ghost use Rattle.ia32_types.specs.Shape.{IsNamed};
ghost use Rattle.ia32_exec.specs.Readable.{IsAllAt, IsReadable};
ghost use Rattle.ia32_exec.specs.Stack.{stack_of};
ghost use Rattle.ia32_types.specs.Places.{is_place};
ghost use Rattle.ia32_exec.specs.UserTransfers.{returned, jumped_through, called_through};

use crate::memory::LinearBytes;
use crate::operands::value_of;
use crate::outcome::{Outcome, Store, Stores};
use crate::registers::{eip_past, with_whole};
use crate::stack::esp_above;
use ia32_types::{Insn, Operand, Regs, Size, Stop};

fn is_place(operand: Operand) -> bool
    ensures { result ≡ is_place operand }
{
    matches!(operand, Operand::Register(_) | Operand::Memory(_))
}

/// RET.
#[tactic(auto, unfolding(crate::specs::UserTransfers::returned))]
pub fn returned<M: LinearBytes>(insn: &Insn, regs: &Regs, mem: &M) -> Outcome
    requires { IsAllAt (M.readable mem.now) (stack_of regs.now) Long }
    ensures { result ≡ returned insn.now regs.now (M.byte mem.now) }
{
    let eip = mem.read(regs.r[4], Size::Long);
    let risen = with_whole(4, esp_above(4 + u64::from(insn.imm), regs), *regs);
    Outcome::Done(Regs { eip, ..risen }, Stores::Nothing)
}

/// JMP through an operand.
#[tactic(auto, unfolding(crate::specs::UserTransfers::jumped_through))]
pub fn jumped_through<M: LinearBytes>(insn: &Insn, regs: &Regs, mem: &M) -> Outcome
    requires { IsReadable (M.readable mem.now) insn.now.a Long regs.now }
    ensures { result ≡ jumped_through insn.now regs.now (M.byte mem.now) }
{
    if !is_place(insn.a) {
        return Outcome::Stop(Stop::Unsupported);
    }
    let eip = value_of(insn.a, Size::Long, regs, mem);
    Outcome::Done(Regs { eip, ..*regs }, Stores::Nothing)
}

/// CALL through an operand.
#[tactic(auto, unfolding(crate::specs::UserTransfers::called_through))]
pub fn called_through<M: LinearBytes>(insn: &Insn, len: u8, regs: &Regs, mem: &M) -> Outcome
    requires { IsReadable (M.readable mem.now) insn.now.a Long regs.now }
    ensures { result ≡ called_through insn.now len regs.now (M.byte mem.now) }
{
    if !is_place(insn.a) {
        return Outcome::Stop(Stop::Unsupported);
    }
    let eip = value_of(insn.a, Size::Long, regs, mem);
    let at = regs.r[4].wrapping_sub(4);
    let size = Size::Long;
    let value = eip_past(u32::from(len), *regs).eip;
    let esp_below = with_whole(4, at, *regs);
    Outcome::Done(
        Regs { eip, ..esp_below },
        Stores::One(Store { at, size, value }),
    )
}
