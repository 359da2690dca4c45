//! Instructions that use the stack. Intel SDM volume 2, PUSH, POP, PUSHA, POPA, CALL, LEAVE, PUSHF and POPF.

ghost use Rattle.std.specs.Prelude.{◌≡◌, ◌<◌, ◌≤◌, ◌+◌, ◌^◌, Some, slice_index};
ghost use Rattle.ia32_types.specs.declared.size.Size.TheVariants.{Long};
ghost use Rattle.ia32_exec.specs.Readable.{IsAllAt, IsReadable, AreAll};
ghost use Rattle.ia32_types.specs.Shape.{IsNamed};
ghost use Rattle.ia32_exec.specs.Stack.{stack_of, esp_below, esp_above, pushed_number, pushed, top_of_stack, slot_of, popped, all_pushed, all_popped, frame_left, called, flags_pushed, is_foreign, taken, flags_popped};

use crate::memory::LinearBytes;
use crate::operands::{source_of, to_destination};
use crate::outcome::{Outcome, Store, Stores};
use crate::registers::{eip_past, with_whole};
use ia32_types::{Flags, Insn, Regs, Size, Stop};

/// ESP after a push of so many bytes.
pub fn esp_below(by: u32, regs: &Regs) -> u32
    requires { 0 < by }
    ensures { result ≡ esp_below by regs.now }
{
    regs.r[4].wrapping_sub(by)
}

/// ESP after a pop of so many bytes.
pub fn esp_above(by: u64, regs: &Regs) -> u32
    ensures { result ≡ esp_above by regs.now }
{
    regs.r[4].wrapping_add((by % 0x1_0000_0000) as u32)
}

/// A number goes onto the stack.
#[tactic(auto, unfolding(crate::specs::Stack::pushed_number))]
pub fn pushed_number(value: u32, regs: Regs) -> Outcome
    ensures { result ≡ pushed_number value regs }
{
    let at = esp_below(4, &regs);
    let size = Size::Long;
    Outcome::Done(
        with_whole(4, at, regs),
        Stores::One(Store { at, size, value }),
    )
}

/// PUSH.
#[tactic(auto, unfolding(crate::specs::Stack::pushed))]
#[inline(never)]
pub fn pushed<M: LinearBytes>(insn: &Insn, len: u8, regs: &Regs, mem: &M) -> Outcome
    requires { IsReadable (M.readable mem.now) insn.now.a Long regs.now }
    ensures { result ≡ pushed insn.now len regs.now (M.byte mem.now) }
{
    let value = source_of(insn.a, insn.imm, Size::Long, regs, mem);
    pushed_number(value, eip_past(u32::from(len), *regs))
}

fn top_of_stack<M: LinearBytes>(regs: &Regs, mem: &M) -> u32
    requires { IsAllAt (M.readable mem.now) (stack_of regs.now) Long }
    ensures { result ≡ top_of_stack regs.now (M.byte mem.now) }
{
    mem.read(regs.r[4], Size::Long)
}

/// POP.
#[tactic(auto, unfolding(crate::specs::Stack::popped))]
#[inline(never)]
pub fn popped<M: LinearBytes>(insn: &Insn, len: u8, regs: &Regs, mem: &M) -> Outcome
    requires named { IsNamed insn.now.a }
    requires covered { IsAllAt (M.readable mem.now) (stack_of regs.now) Long }
    ensures { result ≡ popped insn.now len regs.now (M.byte mem.now) }
{
    let value = top_of_stack(regs, mem);
    let risen = with_whole(4, esp_above(4, regs), *regs);
    let mut after = eip_past(u32::from(len), risen);
    let stores = to_destination(insn.a, Size::Long, value, &mut after);
    Outcome::Done(after, stores)
}

/// PUSHA.
#[tactic(auto, unfolding(crate::specs::Stack::all_pushed))]
#[inline(never)]
pub fn all_pushed(len: u8, regs: &Regs) -> Outcome
    ensures { result ≡ all_pushed len regs.now }
{
    let at = esp_below(32, regs);
    let r = regs.r;
    let values = [r[7], r[6], r[5], r[4], r[3], r[2], r[1], r[0]];
    let after = eip_past(u32::from(len), with_whole(4, at, *regs));
    Outcome::Done(after, Stores::Eight(at, values))
}

fn slot_of<M: LinearBytes>(k: u32, regs: &Regs, mem: &M) -> u32
    requires within { k < 8 }
    requires covered { AreAll (M.readable mem.now) (stack_of regs.now) 32 }
    ensures { result ≡ slot_of k regs.now (M.byte mem.now) }
{
    mem.read(regs.r[4] + 4 * k, Size::Long)
}

/// POPA.
#[tactic(auto, unfolding(crate::specs::Stack::all_popped))]
#[inline(never)]
pub fn all_popped<M: LinearBytes>(len: u8, regs: &Regs, mem: &M) -> Outcome
    requires { AreAll (M.readable mem.now) (stack_of regs.now) 32 }
    ensures { result ≡ all_popped len regs.now (M.byte mem.now) }
{
    let r = [
        slot_of(7, regs, mem),
        slot_of(6, regs, mem),
        slot_of(5, regs, mem),
        slot_of(4, regs, mem),
        esp_above(32, regs),
        slot_of(2, regs, mem),
        slot_of(1, regs, mem),
        slot_of(0, regs, mem),
    ];
    Outcome::Done(
        eip_past(u32::from(len), Regs { r, ..*regs }),
        Stores::Nothing,
    )
}

/// LEAVE.
#[tactic(auto, unfolding(crate::specs::Stack::frame_left))]
#[inline(never)]
pub fn frame_left<M: LinearBytes>(len: u8, regs: &Regs, mem: &M) -> Outcome
    requires { IsAllAt (M.readable mem.now) (slice_index regs.now.r 5) Long }
    ensures { result ≡ frame_left len regs.now (M.byte mem.now) }
{
    let frame = regs.r[5];
    let value = mem.read(frame, Size::Long);
    let risen = with_whole(4, frame.wrapping_add(4), *regs);
    Outcome::Done(
        eip_past(u32::from(len), with_whole(5, value, risen)),
        Stores::Nothing,
    )
}

/// CALL of a distance.
#[tactic(auto, unfolding(crate::specs::Stack::called))]
#[inline(never)]
pub fn called(insn: &Insn, len: u8, regs: &Regs) -> Outcome
    ensures { result ≡ called insn.now len regs.now }
{
    let next = eip_past(u32::from(len), *regs);
    let at = esp_below(4, &next);
    let size = Size::Long;
    let value = next.eip;
    let after = eip_past(insn.imm, with_whole(4, at, next));
    Outcome::Done(after, Stores::One(Store { at, size, value }))
}

/// PUSHF.
#[tactic(auto, unfolding(crate::specs::Stack::flags_pushed))]
#[inline(never)]
pub fn flags_pushed(len: u8, regs: &Regs) -> Outcome
    ensures { result ≡ flags_pushed len regs.now }
{
    pushed_number(regs.flags.bits, eip_past(u32::from(len), *regs))
}

/// Whether an image of the flags has one that isn't kept.
pub fn is_foreign(image: Flags) -> bool
    ensures { result ≡ is_foreign image.bits }
{
    image.bit(8)
        || image.bit(14)
        || image.bit(17)
        || image.bit(18)
        || image.bit(19)
        || image.bit(20)
        || image.bit(21)
}

/// The flags that are popped at any level.
#[tactic(auto, unfolding(crate::specs::Stack::taken))]
pub fn taken(flags: Flags, image: Flags) -> Flags
    ensures { result ≡ taken flags image.bits }
{
    let flags = flags.with_bit(0, image.bit(0));
    let flags = flags.with_bit(2, image.bit(2));
    let flags = flags.with_bit(4, image.bit(4));
    let flags = flags.with_bit(6, image.bit(6));
    let flags = flags.with_bit(7, image.bit(7));
    let flags = flags.with_bit(10, image.bit(10));
    flags.with_bit(11, image.bit(11))
}

/// POPF at CPL 3 and IOPL 0.
#[tactic(auto, unfolding(crate::specs::Stack::flags_popped))]
#[inline(never)]
pub fn flags_popped<M: LinearBytes>(len: u8, regs: &Regs, mem: &M) -> Outcome
    requires { IsAllAt (M.readable mem.now) (stack_of regs.now) Long }
    ensures { result ≡ flags_popped len regs.now (M.byte mem.now) }
{
    let bits = top_of_stack(regs, mem);
    let image = Flags { bits };
    if is_foreign(image) {
        return Outcome::Stop(Stop::FlagBits);
    }
    let flags = taken(regs.flags, image);
    let risen = with_whole(4, esp_above(4, regs), Regs { flags, ..*regs });
    Outcome::Done(eip_past(u32::from(len), risen), Stores::Nothing)
}
