//! Segment registers read and pushed. Intel SDM volume 2, MOV and PUSH.

ghost use Rattle.std.specs.Prelude.{◌≡◌, ◌<◌};
ghost use Rattle.ia32_types.specs.Shape.{IsNamed};
ghost use Rattle.ia32_exec.specs.Selectors.{selector_of, selector_to, selector_read, selector_pushed};

use crate::outcome::{Outcome, Store, Stores};
use crate::registers::{address_of, eip_past, with_whole};
use crate::stack::pushed_number;
use ia32_types::{Insn, Operand, Regs, Seg, Size, Stop};

/// What the segment registers show.
#[derive(Clone, Copy)]
pub struct Selectors {
    pub es: u16,
    pub cs: u16,
    pub ss: u16,
    pub ds: u16,
}

fn selector_of(selectors: &Selectors, seg: Seg) -> u16
    ensures { result ≡ selector_of selectors.now seg }
{
    match seg {
        Seg::Es => selectors.es,
        Seg::Cs => selectors.cs,
        Seg::Ss => selectors.ss,
        Seg::Ds => selectors.ds,
    }
}

fn selector_to(to: Operand, value: u16, len: u8, regs: &Regs) -> Outcome
    requires { IsNamed to }
    ensures { result ≡ selector_to to value len regs.now }
{
    let value = u32::from(value);
    let past = eip_past(u32::from(len), *regs);
    match to {
        Operand::Register(n) => {
            Outcome::Done(with_whole(usize::from(n), value, past), Stores::Nothing)
        }
        Operand::Memory(address) => {
            let at = address_of(address, regs);
            let size = Size::Word;
            Outcome::Done(past, Stores::One(Store { at, size, value }))
        }
        _ => Outcome::Stop(Stop::Unsupported),
    }
}

/// MOV from a segment register.
#[tactic(auto, unfolding(crate::specs::Selectors::selector_read))]
pub fn selector_read(selectors: &Selectors, insn: &Insn, len: u8, regs: &Regs) -> Outcome
    requires { IsNamed insn.now.a }
    ensures { result ≡ selector_read selectors.now insn.now len regs.now }
{
    match insn.b {
        Operand::Segment(seg) => {
            let value = selector_of(selectors, seg);
            selector_to(insn.a, value, len, regs)
        }
        _ => Outcome::Stop(Stop::Unsupported),
    }
}

/// PUSH of a segment register.
#[tactic(auto, unfolding(crate::specs::Selectors::selector_pushed))]
pub fn selector_pushed(selectors: &Selectors, insn: &Insn, len: u8, regs: &Regs) -> Outcome
    ensures { result ≡ selector_pushed selectors.now insn.now len regs.now }
{
    match insn.a {
        Operand::Segment(seg) => {
            let value = u32::from(selector_of(selectors, seg));
            pushed_number(value, eip_past(u32::from(len), *regs))
        }
        _ => Outcome::Stop(Stop::Unsupported),
    }
}
