//! The operands of an instruction as they are written.

ghost use Rattle.std.specs.Prelude.{◌≡◌};
ghost use Rattle.ia32_text.specs.Operands as spec;

use crate::kinds::{Layout, layout_of};
use ia32_types::{Address, Insn, Operand, Seg, Size};

/// An operand as it is written.
#[derive(Clone, Copy)]
pub enum Written {
    /// A general register, by its number at this size.
    Register(Size, u8),
    Segment(Seg),
    /// A control register, by its number.
    Control(u8),
    Memory(Address),
    Immediate(u32),
    /// The port in DX in parentheses.
    Port,
    /// A label that names this address.
    Label(u32),
}

/// Operands in the order of the source, in which the source of a move stands before its destination.
#[derive(Clone, Copy)]
pub enum Operands {
    Nothing,
    One(Written),
    /// One, with `*` before it.
    Starred(Written),
    Two(Written, Written),
    Three(Written, Written, Written),
}

/// An operand at this size. In place of one that is absent the immediate stands.
fn as_written(size: Size, immediate: u32, operand: Operand) -> Written
    ensures { result ≡ spec.as_written size immediate operand }
{
    match operand {
        Operand::Absent => Written::Immediate(immediate),
        Operand::Register(number) => Written::Register(size, number),
        Operand::Memory(address) => Written::Memory(address),
        Operand::Segment(segment) => Written::Segment(segment),
        Operand::Control(number) => Written::Control(number),
    }
}

fn destination(insn: &Insn) -> Written
    ensures { result ≡ spec.destination insn.now }
{
    as_written(insn.size, insn.imm, insn.a)
}

fn source(insn: &Insn) -> Written
    ensures { result ≡ spec.source insn.now }
{
    as_written(insn.size, insn.imm, insn.b)
}

fn count(insn: &Insn) -> Written
    ensures { result ≡ spec.count insn.now }
{
    as_written(Size::Byte, insn.imm, insn.b)
}

fn port(insn: &Insn) -> Written
    ensures { result ≡ spec.port insn.now }
{
    match insn.b {
        Operand::Absent => Written::Immediate(insn.imm),
        _ => Written::Port,
    }
}

fn accumulator(insn: &Insn) -> Written
    ensures { result ≡ spec.accumulator insn.now }
{
    Written::Register(insn.size, 0)
}

fn product(insn: &Insn) -> Operands
    ensures { result ≡ spec.product insn.now }
{
    match insn.b {
        Operand::Absent => Operands::One(destination(insn)),
        _ => Operands::Two(source(insn), destination(insn)),
    }
}

fn returned(insn: &Insn) -> Operands
    ensures { result ≡ spec.returned insn.now }
{
    if insn.imm == 0 {
        Operands::Nothing
    } else {
        Operands::One(Written::Immediate(insn.imm))
    }
}

/// Where a direct branch leads.
fn target(distance: u32, at: u32, len: u8) -> u32
    ensures { result ≡ spec.target distance at len }
{
    ((u64::from(at) + u64::from(len) + u64::from(distance)) % 0x1_0000_0000) as u32
}

/// The operands of the instruction at this address and of this length.
#[tactic(auto, unfolding(crate::specs::Operands::operands_of))]
pub fn operands_of(insn: &Insn, at: u32, len: u8) -> Operands
    ensures { result ≡ spec.operands_of insn.now at len }
{
    match layout_of(insn.op) {
        Layout::Nothing => Operands::Nothing,
        Layout::One => Operands::One(destination(insn)),
        Layout::Two => Operands::Two(source(insn), destination(insn)),
        Layout::Product => product(insn),
        Layout::ProductBy => Operands::Three(
            Written::Immediate(insn.imm),
            source(insn),
            destination(insn),
        ),
        Layout::Widened => Operands::Two(source(insn), as_written(Size::Long, insn.imm, insn.a)),
        Layout::Shift => Operands::Two(count(insn), destination(insn)),
        Layout::Task => Operands::One(as_written(Size::Word, insn.imm, insn.a)),
        Layout::In => Operands::Two(port(insn), accumulator(insn)),
        Layout::Out => Operands::Two(accumulator(insn), port(insn)),
        Layout::Return => returned(insn),
        Layout::Starred => Operands::Starred(destination(insn)),
        Layout::Far => Operands::Two(
            Written::Immediate(u32::from(insn.sel)),
            Written::Immediate(insn.imm),
        ),
        Layout::Label => Operands::One(Written::Label(target(insn.imm, at, len))),
    }
}
