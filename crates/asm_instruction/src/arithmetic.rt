//! Arithmetic and logic.

ghost use Rattle.std.specs.Prelude.{◌≡◌};
ghost use Rattle.asm_instruction.specs.Names.{found};
ghost use Rattle.asm_instruction.specs.declared.argument.Operands.TheVariants as taken;
ghost use Rattle.asm_instruction.specs.declared.arithmetic.Arithmetic.TheVariants as called;
ghost use Rattle.asm_instruction.specs.Arithmetic as spec;

use crate::argument::{Given, Operands};
use crate::bytes::look_up;
use crate::draft::{
    Draft, Pair, instruction, paired, register_operand, register_or_memory, said, unary,
    with_number,
};
use crate::mnemonic::Family;
use crate::sizes::agreed;
use ia32_types::{Op, Size};

/// The kinds of arithmetic instructions, by the operands that they take.
#[derive(Clone, Copy)]
pub enum Arithmetic {
    /// ADD, OR, ADC, SBB, AND, SUB, XOR and CMP.
    Two(Op),
    Test,
    /// NOT, NEG, MUL, DIV, IDIV, INC and DEC.
    One(Op),
    /// IMUL, with one to three operands.
    Multiply,
}

const NAMES: [(&[u8], Family); 17] = [
    (b"add", Family::Arithmetic(Arithmetic::Two(Op::Add))),
    (b"or", Family::Arithmetic(Arithmetic::Two(Op::Or))),
    (b"adc", Family::Arithmetic(Arithmetic::Two(Op::Adc))),
    (b"sbb", Family::Arithmetic(Arithmetic::Two(Op::Sbb))),
    (b"and", Family::Arithmetic(Arithmetic::Two(Op::And))),
    (b"sub", Family::Arithmetic(Arithmetic::Two(Op::Sub))),
    (b"xor", Family::Arithmetic(Arithmetic::Two(Op::Xor))),
    (b"cmp", Family::Arithmetic(Arithmetic::Two(Op::Cmp))),
    (b"test", Family::Arithmetic(Arithmetic::Test)),
    (b"not", Family::Arithmetic(Arithmetic::One(Op::Not))),
    (b"neg", Family::Arithmetic(Arithmetic::One(Op::Neg))),
    (b"mul", Family::Arithmetic(Arithmetic::One(Op::Mul))),
    (b"imul", Family::Arithmetic(Arithmetic::Multiply)),
    (b"div", Family::Arithmetic(Arithmetic::One(Op::Div))),
    (b"idiv", Family::Arithmetic(Arithmetic::One(Op::Idiv))),
    (b"inc", Family::Arithmetic(Arithmetic::One(Op::Inc))),
    (b"dec", Family::Arithmetic(Arithmetic::One(Op::Dec))),
];

/// The names of arithmetic and logic, which take a suffix.
#[tactic(auto, unfolding(crate::specs::Arithmetic::arithmetic_names))]
pub fn arithmetic_name(name: &[u8]) -> Option<Family>
    ensures { result ≡ found spec.arithmetic_names name.now }
{
    look_up(&NAMES, name)
}

/// With the destination first.
pub fn of_pair(op: Op, size: Size, pair: Pair) -> Draft
    ensures { result ≡ spec.of_pair op size pair }
{
    match pair {
        Pair::Immediate(number, place) => with_number(unary(op, size, place), size, number),
        Pair::FromRegister(number, place) => instruction(op, size, place, register_operand(number)),
        Pair::FromMemory(place, number) => instruction(op, size, register_operand(number), place),
    }
}

/// With memory first, if there is any.
pub fn memory_first(op: Op, size: Size, pair: Pair) -> Draft
    ensures { result ≡ spec.memory_first op size pair }
{
    match pair {
        Pair::FromMemory(place, number) => instruction(op, size, place, register_operand(number)),
        other => of_pair(op, size, other),
    }
}

/// An instruction from a register, memory or a number to a register or memory.
#[tactic(auto, unfolding(crate::specs::Arithmetic::of_two))]
pub fn two(op: Op, suffix: Option<Size>, source: Given, destination: Given) -> Option<Draft>
    ensures { result ≡ spec.two op suffix source destination }
{
    let pair = paired(source, destination)?;
    let size = agreed(suffix, said(source), said(destination))?;
    Some(of_pair(op, size, pair))
}

#[tactic(auto, unfolding(crate::specs::Arithmetic::of_two, crate::specs::Arithmetic::arithmetic_draft))]
fn tested(suffix: Option<Size>, source: Given, destination: Given) -> Option<Draft>
    ensures { result ≡ spec.arithmetic_draft called.Test suffix (taken.Two source destination) }
{
    let pair = paired(source, destination)?;
    let size = agreed(suffix, said(source), said(destination))?;
    Some(memory_first(Op::Test, size, pair))
}

/// An instruction whose only operand is a register or memory, with a size of its own or none.
#[tactic(auto, unfolding(crate::specs::Arithmetic::of_one))]
pub fn of_one(own: Option<Size>, op: Op, suffix: Option<Size>, given: Given) -> Option<Draft>
    ensures { result ≡ spec.of_one own op suffix given }
{
    let place = register_or_memory(given)?;
    let size = agreed(suffix, said(given), own)?;
    Some(unary(op, size, place))
}

/// An instruction whose only operand is a register or memory.
pub fn one(op: Op, suffix: Option<Size>, given: Given) -> Option<Draft>
    ensures { result ≡ spec.one op suffix given }
{
    of_one(None, op, suffix, given)
}

/// An instruction from a register or memory to a register.
#[tactic(auto, unfolding(crate::specs::Arithmetic::to_register))]
pub fn to_register(op: Op, suffix: Option<Size>, source: Given, destination: Given) -> Option<Draft>
    ensures { result ≡ spec.to_register op suffix source destination }
{
    match destination {
        Given::Register(own, number) => {
            let place = register_or_memory(source)?;
            let size = agreed(suffix, said(source), Some(own))?;
            Some(instruction(op, size, register_operand(number), place))
        }
        _ => None,
    }
}

#[tactic(auto, unfolding(crate::specs::Arithmetic::arithmetic_draft))]
fn product(suffix: Option<Size>, operands: Operands) -> Option<Draft>
    ensures { result ≡ spec.arithmetic_draft called.Multiply suffix operands }
{
    match operands {
        Operands::One(given) => one(Op::Imul, suffix, given),
        Operands::Two(source, destination) => to_register(Op::Imul, suffix, source, destination),
        Operands::Three(Given::Immediate(number), source, destination) => {
            let product = to_register(Op::ImulBy, suffix, source, destination)?;
            Some(with_number(product, Size::Long, number))
        }
        _ => None,
    }
}

/// The instruction of this kind with these operands, which stand in AT&T order. None where the kind has no such form.
#[tactic(auto, unfolding(crate::specs::Arithmetic::arithmetic_draft))]
pub fn arithmetic_draft(kind: Arithmetic, suffix: Option<Size>, operands: Operands) -> Option<Draft>
    ensures { result ≡ spec.arithmetic_draft kind suffix operands }
{
    match (kind, operands) {
        (Arithmetic::Two(op), Operands::Two(source, destination)) => {
            two(op, suffix, source, destination)
        }
        (Arithmetic::Test, Operands::Two(source, destination)) => {
            tested(suffix, source, destination)
        }
        (Arithmetic::One(op), Operands::One(given)) => one(op, suffix, given),
        (Arithmetic::Multiply, operands) => product(suffix, operands),
        _ => None,
    }
}
