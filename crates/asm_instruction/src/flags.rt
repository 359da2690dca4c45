//! Instructions without operands, most of which change flags.

ghost use Rattle.std.specs.Prelude.{◌≡◌};
ghost use Rattle.asm_instruction.specs.Names.{found};
ghost use Rattle.asm_instruction.specs.Flags as spec;

use crate::argument::Operands;
use crate::bytes::look_up;
use crate::draft::{Draft, alone};
use crate::mnemonic::Family;
use crate::sizes::agreed;
use ia32_types::{Op, Size};

const PLAIN_NAMES: [(&[u8], Family); 10] = [
    (b"clc", Family::Plain(Op::Clc)),
    (b"stc", Family::Plain(Op::Stc)),
    (b"cld", Family::Plain(Op::Cld)),
    (b"std", Family::Plain(Op::Std)),
    (b"cli", Family::Plain(Op::Cli)),
    (b"sti", Family::Plain(Op::Sti)),
    (b"cwtl", Family::Plain(Op::Cwde)),
    (b"cltd", Family::Plain(Op::Cdq)),
    (b"nop", Family::Plain(Op::Nop)),
    (b"hlt", Family::Plain(Op::Hlt)),
];

/// The names of instructions without operands that have no suffix.
#[tactic(auto, unfolding(crate::specs::Flags::plain_names))]
pub fn plain_name(name: &[u8]) -> Option<Family>
    ensures { result ≡ found spec.plain_names name.now }
{
    look_up(&PLAIN_NAMES, name)
}

/// An instruction without operands. Where it takes a suffix, only 32 bits exist.
#[tactic(auto, unfolding(crate::specs::Flags::plain_draft))]
pub fn plain_draft(op: Op, suffix: Option<Size>, operands: Operands) -> Option<Draft>
    ensures { result ≡ spec.plain_draft op suffix operands }
{
    match operands {
        Operands::Nothing => {
            agreed(suffix, Some(Size::Long), None)?;
            Some(alone(op))
        }
        _ => None,
    }
}
