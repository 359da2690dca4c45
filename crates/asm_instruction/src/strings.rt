//! String instructions.

ghost use Rattle.std.specs.Prelude.{◌≡◌};
ghost use Rattle.asm_instruction.specs.Names.{found};
ghost use Rattle.asm_instruction.specs.Strings as spec;

use crate::argument::Operands;
use crate::bytes::look_up;
use crate::draft::{Draft, alone};
use crate::mnemonic::Family;
use ia32_types::{Insn, Op, Size};

const STRING_NAMES: [(&[u8], Family); 6] = [
    (b"movsb", Family::Strings(Op::Movs, Size::Byte)),
    (b"movsl", Family::Strings(Op::Movs, Size::Long)),
    (b"stosb", Family::Strings(Op::Stos, Size::Byte)),
    (b"stosl", Family::Strings(Op::Stos, Size::Long)),
    (b"lodsb", Family::Strings(Op::Lods, Size::Byte)),
    (b"lodsl", Family::Strings(Op::Lods, Size::Long)),
];

/// The names of the string instructions, with their sizes.
#[tactic(auto, unfolding(crate::specs::Strings::string_names))]
pub fn string_name(name: &[u8]) -> Option<Family>
    ensures { result ≡ found spec.string_names name.now }
{
    look_up(&STRING_NAMES, name)
}

/// A string instruction, with or without the repeat prefix.
#[tactic(auto, unfolding(crate::specs::Strings::string_draft))]
pub fn string_draft(rep: bool, op: Op, size: Size, operands: Operands) -> Option<Draft>
    ensures { result ≡ spec.string_draft rep op size operands }
{
    match operands {
        Operands::Nothing => {
            let draft = alone(op);
            Some(Draft {
                insn: Insn {
                    size,
                    rep,
                    ..draft.insn
                },
                ..draft
            })
        }
        _ => None,
    }
}
