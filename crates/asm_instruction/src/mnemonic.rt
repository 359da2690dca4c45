//! The names of instructions.

ghost use Rattle.std.specs.Prelude.{◌≡◌};
ghost use Rattle.asm_instruction.specs.Names.{found};
ghost use Rattle.asm_instruction.specs.Mnemonic as spec;

use crate::argument::Operands;
use crate::arithmetic::{Arithmetic, arithmetic_draft, arithmetic_name};
use crate::control::{Control, branch_name, conditional_name, control_draft, control_name};
use crate::draft::Draft;
use crate::flags::{plain_draft, plain_name};
use crate::moves::{Moves, extend_name, move_draft, move_name};
use crate::shift::{shift_draft, shift_name};
use crate::stack::{Stack, frame_name, stack_draft, stack_name};
use crate::strings::{string_draft, string_name};
use crate::system::{System, page_name, system_draft, system_name};
use ia32_types::{Op, Size};

/// What instructions have in common, by the operands that they take.
#[derive(Clone, Copy)]
pub enum Family {
    Arithmetic(Arithmetic),
    Shift(Op),
    Moves(Moves),
    Stack(Stack),
    Control(Control),
    Strings(Op, Size),
    /// Without operands.
    Plain(Op),
    System(System),
}

/// A name that is known, and the suffix after it.
#[derive(Clone, Copy)]
pub struct Mnemonic {
    pub family: Family,
    /// The operand size that it says.
    pub suffix: Option<Size>,
}

/// A name that stands as it is.
#[tactic(auto, using(crate::proofs::Tables::exact_found))]
fn exact_name(name: &[u8]) -> Option<Family>
    ensures { result ≡ found spec.exact_names name.now }
{
    plain_name(name)
        .or(frame_name(name))
        .or(extend_name(name))
        .or(string_name(name))
        .or(page_name(name))
        .or(control_name(name))
}

/// A name that may have a suffix.
#[tactic(auto, using(crate::proofs::Tables::sized_found))]
fn sized_name(name: &[u8]) -> Option<Family>
    ensures { result ≡ found spec.sized_names name.now }
{
    arithmetic_name(name)
        .or(shift_name(name))
        .or(move_name(name))
        .or(stack_name(name))
        .or(branch_name(name))
        .or(system_name(name))
}

fn suffix(letter: u8) -> Option<Size>
    ensures { result ≡ spec.suffix letter }
{
    match letter {
        b'b' => Some(Size::Byte),
        b'w' => Some(Size::Word),
        b'l' => Some(Size::Long),
        _ => None,
    }
}

#[tactic(auto, unfolding(crate::specs::Mnemonic::suffixed))]
fn suffixed(front: &[u8], letter: u8) -> Option<Mnemonic>
    ensures { result ≡ spec.suffixed front.now letter }
{
    let family = sized_name(front)?;
    let size = suffix(letter)?;
    Some(Mnemonic {
        family,
        suffix: Some(size),
    })
}

// The last letter as a suffix of the name before it.
#[tactic(auto, unfolding(crate::specs::Mnemonic::with_suffix))]
fn with_suffix(name: &[u8]) -> Option<Mnemonic>
    ensures { result ≡ spec.with_suffix name.now }
{
    if name.is_empty() {
        return None;
    }
    let last = name.len() - 1;
    suffixed(&name[..last], name[last])
}

/// The instruction of a name; a name that is known without its last letter may have that as a suffix.
#[tactic(auto, unfolding(crate::specs::Mnemonic::known_name))]
pub fn known_name(name: &[u8]) -> Option<Mnemonic>
    ensures { result ≡ spec.known_name name.now }
{
    match exact_name(name).or(conditional_name(name).or(sized_name(name))) {
        Some(family) => Some(Mnemonic {
            family,
            suffix: None,
        }),
        None => with_suffix(name),
    }
}

fn without_repeat(mnemonic: Mnemonic, operands: Operands) -> Option<Draft>
    ensures { result ≡ spec.by_family mnemonic.family mnemonic.suffix operands }
{
    let suffix = mnemonic.suffix;
    match mnemonic.family {
        Family::Arithmetic(kind) => arithmetic_draft(kind, suffix, operands),
        Family::Shift(op) => shift_draft(op, suffix, operands),
        Family::Moves(kind) => move_draft(kind, suffix, operands),
        Family::Stack(kind) => stack_draft(kind, suffix, operands),
        Family::Control(kind) => control_draft(kind, suffix, operands),
        Family::Strings(op, size) => string_draft(false, op, size, operands),
        Family::Plain(op) => plain_draft(op, suffix, operands),
        Family::System(kind) => system_draft(kind, suffix, operands),
    }
}

/// The instruction, if it has such operands. The repeat prefix stands before string instructions alone.
#[tactic(auto, unfolding(crate::specs::Mnemonic::drafted))]
pub fn drafted(rep: bool, mnemonic: Mnemonic, operands: Operands) -> Option<Draft>
    ensures { result ≡ spec.drafted rep mnemonic operands }
{
    if rep {
        match mnemonic.family {
            Family::Strings(op, size) => string_draft(true, op, size, operands),
            _ => None,
        }
    } else {
        without_repeat(mnemonic, operands)
    }
}
