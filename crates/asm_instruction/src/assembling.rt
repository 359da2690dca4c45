//! From a statement to its bytes.

ghost use Rattle.std.specs.Prelude.{◌≡◌, ◌≤◌, ◌↔◌, ◌+◌, IfOk, IsSome, take, Err};
ghost use Rattle.asm_instruction.specs.Assembled as spec;
ghost use Rattle.asm_instruction.specs.Assembled.{assembled};
ghost use Rattle.asm_instruction.specs.Right.{HasBoundedLength, HasFields, AreInOrder, SpellsItsInstruction, IsRight};
ghost use Rattle.asm_instruction.specs.Refusals.{IsRefused, IsUnknown, IsWithoutRow, HasUnfitNumber};

use crate::argument::{names_symbol, operands_of};
use crate::assembled::{Assembled, Named, Refusal};
use crate::draft::Draft;
use crate::mnemonic::{Mnemonic, drafted, known_name};
use crate::refused::refused_name;
use asm_source::Argument;
use ia32_encode::{ArrayBytes, NoForm, Wide, encode};

const EMPTY: ArrayBytes = ArrayBytes {
    bytes: [0; 16],
    len: 0,
    disp_at: 0,
    imm_at: 0,
};

// The field at this place, if its argument names a symbol.
fn named_field(named: bool, argument: Option<u8>, at: u8, relative: bool) -> Option<Named>
    ensures { result ≡ spec.named_field named argument at relative }
{
    match argument {
        Some(argument) => {
            if named {
                Some(Named {
                    at,
                    argument,
                    relative,
                })
            } else {
                None
            }
        }
        None => None,
    }
}

#[tactic(auto, unfolding(crate::specs::Assembled::widths))]
fn widths(draft: &Draft, arguments: &[Argument]) -> Wide
    ensures { result ≡ spec.widths draft.now arguments.now }
{
    Wide {
        disp: names_symbol(arguments, draft.disp),
        imm: names_symbol(arguments, draft.imm),
    }
}

#[tactic(auto, unfolding(crate::specs::Assembled::whole))]
fn whole(draft: &Draft, wide: Wide, spelling: ArrayBytes) -> Assembled
    ensures { result ≡ spec.whole draft.now wide spelling }
{
    Assembled {
        spelling,
        insn: draft.insn,
        disp: named_field(wide.disp, draft.disp, spelling.disp_at, false),
        imm: named_field(wide.imm, draft.imm, spelling.imm_at, draft.relative),
    }
}

#[tactic(auto, unfolding(crate::specs::Assembled::spelled))]
fn spelled(draft: &Draft, arguments: &[Argument]) -> Result<Assembled, Refusal>
    ensures exact { result ≡ spec.spelled draft.now arguments.now }
    ensures right { IfOk result (IsRight arguments.now) }
{
    let wide = widths(draft, arguments);
    let mut spelling = EMPTY;
    match encode(&draft.insn, wide, &mut spelling) {
        Err(NoForm) => Err(Refusal::Operands),
        Ok(_) => {
            if draft.fits {
                Ok(whole(draft, wide, spelling))
            } else {
                Err(Refusal::ValueRange)
            }
        }
    }
}

#[tactic(auto, unfolding(crate::specs::Assembled::drafted_of))]
fn drafted_of(rep: bool, mnemonic: Mnemonic, arguments: &[Argument]) -> Option<Draft>
    ensures { result ≡ spec.drafted_of rep mnemonic arguments.now }
{
    let operands = operands_of(arguments)?;
    drafted(rep, mnemonic, operands)
}

#[tactic(auto, unfolding(crate::specs::Assembled::by_mnemonic))]
fn by_mnemonic(rep: bool, mnemonic: Mnemonic, arguments: &[Argument]) -> Result<Assembled, Refusal>
    ensures exact { result ≡ spec.by_mnemonic rep mnemonic arguments.now }
    ensures right { IfOk result (IsRight arguments.now) }
{
    match drafted_of(rep, mnemonic, arguments) {
        None => Err(Refusal::Operands),
        Some(draft) => spelled(&draft, arguments),
    }
}

#[tactic(auto, unfolding(crate::specs::Assembled::assembled))]
fn by_name(rep: bool, name: &[u8], arguments: &[Argument]) -> Result<Assembled, Refusal>
    ensures exact { result ≡ assembled rep name.now arguments.now }
    ensures right { IfOk result (IsRight arguments.now) }
{
    if refused_name(name).is_some() {
        return Err(Refusal::RefusedInstruction);
    }
    match known_name(name) {
        None => Err(Refusal::UnknownInstruction),
        Some(mnemonic) => by_mnemonic(rep, mnemonic, arguments),
    }
}

/// The instruction that a statement is, in its chosen spelling.
pub fn assemble(rep: bool, name: &[u8], arguments: &[Argument]) -> Result<Assembled, Refusal>
    // The answer is this function of the statement.
    ensures exact { result ≡ assembled rep name.now arguments.now }
    // The bytes spell the instruction, and are read back whatever follows them.
    ensures spelled { IfOk result SpellsItsInstruction }
    // There are one to eleven.
    ensures short { IfOk result HasBoundedLength }
    // Each field that names a symbol has its four bytes, and its argument names one.
    ensures fields { IfOk result (HasFields arguments.now) }
    // The displacement stands before the immediate.
    ensures order { IfOk result AreInOrder }
    // The name is refused.
    ensures refused { (result ≡ Err Refusal.RefusedInstruction) ↔ IsRefused name.now }
    // The name is none that is known.
    ensures unknown { (result ≡ Err Refusal.UnknownInstruction) ↔ IsUnknown name.now }
    // No row has such operands.
    ensures operands { (result ≡ Err Refusal.Operands) ↔ IsWithoutRow rep name.now arguments.now }
    // A row has them, and a number doesn't fit its field.
    ensures range { (result ≡ Err Refusal.ValueRange) ↔
        ((IsWithoutRow rep name.now arguments.now → ⊥) × HasUnfitNumber rep name.now arguments.now) }
{
    by_name(rep, name, arguments)
}
