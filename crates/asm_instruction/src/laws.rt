//! Laws of what a statement's instruction is assembled to, and of its refusals.

ghost use Rattle.std.specs.Prelude.{◌≡◌, ◌↔◌, ℕ, Bool, List, Ok, Err};
ghost use Rattle.asm_source.specs.declared.tree.Argument.{Argument};
ghost use Rattle.asm_instruction.specs.declared.assembled.Assembled.{Assembled};
ghost use Rattle.asm_instruction.specs.declared.assembled.Refusal.TheVariants.{UnknownInstruction, RefusedInstruction, Operands, ValueRange};
ghost use Rattle.asm_instruction.specs.Assembled.{assembled};
ghost use Rattle.asm_instruction.specs.Right.{IsRight, IsFromChosen, IsBranchRight};
ghost use Rattle.asm_instruction.specs.Refusals.{IsRefused, IsUnknown, IsWithoutRow, HasUnfitNumber};

/// What is known of each answer: it is spelled and read back, short, and its fields name symbols; it is the
/// chosen spelling; direct branches, and they alone, have the distance to a symbol.
pub fn answers()
    ensures right { (rep : Bool) (name : List ℕ) (args : List Argument) (a : Assembled) → assembled rep name args ≡ Ok a → IsRight args a }
    ensures chosen { (rep : Bool) (name : List ℕ) (args : List Argument) (a : Assembled) → assembled rep name args ≡ Ok a → IsFromChosen a }
    ensures branches { (rep : Bool) (name : List ℕ) (args : List Argument) (a : Assembled) →
        assembled rep name args ≡ Ok a → IsBranchRight args a }
{}

/// Each refusal comes exactly where its condition holds of the statement.
pub fn refusals_have_their_conditions()
    ensures unknown { (rep : Bool) (name : List ℕ) (args : List Argument) →
        (assembled rep name args ≡ Err UnknownInstruction) ↔ IsUnknown name }
    ensures refused { (rep : Bool) (name : List ℕ) (args : List Argument) →
        (assembled rep name args ≡ Err RefusedInstruction) ↔ IsRefused name }
    ensures operands { (rep : Bool) (name : List ℕ) (args : List Argument) →
        (assembled rep name args ≡ Err Operands) ↔ IsWithoutRow rep name args }
    ensures range { (rep : Bool) (name : List ℕ) (args : List Argument) →
        (assembled rep name args ≡ Err ValueRange) ↔
        ((IsWithoutRow rep name args → ⊥) × HasUnfitNumber rep name args) }
{}
