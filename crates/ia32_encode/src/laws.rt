//! Laws of chosen spellings: which of several forms is taken.

ghost use Rattle.std.specs.Prelude.{◌≡◌, ◌+◌, ◌*◌, ◌%◌, ◌<◌, ◌∷◌, [], ℕ, Bool, true, Some, None};
ghost use Rattle.ia32_types.specs.declared.insn.Op.TheVariants.{Return, Push, Pop, Mov, Jmp, Call, Jcc};
ghost use Rattle.ia32_types.specs.declared.insn.Operand.TheVariants.{Absent, Register, Memory};
ghost use Rattle.ia32_types.specs.declared.insn.Address.{Address};
ghost use Rattle.ia32_types.specs.declared.size.Size.TheVariants.{Byte, Word, Long};
ghost use Rattle.ia32_encode.specs.Short.{with_operand, by_distance, arithmetic, with_number, with_registers, plain, with_wide, with_displacement, bare, Begins, IsSpelledByDigit};
ghost use Rattle.ia32_encode.specs.Text.{is_signed_byte};
ghost use Rattle.ia32_encode.specs.Parts.{address_fits};
ghost use Rattle.ia32_types.specs.declared.insn.Insn.{Insn};
ghost use Rattle.ia32_encode.specs.declared.bytes.ArrayBytes.{ArrayBytes};
ghost use Rattle.ia32_encode.specs.declared.choose.Wide.{Wide};
ghost use Rattle.ia32_encode.specs.Chosen.{chosen};
ghost use Rattle.ia32_encode.specs.Good.{IsBounded, IsChosen, IsGood, NoneSuits};

/// What the function answers is the chosen spelling; where it answers none, no row suits.
pub fn choices()
    ensures some { (wide : Wide) (insn : Insn) (a : ArrayBytes) → chosen wide insn ≡ Some a → IsBounded insn → IsGood wide insn a }
    ensures first { (wide : Wide) (insn : Insn) (a : ArrayBytes) → IsChosen wide insn a → chosen wide insn ≡ Some a }
    ensures none { (wide : Wide) (insn : Insn) → chosen wide insn ≡ None → NoneSuits wide insn }
{}

/// RET without a number takes C3; PUSH and POP of a register take the short form.
#[tactic(auto, using(crate::proofs::ShortForms::ret_is_one_byte, crate::proofs::ShortForms::push_is_one_byte, crate::proofs::ShortForms::pop_is_one_byte))]
pub fn short_forms()
    ensures ret { chosen plain (with_operand Return Absent) ≡ Some (bare (0xc3 ∷ [])) }
    ensures push { (n : ℕ) → n < 8 → chosen plain (with_operand Push (Register n)) ≡ Some (bare ((0x50 + n) ∷ [])) }
    ensures pop { (n : ℕ) → n < 8 → chosen plain (with_operand Pop (Register n)) ≡ Some (bare ((0x58 + n) ∷ [])) }
{}

/// JMP, CALL and Jcc by a distance take E9, E8 and 0F 80 + c, however short the distance.
#[tactic(auto, using(crate::proofs::ShortForms::long_branches))]
pub fn branches_are_long()
    ensures jmp { (w : Bool) (distance : ℕ) → Begins (0xe9 ∷ []) 5 (chosen (with_wide w) (by_distance Jmp 0 distance)) }
    ensures call { (w : Bool) (distance : ℕ) → Begins (0xe8 ∷ []) 5 (chosen (with_wide w) (by_distance Call 0 distance)) }
    ensures jcc { (w : Bool) (condition distance : ℕ) → condition < 16 →
        Begins (0x0f ∷ (0x80 + condition) ∷ []) 6 (chosen (with_wide w) (by_distance Jcc condition distance)) }
{}

/// ADD, OR, ADC, SBB, AND, SUB, XOR and CMP of a register, or of what an address names, and a number that
/// fits a signed byte take `83 /digit ib`: the number in one byte, whether or not the displacement names a
/// symbol.
#[tactic(auto, using(crate::proofs::SecondOperand::short_number, crate::proofs::SecondOperand::short_number_at))]
pub fn numbers_are_short()
    ensures register { (k n imm : ℕ) → k < 8 → n < 8 → is_signed_byte imm ≡ true →
        Begins (0x83 ∷ (0xc0 + 8 * k + n) ∷ (imm % 256) ∷ []) 3
        (chosen plain (with_number (arithmetic k) (Register n) imm)) }
    ensures memory { (w : Bool) (k imm : ℕ) (a : Address) → k < 8 → address_fits a ≡ true → is_signed_byte imm ≡ true →
        IsSpelledByDigit 0x83 k imm (chosen (with_displacement w) (with_number (arithmetic k) (Memory a) imm)) }
{}

/// Between two registers the r/m field names the destination.
#[tactic(auto, using(crate::proofs::SecondOperand::into_rm))]
pub fn destinations_are_in_rm()
    ensures arithmetic { (k m n : ℕ) → k < 8 → m < 8 → n < 8 →
        Begins ((8 * k + 1) ∷ (0xc0 + 8 * n + m) ∷ []) 2 (chosen plain (with_registers (arithmetic k) Long m n)) }
    ensures arithmetic_bytes { (k m n : ℕ) → k < 8 → m < 8 → n < 8 →
        Begins ((8 * k) ∷ (0xc0 + 8 * n + m) ∷ []) 2 (chosen plain (with_registers (arithmetic k) Byte m n)) }
    ensures moved { (m n : ℕ) → m < 8 → n < 8 → Begins (0x89 ∷ (0xc0 + 8 * n + m) ∷ []) 2 (chosen plain (with_registers Mov Long m n)) }
    ensures moved_bytes { (m n : ℕ) → m < 8 → n < 8 →
        Begins (0x88 ∷ (0xc0 + 8 * n + m) ∷ []) 2 (chosen plain (with_registers Mov Byte m n)) }
    ensures moved_words { (m n : ℕ) → m < 8 → n < 8 →
        Begins (0x66 ∷ 0x89 ∷ (0xc0 + 8 * n + m) ∷ []) 3 (chosen plain (with_registers Mov Word m n)) }
{}

/// ADD, OR, ADC, SBB, AND, SUB, XOR and CMP have no form of 16 bits (profile).
#[tactic(auto, using(crate::proofs::SecondOperand::no_words))]
pub fn arithmetic_has_no_words()
    ensures { (wide : Wide) (k : ℕ) (insn : Insn) → insn.op ≡ arithmetic k → insn.size ≡ Word → chosen wide insn ≡ None }
{}
