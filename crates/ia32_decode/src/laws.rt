//! Laws of `decode` over the spellings.

ghost use Rattle.std.specs.Prelude.{◌≡◌, ℕ, List, ◌++◌, length};
ghost use Rattle.ia32_types.specs.declared.insn.Insn.{Insn};
ghost use Rattle.ia32_rows.specs.Spells.{Spells, AreBytes};
ghost use Rattle.ia32_decode.specs.declared.answer.Decoded.{Decoded};
ghost use Rattle.ia32_decode.specs.declared.answer.Decoded.TheVariants as answer;
ghost use Rattle.ia32_decode.specs.Answer.{Begins, Answers};
ghost use Rattle.ia32_decode.specs.Decoding.{decoded};

/// What is spelled begins whatever follows it, and `decode` answers it there.
pub fn reads_back()
    ensures begins { (bytes more : List ℕ) (insn : Insn) → Spells bytes insn → Begins (bytes ++ more) insn (length bytes) }
    ensures answer { (bytes more : List ℕ) (insn : Insn) → Spells bytes insn → decoded (bytes ++ more) ≡ answer.Insn insn (length bytes) }
{}

/// The answer as a function is right for each list of bytes.
pub fn answers()
    ensures { (bytes : List ℕ) → AreBytes bytes → Answers (decoded bytes) bytes }
{}
