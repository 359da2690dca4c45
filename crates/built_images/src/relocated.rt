//! The fields of four bytes of a spelling.

ghost use Rattle.std.specs.Prelude.{◌≡◌, ◌+◌, ◌≤◌, ◌<◌, ◌^◌, ℕ, List, length};
ghost use Rattle.std.specs.List.{Contains};
ghost use Rattle.ia32_encode.specs.Text.{offset_of};
ghost use Rattle.guest_ram.specs.Bytes.{word32, with_word32};
ghost use Rattle.ia32_types.specs.declared.insn.Insn.{Insn};
ghost use Rattle.ia32_types.specs.Site.{sensitive_kind};
ghost use Rattle.ia32_rows.specs.declared.row.Row.{Row};
ghost use Rattle.ia32_rows.specs.declared.row.Parts.{Parts};
ghost use Rattle.ia32_rows.specs.Fields.{imm_len};
ghost use Rattle.ia32_rows.specs.Rows.{rows};
ghost use Rattle.ia32_rows.specs.Spells.{SpellsBy};
ghost use Rattle.built_images.specs.Fields.{disp_place, imm_place, with_disp, with_imm, insn_disp, insn_imm};

/// A spelling whose displacement or immediate of four bytes gets another number spells, by the same row and in as many
/// bytes, the instruction with that number; and the four bytes that stand there are the number that it has.
pub fn fields()
    ensures disp { (row : Row) (p : Parts) (bytes : List ℕ) (insn : Insn) → Contains rows row
        → SpellsBy row p bytes insn → p.disp_len ≡ 4 → (n : ℕ) → n < 2 ^ 32
        → SpellsBy row (with_disp n p) (with_word32 bytes (disp_place row bytes) n) (insn_disp n insn) }
    ensures imm { (row : Row) (p : Parts) (bytes : List ℕ) (insn : Insn) → Contains rows row
        → SpellsBy row p bytes insn → imm_len row.form.immediate ≡ 4 → (n : ℕ) → n < 2 ^ 32
        → SpellsBy row (with_imm n p) (with_word32 bytes (imm_place row bytes) n) (insn_imm n insn) }
    ensures disp_is { (row : Row) (p : Parts) (bytes : List ℕ) (insn : Insn) → Contains rows row
        → SpellsBy row p bytes insn → p.disp_len ≡ 4 → (disp_place row bytes + 4 ≤ length bytes)
        × (word32 bytes (disp_place row bytes) ≡ offset_of p.rm) }
    ensures imm_is { (row : Row) (p : Parts) (bytes : List ℕ) (insn : Insn) → Contains rows row
        → SpellsBy row p bytes insn → imm_len row.form.immediate ≡ 4 → (imm_place row bytes + 4 ≤ length bytes)
        × (word32 bytes (imm_place row bytes) ≡ p.imm) }
    ensures length { (bytes : List ℕ) (at n : ℕ) → at + 4 ≤ length bytes → length (with_word32 bytes at n) ≡ length bytes }
    ensures same_site { (insn : Insn) (n : ℕ) → (sensitive_kind (insn_disp n insn) ≡ sensitive_kind insn)
        × (sensitive_kind (insn_imm n insn) ≡ sensitive_kind insn) }
{}
