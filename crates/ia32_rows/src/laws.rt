//! Laws of spellings: one meaning, no prefixes, lengths, pieces, shapes, and which instructions are sites.

ghost use Rattle.std.specs.Prelude.{◌≡◌, ◌<◌, ◌≤◌, ◌↔◌, ℕ, List, [], ◌++◌, length, Some, Ok};
ghost use Rattle.ia32_types.specs.declared.insn.Insn.{Insn};
ghost use Rattle.ia32_types.specs.Site.{sensitive_kind};
ghost use Rattle.ia32_types.specs.declared.site.SiteKind.{SiteKind};
ghost use Rattle.std.specs.List.{Contains};
ghost use Rattle.ia32_rows.specs.declared.row.Row.{Row};
ghost use Rattle.ia32_rows.specs.declared.row.Parts.{Parts};
ghost use Rattle.ia32_rows.specs.Spelling.{parts_at};
ghost use Rattle.ia32_rows.specs.Pieces.{IsLaidOut};
ghost use Rattle.ia32_rows.specs.Sites.{IsSite};
ghost use Rattle.ia32_rows.specs.Rows.{rows, refused_rows};
ghost use Rattle.ia32_rows.specs.Spells.{Spells};
ghost use Rattle.ia32_types.specs.declared.insn.Op.{Op};
ghost use Rattle.ia32_types.specs.Places.{OperandsFit};
ghost use Rattle.ia32_types.specs.Shape.{IsShaped, IsDone, IsPlain, IsFlagImage};

use crate::table::{REFUSED_ROWS, ROWS};

/// The code's table is that of the definitions.
#[tactic(auto, unfolding(crate::specs::Rows::rows, crate::specs::Rows::refused_rows))]
pub fn same_table()
    ensures instructions { ROWS ≡ rows }
    ensures refused { REFUSED_ROWS ≡ refused_rows }
{}

/// No list of bytes spells two instructions.
pub fn one_meaning()
    ensures { (bytes : List ℕ) (i j : Insn) → Spells bytes i → Spells bytes j → i ≡ j }
{}

/// No spelling is a proper prefix of another.
pub fn prefix_free()
    ensures { (bytes more : List ℕ) (i j : Insn) → Spells bytes i → Spells (bytes ++ more) j → more ≡ [] }
{}

/// No spelling is empty, and none is longer than eleven bytes.
pub fn lengths()
    ensures some { (bytes : List ℕ) (insn : Insn) → Spells bytes insn → 0 < length bytes }
    ensures most { (bytes : List ℕ) (insn : Insn) → Spells bytes insn → length bytes ≤ 11 }
{}

/// Of what bytes spell, the instructions of the list of sites are those that `sensitive` names, each
/// with the kind that it has in the list.
pub fn site_kinds()
    ensures { (bytes : List ℕ) (insn : Insn) (kind : SiteKind) → Spells bytes insn →
        (sensitive_kind insn ≡ Some kind) ↔ IsSite bytes insn kind }
{}

/// The bytes of a row are its pieces, one after the other.
pub fn in_pieces()
    ensures { (row : Row) → Contains rows row → (p : Parts) (bytes : List ℕ) →
        (parts_at row.form bytes ≡ Ok (p, [])) ↔ IsLaidOut row.form p bytes }
{}

/// What is spelled names registers below 8, and has at most one operand in memory.
pub fn shapes()
    ensures { (bytes : List ℕ) (insn : Insn) → Spells bytes insn → IsShaped insn }
{}

/// Where a jump, a call or a read of a segment register takes a place, what is spelled has a register or memory there,
/// and a segment register where the row has one.
pub fn operands_fit()
    ensures { (bytes : List ℕ) (insn : Insn) → Spells bytes insn → OperandsFit insn.op insn.a insn.b }
{}

/// The instructions that are done by registers and memory alone are those that are not sensitive, but for
/// INT and INT3, and PUSHF and POPF.
pub fn done_by_registers()
    ensures plain { (op : Op) → IsPlain op → IsDone op }
    ensures images { (op : Op) → IsFlagImage op → IsDone op }
{}
