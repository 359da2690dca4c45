//! Laws of the statement that an instruction is.

ghost use Rattle.std.specs.Prelude.{◌≡◌, ◌<◌, ◌≤◌, ℕ, Bool, false, List, [], ◌∷◌, length, Ok};
ghost use Rattle.std.specs.List.{AllByRecursion};
ghost use Rattle.ia32_types.specs.declared.insn.Insn.{Insn};
ghost use Rattle.ia32_types.specs.Branches.{is_direct_branch};
ghost use Rattle.ia32_types.specs.declared.insn.Op.TheVariants.{Jmp, Call, Jcc};
ghost use Rattle.ia32_rows.specs.Spells.{Spells};
ghost use Rattle.ia32_encode.specs.Short.{by_distance};
ghost use Rattle.ia32_encode.specs.declared.choose.Wide.{Wide};
ghost use Rattle.asm_source.specs.declared.tree.Argument.{Argument};
ghost use Rattle.asm_source.specs.declared.names.TheConstants.{SYMBOL_LIMIT};
ghost use Rattle.asm_source.specs.Names.{names_in};
ghost use Rattle.asm_parse.specs.Source.{Says, SourceAs};
ghost use Rattle.asm_instruction.specs.declared.assembled.Assembled.{Assembled};
ghost use Rattle.asm_instruction.specs.Assembled.{assembled};
ghost use Rattle.ia32_text.specs.Statement.{Statement, statement_of, statement_with};
ghost use Rattle.ia32_text.specs.Listing.{by_labels, item_in, items_from, listing, IsLine, IsSpelledStatement};
ghost use Rattle.ia32_text.specs.Operands.{target};
ghost use Rattle.ia32_text.specs.Arguments.{label_of, labels};
ghost use Rattle.ia32_text.specs.Text.{instruction_text, text_of};
ghost use Rattle.ia32_text.specs.Again.{AssemblesTo, BranchesTo};

/// The statement that an instruction is assembles to it again, in its chosen spelling: of each that bytes spell, and of each that a
/// statement is assembled to, direct branches apart.
pub fn assembles_again()
    ensures spelled { (bytes : List ℕ) (insn : Insn) (at len : ℕ) → Spells bytes insn → is_direct_branch insn.op ≡ false →
        AssemblesTo (statement_of insn at len) insn }
    ensures assembled { (rep : Bool) (name : List ℕ) (args : List Argument) (a : Assembled) (at len : ℕ) → assembled rep name args ≡ Ok a →
        is_direct_branch a.insn.op ≡ false → AssemblesTo (statement_of a.insn at len) a.insn }
{}

/// The statement that a direct branch is assembles to the distance to its target's label.
pub fn branches_again()
    ensures jmp { (distance at len : ℕ) → BranchesTo (statement_of (by_distance Jmp 0 distance) at len)
        (label_of (target distance at len)) (by_distance Jmp 0 distance) }
    ensures call { (distance at len : ℕ) → BranchesTo (statement_of (by_distance Call 0 distance) at len)
        (label_of (target distance at len)) (by_distance Call 0 distance) }
    ensures jcc { (condition distance at len : ℕ) → condition < 16 →
        BranchesTo (statement_of (by_distance Jcc condition distance) at len)
        (label_of (target distance at len)) (by_distance Jcc condition distance) }
{}

/// Where numbers stand as they are and targets by their labels, the text of an instruction is that of its statement.
pub fn statements_as_text()
    ensures { (insn : Insn) (at len : ℕ) → instruction_text labels insn at len ≡ text_of (statement_of insn at len) }
{}

/// The text of an instruction that bytes spell is read back by the grammar of sources: with a direct branch's target by its label, and
/// fields of four bytes as they are or by a label. Alone it is a source of the instruction's statement. As a line of any source it is
/// that statement, whatever stands before and behind it. A source of such lines says their statements, each in its line.
pub fn texts_are_read()
    ensures alone { (bytes : List ℕ) (insn : Insn) (named : Wide) (at len : ℕ) → Spells bytes insn →
        SourceAs (instruction_text (by_labels named) insn at len) (item_in 1 (statement_with (by_labels named) insn at len) ∷ []) }
    ensures line { (s : Statement) (place line : ℕ) → IsSpelledStatement s → IsLine s place line }
    ensures listing { (statements : List Statement) → AllByRecursion IsSpelledStatement statements →
        length (names_in (items_from 1 statements)) ≤ SYMBOL_LIMIT → Says (listing statements) (items_from 1 statements) }
{}
