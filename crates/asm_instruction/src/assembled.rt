//! What is answered for a statement.

use ia32_encode::ArrayBytes;
use ia32_types::Insn;

/// Why a statement is no instruction. Of several causes the first is answered.
#[derive(Clone, Copy, PartialEq, Eq)]
pub enum Refusal {
    /// The name is none that is known.
    UnknownInstruction,
    /// The name is that of an instruction which is refused by its name.
    RefusedInstruction,
    /// No row of the opcode table has such operands.
    Operands,
    /// A number doesn't fit its field.
    ValueRange,
}

/// A field of four bytes that holds a constant to which a symbol's address is added.
#[derive(Clone, Copy)]
pub struct Named {
    /// Its place in the spelling.
    pub at: u8,
    /// The number of the argument that names the symbol, from 0.
    pub argument: u8,
    /// Whether the distance to the symbol is meant, as in direct branches.
    pub relative: bool,
}

/// An instruction in its chosen spelling, with the fields that name symbols.
#[derive(Clone, Copy)]
pub struct Assembled {
    pub spelling: ArrayBytes,
    pub insn: Insn,
    /// The displacement, where it names a symbol.
    pub disp: Option<Named>,
    /// The immediate or distance, where it names a symbol.
    pub imm: Option<Named>,
}
