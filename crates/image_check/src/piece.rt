//! What the check asks of an instruction.

ghost use Rattle.ia32_types.specs.Branches.{is_direct_branch};
ghost use Rattle.std.specs.Prelude.{◌≡◌, ◌+◌, ◌<◌, ◌≤◌, ◌^◌, length, drop, IfOk, IsTrue, ◌==◌};
ghost use Rattle.image_check.specs.Pieces.{is_nop, role_of};

use ia32_types::{Insn, Op, SiteKind, sensitive};

/// What an instruction is to the check. A direct branch has the offset in the text to which it leads.
#[derive(Clone, Copy)]
pub enum Role {
    Plain,
    Nop,
    Branch(u32),
    Site(SiteKind),
}

/// An instruction: its offset in the text, its length, and what it is to the check.
#[derive(Clone, Copy)]
pub struct Piece {
    pub at: u32,
    pub len: u8,
    pub role: Role,
}

fn is_direct_branch(op: Op) -> bool
    ensures { result ≡ is_direct_branch op }
{
    matches!(op, Op::Jmp | Op::Call | Op::Jcc)
}

fn is_nop(op: Op) -> bool
    ensures { result ≡ is_nop op }
{
    matches!(op, Op::Nop)
}

/// What an instruction is that stands at an offset.
pub fn role_of(at: u32, len: u8, insn: &Insn) -> Role
    requires { at + len < 2 ^ 32 }
    ensures { result ≡ role_of at len insn.now }
{
    if is_direct_branch(insn.op) {
        return Role::Branch((at + u32::from(len)).wrapping_add(insn.imm));
    }
    if is_nop(insn.op) {
        return Role::Nop;
    }
    match sensitive(insn) {
        Some(kind) => Role::Site(kind),
        None => Role::Plain,
    }
}
