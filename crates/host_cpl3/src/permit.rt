//! Instructions that the host doesn't do.

ghost use Rattle.std.specs.Prelude.{◌≡◌, OnOk};
ghost use Rattle.ia32_exec.specs.UserEffect.{IsUserDone};
ghost use Rattle.host_cpl3.specs.Permit.{permitted};
ghost use Rattle.host_cpl3.specs.Views.{protection, limit_fault};

use crate::exit::Exit;
use ia32_types::{Insn, Op, Seg};

/// The general protection fault without a selector.
pub fn protection() -> Exit
    ensures { result ≡ protection }
{
    Exit::Fault {
        vector: 13,
        code: 0,
        cr2: 0,
    }
}

/// The fault of an access past its segment's limit.
pub fn limit_fault(seg: Seg) -> Exit
    ensures { result ≡ limit_fault seg }
{
    match seg {
        Seg::Ss => Exit::Fault {
            vector: 12,
            code: 0,
            cr2: 0,
        },
        _ => protection(),
    }
}

/// Whether the host does it at all.
#[tactic(auto, unfolding(crate::specs::Permit::permitted))]
#[inline(always)]
pub fn permitted(insn: &Insn) -> Result<(), Exit>
    ensures met { result ≡ permitted insn.now }
    ensures done { OnOk result (IsUserDone insn.now.op) }
{
    match insn.op {
        Op::Int => Err(Exit::Soft((insn.imm % 256) as u8)),
        Op::Int3 => Err(Exit::Soft(3)),
        Op::Cli
        | Op::Sti
        | Op::Hlt
        | Op::Iret
        | Op::ReadControl
        | Op::WriteControl
        | Op::LoadGdt
        | Op::LoadIdt
        | Op::LoadTask
        | Op::DropPage
        | Op::LoadSeg
        | Op::PopSeg
        | Op::FarJump
        | Op::PortIn
        | Op::PortOut => Err(protection()),
        _ => Ok(()),
    }
}
