//! The kinds of sensitive instructions, and the names that are refused.

ghost use Rattle.std.specs.Prelude.{◌≡◌};
ghost use Rattle.ia32_types.specs.Site.{sensitive_kind};

use crate::insn::{Insn, Op};

/// What kind of sensitive instruction stands at a site, in the order of its number from 1.
#[derive(Clone, Copy, PartialEq, Eq)]
pub enum SiteKind {
    Cli = 1,
    Sti,
    StiHlt,
    Hlt,
    PushFlags,
    PopFlags,
    Iret,
    ReadControl,
    WriteControl,
    LoadGdt,
    LoadIdt,
    LoadTask,
    DropPage,
    ReadSeg,
    LoadSeg,
    PushSeg,
    PopSeg,
    FarJump,
    PortIn,
    PortOut,
    Return,
    JumpTo,
    CallTo,
}

/// An instruction that is refused by its name.
#[derive(Clone, Copy, PartialEq, Eq)]
pub enum Refused {
    Rdtsc,
    Cpuid,
    Sgdt,
    Sidt,
    Sldt,
    Str,
    Smsw,
    Lmsw,
    Lldt,
    Verr,
    Verw,
    Lar,
    Lsl,
    Clts,
    Rdmsr,
    Wrmsr,
}

/// The kind of site that the instruction makes, if it is sensitive. The pair of STI and HLT is two
/// instructions, so `StiHlt` is never the answer.
pub fn sensitive(insn: &Insn) -> Option<SiteKind>
    ensures { result ≡ sensitive_kind insn.now }
{
    match insn.op {
        Op::Cli => Some(SiteKind::Cli),
        Op::Sti => Some(SiteKind::Sti),
        Op::Hlt => Some(SiteKind::Hlt),
        Op::PushFlags => Some(SiteKind::PushFlags),
        Op::PopFlags => Some(SiteKind::PopFlags),
        Op::Iret => Some(SiteKind::Iret),
        Op::ReadControl => Some(SiteKind::ReadControl),
        Op::WriteControl => Some(SiteKind::WriteControl),
        Op::LoadGdt => Some(SiteKind::LoadGdt),
        Op::LoadIdt => Some(SiteKind::LoadIdt),
        Op::LoadTask => Some(SiteKind::LoadTask),
        Op::DropPage => Some(SiteKind::DropPage),
        Op::ReadSeg => Some(SiteKind::ReadSeg),
        Op::LoadSeg => Some(SiteKind::LoadSeg),
        Op::PushSeg => Some(SiteKind::PushSeg),
        Op::PopSeg => Some(SiteKind::PopSeg),
        Op::FarJump => Some(SiteKind::FarJump),
        Op::PortIn => Some(SiteKind::PortIn),
        Op::PortOut => Some(SiteKind::PortOut),
        Op::Return => Some(SiteKind::Return),
        Op::JumpTo => Some(SiteKind::JumpTo),
        Op::CallTo => Some(SiteKind::CallTo),
        _ => None,
    }
}
