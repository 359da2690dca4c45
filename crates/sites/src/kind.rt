//! The kinds of sites and their numbers.

ghost use Rattle.std.specs.Prelude.{◌≡◌};
ghost use Rattle.sites.specs.Kinds.{number, kind_numbered};

use ia32_types::SiteKind;

/// The kinds in the order of their numbers, from 1.
const KINDS: [SiteKind; 23] = [
    SiteKind::Cli,
    SiteKind::Sti,
    SiteKind::StiHlt,
    SiteKind::Hlt,
    SiteKind::PushFlags,
    SiteKind::PopFlags,
    SiteKind::Iret,
    SiteKind::ReadControl,
    SiteKind::WriteControl,
    SiteKind::LoadGdt,
    SiteKind::LoadIdt,
    SiteKind::LoadTask,
    SiteKind::DropPage,
    SiteKind::ReadSeg,
    SiteKind::LoadSeg,
    SiteKind::PushSeg,
    SiteKind::PopSeg,
    SiteKind::FarJump,
    SiteKind::PortIn,
    SiteKind::PortOut,
    SiteKind::Return,
    SiteKind::JumpTo,
    SiteKind::CallTo,
];

/// The number of a kind.
pub fn number(kind: SiteKind) -> u8
    ensures { result ≡ number kind }
{
    kind as u8
}

/// The kind of a number, if it is one of 1 to 23.
pub fn kind_numbered(n: u8) -> Option<SiteKind>
    ensures { result ≡ kind_numbered n }
{
    if n == 0 || n > 23 {
        return None;
    }
    Some(KINDS[n as usize - 1])
}
