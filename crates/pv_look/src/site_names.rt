//! The names of the kinds of sites.

ghost use Rattle.std.specs.Prelude.{◌≡◌, ◌≤◌, length};
ghost use Rattle.pv_look.specs.SiteNames as spec;

use ia32_types::SiteKind;

/// The name of a kind of sites, as in docs/LOOK.md.
#[tactic(auto, unfolding(crate::specs::SiteNames::site_name))]
pub fn site_name(kind: SiteKind) -> &'static [u8]
    ensures name { result.now ≡ spec.site_name kind }
    ensures len { length result.now ≤ 12 }
{
    match kind {
        SiteKind::Cli => b"Cli",
        SiteKind::Sti => b"Sti",
        SiteKind::StiHlt => b"StiHlt",
        SiteKind::Hlt => b"Hlt",
        SiteKind::PushFlags => b"PushFlags",
        SiteKind::PopFlags => b"PopFlags",
        SiteKind::Iret => b"Iret",
        SiteKind::ReadControl => b"ReadControl",
        SiteKind::WriteControl => b"WriteControl",
        SiteKind::LoadGdt => b"LoadGdt",
        SiteKind::LoadIdt => b"LoadIdt",
        SiteKind::LoadTask => b"LoadTask",
        SiteKind::DropPage => b"DropPage",
        SiteKind::ReadSeg => b"ReadSeg",
        SiteKind::LoadSeg => b"LoadSeg",
        SiteKind::PushSeg => b"PushSeg",
        SiteKind::PopSeg => b"PopSeg",
        SiteKind::FarJump => b"FarJump",
        SiteKind::PortIn => b"PortIn",
        SiteKind::PortOut => b"PortOut",
        SiteKind::Return => b"Return",
        SiteKind::JumpTo => b"JumpTo",
        SiteKind::CallTo => b"CallTo",
    }
}
