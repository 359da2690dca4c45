//! The sites of a text, patched in memory.

ghost use Rattle.std.specs.Prelude.{◌≡◌, ◌≤◌, ◌<◌, ◌+◌, ◌^◌, length};
ghost use Rattle.guest_ram.specs.Bytes.{with_part};
ghost use Rattle.sites.specs.Patched.{patch_bytes, patched};
ghost use Rattle.sites.specs.Room.{AreInside};

use crate::site::Sites;
use guest_ram::Ram;

fn patch_site(ram: &mut Ram, at: u32, total: u8)
    requires size { 5 ≤ total }
    requires inside { at + total ≤ length ram.old }
    ensures memory { ram.new ≡ with_part ram.old at (patch_bytes total) }
    ensures len { length ram.new ≡ length ram.old }
{
    let _bytes = ram.len();
    ram.write8(at, 0xE9);
    for i in 1..total {
        ram.write8(at + i as u32, 0xF4);
    }
}

/// Patches each site of the text that stands at text_at. All other bytes stay.
pub fn patch(ram: &mut Ram, text_at: u32, sites: &Sites)
    requires { AreInside (length ram.old) text_at sites.now.list }
    ensures memory { ram.new ≡ patched ram.old text_at sites.now.list }
    ensures len { length ram.new ≡ length ram.old }
{
    let _bytes = ram.len();
    for s in &sites.list {
        patch_site(ram, text_at + s.at, s.total);
    }
}
