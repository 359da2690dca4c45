//! Memories whose fronts change places.

ghost use Rattle.std.specs.Prelude.{◌≡◌, ◌*◌, ◌≤◌, length, take};
ghost use Rattle.guest_ram.specs.Bytes.{part, with_part};

use guest_ram::{FRAME, Ram};
use std::mem::swap;

/// Exchanges the first frames of the host's memory with a kernel's. Memories of one length change places whole, and what stands
/// after these frames goes back to the host's: of 64 MB and the pool's 2, those 2 alone are copied.
pub(crate) fn exchange_fronts(host: &mut Ram, ram: &mut Ram, frames: u32)
    requires mine { 4096 * frames ≤ length ram.old }
    requires room { 4096 * frames ≤ length host.old }
    ensures host { host.new ≡ with_part host.old 0 (part ram.old 0 (4096 * frames)) }
    ensures front { take (4096 * frames) ram.new ≡ take (4096 * frames) host.old }
    ensures len { length ram.new ≡ length ram.old }
    ensures size { length host.new ≡ length host.old }
{
    let len = host.len();
    if ram.len() != len {
        host.exchange(ram, frames);
        return;
    }
    let at = FRAME * frames;
    swap(host, ram);
    host.put(at, ram.part(at, len - at));
}
