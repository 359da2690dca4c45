//! The bytes that an instruction may read.

use crate::reach::Reach;
use guest_ram::Ram;
use ia32_exec::LinearBytes;

/// Memory with the two ranges that were reached: what is read alone, and what is written.
#[derive(Drop)]
pub struct Bytes<'a> {
    pub ram: &'a Ram,
    pub root: u32,
    pub read: Reach,
    pub write: Reach,
}

impl LinearBytes for Bytes<'_> {
    ghost use Rattle.host_cpl3.specs.Pages.{byte_at};
    ghost use Rattle.host_cpl3.specs.Reaches.{IsRead};

    ghost byte = { λ b at. byte_at b.ram.now b.root at };

    ghost readable = { λ b at. IsRead b.ram.now b.root b.read b.write at };

    ghost read_in_space = { λ b at h. h.space };

    #[tactic(auto, unfolding(crate::specs::Pages::byte_at))]
    fn byte(&self, at: u32) -> u32 {
        let place = if self.read.holds(at) {
            self.read.placed(at)
        } else {
            self.write.placed(at)
        };
        u32::from(self.ram.read8(place))
    }
}
