//! The memory from which a walk reads its tables.

ghost use Rattle.std.specs.Prelude.{◌≡◌, ◌+◌, ◌≤◌, ℕ, List, length};
ghost use Rattle.guest_ram.specs.Bytes.{word32};

use guest_ram::Ram;

/// Memory whose words a walk reads.
pub trait Words {
    /// Its bytes.
    ghost bytes: { Self → List ℕ };

    /// The word of four bytes at a place, the lowest byte first.
    fn word(&self, at: u32) -> u32
        requires { at + 4 ≤ length (bytes self.now) }
        ensures { result ≡ word32 (bytes self.now) at };
}

impl Words for Ram {
    ghost bytes = { λ bytes. bytes };

    fn word(&self, at: u32) -> u32 {
        self.read32(at)
    }
}
