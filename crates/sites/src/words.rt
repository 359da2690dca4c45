//! Bytes of a file that may end before them.

ghost use Rattle.std.specs.Prelude.{◌≡◌};
ghost use Rattle.guest_ram.specs.Bytes.{byte};

/// The byte there, or 0 past the end.
#[tactic(auto, unfolding(guest_ram::specs::Bytes::byte))]
pub fn byte_or_zero(bytes: &[u8], at: usize) -> u8
    ensures { result ≡ byte bytes.now at }
{
    bytes.get(at).copied().unwrap_or(0)
}
