//! Little-endian numbers in bytes.

ghost use Rattle.std.specs.Prelude.{◌≡◌, ◌+◌, ◌≤◌, ◌<◌, length};
ghost use Rattle.guest_ram.specs.Bytes.{byte, word16, word32, with_word32};

/// The byte there.
#[tactic(auto, unfolding(crate::specs::Bytes::byte))]
pub fn byte(bytes: &[u8], at: usize) -> u8
    requires { at < length bytes.now }
    ensures { result ≡ byte bytes.now at }
{
    bytes[at]
}

/// The number of two bytes there.
pub fn half(bytes: &[u8], at: usize) -> u16
    requires { at + 2 ≤ length bytes.now }
    ensures { result ≡ word16 bytes.now at }
{
    let part = &bytes[at..at + 2];
    u16::from_le_bytes([part[0], part[1]])
}

/// The number of four bytes there.
pub fn word(bytes: &[u8], at: usize) -> u32
    requires { at + 4 ≤ length bytes.now }
    ensures { result ≡ word32 bytes.now at }
{
    let part = &bytes[at..at + 4];
    u32::from_le_bytes([part[0], part[1], part[2], part[3]])
}

/// Replaces the number of four bytes there.
pub fn put_word(bytes: &mut [u8], at: usize, word: u32)
    requires { at + 4 ≤ length bytes.old }
    ensures { bytes.new ≡ with_word32 bytes.old at word }
{
    bytes[at..at + 4].copy_from_slice(&word.to_le_bytes());
}
