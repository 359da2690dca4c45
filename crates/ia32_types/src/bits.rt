//! Bits of a byte, and numbers extended by their sign.

ghost use Rattle.std.specs.Prelude.{◌≡◌, ◌<◌};
ghost use Rattle.ia32_types.specs.Bits.{bit, with_bit, sign_extended};
ghost use Rattle.ia32_types.specs.Size.{span};

use crate::size::Size;

/// Whether bit `at` of a register is set.
#[tactic(auto)]
pub fn bit(register: u8, at: u8) -> bool
    requires { at < 8 }
    ensures { result ≡ bit register at }
{
    (register >> at) % 2 == 1
}

/// A register with one bit made new.
#[tactic(auto, using(crate::proofs::OneBit::set_is, crate::proofs::OneBit::cleared_is))]
pub fn with_bit(register: u8, at: u8, value: bool) -> u8
    requires { at < 8 }
    ensures { result ≡ with_bit register at value }
{
    if value {
        register | (1 << at)
    } else {
        register & !(1 << at)
    }
}

/// A number of the size with copies of its sign up to 32 bits.
pub fn sign_extended_32(size: Size, n: u32) -> u32
    requires { n < span size }
    ensures { result ≡ sign_extended 32 size n }
{
    if u64::from(n) < size.top() {
        n
    } else {
        n + (0x1_0000_0000 - size.span()) as u32
    }
}

/// A number of the size with copies of its sign up to 64 bits.
pub fn sign_extended_64(size: Size, n: u64) -> u64
    requires { n < span size }
    ensures { result ≡ sign_extended 64 size n }
{
    if n < size.top() {
        n
    } else {
        n + (u64::MAX - size.span() + 1)
    }
}
