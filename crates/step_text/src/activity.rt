//! What the processor does in a step.

use ia32_types::Insn;

/// What the processor does in a step.
#[derive(Clone, Copy)]
pub enum Activity {
    /// It is halted, and waits for an interrupt.
    Waits,
    /// It takes the interrupt of this vector.
    Takes(u8),
    /// It carries out this instruction, which has so many bytes.
    CarriesOut(Insn, u8),
    /// The bytes at EIP are no instruction that is supported.
    Unsupported,
    /// EIP's page has no translation, or one through which this level may not fetch.
    Unfetched,
}
