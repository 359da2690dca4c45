//! What a serial port was set to. National PC16550D, section 8.

/// What the registers were set to.
#[derive(Clone, Copy)]
pub struct Settings {
    /// Bit 0 of the interrupt enable register.
    pub interrupt_enable: bool,
    /// The line control register.
    pub line_control: u8,
    /// The modem control register, of which bits 0 to 3 are kept.
    pub modem_control: u8,
    /// The scratch register.
    pub scratch: u8,
    /// The two bytes of the divisor latch. They are kept, and change no speed (profile).
    pub divisor_latch_low: u8,
    pub divisor_latch_high: u8,
}
