//! A 16550 by its registers, with a receiver of 16 bytes. National PC16550D, section 8, as the profile narrows it.

ghost use Rattle.std.specs.Prelude.{◌≡◌, ◌≤◌, true, Some, None, if◌then◌else◌};
ghost use Rattle.ia32_types.specs.declared.stop.Did.TheVariants.{Stop};
ghost use Rattle.uart16550.specs.Ports.{at_reset, divisor_latch_access, waits, interrupt_line, written, read_at, after_read, received};
ghost use Rattle.uart16550.specs.States.{settings_of, registers_of, port_fits};

use crate::settings::Settings;
use arrayvec::ArrayVec;
use ia32_types::{Did, bit};
use std::marker::Model;

/// The serial port.
#[derive(Drop)]
pub struct Uart {
    /// Bit 0 of the interrupt enable register: a byte that waits raises the line.
    interrupt_enable: bool,
    line_control: u8,
    modem_control: u8,
    scratch: u8,
    divisor_latch_low: u8,
    divisor_latch_high: u8,
    /// The bytes that wait, oldest first.
    kept: ArrayVec<u8, 16>,
}

impl Model for Uart {
    ghost use Rattle.std.specs.Prelude.{◌<◌, ◌≤◌, length};
    ghost use Rattle.uart16550.specs.Registers.{Registers, room};

    ghost Value = { Registers };

    ghost view = { λ u. record {
      interrupt_enable = u.interrupt_enable;
      line_control = u.line_control;
      modem_control = u.modem_control;
      scratch = u.scratch;
      divisor_latch_low = u.divisor_latch_low;
      divisor_latch_high = u.divisor_latch_high;
      kept = u.kept.items;
    } };

    // Bits 4 to 7 of the modem control register are 0.
    ghost invariant = { λ u. (u.modem_control < 16) × (length u.kept.items ≤ room) };
}

impl Uart {
    /// All registers start at 0.
    pub fn new() -> Uart
        ensures { result ≡ at_reset }
    {
        Uart {
            interrupt_enable: false,
            line_control: 0,
            modem_control: 0,
            scratch: 0,
            divisor_latch_low: 0,
            divisor_latch_high: 0,
            kept: ArrayVec::new(),
        }
    }

    /// What the registers were set to.
    pub fn settings(&self) -> Settings
        ensures state { result ≡ settings_of self.now }
        ensures fits { port_fits result.modem_control self.now.kept ≡ true }
    {
        Settings {
            interrupt_enable: self.interrupt_enable,
            line_control: self.line_control,
            modem_control: self.modem_control,
            scratch: self.scratch,
            divisor_latch_low: self.divisor_latch_low,
            divisor_latch_high: self.divisor_latch_high,
        }
    }

    /// The bytes that wait, oldest first.
    pub fn kept(&self) -> &[u8]
        ensures { result.now ≡ self.now.kept }
    {
        self.kept.as_slice()
    }

    /// The port that was set so, with these bytes waiting. None where it cannot stand so: a bit of the modem control
    /// register above bit 3, or more than 16 bytes.
    pub fn from_settings(settings: Settings, waiting: &[u8]) -> Option<Uart>
        ensures { result ≡ (if port_fits settings.modem_control waiting.now then Some (registers_of settings waiting.now) else None) }
    {
        if settings.modem_control >= 16 {
            return None;
        }
        let mut kept = ArrayVec::new();
        match kept.try_extend_from_slice(waiting) {
            Err(_) => None,
            Ok(()) => Some(Uart {
                interrupt_enable: settings.interrupt_enable,
                line_control: settings.line_control,
                modem_control: settings.modem_control,
                scratch: settings.scratch,
                divisor_latch_low: settings.divisor_latch_low,
                divisor_latch_high: settings.divisor_latch_high,
                kept,
            }),
        }
    }

    /// A write to one of the eight ports 0x3F8 to 0x3FF. Others are ignored. A byte that the board doesn't serve stops
    /// and changes nothing.
    #[tactic(auto, unfolding(crate::specs::Ports::written))]
    pub fn write(&mut self, port: u16, v: u8) -> Did
        ensures written { written self.old port v ≡ (result, self.new) }
        ensures stopped { result ≡ Stop → self.new ≡ self.old }
    {
        match port {
            0x3F8 => {
                if !self.divisor_latch_access() {
                    return Did::Sent(v);
                }
                self.divisor_latch_low = v;
            }
            0x3F9 => {
                if self.divisor_latch_access() {
                    self.divisor_latch_high = v;
                } else if v <= 1 {
                    self.interrupt_enable = v == 1;
                } else {
                    return Did::Stop;
                }
            }
            0x3FA => {
                if bit(v, 1) {
                    self.kept.clear();
                }
            }
            0x3FB => self.line_control = v,
            0x3FC => {
                if bit(v, 4) {
                    return Did::Stop;
                }
                self.modem_control = v % 16;
            }
            0x3FF => self.scratch = v,
            _ => {}
        }
        Did::Done
    }

    /// A read of one of the eight ports. Others read all ones.
    #[tactic(auto, unfolding(crate::specs::Ports::read_at, crate::specs::Ports::after_read))]
    pub fn read(&mut self, port: u16) -> u8
        ensures value { result ≡ read_at self.old port }
        ensures after { self.new ≡ after_read self.old port }
    {
        match port {
            0x3F8 => {
                if self.divisor_latch_access() {
                    self.divisor_latch_low
                } else if self.kept.is_empty() {
                    0
                } else {
                    self.kept.remove(0)
                }
            }
            0x3F9 => {
                if self.divisor_latch_access() {
                    self.divisor_latch_high
                } else if self.interrupt_enable {
                    1
                } else {
                    0
                }
            }
            0x3FA => if self.line() { 4 } else { 1 },
            0x3FB => self.line_control,
            0x3FC => self.modem_control,
            0x3FD => if self.waits() { 0x61 } else { 0x60 },
            0x3FE => 0xB0,
            0x3FF => self.scratch,
            _ => 0xFF,
        }
    }

    /// A byte from the line. It is lost where there is no room.
    #[tactic(auto, unfolding(crate::specs::Ports::received))]
    pub fn receive(&mut self, v: u8)
        ensures { self.new ≡ received self.old v }
    {
        if self.kept.len() < 16 {
            self.kept.push(v);
        }
    }

    /// Whether the port requests an interrupt.
    pub fn line(&self) -> bool
        ensures { result ≡ interrupt_line self.now }
    {
        self.interrupt_enable && self.waits()
    }

    fn divisor_latch_access(&self) -> bool
        ensures { result ≡ divisor_latch_access self.now }
    {
        bit(self.line_control, 7)
    }

    fn waits(&self) -> bool
        ensures { result ≡ waits self.now }
    {
        !self.kept.is_empty()
    }
}
