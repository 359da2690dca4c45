//! One 8259A: its registers, and each byte that is written to it or read. Intel 8259A data sheet: command words,
//! reading the status.

ghost use Rattle.std.specs.Prelude.{◌≡◌, ◌<◌, IfSome};
ghost use Rattle.pic8259.specs.Chips.{unstarted, started, ended_at, even_written, odd_written, even_read_of, with_request, highest_request, served, after_raised};
ghost use Rattle.pic8259.specs.Writes.{ChipWritten};
ghost use Rattle.pic8259.specs.Requests.{IsChip, chip_fits};

use crate::level::{highest, unblocked};
use crate::phase::Phase;
use ia32_types::{Did, with_bit};

/// Which register a read of the even port gives.
#[derive(Clone, Copy)]
pub enum Selected {
    InterruptRequest,
    InService,
}

/// One controller. In its interrupt request, in-service and interrupt mask registers bit n stands for level n.
#[derive(Clone, Copy)]
pub struct Chip {
    pub phase: Phase,
    /// It was ready at some time, and raises requests since then.
    pub once_ready: bool,
    pub interrupt_request: u8,
    pub in_service: u8,
    /// A level whose bit is set raises nothing.
    pub interrupt_mask: u8,
    /// The vector of level 0.
    pub base: u8,
    /// The register that a read of the even port gives.
    pub selected: Selected,
}

impl Chip {
    /// A controller before its first start.
    pub(crate) fn new() -> Chip
        ensures { result ≡ unstarted }
    {
        Chip {
            phase: Phase::Never,
            once_ready: false,
            interrupt_request: 0,
            in_service: 0,
            interrupt_mask: 0xFF,
            base: 0,
            selected: Selected::InterruptRequest,
        }
    }

    /// Whether its phase goes with having been ready, and its base is that of eight vectors.
    pub(crate) fn fits(&self) -> bool
        ensures { result ≡ chip_fits self.now }
    {
        let phase_fits = match self.phase {
            Phase::Never => !self.once_ready,
            Phase::AwaitsBase | Phase::AwaitsCascade | Phase::AwaitsMode => true,
            Phase::Ready => self.once_ready,
        };
        self.base % 8 == 0 && phase_fits
    }

    fn start(&mut self)
        ensures { self.new ≡ started self.old }
    {
        self.phase = Phase::AwaitsBase;
        self.interrupt_request = 0;
        self.in_service = 0;
        self.interrupt_mask = 0;
        self.selected = Selected::InterruptRequest;
    }

    fn end(&mut self, level: Option<u8>)
        requires { IfSome level (λ l. l < 8) }
        ensures { self.new ≡ ended_at self.old level }
    {
        if let Some(level) = level {
            self.in_service = with_bit(self.in_service, level, false);
        }
    }

    /// A byte at the even port.
    #[tactic(auto, unfolding(crate::specs::Chips::even_written))]
    pub(crate) fn write_even(&mut self, v: u8) -> Did
        requires { IsChip self.old }
        ensures written { ChipWritten self.old (even_written self.old v) result self.new }
        ensures chip { IsChip self.new }
    {
        match v {
            0x11 => {
                self.start();
                Did::Done
            }
            0x20 => {
                self.end(highest(self.in_service));
                Did::Done
            }
            0x60..=0x67 => {
                self.end(Some(v - 0x60));
                Did::Done
            }
            0x0A => {
                self.selected = Selected::InterruptRequest;
                Did::Done
            }
            0x0B => {
                self.selected = Selected::InService;
                Did::Done
            }
            _ => Did::Stop,
        }
    }

    /// A byte at the odd port.
    #[tactic(auto, unfolding(crate::specs::Chips::odd_written))]
    pub(crate) fn write_odd(&mut self, cascade: u8, v: u8) -> Did
        requires { IsChip self.old }
        ensures written { ChipWritten self.old (odd_written self.old cascade v) result self.new }
        ensures chip { IsChip self.new }
    {
        match self.phase {
            Phase::Never | Phase::Ready => self.interrupt_mask = v,
            Phase::AwaitsBase => {
                self.base = v - v % 8;
                self.phase = Phase::AwaitsCascade;
            }
            Phase::AwaitsCascade => {
                if v != cascade {
                    return Did::Stop;
                }
                self.phase = Phase::AwaitsMode;
            }
            Phase::AwaitsMode => {
                if v != 1 {
                    return Did::Stop;
                }
                self.phase = Phase::Ready;
                self.once_ready = true;
            }
        }
        Did::Done
    }

    /// What the even port reads.
    pub(crate) fn read_even(&self) -> u8
        ensures { result ≡ even_read_of self.now.selected self.now }
    {
        match self.selected {
            Selected::InterruptRequest => self.interrupt_request,
            Selected::InService => self.in_service,
        }
    }

    /// Makes a level's request or takes it back.
    #[tactic(auto, unfolding(crate::specs::Chips::with_request))]
    pub(crate) fn set_request(&mut self, level: u8, on: bool)
        requires level { level < 8 }
        requires chip { IsChip self.old }
        ensures request { self.new ≡ with_request self.old level on }
        ensures chip { IsChip self.new }
    {
        self.interrupt_request = with_bit(self.interrupt_request, level, on);
    }

    /// The level that the controller raises.
    #[tactic(auto, unfolding(crate::specs::Chips::highest_request))]
    pub(crate) fn highest_request(&self) -> Option<u8>
        ensures value { result ≡ highest_request self.now }
        ensures level { IfSome result (λ l. l < 8) }
    {
        if !self.once_ready {
            return None;
        }
        unblocked(
            highest(self.interrupt_request & !self.interrupt_mask),
            highest(self.in_service),
        )
    }

    /// Moves the request that is raised, if any, into service.
    #[tactic(auto, unfolding(crate::specs::Chips::served))]
    pub(crate) fn acknowledge(&mut self)
        requires { IsChip self.old }
        ensures served { self.new ≡ after_raised self.old (highest_request self.old) }
        ensures chip { IsChip self.new }
    {
        if let Some(level) = self.highest_request() {
            self.interrupt_request = with_bit(self.interrupt_request, level, false);
            self.in_service = with_bit(self.in_service, level, true);
        }
    }
}
