//! The two controllers of the board, by their ports and lines. Intel 8259A data sheet: cascade mode.

ghost use Rattle.std.specs.Prelude.{◌≡◌, ◌<◌, ◌≢◌, true, Some, None, IsSome, if◌then◌else◌};
ghost use Rattle.ia32_types.specs.declared.stop.Did.TheVariants.{Stop};
ghost use Rattle.pic8259.specs.Chips.{unstarted};
ghost use Rattle.pic8259.specs.Requests.{IsChip, IsPair, pair_fits};
ghost use Rattle.pic8259.specs.Pairs.{joined, written, read_at, with_edge, vector, is_cascade, acknowledged};

use crate::chip::Chip;
use crate::pair::Pair;
use ia32_types::Did;
use std::marker::Model;

/// The master and the slave.
#[derive(Drop)]
pub struct Pics {
    pair: Pair,
}

impl Model for Pics {
    ghost use Rattle.pic8259.specs.declared.pair.Pair.{Pair};
    ghost use Rattle.pic8259.specs.Requests.{IsPair};

    ghost Value = { Pair };

    ghost view = { λ p. p.pair };

    ghost invariant = { λ p. IsPair p.pair };
}

impl Pics {
    /// Both before their first start.
    #[tactic(auto, unfolding(crate::specs::Chips::highest_request))]
    pub fn new() -> Pics
        ensures { result ≡ record { master = unstarted; slave = unstarted } }
    {
        Pics {
            pair: Pair {
                master: Chip::new(),
                slave: Chip::new(),
            },
        }
    }

    /// The registers of both.
    pub fn pair(&self) -> Pair
        ensures state { result ≡ self.now }
        ensures fits { pair_fits result ≡ true }
    {
        self.pair
    }

    /// The two with these registers. None where they cannot stand so: a base that is not that of eight vectors, a
    /// phase that does not go with having been ready, or an IR2 that does not stand for the slave.
    pub fn from_pair(pair: Pair) -> Option<Pics>
        ensures { result ≡ (if pair_fits pair then Some pair else None) }
    {
        if pair.master.fits() && pair.slave.fits() && pair.stands_for_slave() {
            Some(Pics { pair })
        } else {
            None
        }
    }

    /// A write to a port: 0x20 and 0x21 are the master's, 0xA0 and 0xA1 the slave's, and others are ignored. A byte
    /// that the board doesn't serve stops and changes nothing.
    #[tactic(auto, unfolding(crate::specs::Pairs::written))]
    pub fn write(&mut self, port: u16, v: u8) -> Did
        ensures written { written self.old port v ≡ (result, self.new) }
        ensures stopped { result ≡ Stop → self.new ≡ self.old }
    {
        let mut master = self.pair.master;
        let mut slave = self.pair.slave;
        let did = match port {
            0x20 => master.write_even(v),
            0x21 => master.write_odd(4, v),
            0xA0 => slave.write_even(v),
            0xA1 => slave.write_odd(2, v),
            _ => return Did::Done,
        };
        if let Did::Done = did {
            self.pair = join(master, slave);
        }
        did
    }

    /// A read of one of the four ports. Others read all ones.
    #[tactic(auto, unfolding(crate::specs::Pairs::read_at))]
    pub fn read(&self, port: u16) -> u8
        ensures { result ≡ read_at self.now port }
    {
        match port {
            0x20 => self.pair.master.read_even(),
            0x21 => self.pair.master.interrupt_mask,
            0xA0 => self.pair.slave.read_even(),
            0xA1 => self.pair.slave.interrupt_mask,
            _ => 0xFF,
        }
    }

    /// A rising edge at a line, of which 8 to 15 are the slave's. Line 2 is the slave's place, and has none.
    #[tactic(auto, unfolding(crate::specs::Pairs::with_edge))]
    pub fn edge(&mut self, line: u8)
        requires within { line < 16 }
        requires no_cascade { line ≢ 2 }
        ensures { self.new ≡ with_edge self.old line }
    {
        let mut master = self.pair.master;
        let mut slave = self.pair.slave;
        if line < 8 {
            master.set_request(line, true);
        } else {
            slave.set_request(line - 8, true);
        }
        self.pair = join(master, slave);
    }

    /// The vector that would be delivered.
    #[tactic(auto, unfolding(crate::specs::Pairs::vector))]
    pub fn pending(&self) -> Option<u8>
        ensures { result ≡ vector self.now }
    {
        let level = self.pair.master.highest_request()?;
        if level == 2 {
            let behind = self.pair.slave.highest_request()?;
            return Some(self.pair.slave.base + behind);
        }
        Some(self.pair.master.base + level)
    }

    /// The vector that would be delivered after a rising edge at a line, of which 8 to 15 are the slave's.
    pub fn pending_after(&self, line: u8) -> Option<u8>
        requires within { line < 16 }
        requires no_cascade { line ≢ 2 }
        ensures { result ≡ vector (with_edge self.now line) }
    {
        let mut after = Pics { pair: self.pair };
        after.edge(line);
        after.pending()
    }

    /// Acknowledges the interrupt that is pending, and gives its vector.
    #[tactic(auto, unfolding(crate::specs::Pairs::vector, crate::specs::Pairs::acknowledged))]
    pub fn acknowledge(&mut self) -> u8
        requires { IsSome (vector self.old) }
        ensures taken { vector self.old ≡ Some result }
        ensures after { self.new ≡ acknowledged self.old }
    {
        let vector = self.pending().unwrap();
        let mut master = self.pair.master;
        let mut slave = self.pair.slave;
        if is_cascade(master.highest_request()) {
            slave.acknowledge();
        }
        master.acknowledge();
        self.pair = join(master, slave);
        vector
    }
}

/// The master's level stands for the slave's.
fn is_cascade(level: Option<u8>) -> bool
    ensures { result ≡ is_cascade level }
{
    match level {
        Some(level) => level == 2,
        None => false,
    }
}

/// The two, with the master's IR2 as the slave has it.
#[tactic(auto, unfolding(crate::specs::Pairs::joined, crate::specs::Chips::with_request), using(crate::proofs::LevelLemmas::request_is))]
fn join(mut master: Chip, slave: Chip) -> Pair
    requires master { IsChip master }
    requires slave { IsChip slave }
    ensures joined { result ≡ joined master slave }
    ensures pair { IsPair result }
{
    master.set_request(2, slave.highest_request().is_some());
    Pair { master, slave }
}
