//! A host that keeps how its runs begin and end.

ghost use Rattle.std.specs.Prelude.{◌≡◌, ◌≤◌, Some, is_some, refl};
ghost use Rattle.host_cpl3.specs.Hosts.{held};

use guest_ram::Ram;
use host_cpl3::{Exit, Host, Machine, View};
use ia32_types::{Flags, Regs};
use std::alloc::{AllocError, Global};

/// How many beginnings are kept.
const ROOM: usize = 64;

/// How a run of the host began.
#[derive(Clone, Copy)]
pub struct Begun {
    /// How many instructions the host had done before.
    pub retired: u64,
    pub regs: Regs,
}

/// A host, with its first runs' beginnings, and the last exit.
#[derive(Drop)]
pub struct Watched {
    machine: Machine,
    begun: [Begun; 64],
    runs: usize,
    pub last_exit: Exit,
}

impl Watched {
    /// No run has begun.
    pub fn new() -> Watched
        ensures { result.machine.retired ≡ 0 }
    {
        let none = Begun {
            retired: 0,
            regs: Regs {
                r: [0; 8],
                eip: 0,
                flags: Flags { bits: 0 },
            },
        };
        Watched {
            machine: Machine::new(),
            begun: [none; 64],
            runs: 0,
            last_exit: Exit::Budget,
        }
    }

    /// How the runs began, at most 64 of them.
    pub fn begun(&self) -> &[Begun] {
        &self.begun[..self.runs.min(ROOM)]
    }
}

impl Host for Watched {
    ghost bytes = { λ h. held h.machine.ram };

    ghost is_started = { λ h. is_some h.machine.ram };

    ghost retired = { λ h. h.machine.retired };

    ghost passed = { λ h. h.machine.passed };

    ghost with_bytes = { λ h bytes. record h { machine = record h.machine { ram = Some bytes } } };

    ghost bytes_changed = { λ h bytes. refl };

    ghost started_so = { λ h bytes. refl };

    ghost retired_stays = { λ h bytes. refl };

    ghost passed_stays = { λ h bytes. refl };

    fn start(&mut self, alloc: Global, frames: u32) -> Result<(), AllocError> {
        self.machine.start(alloc, frames)
    }

    fn ram(&self) -> &Ram {
        self.machine.ram()
    }

    fn ram_mut(&mut self) -> &mut Ram {
        self.machine.ram_mut()
    }

    fn retired(&self) -> u64 {
        self.machine.retired()
    }

    fn passed(&self) -> u64 {
        self.machine.passed()
    }

    fn resume(&mut self, view: &View, regs: &mut Regs, k: u64) -> Exit {
        if self.runs < ROOM {
            self.begun[self.runs] = Begun {
                retired: self.machine.retired(),
                regs: *regs,
            };
            self.runs += 1;
        }
        self.last_exit = self.machine.resume(view, regs, k);
        self.last_exit
    }
}
