//! A host that does each instruction by its definition.

ghost use Rattle.std.specs.Prelude.{◌≡◌, ◌+◌, ◌*◌, ◌<◌, ◌^◌, length, Some, false, is_some, refl};
ghost use Rattle.ia32_exec.specs.Digest.{digest};
ghost use Rattle.host_cpl3.specs.HostRun.{host_run};
ghost use Rattle.host_cpl3.specs.Hosts.{standing, held};
ghost use Rattle.host_cpl3.specs.Walked.{walks_of};

use crate::exit::{Ending, Exit};
use crate::host::Host;
use crate::step::host_step;
use crate::view::View;
use crate::walks::Walks;
use guest_ram::Ram;
use ia32_types::Regs;
use std::alloc::{AllocError, Global};

/// A host that does each instruction by its definition.
#[derive(Drop)]
pub struct Machine {
    ram: Option<Ram>,
    retired: u64,
    passed: u64,
    walks: Walks,
}

impl Machine {
    /// It has no memory, and nothing is completed.
    pub fn new() -> Machine
        ensures memory { ⟦<Machine as Host>⟧.is_started result ≡ false }
        ensures retired { ⟦<Machine as Host>⟧.retired result ≡ 0 }
        ensures passed { ⟦<Machine as Host>⟧.passed result ≡ 0 }
        ensures walks { walks_of result ≡ 0 }
    {
        Machine {
            ram: None,
            retired: 0,
            passed: 0,
            walks: Walks::new(),
        }
    }

    /// How many walks of tables there were.
    pub fn walks(&self) -> u64
        ensures { result ≡ walks_of self.now }
    {
        self.walks.count()
    }
}

/// The digest with one address more.
fn digest(passed: u64, eip: u32) -> u64
    ensures { result ≡ digest passed eip }
{
    passed.wrapping_mul(31).wrapping_add(u64::from(eip))
}

// Runs at most `k` instructions.
fn run(
    walks: &mut Walks,
    ram: &mut Ram,
    view: &View,
    regs: &mut Regs,
    retired: &mut u64,
    passed: &mut u64,
    k: u64,
) -> Exit
    requires root { 4096 * view.now.root < length ram.old }
    requires room { retired.old + k < 2 ^ 64 }
    ensures runs { host_run view.now k (standing regs.old ram.old retired.old passed.old)
        ≡ (result, standing regs.new ram.new retired.new passed.new) }
    ensures len { length ram.new ≡ length ram.old }
{
    walks.forget();
    for _done in 0..k {
        let eip = regs.eip;
        match host_step(walks, ram, view, regs) {
            Ok(Ending::Completed) => {
                *retired += 1;
                *passed = digest(*passed, eip);
            }
            Ok(Ending::Entered) => return Exit::Entry(regs.eip),
            Err(exit) => return exit,
        }
    }
    Exit::Budget
}

impl Host for Machine {
    ghost bytes = { λ m. held m.ram };

    ghost is_started = { λ m. is_some m.ram };

    ghost retired = { λ m. m.retired };

    ghost passed = { λ m. m.passed };

    ghost with_bytes = { λ m bytes. record m { ram = Some bytes } };

    fn start(&mut self, alloc: Global, frames: u32) -> Result<(), AllocError> {
        let ram = Ram::new(alloc, frames)?;
        self.ram = Some(ram);
        Ok(())
    }

    fn ram(&self) -> &Ram {
        match &self.ram {
            Some(ram) => ram,
            None => unreachable!(),
        }
    }

    fn ram_mut(&mut self) -> &mut Ram {
        match &mut self.ram {
            Some(ram) => ram,
            None => unreachable!(),
        }
    }

    fn retired(&self) -> u64 {
        self.retired
    }

    fn passed(&self) -> u64 {
        self.passed
    }

    fn resume(&mut self, view: &View, regs: &mut Regs, k: u64) -> Exit {
        match &mut self.ram {
            Some(ram) => run(
                &mut self.walks,
                ram,
                view,
                regs,
                &mut self.retired,
                &mut self.passed,
                k,
            ),
            None => unreachable!(),
        }
    }

    ghost bytes_changed = { λ m bytes. refl };

    ghost started_so = { λ m bytes. refl };

    ghost retired_stays = { λ m bytes. refl };

    ghost passed_stays = { λ m bytes. refl };
}
