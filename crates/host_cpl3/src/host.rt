//! The unprivileged processor and its memory, as a trait.

ghost use Rattle.std.specs.Prelude.{◌≡◌, ◌+◌, ◌*◌, ◌<◌, ◌≤◌, ◌^◌, ℕ, List, Bool, true, length, replicate, OnErr, OnOk};
ghost use Rattle.std.specs.Borrow.{sem, Lends};
ghost use Rattle.guest_ram.specs.contracts.Ram.{the_row};
ghost use Rattle.host_cpl3.specs.HostRun.{host_run};
ghost use Rattle.host_cpl3.specs.Hosts.{standing};

use crate::exit::Exit;
use crate::view::View;
use guest_ram::Ram;
use ia32_types::Regs;
use std::alloc::{AllocError, Global};

/// The unprivileged processor and its memory.
pub trait Host {
    /// The bytes of its memory.
    ghost bytes: { Self → List ℕ };

    /// It was given memory.
    ghost is_started: { Self → Bool };

    /// How many instructions it has completed.
    ghost retired: { Self → ℕ };

    /// The digest of the addresses at which they began.
    ghost passed: { Self → ℕ };

    /// The host with other bytes in its memory.
    ghost with_bytes: { Self → List ℕ → Self };

    /// Gives zeroed memory of 1 to 32,768 frames.
    fn start(&mut self, alloc: Global, frames: u32) -> Result<(), AllocError>
        requires { (1 ≤ frames) × (frames ≤ 32768) }
        ensures bytes { OnOk result (bytes self.new ≡ replicate (frames * 4096) 0) }
        ensures started { OnOk result (is_started self.new ≡ true) }
        ensures refused { OnErr result ((bytes self.new ≡ bytes self.old) × (is_started self.new ≡ is_started self.old)) }
        ensures retired { retired self.new ≡ retired self.old }
        ensures passed { passed self.new ≡ passed self.old };

    /// Its memory.
    fn ram(&self) -> &Ram
        requires { is_started self.now ≡ true }
        ensures { result.now ≡ bytes self.now };

    /// Its memory, to be changed. It becomes what the borrower leaves.
    fn ram_mut(&mut self) -> &mut Ram
        requires { is_started self.old ≡ true }
        ensures* lends { sem 𝓛 (Lends Self.row the_row self.entry result (with_bytes self.old)) }
        ensures ram { result.now ≡ bytes self.old };

    fn retired(&self) -> u64
        ensures { result ≡ retired self.now };

    fn passed(&self) -> u64
        ensures { result ≡ passed self.now };

    /// Runs instructions at CPL 3, at most `k`, until an exit.
    fn resume(&mut self, view: &View, regs: &mut Regs, k: u64) -> Exit
        requires started { is_started self.old ≡ true }
        requires root { 4096 * view.now.root < length (bytes self.old) }
        requires room { retired self.old + k < 2 ^ 64 }
        ensures runs { host_run view.now k (standing regs.old (bytes self.old) (retired self.old) (passed self.old))
            ≡ (result, standing regs.new (bytes self.new) (retired self.new) (passed self.new)) }
        ensures started { is_started self.new ≡ true };

    /// Other bytes change nothing else.
    ghost bytes_changed: { (h : Self) (m : List ℕ) → bytes (with_bytes h m) ≡ m };

    ghost started_so: { (h : Self) (m : List ℕ) → is_started (with_bytes h m) ≡ true };

    ghost retired_stays: { (h : Self) (m : List ℕ) → retired (with_bytes h m) ≡ retired h };

    ghost passed_stays: { (h : Self) (m : List ℕ) → passed (with_bytes h m) ≡ passed h };
}
