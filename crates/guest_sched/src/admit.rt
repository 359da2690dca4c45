//! Taking kernels in: the memory of each as it starts, and its shadows in frames of the one pool.

ghost use Rattle.std.specs.Prelude.{◌≡◌, ◌+◌, ◌*◌, ◌≤◌, ◌<◌, List, [], ◌∷◌, ◌++◌, length, replicate, true, None, IfOk, IfErr, OnOk};
ghost use Rattle.std.specs.List.{All};
ghost use Rattle.guest_ram.specs.Bytes.{part, with_part};
ghost use Rattle.guest_sched.specs.Admitting.{IsAdmitted, HasParked, HasBegun, MayBegin, CantAdmit, IsMemory};
ghost use Rattle.guest_sched.specs.Between.{AdmitsAs};
ghost use Rattle.guest_sched.specs.declared.kernel.Kernel.{Kernel};
ghost use Rattle.guest_sched.specs.declared.tenants.Tenant.{Tenant};

use crate::exchange::exchange_fronts;
use crate::kernel::{Kernel, SharedFault};
use crate::tenants::{Tenant, Tenants};
use board::Board;
use descriptors::Cpu;
use frame_pool::Pool;
use guest_ram::Ram;
use host_cpl3::Host;
use image_load::load;
use machine_model::each_run_begins_able;
use run_trace::{End, Ended};
use std::alloc::Global;
use wedge_core::Guest;

/// The frames of the pool.
const POOL: u32 = 512;

fn room(alloc: Global, frames: u32) -> Result<Ram, SharedFault>
    requires { (1 ≤ frames) × (frames ≤ 32768) }
    ensures zero { IfOk result (λ ram. ram ≡ replicate (frames * 4096) 0) }
    ensures len { IfOk result (λ ram. length ram ≡ frames * 4096) }
    ensures refused { IfErr result IsMemory }
{
    match Ram::new(alloc, frames) {
        Ok(ram) => Ok(ram),
        Err(_) => Err(SharedFault::Memory),
    }
}

/// Exchanges the front of the host's memory with a kernel's.
fn to_front<H: Host>(ram: &mut Ram, frames: u32, host: &mut H)
    requires started { H.is_started host.old ≡ true }
    requires mine { 4096 * frames ≤ length ram.old }
    requires room { 4096 * frames ≤ length (H.bytes host.old) }
    ensures host { H.bytes host.new ≡ with_part (H.bytes host.old) 0 (part ram.old 0 (4096 * frames)) }
    ensures len { length ram.new ≡ length ram.old }
    ensures size { length (H.bytes host.new) ≡ length (H.bytes host.old) }
    ensures started { H.is_started host.new ≡ true }
    ensures retired { H.retired host.new ≡ H.retired host.old }
    ensures passed { H.passed host.new ≡ H.passed host.old }
{
    exchange_fronts(host.ram_mut(), ram, frames);
}

/// Puts a kernel's memory, as it starts, to the front of the host's, in exchange for what stands there, and makes its
/// shadows.
fn begin<H: Host>(
    alloc: Global,
    kernel: &Kernel,
    cpu: Cpu,
    ram: &mut Ram,
    frames: u32,
    pool: &mut Pool,
    host: &mut H,
) -> Result<Guest, SharedFault>
    requires started { H.is_started host.old ≡ true }
    requires frames { (2048 ≤ frames) × (frames ≤ 16384) }
    requires may { MayBegin kernel.now frames cpu ram.old pool.old (H.bytes host.old) }
    ensures begun { IfOk result (λ guest.
        HasBegun kernel.now frames pool.old pool.new (H.bytes host.old) (H.bytes host.new) guest) }
    ensures len { length ram.new ≡ length ram.old }
    ensures refused { IfErr result (CantAdmit kernel.now frames) }
    ensures started { H.is_started host.new ≡ true }
    ensures retired { H.retired host.new ≡ H.retired host.old }
    ensures passed { H.passed host.new ≡ H.passed host.old }
{
    to_front(ram, frames, host);
    each_run_begins_able();
    match Guest::adopt(
        alloc,
        &kernel.image,
        cpu,
        Board::new(),
        0,
        frames,
        host,
        pool,
    ) {
        Err(_) => Err(SharedFault::Memory),
        Ok(guest) => Ok(guest),
    }
}

impl Tenants {
    /// Starts the host with a pool after the kernels' memory, and no kernel yet.
    pub fn start<H: Host>(alloc: Global, frames: u32, host: &mut H) -> Result<Tenants, SharedFault>
        requires frames { (2048 ≤ frames) × (frames ≤ 16384) }
        ensures admitted { IfOk result (λ tenants.
            IsAdmitted [] frames tenants.list.items tenants.pool tenants.present (H.bytes host.new)) }
        ensures frames { IfOk result (λ tenants. tenants.frames ≡ frames) }
        ensures started { IfOk result (λ tenants. H.is_started host.new ≡ true) }
        ensures refused { IfErr result (IsMemory) }
        ensures retired { H.retired host.new ≡ H.retired host.old }
        ensures passed { H.passed host.new ≡ H.passed host.old }
    {
        match host.start(alloc, frames + POOL) {
            Err(_) => Err(SharedFault::Memory),
            Ok(()) => {
                let pool = Pool::new(host.ram_mut(), frames, POOL);
                Ok(Tenants {
                    list: Vec::new(alloc),
                    pool,
                    frames,
                    present: 0,
                })
            }
        }
    }

    /// Takes one kernel more, which stands in the host's memory then.
    pub fn admit<H: Host>(
        &mut self,
        alloc: Global,
        kernel: &Kernel,
        host: &mut H,
    ) -> Result<(), SharedFault>
        requires started { H.is_started host.old ≡ true }
        requires frames { (2048 ≤ self.old.frames) × (self.old.frames ≤ 16384) }
        requires few { length self.old.list.items < 4 }
        requires so_far { (kernels : List Kernel)
            × IsAdmitted kernels self.old.frames self.old.list.items self.old.pool self.old.present (H.bytes host.old) }
        ensures admitted { OnOk result ((kernels : List Kernel)
            → IsAdmitted kernels self.old.frames self.old.list.items self.old.pool self.old.present (H.bytes host.old)
            → IsAdmitted (kernels ++ kernel.now ∷ []) self.new.frames self.new.list.items self.new.pool self.new.present
            (H.bytes host.new)) }
        ensures refused { IfErr result (CantAdmit kernel.now self.old.frames) }
        ensures frames { self.new.frames ≡ self.old.frames }
        ensures started { H.is_started host.new ≡ true }
        ensures retired { H.retired host.new ≡ H.retired host.old }
        ensures passed { H.passed host.new ≡ H.passed host.old }
    {
        let mut ram = room(alloc, self.frames + POOL)?;
        let cpu = match load(&kernel.image, &mut ram, self.frames) {
            Err(small) => return Err(SharedFault::TooSmall(small)),
            Ok(boot) => boot.cpu,
        };
        self.park(host);
        let guest = begin(
            alloc,
            kernel,
            cpu,
            &mut ram,
            self.frames,
            &mut self.pool,
            host,
        )?;
        self.add(guest, ram)
    }

    /// Takes the present kernel's memory out of the host's. All kernels stay as they were.
    fn park<H: Host>(&mut self, host: &mut H)
        requires started { H.is_started host.old ≡ true }
        requires theirs { All (λ tenant. 4096 * self.old.frames ≤ length tenant.ram) self.old.list.items }
        requires room { 4096 * self.old.frames ≤ length (H.bytes host.old) }
        ensures parked { HasParked self.old.frames (H.bytes host.old) (H.bytes host.new) self.old.present
            self.old.list.items self.new.list.items }
        ensures rest { (self.new.pool ≡ self.old.pool) × (self.new.frames ≡ self.old.frames) }
        ensures started { H.is_started host.new ≡ true }
        ensures retired { H.retired host.new ≡ H.retired host.old }
        ensures passed { H.passed host.new ≡ H.passed host.old }
    {
        let present = self.present;
        if present < self.list.len() {
            self.exchange(present, host);
        }
    }

    /// Takes a kernel in that stands in the host's memory.
    fn add(&mut self, guest: Guest, ram: Ram) -> Result<(), SharedFault>
        ensures list { OnOk result ((new : Tenant) × (self.new.list.items ≡ self.old.list.items ++ new ∷ [])
            × (new.guest ≡ guest) × (new.ram ≡ ram) × (new.stop ≡ None)) }
        ensures present { OnOk result (self.new.present ≡ length self.old.list.items) }
        ensures rest { (self.new.pool ≡ self.old.pool) × (self.new.frames ≡ self.old.frames) }
        ensures refused { IfErr result IsMemory }
    {
        self.present = self.list.len();
        let tenant = Tenant {
            guest,
            ram,
            stop: None,
        };
        match self.list.push(tenant) {
            Ok(()) => Ok(()),
            Err(_) => Err(SharedFault::Memory),
        }
    }
}

/// Takes all kernels in. The last of them stands in the host's memory.
pub(crate) fn admit_all<H: Host>(
    alloc: Global,
    kernels: &Vec<Kernel>,
    frames: u32,
    host: &mut H,
) -> Result<Tenants, SharedFault>
    requires some { (1 ≤ length kernels.now.items) × (length kernels.now.items ≤ 4) }
    requires frames { (2048 ≤ frames) × (frames ≤ 16384) }
    ensures admitted { AdmitsAs kernels.now.items frames (H.bytes host.new) result }
    ensures started { IfOk result (λ _. H.is_started host.new ≡ true) }
    ensures retired { H.retired host.new ≡ H.retired host.old }
    ensures passed { H.passed host.new ≡ H.passed host.old }
{
    let mut tenants = Tenants::start(alloc, frames, host)?;
    for kernel in kernels {
        tenants.admit(alloc, kernel, host)?;
    }
    Ok(tenants)
}

/// Room for how each kernel ends.
pub(crate) fn no_ends(alloc: Global, count: usize) -> Result<Vec<Ended>, SharedFault>
    ensures len { IfOk result (λ ended. length ended.items ≡ count) }
    ensures refused { IfErr result IsMemory }
{
    let mut ended = Vec::new(alloc);
    while ended.len() < count {
        let none = Ended {
            steps: 0,
            end: End::Bound,
            fills: 0,
        };
        if ended.push(none).is_err() {
            return Err(SharedFault::Memory);
        }
    }
    Ok(ended)
}
