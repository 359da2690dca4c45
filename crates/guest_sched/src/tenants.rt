//! Kernels that share a host: who stands in its memory, and the frames of the pool that they hold.

ghost use Rattle.std.specs.Prelude.{◌≡◌, ◌*◌, ◌≤◌, ◌<◌, length, slice_index_or, take, true};
ghost use Rattle.std.specs.List.{All};
ghost use Rattle.guest_ram.specs.Bytes.{part, with_part};
ghost use Rattle.frame_pool.specs.Held.{Owns};
ghost use Rattle.frame_pool.specs.Pool.{count_of};
ghost use Rattle.shadow_cache.specs.Views as roots;
ghost use Rattle.guest_sched.specs.Releases.{IsRoomMade};
ghost use Rattle.guest_sched.specs.Seating.{HasBrought, HasExchanged, HasMadeRoom, HasReleased, KeepsMachines, MayMakeRoom, OneReleased, StaysApart};
ghost use Rattle.guest_sched.specs.Stages.{stage};
ghost use Rattle.guest_sched.specs.declared.tenants.Tenant.{Tenant};

use crate::exchange::exchange_fronts;
use frame_pool::Pool;
use guest_ram::Ram;
use host_cpl3::Host;
use ia32_types::Stop;
use wedge_core::Guest;

/// How many frames a slice needs, of the free ones and its kernel's own.
const ENOUGH: u32 = 16;

/// A kernel: what runs it, its memory while another's stands in the host's, and the stop that it has met.
#[derive(Drop)]
pub(crate) struct Tenant {
    pub guest: Guest,
    pub ram: Ram,
    pub stop: Option<Stop>,
}

impl Tenant {
    /// Exchanges the front of the host's memory with the kernel's.
    fn exchange<H: Host>(&mut self, frames: u32, host: &mut H)
        requires started { H.is_started host.old ≡ true }
        requires mine { 4096 * frames ≤ length self.old.ram }
        requires room { 4096 * frames ≤ length (H.bytes host.old) }
        ensures front { take (4096 * frames) self.new.ram ≡ take (4096 * frames) (H.bytes host.old) }
        ensures host { H.bytes host.new ≡ with_part (H.bytes host.old) 0 (part self.old.ram 0 (4096 * frames)) }
        ensures len { length self.new.ram ≡ length self.old.ram }
        ensures size { length (H.bytes host.new) ≡ length (H.bytes host.old) }
        ensures guest { self.new.guest ≡ self.old.guest }
        ensures stop { self.new.stop ≡ self.old.stop }
        ensures started { H.is_started host.new ≡ true }
        ensures retired { H.retired host.new ≡ H.retired host.old }
        ensures passed { H.passed host.new ≡ H.passed host.old }
    {
        exchange_fronts(host.ram_mut(), &mut self.ram, frames);
    }
}

impl Tenant {
    /// Drops the kernel's shadows, whoever stands in the host's memory. It holds two frames then.
    fn release<H: Host>(&mut self, pool: &mut Pool, host: &mut H)
        requires started { H.is_started host.old ≡ true }
        requires stands { ∥ roots.stands self.old.guest.shadows (H.bytes host.old) ∥₁ }
        requires owns { Owns pool.old (H.bytes host.old) (roots.frames self.old.guest.shadows (H.bytes host.old)) }
        ensures released { HasReleased pool.old pool.new (H.bytes host.old) (H.bytes host.new) self.old self.new }
        ensures started { H.is_started host.new ≡ true }
        ensures retired { H.retired host.new ≡ H.retired host.old }
        ensures passed { H.passed host.new ≡ H.passed host.old }
    {
        self.guest.release(pool, host);
    }
}

/// All kernels, with the pool whose frames they hold. One of them stands in the host's memory.
#[derive(Drop)]
pub(crate) struct Tenants {
    pub list: Vec<Tenant>,
    pub pool: Pool,
    pub frames: u32,
    pub present: usize,
}

impl Tenants {
    /// Exchanges the front of the host's memory with a kernel's.
    pub fn exchange<H: Host>(&mut self, kernel: usize, host: &mut H)
        requires started { H.is_started host.old ≡ true }
        requires known { kernel < length self.old.list.items }
        requires theirs { All (λ tenant. 4096 * self.old.frames ≤ length tenant.ram) self.old.list.items }
        requires room { 4096 * self.old.frames ≤ length (H.bytes host.old) }
        ensures list { HasExchanged self.old.frames (H.bytes host.old) kernel self.old.list.items self.new.list.items }
        ensures host { (d : Tenant) → H.bytes host.new ≡ with_part (H.bytes host.old) 0
            (part (slice_index_or self.old.list.items kernel d).ram 0 (4096 * self.old.frames)) }
        ensures rest { (self.new.pool ≡ self.old.pool) × (self.new.frames ≡ self.old.frames) × (self.new.present ≡ self.old.present) }
        ensures started { H.is_started host.new ≡ true }
        ensures retired { H.retired host.new ≡ H.retired host.old }
        ensures passed { H.passed host.new ≡ H.passed host.old }
    {
        let tenant = &mut self.list[kernel];
        tenant.exchange(self.frames, host);
    }

    /// Brings a kernel into the host's memory. All kernels stay as they were.
    pub fn bring<H: Host>(&mut self, kernel: usize, host: &mut H)
        requires started { H.is_started host.old ≡ true }
        requires known { kernel < length self.old.list.items }
        requires present { self.old.present < length self.old.list.items }
        requires theirs { All (λ tenant. 4096 * self.old.frames ≤ length tenant.ram) self.old.list.items }
        requires room { 4096 * self.old.frames ≤ length (H.bytes host.old) }
        ensures brought { HasBrought self.old.frames (H.bytes host.old) (H.bytes host.new) self.old.present kernel
            self.old.list.items self.new.list.items }
        ensures rest { (self.new.pool ≡ self.old.pool) × (self.new.frames ≡ self.old.frames) × (self.new.present ≡ kernel) }
        ensures started { H.is_started host.new ≡ true }
        ensures retired { H.retired host.new ≡ H.retired host.old }
        ensures passed { H.passed host.new ≡ H.passed host.old }
    {
        if kernel == self.present {
            return;
        }
        let present = self.present;
        self.exchange(present, host);
        self.exchange(kernel, host);
        self.present = kernel;
    }

    /// Drops the shadows of kernels that don't stand in the host's memory, in their order, until there are frames enough.
    pub fn make_room<H: Host>(&mut self, host: &mut H)
        requires started { H.is_started host.old ≡ true }
        requires may { MayMakeRoom self.old.frames (stage self.old (H.bytes host.old)) }
        ensures released { IsRoomMade (stage self.old (H.bytes host.old)) (stage self.new (H.bytes host.new)) }
        ensures apart { StaysApart self.old.frames (stage self.old (H.bytes host.old)) (stage self.new (H.bytes host.new)) }
        ensures made { HasMadeRoom self.old.present self.old.list.items self.new.list.items }
        ensures theirs { All (λ tenant. 4096 * self.old.frames ≤ length tenant.ram) self.new.list.items }
        ensures size { (count_of self.new.pool ≡ 512) × (length (H.bytes host.new) ≡ length (H.bytes host.old)) }
        ensures stay { KeepsMachines self.old.frames (stage self.old (H.bytes host.old)) (stage self.new (H.bytes host.new)) }
        ensures rest { (self.new.frames ≡ self.old.frames) × (self.new.present ≡ self.old.present) }
        ensures started { H.is_started host.new ≡ true }
        ensures retired { H.retired host.new ≡ H.retired host.old }
        ensures passed { H.passed host.new ≡ H.passed host.old }
    {
        for kernel in 0..self.list.len() {
            let enough = self.pool.free() + self.list[self.present].guest.held() >= ENOUGH;
            if enough {
                return;
            }
            if kernel != self.present {
                self.release(kernel, host);
            }
        }
    }

    /// Drops the shadows of a kernel, whoever stands in the host's memory.
    fn release<H: Host>(&mut self, kernel: usize, host: &mut H)
        requires started { H.is_started host.old ≡ true }
        requires known { kernel < length self.old.list.items }
        requires theirs { All (λ tenant. 4096 * self.old.frames ≤ length tenant.ram) self.old.list.items }
        requires stands { (d : Tenant) →
            ∥ roots.stands (slice_index_or self.old.list.items kernel d).guest.shadows (H.bytes host.old) ∥₁ }
        requires owns { (d : Tenant) → Owns self.old.pool (H.bytes host.old)
            (roots.frames (slice_index_or self.old.list.items kernel d).guest.shadows (H.bytes host.old)) }
        ensures list { OneReleased kernel (stage self.old (H.bytes host.old)) (stage self.new (H.bytes host.new)) }
        ensures apart { StaysApart self.old.frames (stage self.old (H.bytes host.old)) (stage self.new (H.bytes host.new)) }
        ensures stay { KeepsMachines self.old.frames (stage self.old (H.bytes host.old)) (stage self.new (H.bytes host.new)) }
        ensures rest { (self.new.frames ≡ self.old.frames) × (self.new.present ≡ self.old.present) }
        ensures started { H.is_started host.new ≡ true }
        ensures retired { H.retired host.new ≡ H.retired host.old }
        ensures passed { H.passed host.new ≡ H.passed host.old }
    {
        let tenant = &mut self.list[kernel];
        tenant.release(&mut self.pool, host);
    }
}
