//! A guest that goes on in slices.

ghost use Rattle.std.specs.Prelude.{◌≡◌, ◌+◌, ◌*◌, ◌≤◌, ◌<◌, ◌^◌, replicate, true, IfOk, OnErr};
ghost use Rattle.frame_pool.specs.Held.{Owns};
ghost use Rattle.board.specs.ScriptForm.{is_script};
ghost use Rattle.image_check.specs.Image.{Image};
ghost use Rattle.machine_model.specs.State.{wedge};
ghost use Rattle.wedge_step.specs.Filled.{WereFilled};
ghost use Rattle.wedge_step.specs.Leaves.{IsBetween};
ghost use Rattle.wedge_step.specs.Scene.{kept_in, scene};
ghost use Rattle.wedge_step.specs.Standing.{IsAble, ground};
ghost use Rattle.wedge_core.specs.Calls.{Adopts, BeginsSlice, GuestLeaves, MayAdopt, Releases, adopted};
ghost use Rattle.wedge_core.specs.Counts.{counts_of};
ghost use Rattle.wedge_core.specs.OfRoots.{of_roots};
ghost use Rattle.wedge_core.specs.Scenes.{IsHeldIn, IsReadyIn};
ghost use Rattle.wedge_core.specs.Sliced.{BeginsKnown, FaultsOf, SliceIn, SliceLeaves, StaysSilent, noting, outward};
ghost use Rattle.wedge_core.specs.Starts.{StartedAs};
ghost use Rattle.wedge_core.specs.Stepped.{CountsNone};

use crate::slice::steps_to;
use board::{Board, Script};
use descriptors::Cpu;
use frame_pool::Pool;
use guest_ram::Ram;
use host_cpl3::Host;
use ia32_types::TEXT_PLACE;
use image_check::Checked;
use image_laws::patching;
use image_load::{StartFault, load};
use machine_model::each_run_begins_able;
use pv_io::{Failed, Sink};
use run_trace::{Notes, Pause};
use shadow_cache::{Reloads, Roots, roots_alone_keep_nothing};
use shadow_tables::Shadows;
use sites::patch;
use std::alloc::{AllocError, Global};
use std::marker::Model;
use wedge_step::{Lost, Running, carry_laws};

/// A guest of a host: it runs its patched text there. Its memory is the front of the host's, and its shadows, for each value
/// of CR3 that may come back, lie in frames of a pool. Contracts see it as its `Running`.
#[derive(Drop)]
pub struct Guest {
    running: Running<Roots>,
}

impl Model for Guest {
    ghost use Rattle.shadow_cache.specs.declared.roots.Roots.{Roots};
    ghost use Rattle.wedge_step.specs.declared.running.Running.{Running};

    ghost Value = { Running Roots };

    ghost view = { λ guest. guest.running };
}

impl Guest {
    /// Starts the host with the guest's frames and the pool's, puts the image into the guest's memory, and patches its
    /// text.
    pub fn start<H: Host>(
        alloc: Global,
        image: &Checked,
        frames: u32,
        pool: u32,
        host: &mut H,
    ) -> Result<(Guest, Pool), StartFault>
        requires frames { (2048 ≤ frames) × (frames ≤ 16384) }
        requires pool { (16 ≤ pool) × (pool ≤ 512) }
        ensures started { StartedAs image.now frames pool (H.bytes host.new) result }
        ensures running { IfOk result (λ _. H.is_started host.new ≡ true) }
        ensures ready { IfOk result (λ s. IsReadyIn of_roots (ground image.now frames) (scene s.0 s.1 (H.bytes host.new))) }
        ensures filled { IfOk result (λ s. WereFilled (kept_in of_roots (scene s.0 s.1 (H.bytes host.new))) s.0.fills) }
        ensures counts { CountsNone (counts_of H.Host host.old) (counts_of H.Host host.new) }
    {
        match host.start(alloc, frames + pool) {
            Err(_) => Err(StartFault::Memory),
            Ok(()) => start_in(alloc, host.ram_mut(), image, frames, pool),
        }
    }

    /// Patches the text in the guest's memory, which the host's has at its front, and goes on from there with no
    /// translation.
    pub fn adopt<H: Host>(
        alloc: Global,
        image: &Checked,
        cpu: Cpu,
        board: Board,
        step: u64,
        frames: u32,
        host: &mut H,
        pool: &mut Pool,
    ) -> Result<Guest, AllocError>
        requires started { H.is_started host.old ≡ true }
        requires able { IsAble cpu }
        requires may { MayAdopt image.now frames pool.old (H.bytes host.old) }
        ensures adopts { IfOk result (λ guest. Adopts image.now frames (adopted cpu board step frames (H.bytes host.old)) pool.old
            (H.bytes host.old) (scene guest pool.new (H.bytes host.new))) }
        ensures refused { OnErr result ((H.bytes host.new ≡ H.bytes host.old) × (pool.new ≡ pool.old)) }
        ensures started { H.is_started host.new ≡ true }
        ensures counts { CountsNone (counts_of H.Host host.old) (counts_of H.Host host.new) }
    {
        let running = adopt_in(alloc, host.ram_mut(), image, cpu, board, step, frames, pool)?;
        Ok(Guest { running })
    }

    /// Makes `k` steps, or ends before a step that stops. The lines of a step go to the sink at its end. Where notes are
    /// wanted, they say before which steps all translations were dropped.
    pub fn slice<H: Host, O: Sink, L: Notes>(
        &mut self,
        image: &Checked,
        script: &Script,
        k: u64,
        pool: &mut Pool,
        host: &mut H,
        out: &mut O,
        notes: &mut L,
    ) -> Result<Pause, Failed>
        requires started { H.is_started host.old ≡ true }
        requires between { IsBetween of_roots image.now (scene self.old pool.old (H.bytes host.old)) }
        requires able { IsAble self.old.cpu }
        requires script { is_script script.now.list ≡ true }
        requires bound { self.old.step + k ≤ 2 ^ 40 }
        requires room { H.retired host.old + k < 2 ^ 64 }
        ensures slice { SliceIn of_roots (wedge image.now script.now.list self.old.frames) (self.old.step + k)
            (scene self.old pool.old (H.bytes host.old)) (scene self.new pool.new (H.bytes host.new))
            (outward H.Host O.Sink host.old host.new out.old out.new) (noting L.Notes notes.old notes.new)
            (BeginsKnown of_roots image.now script.now.list (scene self.old pool.old (H.bytes host.old)) (L.wants notes.old)) result }
        ensures leaves { SliceLeaves of_roots image.now (self.old.step + k) (scene self.old pool.old (H.bytes host.old))
            (scene self.new pool.new (H.bytes host.new)) result }
        ensures own { GuestLeaves image.now script.now.list (scene self.old pool.old (H.bytes host.old))
            (scene self.new pool.new (H.bytes host.new)) result }
        ensures silent { StaysSilent L.Notes notes.old notes.new }
        ensures faults { FaultsOf (O.faults out.old) (O.faults out.new) result }
        ensures started { H.is_started host.new ≡ true }
    {
        let bound = self.running.step + k;
        carry_laws();
        begin(&mut self.running, pool, host);
        steps_to(
            &mut self.running,
            image,
            script,
            bound,
            pool,
            host,
            out,
            notes,
        )
    }

    /// Drops all shadows. The guest holds two frames then.
    pub fn release<H: Host>(&mut self, pool: &mut Pool, host: &mut H)
        requires started { H.is_started host.old ≡ true }
        requires stands { ∥ of_roots.stands self.old.shadows (H.bytes host.old) ∥₁ }
        requires owns { Owns pool.old (H.bytes host.old) (of_roots.frames self.old.shadows (H.bytes host.old)) }
        ensures releases { Releases (scene self.old pool.old (H.bytes host.old))
            (scene self.new pool.new (H.bytes host.new)) }
        ensures started { H.is_started host.new ≡ true }
        ensures counts { CountsNone (counts_of H.Host host.old) (counts_of H.Host host.new) }
    {
        Shadows::drop_all(&mut self.running.shadows, host.ram_mut(), pool);
        self.running.held = 2;
    }

    /// Takes it apart.
    pub fn into_running(self) -> Running<Roots>
        ensures { result ≡ self }
    {
        let Guest { running } = self;
        running
    }

    /// The processor that the guest sees.
    pub fn cpu(&self) -> &Cpu
        ensures { result.now ≡ self.now.cpu }
    {
        &self.running.cpu
    }

    /// The guest's devices.
    pub fn board(&self) -> &Board
        ensures { result.now ≡ self.now.board }
    {
        &self.running.board
    }

    /// How many steps were done.
    pub fn step(&self) -> u64
        ensures { result ≡ self.now.step }
    {
        self.running.step
    }

    /// How many frames of the pool it holds.
    pub fn held(&self) -> u32
        ensures { result ≡ self.now.held }
    {
        self.running.held
    }

    /// How many pages were filled.
    pub fn fills(&self) -> u64
        ensures { result ≡ self.now.fills }
    {
        self.running.fills
    }
}

/// Before a slice. Where only roots are held nothing is present, and the present tables begin anew: no frame counts that
/// was noted of them before.
fn begin<H: Host>(running: &mut Running<Roots>, pool: &mut Pool, host: &mut H)
    requires started { H.is_started host.old ≡ true }
    requires held { (image : Image) × IsHeldIn of_roots (ground image running.old.frames)
        (scene running.old pool.old (H.bytes host.old)) }
    ensures begins { BeginsSlice (scene running.old pool.old (H.bytes host.old))
        (scene running.new pool.new (H.bytes host.new)) }
    ensures started { H.is_started host.new ≡ true }
    ensures counts { CountsNone (counts_of H.Host host.old) (counts_of H.Host host.new) }
{
    let bare = running.held == 2;
    if !bare {
        return;
    }
    roots_alone_keep_nothing();
    Reloads::renew(&mut running.shadows, host.ram_mut(), pool);
}

fn start_in(
    alloc: Global,
    ram: &mut Ram,
    image: &Checked,
    frames: u32,
    count: u32,
) -> Result<(Guest, Pool), StartFault>
    requires zero { ram.old ≡ replicate ((frames + count) * 4096) 0 }
    requires frames { (2048 ≤ frames) × (frames ≤ 16384) }
    requires count { (16 ≤ count) × (count ≤ 512) }
    ensures started { StartedAs image.now frames count ram.new result }
    ensures ready { IfOk result (λ s. IsReadyIn of_roots (ground image.now frames) (scene s.0 s.1 ram.new)) }
    ensures none { IfOk result (λ s. kept_in of_roots (scene s.0 s.1 ram.new) ≡ 0) }
{
    match load(image, ram, frames) {
        Err(small) => Err(StartFault::TooSmall(small)),
        Ok(boot) => {
            each_run_begins_able();
            let mut pool = Pool::new(ram, frames, count);
            match adopt_in(
                alloc,
                ram,
                image,
                boot.cpu,
                Board::new(),
                0,
                frames,
                &mut pool,
            ) {
                Err(_) => Err(StartFault::Memory),
                Ok(running) => Ok((Guest { running }, pool)),
            }
        }
    }
}

fn adopt_in(
    alloc: Global,
    ram: &mut Ram,
    image: &Checked,
    cpu: Cpu,
    board: Board,
    step: u64,
    frames: u32,
    pool: &mut Pool,
) -> Result<Running<Roots>, AllocError>
    requires may { MayAdopt image.now frames pool.old ram.old }
    ensures adopts { IfOk result (λ g. Adopts image.now frames (adopted cpu board step frames ram.old) pool.old ram.old
        (scene g pool.new ram.new)) }
    ensures refused { OnErr result ((ram.new ≡ ram.old) × (pool.new ≡ pool.old)) }
{
    patching();
    image.accepted();
    let _free = pool.free();
    let shadows = Roots::new(alloc, ram, pool, cpu.cr3)?;
    patch(ram, TEXT_PLACE, image.sites());
    Ok(Running {
        cpu,
        board,
        step,
        frames,
        fills: 0,
        held: 2,
        shadows,
        lost: Lost {
            before: false,
            after: false,
            reloaded: false,
        },
    })
}
