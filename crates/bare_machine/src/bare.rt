//! The bare machine as a value that goes on in slices.

ghost use Rattle.std.specs.Prelude.{◌≡◌, ◌+◌, ◌*◌, ◌%◌, ◌≤◌, ◌<◌, ◌^◌, length, replicate, true, IfOk, OnOk, OnErr};
ghost use Rattle.std.specs.FinMap.{empty};
ghost use Rattle.std.specs.Borrow.{sem, Lends};
ghost use Rattle.bare_machine.specs.contracts.bare.Bare.{the_row};
ghost use Rattle.board.specs.ScriptForm.{is_script};
ghost use Rattle.image_check.specs.Image.{Image};
ghost use Rattle.pv_io.specs.Causes.{Rose};
ghost use Rattle.machine_model.specs.Fit.{Fit};
ghost use Rattle.bare_machine.specs.Buffered.{KeptSlice};
ghost use Rattle.bare_machine.specs.Events.{NoneComes};
ghost use Rattle.bare_machine.specs.Machine.{state_of, IsKept, GoesOn};
ghost use Rattle.bare_machine.specs.Once.{OnceAs};
ghost use Rattle.bare_machine.specs.Settings.{bare};
ghost use Rattle.bare_machine.specs.Stepping.{StaysWide};
ghost use Rattle.bare_machine.specs.Slices.{SliceAs, OneStepAs};
ghost use Rattle.run_trace.specs.Pauses.{IfReached};
ghost use Rattle.bare_machine.specs.Starts.{StartedAs, with_cache};

use crate::machine::BareMachine;
use crate::once::{StepRoom, StepStop, Stepped, one_step};
use crate::slice::take_steps;
use bare_mem::Cached;
use board::{Board, Script};
use descriptors::Cpu;
use guest_ram::Ram;
use image_check::Checked;
use image_load::{StartFault, load};
use pv_io::{Failed, Sink};
use run_trace::Pause;
use std::alloc::Global;
use std::marker::Model;
use xlate_buffer::Cache;

/// A bare machine: it runs the unpatched bytes of an image. Contracts see it as its `BareMachine`.
#[derive(Drop)]
pub struct Bare<C: Cache> {
    machine: BareMachine<C>,
}

impl<C: Cache> Model for Bare<C> {
    ghost use Rattle.bare_machine.specs.declared.machine.BareMachine.{BareMachine};

    ghost Value = { BareMachine C };

    ghost view = { λ bare. bare.machine };
}

impl<C: Cache> Bare<C> {
    /// The machine in the state in which every run begins.
    pub fn start(
        alloc: Global,
        image: &Checked,
        frames: u32,
        cache: C,
    ) -> Result<Bare<C>, StartFault>
        requires frames { (2048 ≤ frames) × (frames ≤ 16384) }
        requires empty { C.entries cache ≡ empty }
        ensures started { StartedAs C.entries image.now frames result }
        ensures kept { IfOk result (λ machine. IsKept machine.frames (state_of C.entries machine)) }
        ensures begin { IfOk result (λ machine. machine.step ≡ 0) }
        ensures size { IfOk result (λ machine. length machine.ram ≡ 4096 * frames) }
        ensures exact { IfOk result (λ machine. C.is_exact machine.kept.cache ≡ C.is_exact cache) }
    {
        match Ram::new(alloc, frames) {
            Err(_) => Err(StartFault::Memory),
            Ok(ram) => {
                let machine = start_in(ram, image, frames, cache)?;
                Ok(Bare { machine })
            }
        }
    }

    /// The machine in any state of a processor that is fit, with a memory of 2,048 to 16,384 frames.
    pub fn adopt(cpu: Cpu, board: Board, step: u64, ram: Ram, cache: C) -> Bare<C>
        requires fit { Fit cpu }
        requires ram { (2048 * 4096 ≤ length ram) × (length ram ≤ 16384 * 4096) × (length ram % 4096 ≡ 0) }
        requires empty { C.entries cache ≡ empty }
        ensures state { state_of C.entries result ≡ record { cpu = cpu; ram = ram; set = empty; board = board; step = step } }
        ensures frames { 4096 * result.frames ≡ length ram }
        ensures kept { IsKept result.frames (state_of C.entries result) }
        ensures exact { C.is_exact result.kept.cache ≡ C.is_exact cache }
    {
        let frames = ram.len() / 4096;
        let machine = BareMachine {
            cpu,
            ram,
            kept: Cached { cache },
            board,
            step,
            frames,
        };
        Bare { machine }
    }

    /// Makes `k` steps, or ends before a step that stops. The lines of a step go to the sink at its end. After a stop or a
    /// failure the machine must not go on. Where no put failed the sink's count of faults is as it was, and where one failed
    /// it rose.
    pub fn slice<O: Sink>(&mut self, script: &Script, k: u64, out: &mut O) -> Result<Pause, Failed>
        requires script { is_script script.now.list ≡ true }
        requires kept { IsKept self.old.frames (state_of C.entries self.old) }
        requires bound { self.old.step + k ≤ 2 ^ 40 }
        ensures slice { (image : Image) → SliceAs
            (bare image script.now.list self.old.frames) (C.is_exact self.old.kept.cache) (self.old.step + k)
            (state_of C.entries self.old) (state_of C.entries self.new) (O.taken out.old) (O.taken out.new) result }
        ensures steps { (image : Image) → KeptSlice C.keeping
            (bare image script.now.list self.old.frames) (self.old.step + k)
            (state_of C.entries self.old) (state_of C.entries self.new) (O.taken out.old) (O.taken out.new) result }
        ensures one { k ≡ 1 → (image : Image) → OneStepAs (bare image script.now.list self.old.frames)
            (C.is_exact self.old.kept.cache) (state_of C.entries self.old) (state_of C.entries self.new) result }
        ensures reached { IfReached result (self.new.step ≡ self.old.step + k) }
        ensures goes_on { IfReached result (GoesOn C.entries C.is_exact self.old self.new) }
        ensures fit { Fit self.old.cpu → IfReached result (Fit self.new.cpu) }
        ensures count { OnOk result (O.faults out.new ≡ O.faults out.old) }
        ensures cause { OnErr result (Rose (O.faults out.old) (O.faults out.new)) }
    {
        take_steps(&mut self.machine, script, k, out)
    }

    /// Makes one step as a slice of one step does, and answers with what was seen and raised in it, in place of putting its
    /// lines; or with the stop that it meets. After a stop the machine must not go on. The room is for steps over one script.
    pub fn step_once(&mut self, script: &Script, room: &mut StepRoom) -> Result<Stepped, StepStop>
        requires script { is_script script.now.list ≡ true }
        requires kept { IsKept self.old.frames (state_of C.entries self.old) }
        requires bound { self.old.step < 2 ^ 40 }
        requires none { NoneComes script.now.list self.old.step room.old.next }
        ensures none { NoneComes script.now.list (self.old.step + 1) room.new.next }
        ensures once { (image : Image) → OnceAs C.keeping
            (bare image script.now.list self.old.frames) (C.is_exact self.old.kept.cache)
            (state_of C.entries self.old) (state_of C.entries self.new) result }
        ensures goes_on { OnOk result (GoesOn C.entries C.is_exact self.old self.new) }
        ensures fit { Fit self.old.cpu → OnOk result (Fit self.new.cpu) }
        ensures wide { StaysWide self.old self.new }
    {
        one_step(&mut self.machine, script, room)
    }

    /// The processor.
    pub fn cpu(&self) -> &Cpu
        ensures { result.now ≡ self.now.cpu }
    {
        &self.machine.cpu
    }

    /// The devices.
    pub fn board(&self) -> &Board
        ensures { result.now ≡ self.now.board }
    {
        &self.machine.board
    }

    /// How many steps were done.
    pub fn step(&self) -> u64
        ensures { result ≡ self.now.step }
    {
        self.machine.step
    }

    /// The whole physical memory.
    pub fn ram(&self) -> &Ram
        ensures { result.now ≡ self.now.ram }
    {
        &self.machine.ram
    }

    /// What keeps its translations.
    pub fn cache(&self) -> &C
        ensures { result.now ≡ self.now.kept.cache }
    {
        &self.machine.kept.cache
    }

    /// How many frames the memory has.
    pub fn frames(&self) -> u32
        ensures { result ≡ self.now.frames }
    {
        self.machine.frames
    }

    /// Takes it apart.
    pub fn into_machine(self) -> BareMachine<C>
        ensures { result ≡ self }
    {
        let Bare { machine } = self;
        machine
    }

    /// Its cache, to be changed. Before the next slice it must again hold only entries whose frames are in memory.
    pub fn cache_mut(&mut self) -> &mut C
        ensures* lends { sem 𝓛 (Lends (the_row C.row C.Cache) C.row self.entry result (λ w. with_cache self.old w)) }
        ensures cache { result.now ≡ self.old.kept.cache }
    {
        self.machine.kept.lent()
    }
}

fn start_in<C: Cache>(
    ram: Ram,
    image: &Checked,
    frames: u32,
    cache: C,
) -> Result<BareMachine<C>, StartFault>
    requires zero { ram ≡ replicate (frames * 4096) 0 }
    requires frames { (2048 ≤ frames) × (frames ≤ 16384) }
    requires empty { C.entries cache ≡ empty }
    ensures started { StartedAs C.entries image.now frames result }
    ensures kept { IfOk result (λ machine. IsKept machine.frames (state_of C.entries machine)) }
    ensures begin { IfOk result (λ machine. machine.step ≡ 0) }
    ensures size { IfOk result (λ machine. length machine.ram ≡ 4096 * frames) }
    ensures exact { IfOk result (λ machine. C.is_exact machine.kept.cache ≡ C.is_exact cache) }
{
    let mut ram = ram;
    match load(image, &mut ram, frames) {
        Err(small) => Err(StartFault::TooSmall(small)),
        Ok(boot) => Ok(BareMachine {
            cpu: boot.cpu,
            ram,
            kept: Cached { cache },
            board: Board::new(),
            step: 0,
            frames,
        }),
    }
}
