//! The outcome of one step.

ghost use Rattle.std.specs.Prelude.{◌≡◌, ◌≤◌, None, Some, OnOk, OnErr};
ghost use Rattle.pv_io.specs.Causes.{Rose};
ghost use Rattle.pv_io.specs.Sink.{Appends, AppendsFront};
ghost use Rattle.run_trace.specs.Steps.{items_of};
ghost use Rattle.run_trace.specs.Text.{lines_of};
ghost use Rattle.machine_model.specs.Step.{items_at};
ghost use Rattle.machine_step.specs.Worked.{done_by, whats};

use descriptors::Cpu;
use ia32_types::{Insn, Stop};
use pv_io::{Failed, Sink};
use run_trace::{Item, StepItems, What, put_step};

/// What one step lets be seen.
#[derive(Clone, Copy)]
pub enum Seen {
    Nothing,
    One(What),
    Two(What, What),
}

/// What leaves the cached translations at the end of a step.
#[derive(Clone, Copy)]
pub enum Dropped {
    Nothing,
    Page(u32),
    /// The pages of a directory index.
    Dir(u32),
    All,
}

/// An instruction that completed, with the EIP at which it began, and whether it began at level 3.
#[derive(Clone, Copy)]
pub struct Completed {
    pub insn: Insn,
    pub eip: u32,
    pub user: bool,
}

/// An exception's vector that an instruction raised, and the error code that its handler finds: vectors 11 to 14 have one.
/// Of a page fault also the linear address, which CR2 takes whether the fault is delivered or its delivery stops.
#[derive(Clone, Copy)]
pub struct Raised {
    pub vector: u8,
    pub code: Option<u32>,
    pub at: Option<u32>,
}

/// A step that went: what was seen, the instruction that completed, the processor, what is dropped, and what an instruction
/// raised. What it changed of the translations, and the pages that it went through, stand in the step's state.
#[derive(Clone, Copy)]
pub struct Worked {
    pub seen: Seen,
    pub completed: Option<Completed>,
    pub cpu: Cpu,
    pub dropped: Dropped,
    pub raised: Option<Raised>,
}

impl Completed {
    /// The instruction, which this processor began.
    pub fn of(insn: &Insn, before: &Cpu) -> Completed
        ensures { result ≡ done_by insn.now before.now }
    {
        Completed {
            insn: *insn,
            eip: before.regs.eip,
            user: before.cpl == 3,
        }
    }
}

impl Worked {
    /// A place in which steps are recorded, where nothing is recorded yet but the processor.
    pub fn at(cpu: &Cpu) -> Worked
        ensures { result ≡ record { seen = Seen.Nothing; completed = None; cpu = cpu.now; dropped = Dropped.Nothing; raised = None } }
    {
        Worked {
            seen: Seen::Nothing,
            completed: None,
            cpu: *cpu,
            dropped: Dropped::Nothing,
            raised: None,
        }
    }

    /// An instruction completed that this processor began.
    pub fn complete(&mut self, insn: &Insn, before: &Cpu, seen: Seen, dropped: Dropped)
        ensures { self.new ≡ record {
          seen = seen;
          completed = Some (done_by insn.now before.now);
          cpu = self.old.cpu;
          dropped = dropped;
          raised = self.old.raised;
        } }
    {
        self.seen = seen;
        self.completed = Some(Completed::of(insn, before));
        self.dropped = dropped;
    }
}

/// What a step lets be seen, as items.
pub fn items_of(step: u64, seen: Seen) -> StepItems
    ensures items { items_of result ≡ items_at step (whats seen) }
    ensures few { result.len ≤ 2 }
{
    let mut items = StepItems::new();
    match seen {
        Seen::Nothing => {}
        Seen::One(what) => items.add(Item { step, what }),
        Seen::Two(first, second) => {
            items.add(Item { step, what: first });
            items.add(Item { step, what: second });
        }
    }
    items
}

/// Puts the lines of what a step let be seen, which mostly is nothing. Where they were put the sink's count of faults is as
/// it was, and where one was not it rose.
#[inline(always)]
pub fn put_seen<O: Sink>(step: u64, seen: Seen, out: &mut O) -> Result<(), Failed>
    ensures ok { OnOk result (Appends (O.taken out.old) (O.taken out.new) (lines_of (items_at step (whats seen)))) }
    ensures failed { OnErr result (AppendsFront (O.taken out.old) (O.taken out.new) (lines_of (items_at step (whats seen)))) }
    ensures kept { OnOk result (O.faults out.new ≡ O.faults out.old) }
    ensures cause { OnErr result (Rose (O.faults out.old) (O.faults out.new)) }
{
    if let Seen::Nothing = seen {
        return Ok(());
    }
    put_some(step, seen, out)
}

/// Puts the lines of what a step let be seen, where it is something.
#[inline(never)]
fn put_some<O: Sink>(step: u64, seen: Seen, out: &mut O) -> Result<(), Failed>
    ensures ok { OnOk result (Appends (O.taken out.old) (O.taken out.new) (lines_of (items_at step (whats seen)))) }
    ensures failed { OnErr result (AppendsFront (O.taken out.old) (O.taken out.new) (lines_of (items_at step (whats seen)))) }
    ensures kept { OnOk result (O.faults out.new ≡ O.faults out.old) }
    ensures cause { OnErr result (Rose (O.faults out.old) (O.faults out.new)) }
{
    put_step(&items_of(step, seen), out)
}
