//! The lines that are added to a trace.

ghost use Rattle.std.specs.Prelude.{◌≡◌, ◌*◌, ◌≤◌, ◌<◌, [], length, Some, IfSome, IfNone, OnOk, OnErr};
ghost use Rattle.pv_io.specs.Causes.{Rose};
ghost use Rattle.pv_io.specs.Sink.{Appends, AppendsFront};
ghost use Rattle.linear_view.specs.View.{view_of};
ghost use Rattle.bare_machine.specs.Machine.{state_of, IsKept};
ghost use Rattle.look_words.specs.View.{only_view};
ghost use Rattle.step_text.specs.Line as text;
ghost use Rattle.step_trace.specs.Before.{IsFound, IsWithin, Unprinted, line_by, stop_by};
ghost use Rattle.step_trace.specs.Doing.{written_range, start_of, bytes_by};
ghost use Rattle.step_trace.specs.Lines as spec;

use crate::doing::{places_before, range_of};
use crate::stops::address_of;
use crate::wanted::{is_passed_by, wants};
use arrayvec::ArrayVec;
use bare_machine::Bare;
use descriptors::Cpu;
use guest_ram::Ram;
use ia32_decode::Bytes;
use ia32_exec::Range;
use linear_view::{Places, bytes_there};
use look_words::Only;
use machine_step::Raised;
use pv_io::{Failed, Sink};
use step_text::{Activity, Row, put_stopping, put_went};
use xlate_buffer::Cache;

/// What is known of a step before it is done whose line may be printed.
#[derive(Clone, Copy)]
pub struct Before {
    pub step: u64,
    pub cpu: Cpu,
    pub does: Activity,
    /// The range that its instruction writes, if it raises nothing.
    pub range: Option<Range>,
    /// The translations by which that write goes.
    pub places: Places,
}

/// What is known of the next step, by what the processor does in it; none where its line isn't printed, whatever it raises.
pub fn before_printed<C: Cache>(
    machine: &Bare<C>,
    does: Activity,
    from: u64,
    only: &Only,
) -> Option<Before>
    requires kept { IsKept machine.now.frames (state_of C.entries machine.now) }
    ensures none { IfNone result (Unprinted (only_view only.now) from machine.now.step does machine.now.cpu.regs) }
    ensures found { IfSome result (IsFound (view_of machine.now.ram machine.now.frames machine.now.cpu (C.entries machine.now.kept.cache))
        machine.now.step machine.now.cpu does) }
    ensures within { IfSome result (IsWithin machine.now.frames) }
{
    let cpu = machine.cpu();
    if machine.step() < from || is_passed_by(only, cpu.regs.eip) {
        return None;
    }
    let range = range_of(does, &cpu.regs);
    if !wants(only, does, cpu.regs.eip, range) {
        return None;
    }
    Some(Before {
        step: machine.step(),
        cpu: *cpu,
        does,
        range,
        places: places_before(machine, range),
    })
}

fn exception_of(raised: Option<Raised>) -> Option<step_text::Raised>
    ensures { result ≡ spec.exception_of raised }
{
    match raised {
        None => None,
        Some(raised) => Some(step_text::Raised {
            vector: raised.vector,
            code: raised.code,
            at: raised.at,
        }),
    }
}

fn written_range(range: Option<Range>, raised: Option<Raised>) -> Option<Range>
    ensures range { result ≡ written_range range raised }
    ensures same { IfSome result (λ written. range ≡ Some written) }
{
    match raised {
        None => range,
        Some(_) => None,
    }
}

fn start_of(range: Option<Range>) -> u32
    ensures { result ≡ start_of range }
{
    match range {
        None => 0,
        Some(range) => range.at,
    }
}

/// The bytes that stand in the range, by the translations that were found before the step.
fn stored_bytes(ram: &Ram, frames: u32, places: Places, range: Option<Range>, to: &mut Bytes)
    requires empty { to.old.items ≡ [] }
    requires few { IfSome range (λ range. range.len ≤ 32) }
    requires frames { 4096 * frames ≤ length ram.now }
    requires first { IfSome places.first (λ entry. entry.frame < frames) }
    requires second { IfSome places.second (λ entry. entry.frame < frames) }
    ensures bytes { to.new.items ≡ bytes_by ram.now places range }
    ensures few { length to.new.items ≤ 32 }
{
    if let Some(range) = range {
        bytes_there(ram, frames, places, range.at, range.len, to);
    }
}

/// The line of a step that went to this processor and this memory.
fn add_line(
    before: &Before,
    raised: Option<Raised>,
    written: Option<Range>,
    after: &Cpu,
    ram: &Ram,
    frames: u32,
    row: &mut Row,
)
    requires empty { row.old.items ≡ [] }
    requires few { IfSome written (λ range. range.len ≤ 32) }
    requires frames { 4096 * frames ≤ length ram.now }
    requires first { IfSome before.now.places.first (λ entry. entry.frame < frames) }
    requires second { IfSome before.now.places.second (λ entry. entry.frame < frames) }
    ensures { row.new.items ≡ text.went_line before.now.step before.now.does before.now.cpu after.now (spec.exception_of raised)
        (start_of written) (bytes_by ram.now before.now.places written) }
{
    let mut bytes: Bytes = ArrayVec::new();
    stored_bytes(ram, frames, before.places, written, &mut bytes);
    put_went(
        before.step,
        before.does,
        &before.cpu,
        after,
        exception_of(raised),
        start_of(written),
        bytes.as_slice(),
        row,
    );
}

/// Puts the line of a step that went, where it is asked for.
pub fn put_line<C: Cache, O: Sink>(
    before: &Before,
    raised: Option<Raised>,
    after: &Bare<C>,
    from: u64,
    only: &Only,
    out: &mut O,
) -> Result<(), Failed>
    requires within { IsWithin after.now.frames before.now }
    requires frames { 4096 * after.now.frames ≤ length after.now.ram }
    ensures ok { OnOk result (Appends (O.taken out.old) (O.taken out.new)
        (line_by before.now raised after.now.cpu after.now.ram from (only_view only.now))) }
    ensures failed { OnErr result (AppendsFront (O.taken out.old) (O.taken out.new)
        (line_by before.now raised after.now.cpu after.now.ram from (only_view only.now))) }
    ensures kept { OnOk result (O.faults out.new ≡ O.faults out.old) }
    ensures cause { OnErr result (Rose (O.faults out.old) (O.faults out.new)) }
{
    let written = written_range(before.range, raised);
    let wanted = before.step >= from && wants(only, before.does, before.cpu.regs.eip, written);
    if !wanted {
        return Ok(());
    }
    let mut row: Row = ArrayVec::new();
    add_line(
        before,
        raised,
        written,
        after.cpu(),
        after.ram(),
        after.frames(),
        &mut row,
    );
    out.put(row.as_slice())
}

/// Puts the line of a step that stops, from a step on, by what it raised and the page of its last access, where that was denied.
pub fn put_stop<O: Sink>(
    step: u64,
    does: Activity,
    cpu: &Cpu,
    raised: Option<Raised>,
    page: Option<u32>,
    from: u64,
    out: &mut O,
) -> Result<(), Failed>
    ensures ok { OnOk result (Appends (O.taken out.old) (O.taken out.new) (stop_by step does cpu.now raised page from)) }
    ensures failed { OnErr result (AppendsFront (O.taken out.old) (O.taken out.new) (stop_by step does cpu.now raised page from)) }
    ensures kept { OnOk result (O.faults out.new ≡ O.faults out.old) }
    ensures cause { OnErr result (Rose (O.faults out.old) (O.faults out.new)) }
{
    if step < from {
        return Ok(());
    }
    let mut row: Row = ArrayVec::new();
    let at = address_of(does, &cpu.regs, raised, page);
    put_stopping(step, does, cpu, exception_of(raised), at, &mut row);
    out.put(row.as_slice())
}
