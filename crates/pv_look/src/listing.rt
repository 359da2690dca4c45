//! The form `list`.

ghost use Rattle.std.specs.Prelude.{◌≡◌, ◌+◌, ◌<◌, ◌≤◌, ℕ, List, length, false, slice_index_or, OnOk, OnErr};
ghost use Rattle.pv_io.specs.Causes.{Rose};
ghost use Rattle.pv_io.specs.Sink.{Appends, AppendsFront};
ghost use Rattle.wedge_core.specs.Counts.{Counts as HostCounts};
ghost use Rattle.pv_build.specs.Telling.{Says};
ghost use Rattle.pv_tasks.specs.Beside.{beside};
ghost use Rattle.pv_tasks.specs.Faulting.{FaultsEnd};
ghost use Rattle.pv_tasks.specs.Tasks.{Means, FaultCounts};
ghost use Rattle.pv_look.specs.Labels.{is_named};
ghost use Rattle.pv_look.specs.Here.{swept};
ghost use Rattle.pv_look.specs.Lines.{lines_with};
ghost use Rattle.pv_look.specs.Listing.{listing, list_task};

use crate::here::{Here, instruction_at};
use crate::labels::named_labels;
use crate::line::put_lines;
use arrayvec::ArrayVec;
use ia32_text::Line;
use image_check::Checked;
use image_laws::{outside_sites, places};
use pv_build::{Status, accepted, end};
use pv_io::{Failed, Files, Sink};
use std::alloc::Global;

/// Puts what the listing says of an instruction, in one call of the sink.
fn put_one<S: Sink>(image: &Checked, labelled: bool, here: &Here, out: &mut S) -> Result<(), Failed>
    requires inside { here.now.at + here.now.len ≤ length image.now.text }
    requires short { here.now.len ≤ 11 }
    ensures ok { OnOk result (Appends (S.taken out.old) (S.taken out.new) (lines_with image.now labelled (swept here.now))) }
    ensures failed { OnErr result (AppendsFront (S.taken out.old) (S.taken out.new) (lines_with image.now labelled (swept here.now))) }
    ensures kept { OnOk result (S.faults out.new ≡ S.faults out.old) }
    ensures cause { OnErr result (Rose (S.faults out.old) (S.faults out.new)) }
{
    let mut line: Line = ArrayVec::new();
    put_lines(image, labelled, here, &mut line);
    out.put(line.as_slice())
}

/// Puts the head, and what the listing says of each instruction.
fn put_all<S: Sink>(image: &Checked, labels: &[bool], out: &mut S) -> Result<(), Failed>
    requires labels { (i : ℕ) → i < length image.now.text → slice_index_or labels.now i false ≡ is_named image.now i }
    requires len { length labels.now ≡ length image.now.text }
    ensures ok { OnOk result (Appends (S.taken out.old) (S.taken out.new) (listing image.now)) }
    ensures failed { OnErr result (AppendsFront (S.taken out.old) (S.taken out.new) (listing image.now)) }
    ensures kept { OnOk result (S.faults out.new ≡ S.faults out.old) }
    ensures cause { OnErr result (Rose (S.faults out.old) (S.faults out.new)) }
{
    image.accepted();
    places();
    outside_sites();
    match out.put(b"    .globl _start\n") {
        Ok(()) => {}
        Err(failed) => return Err(failed),
    }
    let mut at = 0;
    while at < labels.len() {
        let here = instruction_at(image, at);
        match put_one(image, labels[at], &here, out) {
            Ok(()) => {}
            Err(failed) => return Err(failed),
        }
        at += here.len as usize;
    }
    Ok(())
}

fn put_listing<S: Sink>(image: &Checked, labels: &[bool], out: &mut S) -> Status
    requires labels { (i : ℕ) → i < length image.now.text → slice_index_or labels.now i false ≡ is_named image.now i }
    requires len { length labels.now ≡ length image.now.text }
    ensures { Says (listing image.now) Status.Done (S.taken out.old) (S.taken out.new) (S.faults out.old) (S.faults out.new) result }
{
    match put_all(image, labels, out) {
        Ok(()) => Status::Done,
        Err(_) => Status::WriteFault,
    }
}

/// Prints the text of an image as a source, or why the image is not accepted.
pub fn list<F: Files, S: Sink>(alloc: Global, name: &str, files: &mut F, out: &mut S) -> Status
    ensures meaning { (completed : HostCounts) (memory : List ℕ)
        → Means (list_task name.now) (beside F.Files S.Sink (files.old, files.new) (out.old, out.new) completed memory) result }
    ensures counts { (completed : HostCounts) (memory : List ℕ)
        → FaultCounts (list_task name.now) (beside F.Files S.Sink (files.old, files.new) (out.old, out.new) completed memory) }
    ensures ends { FaultsEnd F.Files S.Sink (files.old, files.new) (out.old, out.new) result }
{
    match accepted(alloc, name, files) {
        Err(halt) => end(&halt, out),
        Ok(image) => match named_labels(alloc, &image) {
            Err(_) => Status::Memory,
            Ok(labels) => put_listing(&image, &labels, out),
        },
    }
}
