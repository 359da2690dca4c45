//! The labels that the instructions of a listing name.

ghost use Rattle.std.specs.Prelude.{◌≡◌, ◌+◌, ◌<◌, ◌≤◌, ℕ, false, length, slice_index_or, IfOk, ◌||◌};
ghost use Rattle.ia32_types.specs.Branches.{is_direct_branch};
ghost use Rattle.pv_look.specs.Here.{swept};
ghost use Rattle.pv_look.specs.Labels as spec;

use crate::here::{Here, bytes_at, instruction_at};
use crate::spelling::named_fields;
use ia32_encode::Wide;
use ia32_types::Op;
use image_check::Checked;
use image_laws::{outside_sites, places};
use std::alloc::{AllocError, Global};

fn is_direct_branch(op: Op) -> bool
    ensures { result ≡ is_direct_branch op }
{
    matches!(op, Op::Jmp | Op::Call | Op::Jcc)
}

fn first_named(fields: Option<Wide>) -> Option<u32>
    ensures { result ≡ spec.first_named fields }
{
    match fields {
        None => None,
        Some(fields) => (fields.disp || fields.imm).then_some(0),
    }
}

/// The offset whose label an instruction names.
fn named_by(image: &Checked, here: &Here) -> Option<u32>
    requires inside { here.now.at + here.now.len ≤ length image.now.text }
    ensures { result ≡ spec.named_by image.now (swept here.now) }
{
    let end = here.at as usize + here.len as usize;
    if end == image.text().len() {
        None
    } else if is_direct_branch(here.insn.op) {
        Some((end as u32).wrapping_add(here.insn.imm))
    } else {
        first_named(named_fields(&here.insn, bytes_at(image, here)))
    }
}

/// Marks the offset, where it is one of the text.
fn mark(offset: Option<u32>, flags: &mut Vec<bool>)
    ensures flags { (i : ℕ) → i < length flags.old.items
        → slice_index_or flags.new.items i false ≡ (slice_index_or flags.old.items i false || spec.is_at i offset) }
    ensures len { length flags.new.items ≡ length flags.old.items }
{
    if let Some(offset) = offset {
        let index = offset as usize;
        if index < flags.len() {
            flags[index] = true;
        }
    }
}

/// For each byte of the text, whether an instruction names its label.
pub fn named_labels(alloc: Global, image: &Checked) -> Result<Vec<bool>, AllocError>
    ensures labels { IfOk result (λ labels. (i : ℕ) → i < length image.now.text
        → slice_index_or labels.items i false ≡ spec.is_named image.now i) }
    ensures len { IfOk result (λ labels. length labels.items ≡ length image.now.text) }
{
    image.accepted();
    places();
    outside_sites();
    let len = image.text().len();
    let mut labels = vec![in alloc; false; len]?;
    let mut at = 0;
    while at < len {
        let here = instruction_at(image, at);
        mark(named_by(image, &here), &mut labels);
        at += here.len as usize;
    }
    Ok(labels)
}
