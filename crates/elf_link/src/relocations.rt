//! Fields that are filled with addresses and distances.

ghost use Rattle.std.specs.Prelude.{◌≡◌, ◌+◌, ◌≤◌, ◌<◌, length, IsTrue, slice_get, IfOk};
ghost use Rattle.elf_form.specs.ObjectLayout.{is_of};
ghost use Rattle.elf_link.specs.Layout.{or_zero};
ghost use Rattle.elf_link.specs.Symbols.{is_text, address};
ghost use Rattle.elf_form.specs.Linkable.{IsLinkable};
ghost use Rattle.elf_link.specs.Relocations.{target_by, reloc_cause, field_at, address_by, sum_of, relocated, filled, contents_of, with_fields};
ghost use Rattle.elf_form.specs.Tables.{first_some};

use crate::base::Base;
use crate::fault::LinkCause;
use crate::globals::{Globals, copy_of, name_of, target_of};
use crate::target::Target;
use elf_form::{Object, Place, Reloc, Symbol};
use guest_ram::{put_word, word};
use std::alloc::{AllocError, Global};

/// What the objects' names and parts stand for.
#[derive(Drop)]
pub struct Plan {
    pub bases: Vec<Base>,
    pub globals: Globals,
}

/// Whether a symbol is defined in text.
pub fn is_text(place: Place) -> bool
    ensures { result ≡ is_text place }
{
    match place {
        Place::Text => true,
        Place::Undefined | Place::Init | Place::Bss => false,
    }
}

/// The linear addresses of the parts of an object.
fn base_of(bases: &[Base], number: u32) -> Base
    ensures { result ≡ or_zero (slice_get bases.now number) }
{
    match bases.get(number as usize) {
        Some(base) => *base,
        None => Base {
            text: 0,
            init: 0,
            bss: 0,
        },
    }
}

/// The linear address that a symbol stands for.
#[tactic(auto, unfolding(crate::specs::Symbols::address))]
pub fn address(bases: &[Base], target: Target) -> u32
    ensures { result ≡ address bases.now target }
{
    let base = base_of(bases, target.object);
    let part = match target.place {
        Place::Undefined => 0,
        Place::Text => base.text,
        Place::Init => base.init,
        Place::Bss => base.bss,
    };
    part.wrapping_add(target.value)
}

/// Why a relocation is refused, if it is: its symbol is defined nowhere, or a branch would leave
/// the text.
#[tactic(auto, unfolding(crate::specs::Relocations::reloc_cause))]
fn reloc_cause(
    alloc: Global,
    globals: &Globals,
    number: u32,
    object: &Object,
    reloc: Reloc,
) -> Result<Option<LinkCause>, AllocError>
    requires { reloc.symbol < length object.now.symbols }
    ensures { IfOk result (λ cause. cause ≡ reloc_cause globals.now (number, object.now) reloc) }
{
    let symbol = &object.symbols[reloc.symbol as usize];
    match target_of(globals, number, symbol) {
        None => Ok(Some(LinkCause::NoSymbol(copy_of(alloc, name_of(symbol))?))),
        Some(target) => {
            if reloc.in_text && reloc.relative && !is_text(target.place) {
                return Ok(Some(LinkCause::NotText(reloc.at)));
            }
            Ok(None)
        }
    }
}

/// The first cause by which a relocation of an object is refused, if there is one.
pub fn relocs_cause(
    alloc: Global,
    globals: &Globals,
    number: u32,
    object: &Object,
) -> Result<Option<LinkCause>, AllocError>
    requires { IsLinkable object.now }
    ensures { IfOk result (λ cause. cause ≡ first_some (reloc_cause globals.now (number, object.now)) object.now.relocs) }
{
    for reloc in &object.relocs {
        let cause = reloc_cause(alloc, globals, number, object, *reloc)?;
        if cause.is_some() {
            return Ok(cause);
        }
    }
    Ok(None)
}

/// S + A, or S + A - P where the field is a distance.
fn sum_of(relative: bool, symbol: u32, addend: u32, place: u32) -> u32
    ensures { result ≡ sum_of relative symbol addend place }
{
    let sum = symbol.wrapping_add(addend);
    if relative {
        sum.wrapping_sub(place)
    } else {
        sum
    }
}

/// The linear address of what a relocation names.
fn named_address(plan: &Plan, number: u32, object: &Object, reloc: Reloc) -> u32
    ensures { result ≡ address_by plan.now.bases.items (target_by plan.now.globals number (slice_get object.now.symbols reloc.symbol)) }
{
    match object.symbols.get(reloc.symbol as usize) {
        None => 0,
        Some(symbol) => match target_of(&plan.globals, number, symbol) {
            None => 0,
            Some(target) => address(&plan.bases, target),
        },
    }
}

/// The linear address of the field.
fn field_at(base: Base, reloc: Reloc) -> u32
    ensures { result ≡ field_at base reloc }
{
    let part = if reloc.in_text { base.text } else { base.init };
    part.wrapping_add(reloc.at)
}

/// Fills the field of a relocation, if it is in this part.
#[tactic(auto, unfolding(crate::specs::Relocations::filled, crate::specs::Relocations::relocated))]
fn fill(plan: &Plan, number: u32, object: &Object, in_text: bool, reloc: Reloc, bytes: &mut [u8])
    requires { IsTrue (is_of in_text reloc) → reloc.at + 4 ≤ length bytes.old }
    ensures { bytes.new ≡ filled plan.now.bases.items plan.now.globals (number, object.now) in_text bytes.old reloc }
{
    if reloc.in_text != in_text {
        return;
    }
    let at = reloc.at as usize;
    let symbol = named_address(plan, number, object, reloc);
    let place = field_at(base_of(&plan.bases, number), reloc);
    let sum = sum_of(reloc.relative, symbol, word(bytes, at), place);
    put_word(bytes, at, sum);
}

/// The text or the data of an object with its fields filled.
#[tactic(auto, unfolding(crate::specs::Relocations::with_fields))]
pub fn with_fields(
    alloc: Global,
    plan: &Plan,
    number: u32,
    object: &Object,
    in_text: bool,
) -> Result<Vec<u8>, AllocError>
    requires { IsLinkable object.now }
    ensures { IfOk result (λ v. v.items ≡ with_fields plan.now.bases.items plan.now.globals (number, object.now) in_text) }
{
    let part = if in_text { &object.text } else { &object.init };
    let mut bytes = Vec::from_slice(alloc, part)?;
    for reloc in &object.relocs {
        fill(plan, number, object, in_text, *reloc, &mut bytes);
    }
    Ok(bytes)
}
