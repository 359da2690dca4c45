//! From the items of a source to its object.

ghost use Rattle.std.specs.Prelude.{◌≡◌, ◌≤◌, ◌<◌, ◌+◌, ℕ, length, OnOk, IfOk};
ghost use Rattle.asm_source.specs.Readable.{IsReadable};
ghost use Rattle.asm_source.specs.Names.{body_names, names_in};
ghost use Rattle.asm_source.specs.Size.{body_count};
ghost use Rattle.asm_lex.specs.declared.lexing.TheConstants.{LIMIT};
ghost use Rattle.elf_form.specs.Writable.{IsWholeObject};
ghost use Rattle.afterburner.specs.Burnt.{parted, made, item_made, all_made, burnt};
ghost use Rattle.afterburner.specs.Answers.{Makes, Gives, FaultOf};
ghost use Rattle.afterburner.specs.declared.fault.BurnCause.{BurnCause as CauseView};
ghost use Rattle.afterburner.specs.ObjectSoFar.{fresh};
ghost use Rattle.afterburner.specs.Refused.{IsFirstRefused, Refuses, RefusesAs};
ghost use Rattle.afterburner.specs.Sound.{IsSound, IsWithin, IsAnnotated, IsSmall, AreHeld};

use crate::assembly::Assembly;
use crate::directive::directive_of;
use crate::fault::{BurnFault, ItemFault};
use crate::limits::limited;
use crate::names::names_of;
use crate::object::object;
use asm_source::{Body, Names, SYMBOL_LIMIT, Source, SourceItem};
use elf_form::{Object, object_length};
use std::alloc::{AllocError, Global};

impl Assembly {
    fn part(&mut self)
        ensures { self.new ≡ parted self.old }
    {
        self.after_sti = false;
    }

    /// What an item makes.
    #[tactic(auto, unfolding(crate::specs::Burnt::made), using(crate::proofs::Items::labelled_sound, crate::proofs::Items::directed_sound))]
    fn make(&mut self, names: &Names, body: &Body) -> Result<(), ItemFault>
        requires few { length names.now ≤ SYMBOL_LIMIT }
        requires size { body_count body.now ≤ LIMIT }
        requires held { AreHeld names.now (body_names body.now) }
        requires sound { IsSound (length names.now) self.old }
        requires within { IsWithin self.old }
        ensures makes { Makes self.new result (made names.now self.old body.now) }
        ensures sound { OnOk result (IsSound (length names.now) self.new) }
    {
        match body {
            Body::Label(name) => {
                self.part();
                self.label(names, &name.bytes);
                Ok(())
            }
            Body::Directive { name, arguments } => {
                self.part();
                self.direct(names, directive_of(&name.bytes), &arguments.list)
            }
            Body::Instruction {
                rep,
                name,
                arguments,
            } => self.instruction(names, *rep, &name.bytes, &arguments.list),
        }
    }

    /// What an item makes, within the limits.
    #[tactic(auto, unfolding(crate::specs::Burnt::item_made))]
    fn make_item(&mut self, names: &Names, body: &Body) -> Result<(), ItemFault>
        requires few { length names.now ≤ SYMBOL_LIMIT }
        requires size { body_count body.now ≤ LIMIT }
        requires held { AreHeld names.now (body_names body.now) }
        requires sound { IsSound (length names.now) self.old }
        requires within { IsWithin self.old }
        ensures makes { Makes self.new result (item_made names.now self.old body.now) }
        ensures sound { OnOk result (IsSound (length names.now) self.new) }
        ensures within { OnOk result (IsWithin self.new) }
    {
        self.make(names, body)?;
        limited(self)
    }
}

/// What all items make, within the limits.
fn make_all(alloc: Global, names: &Names, items: &[SourceItem]) -> Result<Assembly, BurnFault>
    requires readable { IsReadable items.now }
    requires names { names.now ≡ names_in items.now }
    ensures makes { Gives result (all_made items.now) }
    ensures sound { IfOk result (λ made. IsSound (length names.now) made) }
    ensures within { IfOk result (λ made. IsWithin made) }
{
    let mut made = match Assembly::new(alloc, names) {
        Err(AllocError) => return Err(BurnFault::Memory),
        Ok(made) => made,
    };
    for item in items {
        match made.make_item(names, &item.body) {
            Err(stop) => return Err(fault(item.line, stop)),
            Ok(()) => {}
        }
    }
    Ok(made)
}

fn fault(line: u32, stop: ItemFault) -> BurnFault
    ensures { FaultOf line stop result }
{
    match stop {
        ItemFault::Cause(cause) => BurnFault::At { line, cause },
        ItemFault::Memory => BurnFault::Memory,
    }
}

/// The object of a source's items: each instruction in its chosen spelling, a sensitive one padded with
/// NOPs to five bytes and annotated. The line of a fault is that of the first item that is refused.
#[tactic(auto, unfolding(crate::specs::Burnt::burnt), using(crate::proofs::Refusal::refused_first))]
pub fn burn(alloc: Global, source: &Source) -> Result<Object, BurnFault>
    requires { IsReadable source.now }
    // The object, or the first refusal, is this function of the items.
    ensures exact { Gives result (burnt source.now) }
    // What is refused is the first item that meets a cause's condition, for the lowest such cause.
    ensures first { Refuses source.now result }
    // Where an item is refused first in these words, the source is refused so, unless memory runs out.
    ensures first_only { (line : ℕ) (cause : CauseView)
        → IsFirstRefused (names_in source.now) (fresh (names_in source.now)) source.now line cause
        → RefusesAs line cause result }
    // A file can be written of the object.
    ensures writable { IfOk result (λ o. IsWholeObject o) }
    // Its annotations are those of sites in its text, in the format for so long a text.
    ensures sites { IfOk result (λ o. IsAnnotated o) }
    ensures limits { IfOk result (λ o. IsSmall o) }
{
    object_length();
    let names = match names_of(alloc, source) {
        Err(AllocError) => return Err(BurnFault::Memory),
        Ok(names) => names,
    };
    let made = match make_all(alloc, &names, &source.items) {
        Err(fault) => return Err(fault),
        Ok(made) => made,
    };
    match object(alloc, &names, made) {
        Err(AllocError) => Err(BurnFault::Memory),
        Ok(object) => Ok(object),
    }
}
