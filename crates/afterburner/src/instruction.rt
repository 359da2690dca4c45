//! Instructions: spelled, padded and annotated.

ghost use Rattle.std.specs.Prelude.{◌≡◌, ◌≤◌, ◌<◌, ◌+◌, ◌++◌, ◌^◌, length, take, OnOk};
ghost use Rattle.ia32_types.specs.Site.{sensitive_kind};
ghost use Rattle.asm_source.specs.Names.{argument_names};
ghost use Rattle.asm_instruction.specs.Right.{HasBoundedLength, HasFields};
ghost use Rattle.afterburner.specs.Answers.{Makes};
ghost use Rattle.afterburner.specs.Sound.{IsSound, AreHeld};
ghost use Rattle.afterburner.specs.Causes.{cause_of};
ghost use Rattle.afterburner.specs.Instructions as spec;

use crate::argument::symbol_at;
use crate::assembly::Assembly;
use crate::fault::{BurnCause, ItemFault};
use crate::section::{is_text, put};
use crate::symbol::put_reloc;
use asm_instruction::{Assembled, Named, Refusal, assemble};
use asm_source::{Argument, Names, SYMBOL_LIMIT};
use elf_form::Reloc;
use ia32_types::{SiteKind, sensitive};
use sites::{Site, TEXT_LIMIT};
use std::alloc::AllocError;

/// NOP.
const NOP: u8 = 0x90;

/// HLT.
const HLT: u8 = 0xF4;

fn cause_of(refusal: Refusal) -> BurnCause
    ensures { result ≡ cause_of refusal }
{
    match refusal {
        Refusal::UnknownInstruction => BurnCause::UnknownInstruction,
        Refusal::RefusedInstruction => BurnCause::RefusedInstruction,
        Refusal::Operands => BurnCause::Operands,
        Refusal::ValueRange => BurnCause::ValueRange,
    }
}

/// How many NOPs follow an instruction of this length.
fn nops_behind(kind: Option<SiteKind>, len: u8) -> usize
    ensures { result ≡ spec.nops_behind kind len }
{
    match kind {
        None => 0,
        Some(_) => 5usize.saturating_sub(len as usize),
    }
}

fn is_sti(kind: Option<SiteKind>) -> bool
    ensures { result ≡ spec.is_sti kind }
{
    match kind {
        Some(SiteKind::Sti) => true,
        _ => false,
    }
}

fn is_hlt(kind: Option<SiteKind>) -> bool
    ensures { result ≡ spec.is_hlt kind }
{
    match kind {
        Some(SiteKind::Hlt) => true,
        _ => false,
    }
}

fn put_site(
    sites: &mut Vec<Site>,
    at: u32,
    kind: Option<SiteKind>,
    len: u8,
) -> Result<(), AllocError>
    ensures { OnOk result (sites.new.items ≡ sites.old.items ++ spec.site_at at kind len) }
{
    match kind {
        None => Ok(()),
        Some(kind) => {
            let total = if len < 5 { 5 } else { len };
            sites.push(Site {
                at,
                kind,
                len,
                total,
            })?;
            Ok(())
        }
    }
}

/// The relocation of a field of the instruction at this offset.
fn put_field(
    relocs: &mut Vec<Reloc>,
    names: &Names,
    at: u32,
    arguments: &[Argument],
    field: Option<Named>,
) -> Result<(), AllocError>
    requires few { length names.now ≤ SYMBOL_LIMIT }
    requires room { at < 2 ^ 31 }
    ensures { OnOk result (relocs.new.items ≡ relocs.old.items ++ spec.field_reloc names.now at arguments.now field) }
{
    match field {
        None => Ok(()),
        Some(field) => {
            let name = symbol_at(arguments, field.argument as usize);
            put_reloc(
                relocs,
                names,
                true,
                at + field.at as u32,
                field.relative,
                name,
            )
        }
    }
}

/// The bytes of the spelling.
fn spelled(assembled: &Assembled) -> &[u8]
    requires { assembled.now.spelling.len ≤ 16 }
    ensures bytes { result.now ≡ take assembled.now.spelling.len assembled.now.spelling.bytes }
    ensures len { length (take assembled.now.spelling.len assembled.now.spelling.bytes) ≡ assembled.now.spelling.len }
{
    &assembled.spelling.bytes[..assembled.spelling.len as usize]
}

/// The bytes of an instruction, and the NOPs after them.
fn put_bytes(
    out: &mut Vec<u8>,
    kind: Option<SiteKind>,
    assembled: &Assembled,
) -> Result<(), AllocError>
    requires { assembled.now.spelling.len ≤ 16 }
    ensures { OnOk result (out.new.items ≡ out.old.items
        ++ take assembled.now.spelling.len assembled.now.spelling.bytes
        ++ spec.nops (spec.nops_behind kind assembled.now.spelling.len)) }
{
    out.extend_from_slice(spelled(assembled))?;
    put(out, nops_behind(kind, assembled.spelling.len), NOP)
}

/// The relocations of both fields.
fn put_fields(
    relocs: &mut Vec<Reloc>,
    names: &Names,
    at: u32,
    arguments: &[Argument],
    assembled: &Assembled,
) -> Result<(), AllocError>
    requires few { length names.now ≤ SYMBOL_LIMIT }
    requires room { at < 2 ^ 31 }
    ensures { OnOk result (relocs.new.items ≡ relocs.old.items
        ++ spec.field_reloc names.now at arguments.now assembled.now.disp
        ++ spec.field_reloc names.now at arguments.now assembled.now.imm) }
{
    put_field(relocs, names, at, arguments, assembled.disp)?;
    put_field(relocs, names, at, arguments, assembled.imm)
}

impl Assembly {
    /// An instruction at the end of the text.
    #[tactic(auto, unfolding(crate::specs::Instructions::added))]
    fn add(
        &mut self,
        names: &Names,
        arguments: &[Argument],
        assembled: &Assembled,
    ) -> Result<(), AllocError>
        requires few { length names.now ≤ SYMBOL_LIMIT }
        requires room { length self.old.text < 2 ^ 31 }
        requires len { assembled.now.spelling.len ≤ 16 }
        ensures made { OnOk result (self.new ≡ spec.added names.now self.old arguments.now assembled.now) }
    {
        let at = self.text.len() as u32;
        let kind = sensitive(&assembled.insn);
        put_bytes(&mut self.text, kind, assembled)?;
        put_site(&mut self.sites, at, kind, assembled.spelling.len)?;
        put_fields(&mut self.text_relocs, names, at, arguments, assembled)?;
        self.after_sti = is_sti(kind);
        Ok(())
    }

    /// HLT directly after STI.
    #[tactic(auto, unfolding(crate::specs::Instructions::paired))]
    fn pair(&mut self)
        requires text { 4 ≤ length self.old.text }
        requires site { 1 ≤ length self.old.sites }
        ensures { self.new ≡ spec.paired self.old }
    {
        let nop = self.text.len() - 4;
        self.text[nop] = HLT;
        let last = self.sites.len() - 1;
        let at = self.sites[last].at;
        self.sites[last] = Site {
            at,
            kind: SiteKind::StiHlt,
            len: 2,
            total: 5,
        };
        self.after_sti = false;
    }

    #[tactic(auto, using(crate::proofs::Spelled::added_sound, crate::proofs::Spelled::paired_sound))]
    fn place(
        &mut self,
        names: &Names,
        arguments: &[Argument],
        assembled: &Assembled,
    ) -> Result<(), AllocError>
        requires few { length names.now ≤ SYMBOL_LIMIT }
        requires room { length self.old.text ≤ TEXT_LIMIT }
        requires short { HasBoundedLength assembled.now }
        requires fields { HasFields arguments.now assembled.now }
        requires held { AreHeld names.now (argument_names arguments.now) }
        requires sound { IsSound (length names.now) self.old }
        ensures made { OnOk result (self.new ≡ spec.placed names.now self.old arguments.now assembled.now) }
        ensures sound { OnOk result (IsSound (length names.now) self.new) }
    {
        let _bytes = spelled(assembled).len();
        if self.after_sti && is_hlt(sensitive(&assembled.insn)) {
            self.pair();
            return Ok(());
        }
        self.add(names, arguments, assembled)
    }

    /// An instruction; none stands outside text.
    #[tactic(auto, unfolding(crate::specs::Instructions::instruction))]
    pub fn instruction(
        &mut self,
        names: &Names,
        rep: bool,
        name: &[u8],
        arguments: &[Argument],
    ) -> Result<(), ItemFault>
        requires few { length names.now ≤ SYMBOL_LIMIT }
        requires room { length self.old.text ≤ TEXT_LIMIT }
        requires held { AreHeld names.now (argument_names arguments.now) }
        requires sound { IsSound (length names.now) self.old }
        ensures makes { Makes self.new result (spec.instruction names.now self.old rep name.now arguments.now) }
        ensures sound { OnOk result (IsSound (length names.now) self.new) }
    {
        match assemble(rep, name, arguments) {
            Err(refusal) => Err(ItemFault::Cause(cause_of(refusal))),
            Ok(assembled) => {
                if !is_text(self.section) {
                    return Err(ItemFault::Cause(BurnCause::DataInText));
                }
                self.place(names, arguments, &assembled)?;
                Ok(())
            }
        }
    }
}
