//! The directives that make data.

ghost use Rattle.std.specs.Prelude.{◌≡◌, ◌≤◌, ◌<◌, ◌+◌, ◌*◌, ◌++◌, ◌^◌, length, fold, OnOk};
ghost use Rattle.std.specs.List.{flat_map};
ghost use Rattle.afterburner.specs.Answers.{Makes};
ghost use Rattle.afterburner.specs.Directives as spec;

use crate::argument::{number, symbol_in, text};
use crate::assembly::Assembly;
use crate::fault::{BurnCause, ItemFault};
use crate::section::{Section, is_init, put};
use crate::symbol::put_reloc;
use crate::value::put_value;
use asm_instruction::fits_field;
use asm_source::{Argument, Names, SYMBOL_LIMIT};
use ia32_types::Size;
use sites::INIT_LIMIT;
use std::alloc::AllocError;

fn all_fit(size: Size, arguments: &[Argument]) -> bool
    ensures { result ≡ spec.all_fit size arguments.now }
{
    arguments
        .iter()
        .all(|argument| fits_field(size, number(&argument.form)))
}

fn put_values(out: &mut Vec<u8>, size: Size, arguments: &[Argument]) -> Result<(), AllocError>
    ensures { OnOk result (out.new.items ≡ out.old.items ++ spec.values size arguments.now) }
{
    for argument in arguments {
        put_value(out, size, number(&argument.form))?;
    }
    Ok(())
}

fn put_string(out: &mut Vec<u8>, ended: bool, argument: &Argument) -> Result<(), AllocError>
    ensures { OnOk result (out.new.items ≡ out.old.items ++ spec.string_bytes ended argument.now) }
{
    out.extend_from_slice(text(&argument.form))?;
    if !ended {
        return Ok(());
    }
    out.push(0)?;
    Ok(())
}

fn put_strings(out: &mut Vec<u8>, ended: bool, arguments: &[Argument]) -> Result<(), AllocError>
    ensures { OnOk result (out.new.items ≡ out.old.items ++ flat_map (spec.string_bytes ended) arguments.now) }
{
    for argument in arguments {
        put_string(out, ended, argument)?;
    }
    Ok(())
}

impl Assembly {
    /// Numbers of one or of two bytes.
    #[tactic(auto, unfolding(crate::specs::Directives::numbers))]
    pub fn numbers(&mut self, size: Size, arguments: &[Argument]) -> Result<(), ItemFault>
        ensures { Makes self.new result (spec.numbers self.old size arguments.now) }
    {
        if !all_fit(size, arguments) {
            return Err(ItemFault::Cause(BurnCause::ValueRange));
        }
        if !is_init(self.section) {
            return Err(ItemFault::Cause(BurnCause::DataInText));
        }
        put_values(&mut self.init, size, arguments)?;
        Ok(())
    }

    /// A value of four bytes, with the relocation of its name.
    fn put_long(&mut self, names: &Names, argument: &Argument) -> Result<(), AllocError>
        requires few { length names.now ≤ SYMBOL_LIMIT }
        requires room { length self.old.init < 2 ^ 32 }
        ensures { OnOk result (self.new ≡ spec.with_long names.now self.old argument.now) }
    {
        let at = self.init.len() as u32;
        put_reloc(
            &mut self.data_relocs,
            names,
            false,
            at,
            false,
            symbol_in(argument),
        )?;
        put_value(&mut self.init, Size::Long, number(&argument.form))
    }

    fn put_longs(&mut self, names: &Names, arguments: &[Argument]) -> Result<(), AllocError>
        requires few { length names.now ≤ SYMBOL_LIMIT }
        requires room { length self.old.init + 4 * length arguments.now < 2 ^ 32 }
        ensures { OnOk result (self.new ≡ fold (spec.with_long names.now) self.old arguments.now) }
    {
        for argument in arguments {
            self.put_long(names, argument)?;
        }
        Ok(())
    }

    /// Values of four bytes.
    #[tactic(auto, unfolding(crate::specs::Directives::longs))]
    pub fn longs(&mut self, names: &Names, arguments: &[Argument]) -> Result<(), ItemFault>
        requires few { length names.now ≤ SYMBOL_LIMIT }
        requires room { length self.old.init + 4 * length arguments.now < 2 ^ 32 }
        ensures { Makes self.new result (spec.longs names.now self.old arguments.now) }
    {
        if !all_fit(Size::Long, arguments) {
            return Err(ItemFault::Cause(BurnCause::ValueRange));
        }
        if !is_init(self.section) {
            return Err(ItemFault::Cause(BurnCause::DataInText));
        }
        self.put_longs(names, arguments)?;
        Ok(())
    }

    /// Strings, each with a zero byte at its end where `ended` is set.
    #[tactic(auto, unfolding(crate::specs::Directives::strings))]
    pub fn strings(&mut self, ended: bool, arguments: &[Argument]) -> Result<(), ItemFault>
        ensures { Makes self.new result (spec.strings self.old ended arguments.now) }
    {
        if !is_init(self.section) {
            return Err(ItemFault::Cause(BurnCause::DataInText));
        }
        put_strings(&mut self.init, ended, arguments)?;
        Ok(())
    }

    /// Zero bytes.
    pub fn zeros(&mut self, count: u64) -> Result<(), ItemFault>
        requires size { count < 2 ^ 63 }
        requires room { length self.old.init + self.old.bss < 2 ^ 62 }
        ensures { Makes self.new result (spec.zeros_in self.old self.old.section count) }
    {
        match self.section {
            Section::Text => Err(ItemFault::Cause(BurnCause::DataInText)),
            Section::Init => {
                if self.init.len() + self.bss + count as usize > INIT_LIMIT {
                    return Err(ItemFault::Cause(BurnCause::InitTooLarge));
                }
                Ok(put(&mut self.init, count as usize, 0)?)
            }
            Section::Bss => {
                self.bss += count as usize;
                Ok(())
            }
        }
    }
}
