//! The directives by what they do.

ghost use Rattle.std.specs.Option.{unwrap_or};
ghost use Rattle.afterburner.specs.Arguments.{alignment};
ghost use Rattle.std.specs.Prelude.{◌≡◌, ◌≤◌, ◌<◌, ◌+◌, ◌*◌, ◌^◌, length};
ghost use Rattle.afterburner.specs.Answers.{Makes};
ghost use Rattle.afterburner.specs.Directives as spec;

use crate::argument::{alignment, count_at, limit_at, power, symbol_at, text_at};
use crate::assembly::Assembly;
use crate::fault::ItemFault;
use crate::section::{Section, section_named};
use crate::symbol::Binding;
use asm_source::{Argument, DirectiveName, Names, SYMBOL_LIMIT, directive_name};
use ia32_types::Size;

/// The directive of this name. One that is none says nothing, as one that is skipped.
pub fn directive_of(name: &[u8]) -> DirectiveName
    ensures { result ≡ spec.directive_of name.now }
{
    match directive_name(name) {
        Some(directive) => directive,
        None => DirectiveName::Skipped,
    }
}

fn common_alignment(count: Option<u64>) -> usize
    ensures value { result ≡ alignment (unwrap_or count 1) }
    ensures some { 1 ≤ result }
    ensures most { result ≤ 4096 }
{
    match count {
        None => 1,
        Some(count) => alignment(count),
    }
}

impl Assembly {
    /// `.comm NAME,SIZE[,ALIGN]`.
    #[tactic(auto, unfolding(crate::specs::Directives::common))]
    fn common(&mut self, names: &Names, arguments: &[Argument])
        requires { self.old.bss + 4096 < 2 ^ 32 }
        ensures { self.new ≡ spec.common names.now self.old arguments.now }
    {
        let name = symbol_at(arguments, 0);
        let size = count_at(arguments, 1);
        let alignment = common_alignment(limit_at(arguments, 2));
        self.reserve(names, name, size, alignment);
        self.bind(names, name, Binding::Common);
    }

    /// What a directive makes.
    #[tactic(auto, unfolding(crate::specs::Directives::directed))]
    pub fn direct(
        &mut self,
        names: &Names,
        directive: DirectiveName,
        arguments: &[Argument],
    ) -> Result<(), ItemFault>
        requires few { length names.now ≤ SYMBOL_LIMIT }
        requires data { length self.old.init + 4 * length arguments.now < 2 ^ 32 }
        requires bss { self.old.bss + 4096 < 2 ^ 32 }
        ensures { Makes self.new result (spec.directed names.now self.old directive arguments.now) }
    {
        match directive {
            DirectiveName::Text => Ok(self.enter(Section::Text)),
            DirectiveName::Data => Ok(self.enter(Section::Init)),
            DirectiveName::Bss => Ok(self.enter(Section::Bss)),
            DirectiveName::Section => {
                let section = section_named(text_at(arguments, 0), self.section);
                Ok(self.enter(section))
            }
            DirectiveName::Global => Ok(self.bind(names, symbol_at(arguments, 0), Binding::Global)),
            DirectiveName::Local => Ok(self.bind(names, symbol_at(arguments, 0), Binding::Local)),
            DirectiveName::Bytes => self.numbers(Size::Byte, arguments),
            DirectiveName::Shorts => self.numbers(Size::Word, arguments),
            DirectiveName::Longs => self.longs(names, arguments),
            DirectiveName::Ascii => self.strings(false, arguments),
            DirectiveName::Asciz => self.strings(true, arguments),
            DirectiveName::Zeros => self.zeros(count_at(arguments, 0)),
            DirectiveName::Aligned => Ok(self.align(alignment(count_at(arguments, 0)), None)?),
            DirectiveName::Powered => {
                Ok(self.align(power(count_at(arguments, 0)), limit_at(arguments, 2))?)
            }
            DirectiveName::Common => Ok(self.common(names, arguments)),
            DirectiveName::LocalCommon => {
                Ok(self.reserve(names, symbol_at(arguments, 0), count_at(arguments, 1), 1))
            }
            DirectiveName::Skipped => Ok(()),
        }
    }
}
