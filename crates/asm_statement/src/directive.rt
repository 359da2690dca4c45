//! The directives, and what their arguments are.

ghost use Rattle.std.specs.Prelude.{◌≡◌};
ghost use Rattle.asm_statement.specs.Definers.{is_defining};
ghost use Rattle.asm_statement.specs.Directives as spec;
ghost use Rattle.asm_statement.specs.Items.{is_rep};

use asm_argument::Shape;
use asm_source::{DirectiveName, Name, begins, directive_name, is_text};

/// What a directive's arguments are.
#[derive(Clone, Copy)]
pub enum Directive {
    /// A change of the section, without an argument.
    Plain,
    Section,
    Global,
    Bytes,
    Longs,
    Strings,
    Zero,
    Aligned,
    /// `.p2align`.
    Powered,
    Common,
    LocalCommon,
    Skipped,
}

/// What a directive or an instruction begins with.
#[derive(Drop)]
pub enum Head {
    Instruction { rep: bool, name: Name },
    Directive { kind: Directive, name: Name },
}

/// What may stand as the argument at this place, counted from 0. None where there is none.
pub fn shape_at(head: &Head, index: usize) -> Option<Shape>
    ensures { result ≡ spec.shape_at head.now index }
{
    match head {
        Head::Instruction { rep: _, name: _ } => Some(Shape::Operand),
        Head::Directive { kind, name: _ } => directive_shape(*kind, index),
    }
}

fn directive_shape(kind: Directive, index: usize) -> Option<Shape>
    ensures { result ≡ spec.directive_shape kind index }
{
    match kind {
        Directive::Bytes => Some(Shape::Number),
        Directive::Longs => Some(Shape::Value),
        Directive::Strings => Some(Shape::Text),
        Directive::Global => (index == 0).then_some(Shape::Name),
        Directive::Zero => (index == 0).then_some(Shape::Count),
        Directive::Aligned => (index == 0).then_some(Shape::Alignment),
        Directive::Powered => match index {
            0 => Some(Shape::Power),
            1 => Some(Shape::Fill),
            2 => Some(Shape::Count),
            _ => None,
        },
        Directive::Common => match index {
            0 => Some(Shape::Name),
            1 => Some(Shape::Count),
            2 => Some(Shape::Alignment),
            _ => None,
        },
        Directive::LocalCommon => match index {
            0 => Some(Shape::Name),
            1 => Some(Shape::Count),
            _ => None,
        },
        Directive::Plain | Directive::Section | Directive::Skipped => None,
    }
}

/// How many arguments there must be.
pub fn least(head: &Head) -> usize
    ensures { result ≡ spec.least head.now }
{
    match head {
        Head::Instruction { rep: _, name: _ } => 0,
        Head::Directive { kind, name: _ } => match kind {
            Directive::Plain => 0,
            Directive::Common | Directive::LocalCommon => 2,
            _ => 1,
        },
    }
}

/// Whether the statement is an instruction.
pub fn is_instruction(head: &Head) -> bool
    ensures { result ≡ spec.is_instruction head.now }
{
    match head {
        Head::Instruction { rep: _, name: _ } => true,
        Head::Directive { kind: _, name: _ } => false,
    }
}

/// Whether the argument at this place defines its name.
pub fn defines(head: &Head, index: usize) -> bool
    ensures { result ≡ spec.defines head.now index }
{
    match head {
        Head::Instruction { rep: _, name: _ } => false,
        Head::Directive { kind, name: _ } => match kind {
            Directive::Common | Directive::LocalCommon => index == 0,
            _ => false,
        },
    }
}

/// Whether the name is the prefix REP.
#[tactic(auto, unfolding(crate::specs::Items::is_rep))]
pub fn is_rep(name: &Name) -> bool
    ensures { result ≡ is_rep name.now }
{
    is_text(&name.bytes, b"rep")
}

fn family(directive: DirectiveName) -> Directive
    ensures { result ≡ spec.family directive }
{
    match directive {
        DirectiveName::Text | DirectiveName::Data | DirectiveName::Bss => Directive::Plain,
        DirectiveName::Section => Directive::Section,
        DirectiveName::Global | DirectiveName::Local => Directive::Global,
        DirectiveName::Bytes | DirectiveName::Shorts => Directive::Bytes,
        DirectiveName::Longs => Directive::Longs,
        DirectiveName::Ascii | DirectiveName::Asciz => Directive::Strings,
        DirectiveName::Zeros => Directive::Zero,
        DirectiveName::Aligned => Directive::Aligned,
        DirectiveName::Powered => Directive::Powered,
        DirectiveName::Common => Directive::Common,
        DirectiveName::LocalCommon => Directive::LocalCommon,
        DirectiveName::Skipped => Directive::Skipped,
    }
}

/// What the arguments of the directive of this name are, its dot included. None where no directive has the name.
#[tactic(auto, unfolding(crate::specs::Directives::directive_of))]
pub fn directive_named(name: &Name) -> Option<Directive>
    ensures { result ≡ spec.directive_of name.now }
{
    match directive_name(&name.bytes) {
        Some(directive) => Some(family(directive)),
        None => None,
    }
}

/// Whether it is a directive's name by its first byte.
pub fn is_dotted(name: &Name) -> bool
    ensures { result ≡ spec.is_dotted name.now }
{
    match name.bytes.as_slice() {
        [first, ..] => *first == b'.',
        [] => false,
    }
}

#[tactic(auto, unfolding(crate::specs::Directives::is_known))]
fn is_known(name: &[u8]) -> bool
    ensures { result ≡ spec.is_known name.now }
{
    begins(name, b".text")
        || begins(name, b".bss")
        || begins(name, b".rodata")
        || begins(name, b".data")
}

/// Whether `.section` may name it, to be read or to be skipped.
pub fn is_section(name: &Name) -> bool
    ensures { result ≡ spec.is_section name.now }
{
    is_known(&name.bytes) || is_skipped_section(name)
}

/// Whether what stands in the section is skipped: notes, comments, debug lines and unwind tables (profile).
#[tactic(auto, unfolding(crate::specs::Directives::is_unread))]
pub fn is_skipped_section(name: &Name) -> bool
    ensures { result ≡ spec.is_unread name.now }
{
    let name = name.bytes.as_slice();
    begins(name, b".note")
        || begins(name, b".comment")
        || begins(name, b".debug")
        || begins(name, b".eh_frame")
}

fn is_change(directive: Option<Directive>) -> bool
    ensures { result ≡ spec.is_change directive }
{
    match directive {
        Some(Directive::Plain) | Some(Directive::Section) => true,
        _ => false,
    }
}

/// Whether the directive defines a name.
pub fn is_defining(directive: Option<Directive>) -> bool
    ensures { result ≡ is_defining directive }
{
    match directive {
        Some(Directive::Common) | Some(Directive::LocalCommon) => true,
        _ => false,
    }
}

/// Whether the directive of this name begins another section.
pub fn changes_section(name: &Name) -> bool
    ensures { result ≡ spec.changes_section name.now }
{
    is_dotted(name) && is_change(directive_named(name))
}
