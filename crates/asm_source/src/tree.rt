//! What a source says.

use std::marker::Model;

/// The bytes of a name or of a string.
#[derive(Drop)]
pub struct Name {
    pub bytes: Vec<u8>,
}

impl Model for Name {
    ghost use Rattle.std.specs.Prelude.{List, ℕ};

    ghost Value = { List ℕ };

    ghost view = { λ n. n.bytes.items };
}

/// A number, or a name with a constant.
#[derive(Drop)]
pub struct Value {
    pub name: Option<Name>,
    /// The number, or the constant that is added to the name's address.
    pub number: i64,
}

/// What an argument is. A plain value is a `Memory` with that value alone.
#[derive(Drop)]
pub enum Form {
    Absent,
    /// `%eax`; the name without its `%`.
    Register(Name),
    /// `$value`.
    Immediate(Value),
    /// `value(base,index,scale)`; `scale` is 1 where none is written.
    Memory {
        value: Option<Value>,
        base: Option<Name>,
        index: Option<Name>,
        scale: u8,
    },
    /// The bytes of a string after its escapes are read, or the name of a section.
    Text(Name),
}

/// An argument of a directive or an instruction.
#[derive(Drop)]
pub struct Argument {
    /// Whether `*` stands before it, as in an indirect JMP or CALL.
    pub star: bool,
    pub form: Form,
}

/// Arguments in the order of the source.
#[derive(Drop)]
pub struct Arguments {
    pub list: Vec<Argument>,
}

impl Model for Arguments {
    ghost use Rattle.std.specs.Prelude.{List};
    ghost use Rattle.asm_source.specs.declared.tree.Argument.{Argument};

    ghost Value = { List Argument };

    ghost view = { λ a. a.list.items };
}

/// What a statement is.
#[derive(Drop)]
pub enum Body {
    /// `name:`.
    Label(Name),
    /// The name has its leading `.`.
    Directive {
        name: Name,
        arguments: Arguments,
    },
    /// `rep` is true where that prefix stands before it.
    Instruction {
        rep: bool,
        name: Name,
        arguments: Arguments,
    },
}

/// A label, directive or instruction.
#[derive(Drop)]
pub struct SourceItem {
    /// The line of its first token, counted from 1.
    pub line: u32,
    pub body: Body,
}

/// The items of a source in its order, without skipped statements.
#[derive(Drop)]
pub struct Source {
    pub items: Vec<SourceItem>,
}

impl Model for Source {
    ghost use Rattle.std.specs.Prelude.{List};
    ghost use Rattle.asm_source.specs.declared.tree.SourceItem.{SourceItem};

    ghost Value = { List SourceItem };

    ghost view = { λ s. s.items.items };
}
