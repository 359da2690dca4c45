//! The names of a source.

ghost use Rattle.std.specs.Prelude.{◌≡◌, fold, IfOk, OnOk};
ghost use Rattle.std.specs.Option.{option_to_list};
ghost use Rattle.asm_source.specs.Names.{added, argument_names, body_names, names_in, symbol_in};

use crate::argument::symbol_in;
use asm_source::{Argument, Body, Names, Source};
use std::alloc::{AllocError, Global};

fn add_argument(alloc: Global, names: &mut Names, argument: &Argument) -> Result<(), AllocError>
    ensures { OnOk result (names.new ≡ fold added names.old (option_to_list (symbol_in argument.now.form))) }
{
    match symbol_in(argument) {
        None => Ok(()),
        Some(name) => names.add(alloc, &name.bytes),
    }
}

fn add_arguments(alloc: Global, names: &mut Names, arguments: &[Argument]) -> Result<(), AllocError>
    ensures { OnOk result (names.new ≡ fold added names.old (argument_names arguments.now)) }
{
    for argument in arguments {
        add_argument(alloc, names, argument)?;
    }
    Ok(())
}

fn add_body(alloc: Global, names: &mut Names, body: &Body) -> Result<(), AllocError>
    ensures { OnOk result (names.new ≡ fold added names.old (body_names body.now)) }
{
    match body {
        Body::Label(name) => names.add(alloc, &name.bytes),
        Body::Directive { name: _, arguments } => add_arguments(alloc, names, &arguments.list),
        Body::Instruction {
            rep: _,
            name: _,
            arguments,
        } => add_arguments(alloc, names, &arguments.list),
    }
}

/// The names of a source.
#[tactic(auto, unfolding(asm_source::specs::Names::names_in))]
pub fn names_of(alloc: Global, source: &Source) -> Result<Names, AllocError>
    ensures { IfOk result (λ names. names ≡ names_in source.now) }
{
    let mut names = Names::new(alloc);
    for item in &source.items {
        add_body(alloc, &mut names, &item.body)?;
    }
    Ok(names)
}
