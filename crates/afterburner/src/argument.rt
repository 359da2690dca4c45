//! What the arguments of directives are.

ghost use Rattle.std.specs.Prelude.{◌≡◌, ◌≤◌, ◌^◌, ◌<◌, IfSome};
ghost use Rattle.std.specs.Option.{option_copied};
ghost use Rattle.asm_source.specs.Names.{symbol_in};
ghost use Rattle.afterburner.specs.Arguments.{number_in, text_in, count_of, count_at, text_at, symbol_at, limit_of, limit_at, alignment, power};

use asm_source::{Argument, Form, Name, Value};

/// The symbol's name in an argument.
pub fn symbol_in(argument: &Argument) -> Option<&Name>
    ensures { option_copied result ≡ symbol_in argument.now.form }
{
    match &argument.form {
        Form::Immediate(value) => value.name.as_ref(),
        Form::Memory {
            value: Some(value),
            base: _,
            index: _,
            scale: _,
        } => value.name.as_ref(),
        _ => None,
    }
}

/// The number of a value, or the constant beside its name.
pub fn number(form: &Form) -> i64
    ensures { result ≡ number_in form.now }
{
    match form {
        Form::Immediate(value) => value.number,
        Form::Memory {
            value: Some(value),
            base: _,
            index: _,
            scale: _,
        } => value.number,
        _ => 0,
    }
}

/// The bytes of a string; none where the argument is none.
pub fn text(form: &Form) -> &[u8]
    ensures { result.now ≡ text_in form.now }
{
    match form {
        Form::Text(name) => &name.bytes,
        _ => &[],
    }
}

fn count_of(number: i64) -> u64
    ensures count { result ≡ count_of number }
    ensures small { result < 2 ^ 63 }
{
    if number < 0 { 0 } else { number as u64 }
}

/// The count in this place; 0 where there is none.
pub fn count_at(arguments: &[Argument], index: usize) -> u64
    ensures count { result ≡ count_at arguments.now index }
    ensures small { result < 2 ^ 63 }
{
    match arguments.get(index) {
        Some(argument) => count_of(number(&argument.form)),
        None => 0,
    }
}

/// The string in this place; empty where there is none.
pub fn text_at(arguments: &[Argument], index: usize) -> &[u8]
    ensures { result.now ≡ text_at arguments.now index }
{
    match arguments.get(index) {
        Some(argument) => text(&argument.form),
        None => &[],
    }
}

/// The symbol's name in this place.
pub fn symbol_at(arguments: &[Argument], index: usize) -> Option<&Name>
    ensures { option_copied result ≡ symbol_at arguments.now index }
{
    match arguments.get(index) {
        Some(argument) => symbol_in(argument),
        None => None,
    }
}

fn limit_of(form: &Form) -> Option<u64>
    ensures { result ≡ limit_of form.now }
{
    match form {
        Form::Absent => None,
        _ => Some(count_of(number(form))),
    }
}

/// The count in this place, which may be left out.
pub fn limit_at(arguments: &[Argument], index: usize) -> Option<u64>
    ensures { result ≡ limit_at arguments.now index }
{
    match arguments.get(index) {
        Some(argument) => limit_of(&argument.form),
        None => None,
    }
}

/// An alignment, which is 1 to 4,096.
pub fn alignment(count: u64) -> usize
    ensures value { result ≡ alignment count }
    ensures some { 1 ≤ result }
    ensures most { result ≤ 4096 }
{
    if count == 0 || count > 4096 {
        1
    } else {
        count as usize
    }
}

/// The alignment of a power of two.
pub fn power(exponent: u64) -> usize
    ensures value { result ≡ power exponent }
    ensures some { 1 ≤ result }
    ensures most { result ≤ 4096 }
{
    if exponent > 12 { 1 } else { 1 << exponent }
}
