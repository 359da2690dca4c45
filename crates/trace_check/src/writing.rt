//! Writing a list of choices.

ghost use Rattle.std.specs.Prelude.{◌≡◌, ◌++◌, ◌<◌, length, OnOk, IfOk, Ok};
ghost use Rattle.trace_check.specs.Form.{AreChoices, kind_number, choice_bytes, choices_bytes};
ghost use Rattle.trace_check.specs.Reading.{choices_in};

use crate::list::{Choice, ChoiceKind, Choices};
use std::alloc::{AllocError, Global};

fn kind_number(kind: ChoiceKind) -> u8
    ensures { result ≡ kind_number kind }
{
    match kind {
        ChoiceKind::Drop => 0,
        ChoiceKind::Empty => 1,
        ChoiceKind::Add => 2,
    }
}

fn put_choice(out: &mut Vec<u8>, choice: &Choice) -> Result<(), AllocError>
    ensures { OnOk result (out.new.items ≡ out.old.items ++ choice_bytes choice.now) }
{
    out.extend_from_slice(&choice.step.to_le_bytes())?;
    out.extend_from_slice(&choice.page.to_le_bytes())?;
    out.extend_from_slice(&[kind_number(choice.kind), 0, 0, 0])?;
    Ok(())
}

/// The one layout of the choices.
fn written(alloc: Global, list: &[Choice]) -> Result<Vec<u8>, AllocError>
    requires { length list.now < 4294967296 }
    ensures { IfOk result (λ v. v.items ≡ choices_bytes list.now) }
{
    let mut out = Vec::new(alloc);
    out.extend_from_slice(b"PVT1")?;
    out.extend_from_slice(&(list.len() as u32).to_le_bytes())?;
    for choice in list {
        put_choice(&mut out, choice)?;
    }
    Ok(out)
}

/// The one layout of the choices.
pub fn write_choices(alloc: Global, choices: &Choices) -> Result<Vec<u8>, AllocError>
    requires { AreChoices choices.now.list }
    ensures layout { IfOk result (λ v. v.items ≡ choices_bytes choices.now.list) }
    // It is read as the same choices.
    ensures read { IfOk result (λ v. choices_in v.items ≡ Ok choices.now.list) }
{
    let out = written(alloc, &choices.list)?;
    Ok(out)
}
