//! Numbers in fields of data.

ghost use Rattle.std.specs.Prelude.{◌≡◌, ◌++◌, OnOk};
ghost use Rattle.afterburner.specs.Values as spec;

use asm_instruction::field;
use ia32_types::Size;
use std::alloc::AllocError;

/// Adds the low bytes of the number, as many as the field has.
#[tactic(auto, using(crate::proofs::FieldBytes::few_bytes))]
pub fn put_value(out: &mut Vec<u8>, size: Size, number: i64) -> Result<(), AllocError>
    ensures { OnOk result (out.new.items ≡ out.old.items ++ spec.value_bytes size number) }
{
    out.extend_from_slice(&field(size, number).to_le_bytes()[..size.bytes() as usize])?;
    Ok(())
}
