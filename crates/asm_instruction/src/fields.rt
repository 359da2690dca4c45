//! The numbers that fields take.

ghost use Rattle.std.specs.Prelude.{◌≡◌};
ghost use Rattle.asm_instruction.specs.Field.{fits_field, field};

use ia32_types::Size;

/// Whether a field of this size takes the number, signed or unsigned.
pub fn fits_field(size: Size, number: i64) -> bool
    ensures { result ≡ fits_field size number }
{
    match size {
        Size::Byte => -0x80 <= number && number < 0x100,
        Size::Word => -0x8000 <= number && number < 0x1_0000,
        Size::Long => -0x8000_0000 <= number && number < 0x1_0000_0000,
    }
}

/// The low bits of the number, as many as the field has.
pub fn field(size: Size, number: i64) -> u32
    ensures { result ≡ field size number }
{
    let bits = number.cast_unsigned();
    match size {
        Size::Byte => (bits % 0x100) as u32,
        Size::Word => (bits % 0x1_0000) as u32,
        Size::Long => (bits % 0x1_0000_0000) as u32,
    }
}
