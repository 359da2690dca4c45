//! Names that are looked up.

ghost use Rattle.std.specs.Prelude.{◌≡◌};
ghost use Rattle.asm_instruction.specs.Rows.{found_row};

use asm_source::is_text;

/// What the table has for the name.
pub fn look_up<T: Copy>(table: &[(&[u8], T)], name: &[u8]) -> Option<T>
    ensures { result ≡ found_row table.now name.now }
{
    for (text, value) in table {
        if is_text(name, text) {
            return Some(*value);
        }
    }
    None
}
