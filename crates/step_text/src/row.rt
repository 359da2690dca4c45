//! A long line that is put together without memory of its own.

ghost use Rattle.std.specs.Prelude.{◌≡◌, ◌+◌, ◌++◌, ◌≤◌, length};

use arrayvec::ArrayVec;

/// How many bytes a row has room for.
pub const ROOM: usize = 720;

/// The bytes of a row.
pub type Row = ArrayVec<u8, ROOM>;

/// Puts the text after the row.
pub fn extend(text: &[u8], row: &mut Row)
    requires { length row.old.items + length text.now ≤ 720 }
    ensures { row.new.items ≡ row.old.items ++ text.now }
{
    for byte in text {
        row.push(*byte);
    }
}
