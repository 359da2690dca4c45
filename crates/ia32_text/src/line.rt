//! A line that is put together without memory of its own.

ghost use Rattle.std.specs.Prelude.{◌≡◌, ◌+◌, ◌++◌, ◌≤◌, length};

use arrayvec::ArrayVec;

/// How many bytes a line has room for.
pub const ROOM: usize = 320;

/// The bytes of a line.
pub type Line = ArrayVec<u8, ROOM>;

/// Puts the text after the line.
pub fn add(text: &[u8], line: &mut Line)
    requires { length line.old.items + length text.now ≤ 320 }
    ensures { line.new.items ≡ line.old.items ++ text.now }
{
    for byte in text {
        line.push(*byte);
    }
}
