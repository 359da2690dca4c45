//! The bytes that stand where an instruction wrote.

ghost use Rattle.std.specs.Prelude.{◌≡◌, ◌+◌, ◌*◌, ◌++◌, ◌≤◌, length};
ghost use Rattle.step_text.specs.Stored as spec;

use crate::row::{Row, extend};
use arrayvec::ArrayVec;
use ia32_text::{Line, add, eight_digits, two_digits};

fn put_bytes(bytes: &[u8], line: &mut Line)
    requires room { length line.old.items ≤ 100 }
    requires few { length bytes.now ≤ 32 }
    ensures text { line.new.items ≡ line.old.items ++ spec.digits_of bytes.now }
    ensures len { length line.new.items ≡ length line.old.items + 2 * length bytes.now }
{
    for byte in bytes {
        two_digits(*byte, line);
    }
}

fn put_range(at: u32, bytes: &[u8], line: &mut Line)
    requires room { length line.old.items ≤ 10 }
    requires few { length bytes.now ≤ 32 }
    ensures text { line.new.items ≡ line.old.items ++ spec.stored_bytes at bytes.now }
    ensures len { length line.new.items ≤ length line.old.items + 77 }
{
    add(b"  [", line);
    eight_digits(at, line);
    add(b"] ", line);
    put_bytes(bytes, line);
}

/// Puts an address and the bytes there, of which there are at most 32. Where there is none it puts nothing.
pub fn put_stored(at: u32, bytes: &[u8], row: &mut Row)
    requires room { length row.old.items ≤ 550 }
    requires few { length bytes.now ≤ 32 }
    ensures text { row.new.items ≡ row.old.items ++ spec.stored_text at bytes.now }
    ensures len { length row.new.items ≤ length row.old.items + 77 }
{
    if bytes.len() == 0 {
        return;
    }
    let mut line: Line = ArrayVec::new();
    put_range(at, bytes, &mut line);
    extend(line.as_slice(), row);
}
