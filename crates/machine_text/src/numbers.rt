//! Numbers and flags with their names.

ghost use Rattle.std.specs.Prelude.{◌≡◌, ◌+◌, ◌*◌, ◌++◌, ◌≤◌, length, codes, OnOk};
ghost use Rattle.machine_text.specs.Numbers as spec;

use arrayvec::ArrayVec;
use ia32_text::{Line, add, eight_digits, two_digits};
use std::alloc::AllocError;

/// A byte after its name.
pub fn add_field(name: &[u8], n: u8, line: &mut Line)
    requires { length line.old.items + length name.now ≤ 290 }
    ensures text { line.new.items ≡ line.old.items ++ spec.field name.now n }
    ensures len { length line.new.items ≡ length line.old.items + length name.now + 2 }
{
    add(name, line);
    two_digits(n, line);
}

/// A name where something is so.
pub fn add_where(so: bool, name: &[u8], line: &mut Line)
    requires { length line.old.items + length name.now ≤ 300 }
    ensures text { line.new.items ≡ line.old.items ++ spec.where_so so name.now }
    ensures len { length line.new.items ≤ length line.old.items + length name.now }
{
    if so {
        add(name, line);
    }
}

/// Each byte after a blank.
pub fn add_bytes(bytes: &[u8], line: &mut Line)
    requires room { length line.old.items ≤ 120 }
    requires few { length bytes.now ≤ 40 }
    ensures text { line.new.items ≡ line.old.items ++ spec.bytes_text bytes.now }
    ensures len { length line.new.items ≡ length line.old.items + 3 * length bytes.now }
{
    for byte in bytes {
        add(b" ", line);
        two_digits(*byte, line);
    }
}

/// A line of a name and a number of 32 bits.
pub fn add_long_line(name: &[u8], n: u32, text: &mut Vec<u8>) -> Result<(), AllocError>
    requires { length name.now ≤ 100 }
    ensures { OnOk result (text.new.items ≡ text.old.items ++ spec.long_line name.now n) }
{
    let mut line: Line = ArrayVec::new();
    add(name, &mut line);
    eight_digits(n, &mut line);
    add(b"\n", &mut line);
    text.extend_from_slice(line.as_slice())
}

/// A line of a name and `yes` or `no`.
pub fn add_answer(name: &[u8], so: bool, text: &mut Vec<u8>) -> Result<(), AllocError>
    ensures { OnOk result (text.new.items ≡ text.old.items ++ (name.now ++ spec.yes_or_no so)) }
{
    text.extend_from_slice(name)?;
    if so {
        text.extend_from_slice(b"yes\n")
    } else {
        text.extend_from_slice(b"no\n")
    }
}
