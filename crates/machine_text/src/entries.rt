//! A translation as text.

ghost use Rattle.std.specs.Prelude.{◌≡◌, ◌+◌, ◌++◌, ◌≤◌, length};
ghost use Rattle.machine_text.specs.Entries as spec;

use crate::numbers::add_where;
use ia32_text::{Line, add, eight_digits};
use paging::Entry;

/// The frame's number, and whose the page is.
pub fn add_entry(entry: &Entry, line: &mut Line)
    requires { length line.old.items ≤ 100 }
    ensures text { line.new.items ≡ line.old.items ++ spec.entry_text entry.now }
    ensures len { length line.new.items ≤ length line.old.items + 40 }
{
    add(b"frame ", line);
    eight_digits(entry.frame, line);
    add_where(entry.user, b" user", line);
    add_where(entry.write, b" write", line);
    add_where(entry.dirty, b" dirty", line);
}

fn is_same_flag(a: bool, b: bool) -> bool
    ensures { result ≡ spec.is_same_flag a b }
{
    if a { b } else { !b }
}

/// Both lead to the same frame in the same way.
pub fn is_same(a: &Entry, b: &Entry) -> bool
    ensures { result ≡ spec.is_same a.now b.now }
{
    a.frame == b.frame
        && is_same_flag(a.user, b.user)
        && is_same_flag(a.write, b.write)
        && is_same_flag(a.dirty, b.dirty)
}
