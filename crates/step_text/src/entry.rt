//! The entries of a line, each after two blanks.

ghost use Rattle.std.specs.Prelude.{◌≡◌, ◌+◌, ◌++◌, ◌≤◌, length};
ghost use Rattle.step_text.specs.Changed as spec;

use crate::row::{Row, extend};
use arrayvec::ArrayVec;
use ia32_text::{Line, add, eight_digits, four_digits};

fn put_name(name: &[u8], line: &mut Line)
    requires room { length line.old.items ≤ 100 }
    requires short { length name.now ≤ 6 }
    ensures text { line.new.items ≡ line.old.items ++ spec.name_text name.now }
    ensures len { length line.new.items ≤ length line.old.items + 9 }
{
    add(b"  ", line);
    add(name, line);
    add(b" ", line);
}

/// A register of 32 bits, where it changed.
#[tactic(auto, unfolding(crate::specs::Changed::word_change))]
pub fn put_word(name: &[u8], old: u32, new: u32, row: &mut Row)
    requires room { length row.old.items ≤ 600 }
    requires short { length name.now ≤ 6 }
    ensures text { row.new.items ≡ row.old.items ++ spec.word_change name.now old new }
    ensures len { length row.new.items ≤ length row.old.items + 17 }
{
    if old != new {
        let mut line: Line = ArrayVec::new();
        put_name(name, &mut line);
        eight_digits(new, &mut line);
        extend(line.as_slice(), row);
    }
}

/// A selector, by the name of its register.
pub fn put_selector(name: &[u8], selector: u16, row: &mut Row)
    requires room { length row.old.items ≤ 600 }
    requires short { length name.now ≤ 6 }
    ensures text { row.new.items ≡ row.old.items ++ spec.selector_text name.now selector }
    ensures len { length row.new.items ≤ length row.old.items + 13 }
{
    let mut line: Line = ArrayVec::new();
    put_name(name, &mut line);
    four_digits(selector, &mut line);
    extend(line.as_slice(), row);
}

/// The base and the limit of a table, by the name of its register.
pub fn put_base_and_limit(name: &[u8], base: u32, limit: u16, row: &mut Row)
    requires room { length row.old.items ≤ 600 }
    requires short { length name.now ≤ 6 }
    ensures text { row.new.items ≡ row.old.items ++ spec.table_text name.now base limit }
    ensures len { length row.new.items ≤ length row.old.items + 22 }
{
    let mut line: Line = ArrayVec::new();
    put_name(name, &mut line);
    eight_digits(base, &mut line);
    add(b" ", &mut line);
    four_digits(limit, &mut line);
    extend(line.as_slice(), row);
}
