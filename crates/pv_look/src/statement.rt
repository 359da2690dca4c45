//! The statement in the line of an instruction, in its column.

ghost use Rattle.std.specs.Prelude.{◌≡◌, ◌+◌, ◌-◌, ◌++◌, ◌≤◌, ◌<◌, length, replicate};
ghost use Rattle.pv_look.specs.Here.{swept};
ghost use Rattle.pv_look.specs.Lines as spec;

use crate::comment::linear;
use crate::here::Here;
use crate::part::Part;
use crate::spelling::PLAIN;
use ia32_encode::Wide;
use ia32_text::{Line, Style, Target, add, put_text};

fn fields_or_none(fields: Option<Wide>) -> Wide
    ensures { result ≡ spec.fields_or_none fields }
{
    match fields {
        None => PLAIN,
        Some(fields) => fields,
    }
}

fn put_written(fields: Option<Wide>, here: &Here, line: &mut Line)
    requires near { here.now.at < 0x1000_0000 }
    requires room { length line.old.items ≤ 90 }
    ensures text { line.new.items ≡ line.old.items ++ spec.written fields (swept here.now) }
    ensures len { length line.new.items ≤ length line.old.items + 123 }
{
    let style = Style {
        target: Target::Label,
        named: fields_or_none(fields),
    };
    add(b"    ", line);
    put_text(&here.insn, linear(here.at), here.len, style, line);
}

fn put_statement(part: Part, fields: Option<Wide>, here: &Here, line: &mut Line)
    requires near { here.now.at < 0x1000_0000 }
    requires room { length line.old.items ≤ 90 }
    ensures text { line.new.items ≡ line.old.items ++ spec.statement_text part fields (swept here.now) }
    ensures len { length line.new.items ≤ length line.old.items + 123 }
{
    match part {
        Part::End | Part::Padding => {}
        Part::Site(_) | Part::Alone => put_written(fields, here, line),
    }
}

/// Puts blanks up to a column.
fn pad(to: usize, line: &mut Line)
    requires { to ≤ 300 }
    ensures text { line.new.items ≡ line.old.items ++ replicate (to - length line.old.items) 32 }
{
    let blanks = to.saturating_sub(line.len());
    for _ in 0..blanks {
        add(b" ", line);
    }
}

/// Puts the statement, and blanks after it up to the column of the comments.
pub fn put_column(part: Part, fields: Option<Wide>, here: &Here, line: &mut Line)
    requires near { here.now.at < 0x1000_0000 }
    requires room { length line.old.items ≤ 90 }
    ensures text { line.new.items ≡ line.old.items ++ spec.in_column (spec.statement_text part fields (swept here.now)) }
    ensures len { length line.new.items ≤ length line.old.items + 123 }
{
    let front = line.len();
    put_statement(part, fields, here, line);
    pad(front + 40, line);
}
