//! The line of a step.

ghost use Rattle.std.specs.Prelude.{◌≡◌, ◌+◌, ◌++◌, ◌≤◌, [], length};
ghost use Rattle.step_text.specs.Line as spec;

use crate::activity::Activity;
use crate::began::put_began;
use crate::changed::put_changes;
use crate::raised::{Raised, put_access, put_interrupt, put_raised, put_undelivered};
use crate::row::{Row, extend};
use crate::stored::put_stored;
use arrayvec::ArrayVec;
use descriptors::Cpu;

#[tactic(auto, unfolding(crate::specs::Line::entries))]
fn put_entries(
    does: Activity,
    old: &Cpu,
    new: &Cpu,
    raised: Option<Raised>,
    at: u32,
    bytes: &[u8],
    row: &mut Row,
)
    requires empty { row.old.items ≡ [] }
    requires few { length bytes.now ≤ 32 }
    ensures text { row.new.items ≡ spec.entries does old.now new.now raised at bytes.now }
    ensures len { length row.new.items ≤ 470 }
{
    put_raised(raised, new, row);
    put_interrupt(does, new, row);
    put_changes(old, new, row);
    put_stored(at, bytes, row);
}

/// The entries after a bar, of which the first has one blank before it.
fn put_after_bar(entries: &[u8], row: &mut Row)
    requires room { length row.old.items ≤ 215 }
    requires few { length entries.now ≤ 470 }
    ensures text { row.new.items ≡ row.old.items ++ spec.after_bar entries.now }
    ensures len { length row.new.items ≤ length row.old.items + 472 }
{
    if entries.len() == 0 {
        return;
    }
    extend(b" |", row);
    extend(&entries[1..], row);
}

/// Puts the line of a step that went: its number, what the processor did, the processor before and after it, what was
/// raised, and the bytes that stand after it where the instruction wrote, at most 32.
#[tactic(auto, unfolding(crate::specs::Line::went_line))]
pub fn put_went(
    step: u64,
    does: Activity,
    old: &Cpu,
    new: &Cpu,
    raised: Option<Raised>,
    at: u32,
    bytes: &[u8],
    row: &mut Row,
)
    requires empty { row.old.items ≡ [] }
    requires few { length bytes.now ≤ 32 }
    ensures { row.new.items ≡ spec.went_line step does old.now new.now raised at bytes.now }
{
    let mut entries: Row = ArrayVec::new();
    put_entries(does, old, new, raised, at, bytes, &mut entries);
    put_began(step, old, does, row);
    put_after_bar(entries.as_slice(), row);
    extend(b"\n", row);
}

/// Puts the line of a step that stops, by the processor before it, with what its instruction raised and the linear address of
/// the access at which it stops.
#[tactic(auto, unfolding(crate::specs::Line::stopping_line))]
pub fn put_stopping(
    step: u64,
    does: Activity,
    old: &Cpu,
    raised: Option<Raised>,
    at: Option<u32>,
    row: &mut Row,
)
    requires { row.old.items ≡ [] }
    ensures { row.new.items ≡ spec.stopping_line step does old.now raised at }
{
    let mut entries: Row = ArrayVec::new();
    put_undelivered(raised, &mut entries);
    put_access(at, &mut entries);
    put_began(step, old, does, row);
    put_after_bar(entries.as_slice(), row);
    extend(b"\n", row);
}
