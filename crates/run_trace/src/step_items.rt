//! The items of one step.

ghost use Rattle.std.specs.Prelude.{◌≡◌, ◌+◌, ◌++◌, ◌∷◌, [], ◌<◌, ◌≤◌, OnOk, OnErr};
ghost use Rattle.pv_io.specs.Causes.{Rose};
ghost use Rattle.pv_io.specs.Sink.{Appends, AppendsFront};
ghost use Rattle.run_trace.specs.Text.{lines_of};
ghost use Rattle.run_trace.specs.Steps.{items_of};

use crate::items::{Item, What};
use crate::lines::put_item;
use pv_io::{Failed, Sink};

/// The items of one step, of which it has at most two: an interrupt alone, or a write of a port and a sent byte.
#[derive(Clone, Copy)]
pub struct StepItems {
    /// The items, and after them whatever.
    pub list: [Item; 2],
    /// How many there are.
    pub len: u8,
}

impl StepItems {
    /// No item.
    pub fn new() -> StepItems
        ensures none { items_of result ≡ [] }
        ensures len { result.len ≡ 0 }
    {
        let blank = Item {
            step: 0,
            what: What::Sent(0),
        };
        StepItems {
            list: [blank, blank],
            len: 0,
        }
    }

    /// One item more.
    #[tactic(auto, using(crate::proofs::Steps::one_more))]
    pub fn add(&mut self, item: Item)
        requires { self.old.len < 2 }
        ensures items { items_of self.new ≡ items_of self.old ++ item ∷ [] }
        ensures len { self.new.len ≡ self.old.len + 1 }
    {
        self.list[self.len as usize] = item;
        self.len += 1;
    }
}

/// Puts the items' lines, each in one call of the sink. `Failed` comes only where the sink's count rose; a front of
/// the lines was then taken. Where they were put the count is as it was.
pub fn put_step<O: Sink>(items: &StepItems, out: &mut O) -> Result<(), Failed>
    requires { items.now.len ≤ 2 }
    ensures ok { OnOk result (Appends (O.taken out.old) (O.taken out.new) (lines_of (items_of items.now))) }
    ensures failed { OnErr result (AppendsFront (O.taken out.old) (O.taken out.new) (lines_of (items_of items.now))) }
    ensures kept { OnOk result (O.faults out.new ≡ O.faults out.old) }
    ensures cause { OnErr result (Rose (O.faults out.old) (O.faults out.new)) }
{
    put_items(&items.list[..items.len as usize], out)
}

/// Puts the lines of items.
fn put_items<O: Sink>(items: &[Item], out: &mut O) -> Result<(), Failed>
    ensures ok { OnOk result (Appends (O.taken out.old) (O.taken out.new) (lines_of items.now)) }
    ensures failed { OnErr result (AppendsFront (O.taken out.old) (O.taken out.new) (lines_of items.now)) }
    ensures kept { OnOk result (O.faults out.new ≡ O.faults out.old) }
    ensures cause { OnErr result (Rose (O.faults out.old) (O.faults out.new)) }
{
    for item in items {
        match put_item(item, out) {
            Ok(()) => {}
            Err(failed) => return Err(failed),
        }
    }
    Ok(())
}
