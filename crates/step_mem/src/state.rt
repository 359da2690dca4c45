//! What a step keeps beside memory.

ghost use Rattle.std.specs.Prelude.{◌≡◌};
ghost use Rattle.step_mem.specs.Sound.{begun};

use crate::changes::Changes;
use crate::guard::Guard;
use crate::visited::Visited;
use crate::walking::Control;

/// What was made ready.
#[derive(Clone, Copy)]
pub struct Reach {
    pub start: u32,
    pub len: u32,
    pub write: bool,
}

/// What was made ready before that, and how many changes the step had made by then.
#[derive(Clone, Copy)]
pub struct Earlier {
    pub start: u32,
    pub len: u32,
    pub count: usize,
}

/// What a step keeps beside memory.
#[derive(Drop)]
pub struct StepState<'a> {
    pub control: Control,
    pub guard: Guard<'a>,
    pub changes: Changes,
    pub pages: u32,
    pub visited: Visited,
    pub tables: Visited,
    pub wrote: Visited,
    pub ready: Reach,
    pub earlier: Earlier,
}

impl<'a> StepState<'a> {
    /// At the beginning of a step nothing is used or ready.
    pub fn new(control: Control, guard: Guard<'a>) -> StepState<'a>
        ensures { result ≡ begun control guard.entry }
    {
        StepState {
            control,
            guard,
            changes: Changes::new(),
            pages: 0,
            visited: Visited::new(),
            tables: Visited::new(),
            wrote: Visited::new(),
            ready: Reach {
                start: 0,
                len: 0,
                write: false,
            },
            earlier: Earlier {
                start: 0,
                len: 0,
                count: 0,
            },
        }
    }

    /// The next step begins, in the place of the last one: its state is as a new one.
    pub fn renew(&mut self, control: Control, guard: Guard<'a>)
        ensures { self.new ≡ begun control guard.entry }
    {
        self.control = control;
        self.guard = guard;
        self.changes.clear();
        self.pages = 0;
        self.visited.clear();
        self.tables.clear();
        self.wrote.clear();
        self.ready = Reach {
            start: 0,
            len: 0,
            write: false,
        };
        self.earlier = Earlier {
            start: 0,
            len: 0,
            count: 0,
        };
    }

    /// A copy of the state.
    pub fn copied(&self) -> StepState<'a>
        ensures { result ≡ self.now }
    {
        self.under(self.guard)
    }

    /// A copy of the state, under another guard.
    pub fn under<'b>(&self, guard: Guard<'b>) -> StepState<'b>
        ensures { result ≡ record self.now { guard = guard.entry } }
    {
        StepState {
            control: self.control,
            guard,
            changes: self.changes.copied(),
            pages: self.pages,
            visited: self.visited.copied(),
            tables: self.tables.copied(),
            wrote: self.wrote.copied(),
            ready: self.ready,
            earlier: self.earlier,
        }
    }
}
