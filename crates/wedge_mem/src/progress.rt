//! What one step did so far in a guest's memory whose text is kept from data.

ghost use Rattle.std.specs.Prelude.{◌≡◌};
ghost use Rattle.step_mem.specs.Sound.{begun};
ghost use Rattle.wedge_mem.specs.Progress.{Guards, IsPlain, state_by};

use step_mem::{Control, Guard, Own, StepState, Text};

/// The text of a state that is kept from step to step: none.
static NO_TEXT: Option<Text<'static>> = None;

/// A step so far, whose state names no text, and the frames of the text, `count` of them from `first` on.
#[derive(Drop)]
pub struct Progress {
    pub state: StepState<'static>,
    pub first: u32,
    pub count: u32,
}

impl Progress {
    /// Nothing is used or ready.
    pub fn new(control: Control, first: u32, count: u32) -> Progress
        ensures state { result.state ≡ begun control result.state.guard }
        ensures own { result.state.guard.own ≡ record { front = 0; front_len = 0; back = 0; back_len = 0 } }
        ensures text { (result.first ≡ first) × (result.count ≡ count) }
    {
        let own = Own {
            front: 0,
            front_len: 0,
            back: 0,
            back_len: 0,
        };
        let text = &NO_TEXT;
        Progress {
            state: StepState::new(control, Guard { text, own }),
            first,
            count,
        }
    }

    /// The frames of the text. Nothing is laid over them.
    pub fn text(&self) -> Option<Text<'static>>
        ensures { IsPlain result self.now.first self.now.count }
    {
        Some(Text {
            first: self.first,
            count: self.count,
            bytes: &[],
        })
    }

    /// What a step has come to as a step's state, under a guard of these frames.
    pub fn state<'t>(&self, text: &'t Option<Text<'t>>) -> StepState<'t>
        requires { IsPlain text.now self.now.first self.now.count }
        ensures state { result ≡ state_by result.guard self.now }
        ensures guards { Guards result.guard self.now }
    {
        let own = self.state.guard.own;
        self.state.under(Guard { text, own })
    }

    /// Takes over what a step did further, under a guard of the same frames.
    pub fn follow(&mut self, state: &StepState)
        requires { IsPlain state.now.guard.text.now self.old.first self.old.count }
        ensures state { state.now ≡ state_by state.now.guard self.new }
        ensures guards { Guards state.now.guard self.new }
        ensures text { (self.new.first ≡ self.old.first) × (self.new.count ≡ self.old.count) }
    {
        let own = state.guard.own;
        let text = &NO_TEXT;
        self.state = state.under(Guard { text, own });
    }
}
