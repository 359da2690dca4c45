//! A script: events from outside, by the step that they come in.

ghost use Rattle.std.specs.Prelude.{◌≡◌, true};
ghost use Rattle.std.specs.List.Sorted.{IsNonDecreasingBy};
ghost use Rattle.ia32_types.specs.Firsts.{IsFirst};
ghost use Rattle.board.specs.ScriptForm.{is_script_from};
ghost use Rattle.board.specs.Earlier.{earlier};
ghost use Rattle.board.specs.EventLists.{later, SameEvents};
ghost use Rattle.board.specs.Quiet.{event_within};

use std::marker::Model;

/// What reaches the board from outside.
#[derive(Clone, Copy, PartialEq, Eq)]
pub enum Event {
    /// A byte at the serial line.
    Rx(u8),
    /// A rising edge at an interrupt line.
    Line(u8),
}

/// What reaches the board from outside in a run. Each call that takes one has the condition that it is as
/// `read_script` gives it.
#[derive(Drop)]
pub struct Script {
    /// The events in order, each with the step that it comes in.
    pub list: Vec<(u64, Event)>,
}

impl Model for Script {
    ghost use Rattle.board.specs.EventLists.{EventList};

    ghost Value = { EventList };

    ghost view = { λ s. record { list = s.list.items } };
}

/// The events from the first one after a step on.
pub fn events_after(events: &[(u64, Event)], step: u64) -> &[(u64, Event)]
    requires { is_script_from 0 events.now ≡ true }
    ensures { result.now ≡ later step events.now }
{
    let start = events.partition_point(|event| event.0 <= step);
    &events[start..]
}

/// The events from the first one of a step on.
pub fn events_from(events: &[(u64, Event)], step: u64) -> &[(u64, Event)]
    requires { is_script_from 0 events.now ≡ true }
    ensures same { SameEvents step events.now result.now }
    ensures order { is_script_from step result.now ≡ true }
{
    if step == 0 {
        return events;
    }
    events_after(events, step - 1)
}

/// The number of steps from a step to the next event after it.
pub fn steps_to_event(events: &[(u64, Event)], step: u64) -> Option<u64>
    requires { is_script_from 0 events.now ≡ true }
    ensures { IsFirst (λ n. event_within step n events.now) result }
{
    match events_after(events, step) {
        [] => None,
        [(at, _), ..] => Some(*at - step),
    }
}

/// The earlier of two numbers, where there is one.
pub fn earlier(a: Option<u64>, b: Option<u64>) -> Option<u64>
    ensures { result ≡ earlier a b }
{
    match (a, b) {
        (None, b) => b,
        (Some(a), None) => Some(a),
        (Some(a), Some(b)) => Some(a.min(b)),
    }
}
