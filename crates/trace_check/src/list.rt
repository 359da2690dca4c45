//! A list of choices.

ghost use Rattle.std.specs.Prelude.{◌≡◌, ◌<◌, ◌≤◌, [], ◌∷◌, ◌++◌, length, IfOk};
ghost use Rattle.trace_check.specs.declared.list.ChoicesFault.TheVariants.{Memory};

use std::alloc::{AllocError, AllocFailed, Global};
use std::marker::Model;
use thiserror::Error;

/// How a set of translations is changed before a step: the page's is dropped, all are, or the one that a walk of the
/// tables finds for the page is added.
#[derive(Clone, Copy)]
pub enum ChoiceKind {
    Drop,
    Empty,
    Add,
}

/// A change of the set of translations before a step, counted from 0. The page is the number of a page of 4,096 bytes,
/// and 0 where all are dropped.
#[derive(Clone, Copy)]
pub struct Choice {
    pub step: u64,
    pub page: u32,
    pub kind: ChoiceKind,
}

/// Changes of a run's set of translations, in the order in which they are made. Seen as their list, and how many there
/// is room for.
#[derive(Drop)]
pub struct Choices {
    pub list: Vec<Choice>,
}

impl Model for Choices {
    ghost use Rattle.std.specs.Prelude.{vec_capacity};
    ghost use Rattle.trace_check.specs.Lists.{ChoiceList};

    ghost Value = { ChoiceList };

    ghost view = { λ c. record { list = c.list.items; room = vec_capacity c.list } };
}

impl Choices {
    /// None, with room for so many.
    pub(crate) fn with_room(alloc: Global, room: usize) -> Result<Choices, AllocError>
        ensures { IfOk result (λ choices. choices ≡ record { list = []; room = room }) }
    {
        Ok(Choices {
            list: Vec::with_capacity(alloc, room)?,
        })
    }

    /// One more, for which there is room.
    pub(crate) fn put(&mut self, choice: Choice)
        requires { length self.old.list < self.old.room }
        ensures list { self.new.list ≡ self.old.list ++ choice ∷ [] }
        ensures room { self.old.room ≤ self.new.room }
    {
        match self.list.push(choice) {
            Ok(()) => {}
            Err(_) => unreachable!(),
        }
    }
}

/// Where the bytes are not in the form, or that no memory was found.
#[derive(Clone, Copy, Debug, Error)]
pub enum ChoicesFault {
    #[error("no choices in the form, at {at}")]
    Form { at: u32 },
    #[error("no memory was found")]
    Memory,
}

impl From<AllocError> for ChoicesFault {
    ghost from_gives = { λ _ e. e ≡ Memory };

    fn from(_e: AllocError) -> ChoicesFault {
        ChoicesFault::Memory
    }
}

impl<T: Drop> From<AllocFailed<T>> for ChoicesFault {
    ghost from_gives = { λ _ e. e ≡ Memory };

    fn from(_e: AllocFailed<T>) -> ChoicesFault {
        ChoicesFault::Memory
    }
}
