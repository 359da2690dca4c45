//! The notes of a run, kept as choices.

ghost use Rattle.std.specs.Prelude.{◌≡◌, ◌++◌, ◌∷◌, [], ◌<◌, ◌≤◌, List, true, false, length, IfOk, MatchOption};
ghost use Rattle.run_trace.specs.Notes.{Note, emptied_at, dropped_at};
ghost use Rattle.trace_check.specs.Form.{most_choices};
ghost use Rattle.trace_check.specs.ChoicesTold.{choices_of};
ghost use Rattle.trace_check.specs.NotesKept.{AreKept};

use crate::list::{Choice, ChoiceKind, Choices};
use crate::reading::MOST_CHOICES;
use run_trace::Notes;
use std::alloc::{AllocError, Global};
use std::marker::Model;

/// Keeps the notes of a run as choices, as long as a file has room for them.
#[derive(Drop)]
pub struct KeptNotes {
    choices: Choices,
    more: bool,
}

impl Model for KeptNotes {
    ghost use Rattle.std.specs.Prelude.{◌≤◌, length};
    ghost use Rattle.trace_check.specs.Form.{most_choices};
    ghost use Rattle.trace_check.specs.NotesKept.{KeptChoices};

    ghost Value = { KeptChoices };

    ghost view = { λ k. record { list = k.choices.list; more = k.more } };

    ghost invariant = { λ k. (most_choices ≤ k.choices.room) × (length k.choices.list ≤ most_choices) };
}

impl KeptNotes {
    /// No note was reported. Room for all that are kept is taken here.
    pub fn new(alloc: Global) -> Result<KeptNotes, AllocError>
        ensures none { IfOk result (λ kept. AreKept kept []) }
    {
        Ok(KeptNotes {
            choices: Choices::with_room(alloc, MOST_CHOICES as usize)?,
            more: false,
        })
    }

    /// The choices that the notes report; None exactly where more were reported than a file has room for.
    pub fn choices(&self) -> Option<&Choices>
        ensures told { (notes : List Note) → AreKept self.now notes
            → MatchOption result (most_choices < length notes) (λ choices. (length notes ≤ most_choices) × (choices.now.list ≡ choices_of notes)) }
    {
        if self.more { None } else { Some(&self.choices) }
    }

    fn note(&mut self, choice: Choice)
        ensures kept { length self.old.list < most_choices → self.new ≡ record self.old { list = self.old.list ++ choice ∷ [] } }
        ensures full { most_choices ≤ length self.old.list → self.new ≡ record self.old { more = true } }
    {
        if self.choices.list.len() < MOST_CHOICES as usize {
            self.choices.put(choice);
        } else {
            self.more = true;
        }
    }
}

impl Notes for KeptNotes {
    ghost wants = { λ _. true };

    ghost tells = { AreKept };

    fn wanted(&self) -> bool {
        true
    }

    fn emptied(&mut self, step: u64) {
        self.note(Choice {
            step,
            page: 0,
            kind: ChoiceKind::Empty,
        });
    }

    fn dropped(&mut self, step: u64, page: u32) {
        self.note(Choice {
            step,
            page,
            kind: ChoiceKind::Drop,
        });
    }
}
