//! What a run reports of the translations that it loses.

ghost use Rattle.std.specs.Prelude.{◌≡◌, ◌++◌, ◌∷◌, [], List, Bool, false};
ghost use Rattle.run_trace.specs.Notes.{Note, emptied_at, dropped_at};

/// Takes notes of the translations that a run loses between its steps.
pub trait Notes {
    /// The run is to report them. It is the same at any time.
    ghost wants: { Self → Bool };

    /// These are the notes so far, where that is told.
    ghost tells: { Self → List Note → Type 0 };

    fn wanted(&self) -> bool
        ensures { result ≡ wants self.now };

    /// Before this step all translations were lost.
    fn emptied(&mut self, step: u64)
        ensures note { (so_far : List Note) → tells self.old so_far → tells self.new (so_far ++ emptied_at step ∷ []) }
        ensures wants { wants self.new ≡ wants self.old };

    /// Before this step a page's translation was lost.
    fn dropped(&mut self, step: u64, page: u32)
        ensures note { (so_far : List Note) → tells self.old so_far → tells self.new (so_far ++ dropped_at step page ∷ []) }
        ensures wants { wants self.new ≡ wants self.old };
}

/// Wants no notes and reports none.
#[derive(Clone, Copy)]
pub struct NoNotes;

impl Notes for NoNotes {
    ghost wants = { λ _. false };

    ghost tells = { λ _ _. ⊥ };

    fn wanted(&self) -> bool {
        false
    }

    fn emptied(&mut self, step: u64) {
        let _ = step;
    }

    fn dropped(&mut self, step: u64, page: u32) {
        let _ = (step, page);
    }
}
