//! What a slice reports of the translations that it loses.

ghost use Rattle.std.specs.Prelude.{◌≡◌, ◌<◌, ◌^◌, false};
ghost use Rattle.wedge_core.specs.Noted.{NotesOn, emptied_if, notes_then};

use run_trace::Notes;
use wedge_step::Lost;

/// Reports, where notes are wanted, that all translations were dropped before a step, if they were.
pub fn tell<L: Notes>(notes: &mut L, dropped: bool, step: u64)
    ensures told { NotesOn (L.wants notes.old) (L.tells notes.old) (L.tells notes.new) (emptied_if dropped step) }
    ensures wants { L.wants notes.new ≡ L.wants notes.old }
    ensures silent { L.wants notes.old ≡ false → notes.new ≡ notes.old }
{
    if dropped && notes.wanted() {
        notes.emptied(step);
    }
}

/// Reports the same of a step that went, and of the next one.
pub fn tell_both<L: Notes>(notes: &mut L, lost: Lost, step: u64)
    requires { step < 2 ^ 40 }
    ensures told { NotesOn (L.wants notes.old) (L.tells notes.old) (L.tells notes.new) (notes_then lost step) }
    ensures wants { L.wants notes.new ≡ L.wants notes.old }
    ensures silent { L.wants notes.old ≡ false → notes.new ≡ notes.old }
{
    tell(notes, lost.before, step);
    tell(notes, lost.after, step + 1);
}
