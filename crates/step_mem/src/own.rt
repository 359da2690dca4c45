//! The bytes of this step's instruction.

ghost use Rattle.std.specs.Prelude.{◌≡◌, None};
ghost use Rattle.paging.specs.Space.{place};
ghost use Rattle.paging.specs.Uses.{with_front, with_back};
ghost use Rattle.step_mem.specs.Guard.{mode_of};
ghost use Rattle.step_mem.specs.Changes.{HasEntry};
ghost use Rattle.step_mem.specs.Sound.{IsSoundOver, space};

use crate::access::place;
use crate::guard::Own;
use crate::state::StepState;
use crate::translations::Translations;
use guest_ram::Ram;

/// The bytes at an address are those of this step's instruction in its first page, and so far its only ones.
pub fn own_front<B: Translations>(ram: &Ram, base: &B, state: &mut StepState, at: u32, len: u32)
    requires sound { IsSoundOver B.Translations base.now ram.now state.old }
    requires found { HasEntry (space B.Translations base.now ram.now state.old).set at }
    ensures sound { IsSoundOver B.Translations base.now ram.now state.new }
    ensures owns { space B.Translations base.now ram.now state.new ≡ record (space B.Translations base.now ram.now state.old) {
      mode = with_front (mode_of state.old.guard) (place (space B.Translations base.now ram.now state.old) at) len;
    } }
    ensures pages { state.new.pages ≡ state.old.pages }
    ensures control { state.new.control ≡ state.old.control }
    ensures text { state.new.guard.text ≡ state.old.guard.text }
    ensures bare { state.old.guard.text.now ≡ None → state.new.guard ≡ state.old.guard }
{
    if state.guard.text.is_none() {
        return;
    }
    let at = place(ram, base, state, at);
    state.guard.own = Own {
        front: at,
        front_len: len,
        back: 0,
        back_len: 0,
    };
}

/// The bytes at an address are those of this step's instruction in its second page.
pub fn own_back<B: Translations>(ram: &Ram, base: &B, state: &mut StepState, at: u32, len: u32)
    requires sound { IsSoundOver B.Translations base.now ram.now state.old }
    requires found { HasEntry (space B.Translations base.now ram.now state.old).set at }
    ensures sound { IsSoundOver B.Translations base.now ram.now state.new }
    ensures owns { space B.Translations base.now ram.now state.new ≡ record (space B.Translations base.now ram.now state.old) {
      mode = with_back (mode_of state.old.guard) (place (space B.Translations base.now ram.now state.old) at) len;
    } }
    ensures pages { state.new.pages ≡ state.old.pages }
    ensures control { state.new.control ≡ state.old.control }
    ensures text { state.new.guard.text ≡ state.old.guard.text }
    ensures bare { state.old.guard.text.now ≡ None → state.new.guard ≡ state.old.guard }
{
    if state.guard.text.is_none() {
        return;
    }
    let at = place(ram, base, state, at);
    state.guard.own = Own {
        back: at,
        back_len: len,
        ..state.guard.own
    };
}
