//! A step's accesses, over any keeper of translations.

ghost use Rattle.std.specs.Prelude.{◌≡◌, ◌+◌, ◌/◌, ◌%◌, ◌≤◌, ◌^◌, false};
ghost use Rattle.ia32_types.specs.Bytes.{size_in_bytes};
ghost use Rattle.paging.specs.Ready.{HasRange, IsReadable, IsWritable, Readied, FitsSize, IsReadyEarlier};
ghost use Rattle.paging.specs.Space.{earlier_of, loaded, loaded_earlier, saved};
ghost use Rattle.paging.specs.Uses.{fetches, uses};
ghost use Rattle.step_mem.specs.Sound.{IsSoundOver, space};
ghost use Rattle.wedge_mem.specs.Progress.{IsGoingOver, IsTheSame, KeepsBeyond, KeepsOthers, owning, space_in};

use crate::progress::Progress;
use guest_ram::Ram;
use ia32_types::Size;
use paging::{Access, Touch};
use step_mem::{StepState, Translations, own_back, own_front};

/// Translates a range.
pub fn touch<B: Translations>(
    ram: &mut Ram,
    base: &B,
    step: &mut Progress,
    at: u32,
    len: u32,
    access: Access,
) -> Touch
    requires going { IsGoingOver B.Translations base.now ram.old step.old }
    requires room { step.old.state.pages ≤ 62 }
    requires some { 1 ≤ len }
    requires short { len ≤ 32 }
    ensures going { IsGoingOver B.Translations base.now ram.new step.new }
    ensures uses { uses (space_in (B.entries base.now) ram.old step.old) at len access
        ≡ (result, space_in (B.entries base.now) ram.new step.new) }
    ensures pages { step.new.state.pages ≤ step.old.state.pages + 2 }
    ensures ready { Readied (space_in (B.entries base.now) ram.new step.new) at len access.write result }
    ensures earlier { (space_in (B.entries base.now) ram.new step.new).earlier
        ≡ earlier_of (space_in (B.entries base.now) ram.old step.old) }
    ensures same { IsTheSame step.old step.new }
    ensures beyond { KeepsBeyond step.old ram.old ram.new }
{
    let text = step.text();
    let mut state = step.state(&text);
    let met = step_mem::touch(ram, base, &mut state, at, len, access);
    step.follow(&state);
    met
}

/// Translates a fetch, which lies in one page.
pub fn fetch<B: Translations>(
    ram: &mut Ram,
    base: &B,
    step: &mut Progress,
    at: u32,
    len: u32,
    user: bool,
) -> Touch
    requires going { IsGoingOver B.Translations base.now ram.old step.old }
    requires room { step.old.state.pages ≤ 63 }
    requires one { at % 4096 + len ≤ 4096 }
    ensures going { IsGoingOver B.Translations base.now ram.new step.new }
    ensures fetches { fetches (space_in (B.entries base.now) ram.old step.old) at len user
        ≡ (result, space_in (B.entries base.now) ram.new step.new) }
    ensures pages { step.new.state.pages ≤ step.old.state.pages + 1 }
    ensures ready { Readied (space_in (B.entries base.now) ram.new step.new) at len false result }
    ensures found { result ≡ Touch.Ready → HasRange (space_in (B.entries base.now) ram.new step.new) at len }
    ensures others { KeepsOthers (space_in (B.entries base.now) ram.old step.old) (space_in (B.entries base.now) ram.new step.new)
        (at / 4096) }
    ensures same { IsTheSame step.old step.new }
    ensures beyond { KeepsBeyond step.old ram.old ram.new }
{
    let text = step.text();
    let mut state = step.state(&text);
    let met = step_mem::fetch(ram, base, &mut state, at, len, user);
    step.follow(&state);
    met
}

/// Reads where this step's touches or fetches made the range ready.
pub fn load<B: Translations>(ram: &Ram, base: &B, step: &Progress, at: u32, size: Size) -> u32
    requires going { IsGoingOver B.Translations base.now ram.now step.now }
    requires ready { IsReadable (space_in (B.entries base.now) ram.now step.now) at (size_in_bytes size) }
    ensures value { result ≡ loaded (space_in (B.entries base.now) ram.now step.now) at size }
    ensures fits { FitsSize size result }
{
    let text = step.text();
    let state = step.state(&text);
    step_mem::load(ram, base, &state, at, size)
}

/// Reads where the touch before the last was ready, at the places that its range had then.
pub fn load_earlier<B: Translations>(
    ram: &Ram,
    base: &B,
    step: &Progress,
    at: u32,
    size: Size,
) -> u32
    requires going { IsGoingOver B.Translations base.now ram.now step.now }
    requires ready { IsReadyEarlier (space_in (B.entries base.now) ram.now step.now) at size }
    ensures value { result ≡ loaded_earlier (space_in (B.entries base.now) ram.now step.now) at size }
    ensures fits { FitsSize size result }
{
    let text = step.text();
    let state = step.state(&text);
    step_mem::load_earlier(ram, base, &state, at, size)
}

/// Writes where this step's touches made the range ready for a write.
pub fn save<B: Translations>(
    ram: &mut Ram,
    base: &B,
    step: &Progress,
    at: u32,
    size: Size,
    value: u32,
)
    requires going { IsGoingOver B.Translations base.now ram.old step.now }
    requires ready { IsWritable (space_in (B.entries base.now) ram.old step.now) at (size_in_bytes size) }
    ensures going { IsGoingOver B.Translations base.now ram.new step.now }
    ensures saved { space_in (B.entries base.now) ram.new step.now ≡ saved (space_in (B.entries base.now) ram.old step.now) at size value }
    ensures beyond { KeepsBeyond step.now ram.old ram.new }
{
    let text = step.text();
    let state = step.state(&text);
    step_mem::save(ram, base, &state, at, size, value);
}

/// The bytes at an address are those of this step's instruction, in one page or two.
fn own_in<B: Translations>(ram: &Ram, base: &B, state: &mut StepState, at: u32, len: u32)
    requires sound { IsSoundOver B.Translations base.now ram.now state.old }
    requires some { 1 ≤ len }
    requires short { len ≤ 4096 }
    requires fits { at + len ≤ 2 ^ 32 }
    requires found { HasRange (space B.Translations base.now ram.now state.old) at len }
    ensures sound { IsSoundOver B.Translations base.now ram.now state.new }
    ensures owns { space B.Translations base.now ram.now state.new ≡ owning (space B.Translations base.now ram.now state.old) at len }
    ensures control { state.new.control ≡ state.old.control }
    ensures text { state.new.guard.text ≡ state.old.guard.text }
{
    let left = 4096 - at % 4096;
    if len <= left {
        own_front(ram, base, state, at, len);
    } else {
        own_front(ram, base, state, at, left);
        own_back(ram, base, state, at + left, len - left);
    }
}

/// Names the bytes of this step's instruction.
pub fn own<B: Translations>(ram: &Ram, base: &B, step: &mut Progress, at: u32, len: u32)
    requires going { IsGoingOver B.Translations base.now ram.now step.old }
    requires some { 1 ≤ len }
    requires short { len ≤ 4096 }
    requires fits { at + len ≤ 2 ^ 32 }
    requires found { HasRange (space_in (B.entries base.now) ram.now step.old) at len }
    ensures going { IsGoingOver B.Translations base.now ram.now step.new }
    ensures owns { space_in (B.entries base.now) ram.now step.new ≡ owning (space_in (B.entries base.now) ram.now step.old) at len }
    ensures control { step.new.state.control ≡ step.old.state.control }
    ensures text { (step.new.first ≡ step.old.first) × (step.new.count ≡ step.old.count) }
{
    let text = step.text();
    let mut state = step.state(&text);
    own_in(ram, base, &mut state, at, len);
    step.follow(&state);
}
