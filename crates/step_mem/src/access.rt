//! Reading and writing where a range is ready.

ghost use Rattle.std.specs.Prelude.{◌≡◌, ◌+◌, ◌*◌, ◌/◌, ◌%◌, ◌≤◌, ◌<◌, ◌^◌, length, ◌++◌, false};
ghost use Rattle.guest_ram.specs.Bytes as in_ram;
ghost use Rattle.std.specs.FinMap.{get};
ghost use Rattle.ia32_types.specs.Bytes.{size_in_bytes};
ghost use Rattle.paging.specs.Ready.{IsReadable, IsWritable, FitsSize, IsReadyEarlier};
ghost use Rattle.paging.specs.Space.{loaded, loaded_earlier, place, place_by, saved, with_ram};
ghost use Rattle.paging.specs.Uses.{is_text};
ghost use Rattle.step_mem.specs.Changes.{changed, AreWithin, HasEntry, HaveEntries};
ghost use Rattle.step_mem.specs.Guard.{mode_of, IsLaid, IsApartAt};
ghost use Rattle.step_mem.specs.Pages.{bytes_from};
ghost use Rattle.step_mem.specs.Shown.{shown, hidden};
ghost use Rattle.step_mem.specs.Space.{Rest, space_of};
ghost use Rattle.step_mem.specs.Sound.{IsSoundOver, space};

use crate::changes::Change;
use crate::guard::Guard;
use crate::page::look;
use crate::shown::{Bytes, part, read, write};
use crate::state::StepState;
use crate::translations::Translations;
use crate::walking::Control;
use guest_ram::Ram;
use ia32_types::Size;

/// The bytes that lie in one page, where the last touch or fetch was ready.
pub fn bytes<'a, B: Translations>(
    ram: &'a Ram,
    base: &B,
    state: &StepState<'a>,
    at: u32,
    len: u32,
) -> Bytes<'a>
    requires sound { IsSoundOver B.Translations base.now ram.now state.now }
    requires found { HasEntry (space B.Translations base.now ram.now state.now).set at }
    requires one { at % 4096 + len ≤ 4096 }
    ensures bytes { result.text.now ++ result.ram.now ≡ bytes_from (space B.Translations base.now ram.now state.now) at len }
    ensures len { length result.text.now + length result.ram.now ≡ len }
{
    part(
        ram,
        &state.guard,
        state.control.frames,
        place(ram, base, state, at),
        len,
    )
}

/// The physical place of an address, after these changes.
fn place_in<B: Translations>(
    ram: &Ram,
    base: &B,
    guard: &Guard,
    frames: u32,
    changes: &[Change],
    at: u32,
) -> u32
    requires frames { 4096 * frames ≤ length ram.now }
    requires stands { ∥ B.stands base.now ram.now ∥₁ }
    requires within { AreWithin frames (changed (B.entries base.now ram.now) changes.now) }
    requires found { HasEntry (changed (B.entries base.now ram.now) changes.now) at }
    ensures place { result ≡ place_by (get (changed (B.entries base.now ram.now) changes.now) (at / 4096)) at }
    ensures offset { result % 4096 ≡ at % 4096 }
    ensures within { result < 4096 * frames }
    ensures apart { IsApartAt (mode_of guard.now) (changed (B.entries base.now ram.now) changes.now) at
        → is_text (mode_of guard.now) (result / 4096) ≡ false }
{
    let _len = ram.len();
    match look(ram, base, changes, at / 4096) {
        Some(entry) => entry.frame * 4096 + at % 4096,
        None => unreachable!(),
    }
}

/// The physical place of an address.
#[tactic(auto, unfolding(paging::specs::Space::place))]
pub fn place<B: Translations>(ram: &Ram, base: &B, state: &StepState, at: u32) -> u32
    requires sound { IsSoundOver B.Translations base.now ram.now state.now }
    requires found { HasEntry (space B.Translations base.now ram.now state.now).set at }
    ensures place { result ≡ place (space B.Translations base.now ram.now state.now) at }
    ensures offset { result % 4096 ≡ at % 4096 }
    ensures within { result < 4096 * state.now.control.frames }
    ensures apart { IsApartAt (mode_of state.now.guard) (space B.Translations base.now ram.now state.now).set at
        → is_text (mode_of state.now.guard) (result / 4096) ≡ false }
{
    place_in(
        ram,
        base,
        &state.guard,
        state.control.frames,
        state.changes.as_slice(),
        at,
    )
}

fn byte<B: Translations>(
    ram: &Ram,
    base: &B,
    guard: &Guard,
    frames: u32,
    changes: &[Change],
    at: u32,
) -> u8
    requires frames { 4096 * frames ≤ length ram.now }
    requires laid { IsLaid guard.now.text.now frames }
    requires stands { ∥ B.stands base.now ram.now ∥₁ }
    requires within { AreWithin frames (changed (B.entries base.now ram.now) changes.now) }
    requires found { HasEntry (changed (B.entries base.now ram.now) changes.now) at }
    ensures { result ≡ in_ram.byte (shown guard.now frames ram.now)
        (place_by (get (changed (B.entries base.now ram.now) changes.now) (at / 4096)) at) }
{
    let at = place_in(ram, base, guard, frames, changes, at);
    read(ram, guard, frames, at)
}

/// Reads a number, after these changes.
#[tactic(auto, unfolding(paging::specs::Space::loaded, paging::specs::Space::byte_at, paging::specs::Space::place))]
fn number<B: Translations>(
    ram: &Ram,
    base: &B,
    guard: &Guard,
    frames: u32,
    changes: &[Change],
    at: u32,
    size: Size,
) -> u32
    requires frames { 4096 * frames ≤ length ram.now }
    requires laid { IsLaid guard.now.text.now frames }
    requires stands { ∥ B.stands base.now ram.now ∥₁ }
    requires within { AreWithin frames (changed (B.entries base.now ram.now) changes.now) }
    requires fits { at + size_in_bytes size ≤ 2 ^ 32 }
    requires found { HaveEntries (changed (B.entries base.now ram.now) changes.now) at (size_in_bytes size) }
    ensures value { (control : Control) (rest : Rest) → control.frames ≡ frames
        → result ≡ loaded (space_of (B.entries base.now) ram.now control guard.now changes.now rest) at size }
    ensures fits { FitsSize size result }
{
    match size {
        Size::Byte => u32::from(byte(ram, base, guard, frames, changes, at)),
        Size::Word => {
            u32::from(byte(ram, base, guard, frames, changes, at))
                + 256 * u32::from(byte(ram, base, guard, frames, changes, at + 1))
        }
        Size::Long => {
            if at % 4096 <= 4092 {
                return long_in_page(ram, base, guard, frames, changes, at);
            }
            let low = u32::from(byte(ram, base, guard, frames, changes, at))
                + 256 * u32::from(byte(ram, base, guard, frames, changes, at + 1));
            let high = u32::from(byte(ram, base, guard, frames, changes, at + 2))
                + 256 * u32::from(byte(ram, base, guard, frames, changes, at + 3));
            low + 65536 * high
        }
    }
}

/// Reads a number of four bytes that lie in one page, after these changes.
#[tactic(auto, unfolding(paging::specs::Space::loaded, paging::specs::Space::byte_at, paging::specs::Space::place))]
fn long_in_page<B: Translations>(
    ram: &Ram,
    base: &B,
    guard: &Guard,
    frames: u32,
    changes: &[Change],
    at: u32,
) -> u32
    requires frames { 4096 * frames ≤ length ram.now }
    requires laid { IsLaid guard.now.text.now frames }
    requires stands { ∥ B.stands base.now ram.now ∥₁ }
    requires within { AreWithin frames (changed (B.entries base.now ram.now) changes.now) }
    requires found { HasEntry (changed (B.entries base.now ram.now) changes.now) at }
    requires one { at % 4096 ≤ 4092 }
    ensures value { (control : Control) (rest : Rest) → control.frames ≡ frames
        → result ≡ loaded (space_of (B.entries base.now) ram.now control guard.now changes.now rest) at Size.Long }
    ensures fits { result < 2 ^ 32 }
{
    let place = place_in(ram, base, guard, frames, changes, at);
    let low = u32::from(read(ram, guard, frames, place))
        + 256 * u32::from(read(ram, guard, frames, place + 1));
    let high = u32::from(read(ram, guard, frames, place + 2))
        + 256 * u32::from(read(ram, guard, frames, place + 3));
    low + 65536 * high
}

/// Reads where each byte's page has an entry, as where this step's touches were ready.
pub fn load<B: Translations>(ram: &Ram, base: &B, state: &StepState, at: u32, size: Size) -> u32
    requires sound { IsSoundOver B.Translations base.now ram.now state.now }
    requires ready { IsReadable (space B.Translations base.now ram.now state.now) at (size_in_bytes size) }
    ensures value { result ≡ loaded (space B.Translations base.now ram.now state.now) at size }
    ensures fits { FitsSize size result }
{
    number(
        ram,
        base,
        &state.guard,
        state.control.frames,
        state.changes.as_slice(),
        at,
        size,
    )
}

/// Reads where the touch before the last was ready, at the places that its range had then.
pub fn load_earlier<B: Translations>(
    ram: &Ram,
    base: &B,
    state: &StepState,
    at: u32,
    size: Size,
) -> u32
    requires sound { IsSoundOver B.Translations base.now ram.now state.now }
    requires ready { IsReadyEarlier (space B.Translations base.now ram.now state.now) at size }
    ensures value { result ≡ loaded_earlier (space B.Translations base.now ram.now state.now) at size }
    ensures fits { FitsSize size result }
{
    let changes = &state.changes.as_slice()[..state.earlier.count];
    number(
        ram,
        base,
        &state.guard,
        state.control.frames,
        changes,
        at,
        size,
    )
}

/// Writes a byte of the guest's.
fn put_byte<B: Translations>(ram: &mut Ram, base: &B, state: &StepState, at: u32, v: u8)
    requires sound { IsSoundOver B.Translations base.now ram.old state.now }
    requires found { HasEntry (space B.Translations base.now ram.old state.now).set at }
    requires apart { IsApartAt (mode_of state.now.guard) (space B.Translations base.now ram.old state.now).set at }
    ensures sound { IsSoundOver B.Translations base.now ram.new state.now }
    ensures hidden { hidden state.now.guard state.now.control.frames ram.new ≡ hidden state.now.guard state.now.control.frames ram.old }
    ensures after { space B.Translations base.now ram.new state.now ≡ with_ram (space B.Translations base.now ram.old state.now)
        (in_ram.with_byte (space B.Translations base.now ram.old state.now).ram
        (place (space B.Translations base.now ram.old state.now) at) v) }
{
    let physical = place(ram, base, state, at);
    put_at(ram, base, state, at, physical, v);
}

/// Writes a byte of the guest's, whose address has this physical place. It lies below the floor, so no kept translation
/// changes.
fn put_at<B: Translations>(
    ram: &mut Ram,
    base: &B,
    state: &StepState,
    at: u32,
    physical: u32,
    v: u8,
)
    requires sound { IsSoundOver B.Translations base.now ram.old state.now }
    requires place { physical ≡ place (space B.Translations base.now ram.old state.now) at }
    requires within { physical < 4096 * state.now.control.frames }
    requires no_text { is_text (mode_of state.now.guard) (physical / 4096) ≡ false }
    ensures sound { IsSoundOver B.Translations base.now ram.new state.now }
    ensures hidden { hidden state.now.guard state.now.control.frames ram.new ≡ hidden state.now.guard state.now.control.frames ram.old }
    ensures after { space B.Translations base.now ram.new state.now ≡ with_ram (space B.Translations base.now ram.old state.now)
        (in_ram.with_byte (space B.Translations base.now ram.old state.now).ram
        (place (space B.Translations base.now ram.old state.now) at) v) }
{
    write(ram, &state.guard, state.control.frames, physical, v);
}

/// Writes a number of four bytes that lie in one page.
#[tactic(auto, unfolding(paging::specs::Space::written, paging::specs::Space::place))]
fn save_in_page<B: Translations>(ram: &mut Ram, base: &B, state: &StepState, at: u32, value: u32)
    requires sound { IsSoundOver B.Translations base.now ram.old state.now }
    requires found { HasEntry (space B.Translations base.now ram.old state.now).set at }
    requires apart { IsApartAt (mode_of state.now.guard) (space B.Translations base.now ram.old state.now).set at }
    requires one { at % 4096 ≤ 4092 }
    ensures sound { IsSoundOver B.Translations base.now ram.new state.now }
    ensures hidden { hidden state.now.guard state.now.control.frames ram.new ≡ hidden state.now.guard state.now.control.frames ram.old }
    ensures saved { space B.Translations base.now ram.new state.now
        ≡ saved (space B.Translations base.now ram.old state.now) at Size.Long value }
{
    let physical = place(ram, base, state, at);
    put_at(ram, base, state, at, physical, (value % 256) as u8);
    put_at(
        ram,
        base,
        state,
        at + 1,
        physical + 1,
        (value / 256 % 256) as u8,
    );
    put_at(
        ram,
        base,
        state,
        at + 2,
        physical + 2,
        (value / 65536 % 256) as u8,
    );
    put_at(
        ram,
        base,
        state,
        at + 3,
        physical + 3,
        (value / 16777216) as u8,
    );
}

/// Writes where each byte's page has an entry that leads to no text, as where this step's touches were ready for a write.
#[tactic(auto, unfolding(paging::specs::Space::written, paging::specs::Space::place))]
pub fn save<B: Translations>(
    ram: &mut Ram,
    base: &B,
    state: &StepState,
    at: u32,
    size: Size,
    value: u32,
)
    requires sound { IsSoundOver B.Translations base.now ram.old state.now }
    requires ready { IsWritable (space B.Translations base.now ram.old state.now) at (size_in_bytes size) }
    ensures sound { IsSoundOver B.Translations base.now ram.new state.now }
    ensures hidden { hidden state.now.guard state.now.control.frames ram.new ≡ hidden state.now.guard state.now.control.frames ram.old }
    ensures saved { space B.Translations base.now ram.new state.now
        ≡ saved (space B.Translations base.now ram.old state.now) at size value }
{
    match size {
        Size::Byte => put_byte(ram, base, state, at, (value % 256) as u8),
        Size::Word => {
            put_byte(ram, base, state, at, (value % 256) as u8);
            put_byte(ram, base, state, at + 1, (value / 256 % 256) as u8);
        }
        Size::Long => {
            if at % 4096 <= 4092 {
                save_in_page(ram, base, state, at, value);
                return;
            }
            put_byte(ram, base, state, at, (value % 256) as u8);
            put_byte(ram, base, state, at + 1, (value / 256 % 256) as u8);
            put_byte(ram, base, state, at + 2, (value / 65536 % 256) as u8);
            put_byte(ram, base, state, at + 3, (value / 16777216) as u8);
        }
    }
}
