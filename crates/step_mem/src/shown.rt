//! Memory as a step reaches it, with the original text in its place.

ghost use Rattle.std.specs.Prelude.{◌≡◌, ◌+◌, ◌*◌, ◌/◌, ◌%◌, ◌≤◌, ◌<◌, ◌++◌, length, drop, false, ℕ};
ghost use Rattle.std.specs.Int.{w32, from_le_bytes};
ghost use Rattle.guest_ram.specs.Bytes as in_ram;
ghost use Rattle.paging.specs.Fresh.{flagged};
ghost use Rattle.paging.specs.Uses.{is_text};
ghost use Rattle.step_mem.specs.Guard.{mode_of, IsLaid};
ghost use Rattle.step_mem.specs.Shown.{shown, laid, hidden};

use crate::guard::{Guard, is_text};
use guest_ram::Ram;
use paging::set_flags;

/// Bytes one after the other: those that stand in the original text, and then those in RAM.
#[derive(Clone, Copy)]
pub struct Bytes<'a> {
    pub text: &'a [u8],
    pub ram: &'a [u8],
}

/// The bytes at a place, which lie in one frame.
pub fn part<'a>(ram: &'a Ram, guard: &Guard<'a>, frames: u32, at: u32, len: u32) -> Bytes<'a>
    requires frames { 4096 * frames ≤ length ram.now }
    requires laid { IsLaid guard.now.text.now frames }
    requires within { at < 4096 * frames }
    requires one { at % 4096 + len ≤ 4096 }
    ensures bytes { result.text.now ++ result.ram.now ≡ in_ram.part (shown guard.now frames ram.now) at len }
    ensures len { length result.text.now + length result.ram.now ≡ len }
{
    match guard.text {
        None => Bytes {
            text: &[],
            ram: ram.part(at, len),
        },
        Some(text) => part_laid(ram, text.bytes, text.first, frames, at, len),
    }
}

fn part_laid<'a>(
    ram: &'a Ram,
    bytes: &'a [u8],
    first: u32,
    frames: u32,
    at: u32,
    len: u32,
) -> Bytes<'a>
    requires frames { 4096 * frames ≤ length ram.now }
    requires laid { 4096 * first + length bytes.now ≤ 4096 * frames }
    requires within { at < 4096 * frames }
    requires one { at % 4096 + len ≤ 4096 }
    ensures bytes { result.text.now ++ result.ram.now ≡ in_ram.part (laid bytes.now first frames ram.now) at len }
    ensures len { length result.text.now + length result.ram.now ≡ len }
{
    let _len = ram.len();
    let start = 4096 * first;
    let end = start + bytes.len() as u32;
    if at < start || at >= end {
        return Bytes {
            text: &[],
            ram: ram.part(at, len),
        };
    }
    let front = len.min(end - at);
    let from = (at - start) as usize;
    Bytes {
        text: &bytes[from..from + front as usize],
        ram: ram.part(at + front, len - front),
    }
}

/// The byte at a place.
pub fn read(ram: &Ram, guard: &Guard, frames: u32, at: u32) -> u8
    requires frames { 4096 * frames ≤ length ram.now }
    requires laid { IsLaid guard.now.text.now frames }
    requires within { at < 4096 * frames }
    ensures { result ≡ in_ram.byte (shown guard.now frames ram.now) at }
{
    match guard.text {
        None => ram.read8(at),
        Some(text) => read_laid(ram, text.bytes, text.first, frames, at),
    }
}

/// The byte at a place, where these bytes lie over memory from a frame on.
pub fn read_laid(ram: &Ram, bytes: &[u8], first: u32, frames: u32, at: u32) -> u8
    requires frames { 4096 * frames ≤ length ram.now }
    requires laid { 4096 * first + length bytes.now ≤ 4096 * frames }
    requires within { at < 4096 * frames }
    ensures { result ≡ in_ram.byte (laid bytes.now first frames ram.now) at }
{
    let _len = ram.len();
    let start = 4096 * first;
    if at < start {
        return ram.read8(at);
    }
    let from = (at - start) as usize;
    if from < bytes.len() {
        return bytes[from];
    }
    ram.read8(at)
}

/// The word at a place in a frame that holds no text.
pub fn read_word(ram: &Ram, guard: &Guard, frames: u32, at: u32) -> u32
    requires frames { 4096 * frames ≤ length ram.now }
    requires laid { IsLaid guard.now.text.now frames }
    requires within { at < 4096 * frames }
    requires one { at % 4096 + 4 ≤ 4096 }
    requires apart { is_text (mode_of guard.now) (at / 4096) ≡ false }
    ensures { result ≡ in_ram.word32 (shown guard.now frames ram.now) at }
{
    ram.read32(at)
}

/// The word at a place.
#[tactic(auto, unfolding(guest_ram::specs::Bytes::word32))]
pub fn read_shown_word(ram: &Ram, guard: &Guard, frames: u32, at: u32) -> u32
    requires frames { 4096 * frames ≤ length ram.now }
    requires laid { IsLaid guard.now.text.now frames }
    requires within { at < 4096 * frames }
    requires one { at % 4096 + 4 ≤ 4096 }
    ensures { result ≡ in_ram.word32 (shown guard.now frames ram.now) at }
{
    if !is_text(guard, at / 4096) {
        return read_word(ram, guard, frames, at);
    }
    let bytes = part(ram, guard, frames, at, 4);
    word_of(bytes.text, bytes.ram)
}

/// The number that four bytes are, the lowest first.
fn word_of(front: &[u8], back: &[u8]) -> u32
    requires { length front.now + length back.now ≡ 4 }
    ensures { result ≡ from_le_bytes w32 (front.now ++ back.now) }
{
    let mut word = [0u8; 4];
    let split = front.len();
    word[..split].copy_from_slice(front);
    word[split..].copy_from_slice(back);
    u32::from_le_bytes(word)
}

/// Writes a byte in a frame that holds no text.
pub fn write(ram: &mut Ram, guard: &Guard, frames: u32, at: u32, v: u8)
    requires frames { 4096 * frames ≤ length ram.old }
    requires laid { IsLaid guard.now.text.now frames }
    requires within { at < 4096 * frames }
    requires apart { is_text (mode_of guard.now) (at / 4096) ≡ false }
    ensures memory { shown guard.now frames ram.new ≡ in_ram.with_byte (shown guard.now frames ram.old) at v }
    ensures length { length ram.new ≡ length ram.old }
    ensures above { drop (4096 * frames) ram.new ≡ drop (4096 * frames) ram.old }
    ensures hidden { hidden guard.now frames ram.new ≡ hidden guard.now frames ram.old }
{
    ram.write8(at, v);
}

/// Sets the flags of a walk in words that lie in frames that hold no text.
pub fn mark(ram: &mut Ram, guard: &Guard, frames: u32, dir_at: u32, word_at: u32, write: bool)
    requires frames { 4096 * frames ≤ length ram.old }
    requires laid { IsLaid guard.now.text.now frames }
    requires dir { dir_at + 4 ≤ 4096 * frames }
    requires word { word_at + 4 ≤ 4096 * frames }
    requires dir_apart { is_text (mode_of guard.now) (dir_at / 4096) ≡ false }
    requires word_apart { is_text (mode_of guard.now) (word_at / 4096) ≡ false }
    ensures flags { shown guard.now frames ram.new ≡ flagged (shown guard.now frames ram.old) dir_at word_at write }
    ensures length { length ram.new ≡ length ram.old }
    ensures above { drop (4096 * frames) ram.new ≡ drop (4096 * frames) ram.old }
    ensures hidden { hidden guard.now frames ram.new ≡ hidden guard.now frames ram.old }
{
    let _len = ram.len();
    set_flags(ram, dir_at, word_at, write);
}
