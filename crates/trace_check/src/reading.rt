//! Reading a list of choices.

ghost use Rattle.std.specs.Prelude.{◌≡◌, List, IfOk, ◌<◌, ◌≤◌, ◌+◌, ◌^◌, length, IfNone, IfSome, Ok};
ghost use Rattle.guest_ram.specs.Bytes.{word32};
ghost use Rattle.trace_check.specs.Form.{AreChoices, choices_bytes, most_choices};
ghost use Rattle.trace_check.specs.Reading.{word64, differs, has_other_front, head_fault, falls, is_no_page, is_no_kind, kind_numbered, choice_fault, choices_fault, choice_at, choices_at, choices_in};
ghost use Rattle.trace_check.specs.ReadBack.{Gives};

use crate::list::{Choice, ChoiceKind, Choices, ChoicesFault};
use guest_ram::{byte, word};
use std::alloc::Global;

/// How many choices a file has at most.
pub const MOST_CHOICES: u32 = 1048576;

/// The number of eight bytes there.
#[tactic(auto, unfolding(crate::specs::Reading::word64))]
fn long(bytes: &[u8], at: usize) -> u64
    requires { at + 8 ≤ length bytes.now }
    ensures { result ≡ word64 bytes.now at }
{
    let part = &bytes[at..at + 8];
    u64::from_le_bytes([
        part[0], part[1], part[2], part[3], part[4], part[5], part[6], part[7],
    ])
}

fn differs(bytes: &[u8], at: usize, v: u8) -> bool
    requires { at < 2 ^ 40 }
    ensures { result ≡ differs bytes.now at v }
{
    at + 1 <= bytes.len() && byte(bytes, at) != v
}

/// Whether the front can't be that of such a file.
fn has_other_front(bytes: &[u8]) -> bool
    ensures { result ≡ has_other_front bytes.now }
{
    differs(bytes, 0, 80) || differs(bytes, 1, 86) || differs(bytes, 2, 84) || differs(bytes, 3, 49)
}

/// The first bad field of the two at the front.
#[tactic(auto, unfolding(crate::specs::Reading::head_fault))]
fn head_fault(bytes: &[u8]) -> Option<usize>
    ensures place { result ≡ head_fault bytes.now }
    ensures small { IfSome result (λ at. at < 2 ^ 32) }
    ensures room { IfNone result (8 ≤ length bytes.now) }
    ensures few { IfNone result (word32 bytes.now 4 ≤ most_choices) }
{
    if has_other_front(bytes) {
        return Some(0);
    }
    if bytes.len() >= 8 && word(bytes, 4) > MOST_CHOICES {
        return Some(4);
    }
    if bytes.len() < 8 {
        return Some(bytes.len());
    }
    None
}

fn falls(bytes: &[u8], least: u64, a: usize) -> bool
    requires { a < 2 ^ 30 }
    ensures { result ≡ falls bytes.now least a }
{
    a + 8 <= bytes.len() && long(bytes, a) < least
}

fn is_no_page(bytes: &[u8], a: usize) -> bool
    requires { a < 2 ^ 30 }
    ensures { result ≡ is_no_page bytes.now a }
{
    a + 12 <= bytes.len() && word(bytes, a + 8) >= 1 << 20
}

fn is_no_kind(bytes: &[u8], a: usize) -> bool
    requires { a < 2 ^ 30 }
    ensures { result ≡ is_no_kind bytes.now a }
{
    a + 13 <= bytes.len()
        && (byte(bytes, a + 12) > 2 || byte(bytes, a + 12) == 1 && word(bytes, a + 8) != 0)
}

/// The first bad field of a choice.
#[tactic(auto, unfolding(crate::specs::Reading::choice_fault))]
fn choice_fault(bytes: &[u8], least: u64, a: usize) -> Option<usize>
    requires { a < 2 ^ 30 }
    ensures place { result ≡ choice_fault bytes.now least a }
    ensures room { IfNone result (a + 16 ≤ length bytes.now) }
    ensures small { IfSome result (λ at. at < 2 ^ 32) }
{
    if falls(bytes, least, a) {
        return Some(a);
    }
    if is_no_page(bytes, a) {
        return Some(a + 8);
    }
    if is_no_kind(bytes, a) {
        return Some(a + 12);
    }
    if differs(bytes, a + 13, 0) {
        return Some(a + 13);
    }
    if differs(bytes, a + 14, 0) {
        return Some(a + 14);
    }
    if differs(bytes, a + 15, 0) {
        return Some(a + 15);
    }
    if bytes.len() < a + 16 {
        return Some(bytes.len());
    }
    None
}

fn kind_numbered(n: u8) -> ChoiceKind
    ensures { result ≡ kind_numbered n }
{
    match n {
        0 => ChoiceKind::Drop,
        1 => ChoiceKind::Empty,
        _ => ChoiceKind::Add,
    }
}

#[tactic(auto, unfolding(crate::specs::Reading::choice_at))]
fn choice_at(bytes: &[u8], a: usize) -> Choice
    requires { a + 16 ≤ length bytes.now }
    ensures { result ≡ choice_at bytes.now a }
{
    Choice {
        step: long(bytes, a),
        page: word(bytes, a + 8),
        kind: kind_numbered(byte(bytes, a + 12)),
    }
}

/// The choices, or the first bad field.
fn choices_in(alloc: Global, bytes: &[u8]) -> Result<Choices, ChoicesFault>
    ensures { Gives result (choices_in bytes.now) }
{
    if let Some(at) = head_fault(bytes) {
        return Err(ChoicesFault::Form { at: at as u32 });
    }
    let count = word(bytes, 4);
    let mut list = Vec::new(alloc);
    let mut least: u64 = 0;
    for i in 0..count {
        let a = 8 + 16 * i as usize;
        if let Some(at) = choice_fault(bytes, least, a) {
            return Err(ChoicesFault::Form { at: at as u32 });
        }
        let choice = choice_at(bytes, a);
        least = choice.step;
        list.push(choice)?;
    }
    let end = 8 + 16 * count as usize;
    if end < bytes.len() {
        return Err(ChoicesFault::Form { at: end as u32 });
    }
    Ok(Choices { list })
}

/// The choices whose layout the bytes are, or the first bad field: the length where the bytes are cut, and the end of the
/// last choice where they are longer.
pub fn read_choices(alloc: Global, bytes: &[u8]) -> Result<Choices, ChoicesFault>
    ensures spelled { IfOk result (λ choices. (bytes.now ≡ choices_bytes choices.list) × AreChoices choices.list) }
    // What has the form is read, unless memory runs out.
    ensures only { (list : List Choice) → AreChoices list → bytes.now ≡ choices_bytes list → Gives result (Ok list) }
    ensures exact { Gives result (choices_in bytes.now) }
{
    choices_in(alloc, bytes)
}
