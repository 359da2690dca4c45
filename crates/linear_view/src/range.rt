//! Where the bytes of a range that is written lie, and which stand there.

ghost use Rattle.std.specs.Prelude.{◌≡◌, ◌+◌, ◌*◌, ◌/◌, ◌%◌, ◌≤◌, ◌<◌, ◌^◌, [], length, IfSome};
ghost use Rattle.std.specs.Option.{option_map};
ghost use Rattle.descriptors.specs.Controls.{wp_of};
ghost use Rattle.step_mem.specs.Changes.{AreWithin};
ghost use Rattle.linear_view.specs.View.{view_of, bytes_by};
ghost use Rattle.linear_view.specs.Range as spec;

use crate::view::walked;
use descriptors::Cpu;
use guest_ram::Ram;
use ia32_decode::{Bytes, append, next_page};
use paging::{Access, Entry, allows};
use xlate_buffer::Cache;

/// The translations of the pages of a range, of which the second is nothing where the range lies in one.
#[derive(Clone, Copy)]
pub struct Places {
    pub first: Option<Entry>,
    pub second: Option<Entry>,
}

fn if_allowed(cpu: &Cpu, entry: Option<Entry>) -> Option<Entry>
    requires page { IfSome entry (λ entry. entry.page < 2 ^ 20) }
    requires frame { IfSome entry (λ entry. entry.frame < 2 ^ 20) }
    ensures { result ≡ spec.if_allowed (spec.writing cpu.now) (wp_of cpu.now) entry }
{
    let access = Access {
        write: true,
        user: cpu.cpl == 3,
    };
    match entry {
        None => None,
        Some(entry) => {
            if allows(&entry, access, cpu.wp()) {
                Some(entry)
            } else {
                None
            }
        }
    }
}

/// By what a write to a page goes.
#[tactic(auto, unfolding(crate::specs::Range::write_translation))]
fn write_translation<C: Cache>(
    ram: &Ram,
    frames: u32,
    cpu: &Cpu,
    cache: &C,
    page: u32,
) -> Option<Entry>
    requires page { page < 2 ^ 20 }
    requires frames { 4096 * frames ≤ length ram.now }
    requires inside { AreWithin frames (C.entries cache.now) }
    ensures translation { result ≡ spec.write_translation (view_of ram.now frames cpu.now (C.entries cache.now)) cpu.now page }
    ensures inside { IfSome result (λ entry. entry.frame < frames) }
{
    let _len = ram.len();
    match if_allowed(cpu, cache.find(page)) {
        Some(entry) => Some(entry),
        None => walked(ram, frames, cpu, page),
    }
}

/// How many of the bytes lie in the first page.
fn in_first(at: u32, len: u32) -> u32
    ensures first { result ≡ spec.in_first at len }
    ensures few { result ≤ len }
    ensures one { at % 4096 + result ≤ 4096 }
{
    len.min(4096 - at % 4096)
}

/// The translations by which a write of this processor to a range goes.
#[tactic(auto, unfolding(crate::specs::Range::places_of))]
pub fn places_of<C: Cache>(
    ram: &Ram,
    frames: u32,
    cpu: &Cpu,
    cache: &C,
    at: u32,
    len: u32,
) -> Places
    requires frames { 4096 * frames ≤ length ram.now }
    requires inside { AreWithin frames (C.entries cache.now) }
    ensures places { result ≡ spec.places_of (view_of ram.now frames cpu.now (C.entries cache.now)) cpu.now at len }
    ensures first { IfSome result.first (λ entry. entry.frame < frames) }
    ensures second { IfSome result.second (λ entry. entry.frame < frames) }
{
    let first = write_translation(ram, frames, cpu, cache, at / 4096);
    if in_first(at, len) == len {
        return Places {
            first,
            second: None,
        };
    }
    let second = match next_page(at) {
        None => None,
        Some(next) => write_translation(ram, frames, cpu, cache, next / 4096),
    };
    Places { first, second }
}

/// The bytes at an address, all in its page.
fn bytes_by(ram: &Ram, frames: u32, entry: Option<Entry>, at: u32, len: u32) -> Option<&[u8]>
    requires one { at % 4096 + len ≤ 4096 }
    requires frames { 4096 * frames ≤ length ram.now }
    requires inside { IfSome entry (λ entry. entry.frame < frames) }
    ensures bytes { option_map (λ bytes. bytes.now) result ≡ bytes_by ram.now entry at len }
    ensures len { IfSome result (λ bytes. length bytes.now ≡ len) }
{
    let _len = ram.len();
    match entry {
        None => None,
        Some(entry) => Some(ram.part(entry.frame * 4096 + at % 4096, len)),
    }
}

/// Puts the bytes that stand in a range, at most 32, by the translations of its pages; none where one has none.
#[tactic(auto, unfolding(crate::specs::Range::bytes_there))]
pub fn bytes_there(ram: &Ram, frames: u32, places: Places, at: u32, len: u32, to: &mut Bytes)
    requires empty { to.old.items ≡ [] }
    requires few { len ≤ 32 }
    requires frames { 4096 * frames ≤ length ram.now }
    requires first { IfSome places.first (λ entry. entry.frame < frames) }
    requires second { IfSome places.second (λ entry. entry.frame < frames) }
    ensures bytes { to.new.items ≡ spec.bytes_there ram.now places at len }
    ensures few { length to.new.items ≤ 32 }
{
    let front = in_first(at, len);
    if front == len {
        if let Some(bytes) = bytes_by(ram, frames, places.first, at, len) {
            append(bytes, to);
        }
        return;
    }
    if let Some(bytes) = bytes_by(ram, frames, places.first, at, front) {
        if let Some(more) = bytes_by(ram, frames, places.second, 0, len - front) {
            append(bytes, to);
            append(more, to);
        }
    }
}
