//! Translations and bytes of the moment.

ghost use Rattle.std.specs.Prelude.{◌≡◌, ◌+◌, ◌*◌, ◌/◌, ◌%◌, ◌≤◌, ◌<◌, ◌^◌, length, IfSome};
ghost use Rattle.std.specs.Option.{option_map};
ghost use Rattle.descriptors.specs.Controls.{pse_of};
ghost use Rattle.paging.specs.Fresh.{fresh};
ghost use Rattle.step_mem.specs.Changes.{AreWithin};
ghost use Rattle.linear_view.specs.View as spec;

use descriptors::Cpu;
use guest_ram::Ram;
use ia32_decode::next_page;
use paging::{Entry, Walk, walk};
use xlate_buffer::Cache;

/// What a walk of the tables finds of a page. No flag is set.
pub fn walked(ram: &Ram, frames: u32, cpu: &Cpu, page: u32) -> Option<Entry>
    requires page { page < 2 ^ 20 }
    requires frames { 4096 * frames ≤ length ram.now }
    ensures found { result ≡ spec.found (fresh ram.now frames cpu.now.cr3 (pse_of cpu.now) page) }
    ensures inside { IfSome result (λ entry. entry.frame < frames) }
{
    match walk(ram, frames, cpu.cr3, cpu.pse(), page) {
        Walk::Found { entry, .. } => Some(entry),
        Walk::Absent | Walk::Beyond | Walk::Reserved => None,
    }
}

/// The translation of a page: what is cached, and else what a walk of the tables finds.
#[tactic(auto, unfolding(crate::specs::View::translation))]
pub fn translation<C: Cache>(
    ram: &Ram,
    frames: u32,
    cpu: &Cpu,
    cache: &C,
    page: u32,
) -> Option<Entry>
    requires page { page < 2 ^ 20 }
    requires frames { 4096 * frames ≤ length ram.now }
    requires inside { AreWithin frames (C.entries cache.now) }
    ensures translation { result ≡ spec.translation (spec.view_of ram.now frames cpu.now (C.entries cache.now)) page }
    ensures inside { IfSome result (λ entry. entry.frame < frames) }
{
    match cache.find(page) {
        Some(entry) => Some(entry),
        None => walked(ram, frames, cpu, page),
    }
}

/// The bytes at an address, all in its page; nothing where the page has no translation.
#[tactic(auto, unfolding(crate::specs::View::page_bytes))]
pub fn page_bytes<'a, C: Cache>(
    ram: &'a Ram,
    frames: u32,
    cpu: &Cpu,
    cache: &C,
    at: u32,
    len: u32,
) -> Option<&'a [u8]>
    requires one { at % 4096 + len ≤ 4096 }
    requires frames { 4096 * frames ≤ length ram.now }
    requires inside { AreWithin frames (C.entries cache.now) }
    ensures bytes { option_map (λ bytes. bytes.now) result
        ≡ spec.page_bytes (spec.view_of ram.now frames cpu.now (C.entries cache.now)) at len }
    ensures len { IfSome result (λ bytes. length bytes.now ≡ len) }
{
    let _len = ram.len();
    match translation(ram, frames, cpu, cache, at / 4096) {
        None => None,
        Some(entry) => Some(ram.part(entry.frame * 4096 + at % 4096, len)),
    }
}

/// The first bytes of the next page, which the last page has not.
#[tactic(auto, unfolding(crate::specs::View::next_bytes))]
pub fn next_bytes<'a, C: Cache>(
    ram: &'a Ram,
    frames: u32,
    cpu: &Cpu,
    cache: &C,
    at: u32,
    len: u32,
) -> Option<&'a [u8]>
    requires one { len ≤ 4096 }
    requires frames { 4096 * frames ≤ length ram.now }
    requires inside { AreWithin frames (C.entries cache.now) }
    ensures bytes { option_map (λ bytes. bytes.now) result
        ≡ spec.next_bytes (spec.view_of ram.now frames cpu.now (C.entries cache.now)) at len }
    ensures len { IfSome result (λ bytes. length bytes.now ≡ len) }
{
    match next_page(at) {
        None => None,
        Some(next) => page_bytes(ram, frames, cpu, cache, next, len),
    }
}
