//! A walk as text.

ghost use Rattle.std.specs.Prelude.{◌≡◌, ◌+◌, ◌++◌, ◌≤◌, ◌<◌, ◌^◌, length, OnOk};
ghost use Rattle.machine_text.specs.Walks as spec;
ghost use Rattle.machine_text.specs.Views.{seen, IsWithin};

use crate::entries::{add_entry, is_same};
use crate::mapped::{Mapped, cached, walked};
use crate::numbers::{add_long_line, add_where};
use arrayvec::ArrayVec;
use ia32_text::{Line, add, eight_digits};
use paging::{Entry, Walk};
use std::alloc::AllocError;
use xlate_buffer::Cache;

fn add_low_bits(w: u32, line: &mut Line)
    requires { length line.old.items ≤ 100 }
    ensures text { line.new.items ≡ line.old.items ++ spec.low_bits w }
    ensures len { length line.new.items ≤ length line.old.items + 19 }
{
    add_where(w % 2 == 1, b" present", line);
    add_where(w / 2 % 2 == 1, b" write", line);
    add_where(w / 4 % 2 == 1, b" user", line);
}

fn add_high_bits(w: u32, line: &mut Line)
    requires { length line.old.items ≤ 120 }
    ensures text { line.new.items ≡ line.old.items ++ spec.high_bits w }
    ensures len { length line.new.items ≤ length line.old.items + 20 }
{
    add_where(w / 32 % 2 == 1, b" accessed", line);
    add_where(w / 64 % 2 == 1, b" dirty", line);
    add_where(w / 128 % 2 == 1, b" size", line);
}

fn add_word(name: &[u8], at: u32, w: u32, text: &mut Vec<u8>) -> Result<(), AllocError>
    requires { length name.now ≤ 20 }
    ensures { OnOk result (text.new.items ≡ text.old.items ++ spec.word_line name.now at w) }
{
    let mut line: Line = ArrayVec::new();
    add(name, &mut line);
    eight_digits(at, &mut line);
    add(b" is ", &mut line);
    eight_digits(w, &mut line);
    add_low_bits(w, &mut line);
    add_high_bits(w, &mut line);
    add(b"\n", &mut line);
    text.extend_from_slice(line.as_slice())
}

/// A present PDE that maps no page of 4 MB names a table in memory.
fn names_table<C: Cache>(memory: &Mapped<'_, C>, dir: u32) -> bool
    ensures names { result ≡ spec.names_table (seen C.entries memory.now) dir }
{
    dir % 2 == 1 && !(memory.cpu.pse() && dir / 128 % 2 == 1) && !(memory.frames <= dir / 4096)
}

fn add_table<C: Cache>(
    memory: &Mapped<'_, C>,
    page: u32,
    dir: u32,
    text: &mut Vec<u8>,
) -> Result<(), AllocError>
    requires within { IsWithin (seen C.entries memory.now) }
    requires page { page < 2 ^ 20 }
    ensures { OnOk result (text.new.items ≡ text.old.items ++ spec.table_line (seen C.entries memory.now) page dir) }
{
    if !names_table(memory, dir) {
        return Ok(());
    }
    let word_at = dir / 4096 * 4096 + page % 1024 * 4;
    add_word(b"pte     at ", word_at, memory.ram.read32(word_at), text)
}

fn add_dir<C: Cache>(
    memory: &Mapped<'_, C>,
    page: u32,
    dir: u32,
    text: &mut Vec<u8>,
) -> Result<(), AllocError>
    requires within { IsWithin (seen C.entries memory.now) }
    requires page { page < 2 ^ 20 }
    ensures { OnOk result (text.new.items ≡ text.old.items ++ spec.dir_lines (seen C.entries memory.now) page dir) }
{
    let dir_at = memory.cpu.cr3 / 4096 * 4096 + page / 1024 * 4;
    add_word(b"pde     at ", dir_at, dir, text)?;
    add_table(memory, page, dir, text)
}

fn add_words<C: Cache>(
    memory: &Mapped<'_, C>,
    page: u32,
    text: &mut Vec<u8>,
) -> Result<(), AllocError>
    requires within { IsWithin (seen C.entries memory.now) }
    requires page { page < 2 ^ 20 }
    ensures { OnOk result (text.new.items ≡ text.old.items ++ spec.words_text (seen C.entries memory.now) page) }
{
    if memory.frames <= memory.cpu.cr3 / 4096 {
        return Ok(());
    }
    let dir = memory
        .ram
        .read32(memory.cpu.cr3 / 4096 * 4096 + page / 1024 * 4);
    add_dir(memory, page, dir, text)
}

fn add_found(walk: &Walk, line: &mut Line)
    requires { length line.old.items ≤ 100 }
    ensures text { line.new.items ≡ line.old.items ++ spec.found_text walk.now }
    ensures len { length line.new.items ≤ length line.old.items + 40 }
{
    match walk {
        Walk::Absent => add(b"none, not present", line),
        Walk::Beyond => add(b"none, beyond memory", line),
        Walk::Reserved => add(b"none, reserved bit", line),
        Walk::Found { entry, .. } => add_entry(entry, line),
    }
}

fn is_found(entry: &Entry, walk: &Walk) -> bool
    ensures { result ≡ spec.is_found entry.now walk.now }
{
    match walk {
        Walk::Found { entry: found, .. } => is_same(entry, found),
        _ => false,
    }
}

fn add_kept(kept: Option<Entry>, walk: &Walk, line: &mut Line)
    requires { length line.old.items ≤ 100 }
    ensures text { line.new.items ≡ line.old.items ++ spec.kept_text kept walk.now }
    ensures len { length line.new.items ≤ length line.old.items + 50 }
{
    match kept {
        None => add(b"none", line),
        Some(entry) => {
            add_entry(&entry, line);
            add_where(!is_found(&entry, walk), b" stale", line);
        }
    }
}

fn add_walk_line(walk: &Walk, text: &mut Vec<u8>) -> Result<(), AllocError>
    ensures { OnOk result (text.new.items ≡ text.old.items ++ spec.walk_line walk.now) }
{
    let mut line: Line = ArrayVec::new();
    add(b"walk    ", &mut line);
    add_found(walk, &mut line);
    add(b"\n", &mut line);
    text.extend_from_slice(line.as_slice())
}

fn add_kept_line(kept: Option<Entry>, walk: &Walk, text: &mut Vec<u8>) -> Result<(), AllocError>
    ensures { OnOk result (text.new.items ≡ text.old.items ++ spec.kept_line kept walk.now) }
{
    let mut line: Line = ArrayVec::new();
    add(b"cached  ", &mut line);
    add_kept(kept, walk, &mut line);
    add(b"\n", &mut line);
    text.extend_from_slice(line.as_slice())
}

#[tactic(auto, unfolding(crate::specs::Walks::page_text))]
fn add_page<C: Cache>(
    memory: &Mapped<'_, C>,
    page: u32,
    text: &mut Vec<u8>,
) -> Result<(), AllocError>
    requires within { IsWithin (seen C.entries memory.now) }
    requires page { page < 2 ^ 20 }
    ensures { OnOk result (text.new.items ≡ text.old.items ++ spec.page_text (seen C.entries memory.now) page) }
{
    let walk = walked(memory, page);
    add_words(memory, page, text)?;
    add_walk_line(&walk, text)?;
    add_kept_line(cached(memory, page), &walk, text)
}

/// The walk for a linear address: the PDE and the PTE, what they give, and what is cached for the page.
#[tactic(auto, unfolding(crate::specs::Walks::walk_text))]
pub fn add_walk<C: Cache>(
    memory: &Mapped<'_, C>,
    at: u32,
    text: &mut Vec<u8>,
) -> Result<(), AllocError>
    requires { IsWithin (seen C.entries memory.now) }
    ensures { OnOk result (text.new.items ≡ text.old.items ++ spec.walk_text (seen C.entries memory.now) at) }
{
    add_long_line(b"address ", at, text)?;
    add_long_line(b"cr3     ", memory.cpu.cr3, text)?;
    add_page(memory, at / 4096, text)
}
