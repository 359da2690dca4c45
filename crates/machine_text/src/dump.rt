//! Bytes of memory as text, in the form of `hexdump -C`.

ghost use Rattle.std.specs.Prelude.{◌≡◌, ◌+◌, ◌*◌, ◌++◌, ◌≤◌, ◌<◌, ◌^◌, length, OnOk};
ghost use Rattle.machine_text.specs.Below.{below};
ghost use Rattle.machine_text.specs.Mapped.{byte_now};
ghost use Rattle.machine_text.specs.Dump as spec;
ghost use Rattle.machine_text.specs.Views.{seen, IsWithin};

use crate::mapped::{Mapped, byte_now};
use arrayvec::ArrayVec;
use ia32_text::{Line, add, eight_digits, two_digits};
use std::alloc::AllocError;
use xlate_buffer::Cache;

/// Both digits after a blank, or dashes where nothing maps the byte.
pub fn add_digits(byte: Option<u8>, line: &mut Line)
    requires { length line.old.items ≤ 200 }
    ensures text { line.new.items ≡ line.old.items ++ spec.digits byte }
    ensures len { length line.new.items ≡ length line.old.items + 3 }
{
    match byte {
        None => add(b" --", line),
        Some(byte) => {
            add(b" ", line);
            two_digits(byte, line);
        }
    }
}

fn add_letter(byte: Option<u8>, line: &mut Line)
    requires { length line.old.items ≤ 200 }
    ensures text { line.new.items ≡ line.old.items ++ spec.letter byte }
    ensures len { length line.new.items ≡ length line.old.items + 1 }
{
    match byte {
        None => add(b" ", line),
        Some(byte) => {
            let shown = if byte >= 32 && byte <= 126 { byte } else { 46 };
            line.push(shown);
        }
    }
}

/// The address so many bytes later.
pub fn address(at: u32, i: u32) -> u32
    ensures { result ≡ spec.address at i }
{
    at.wrapping_add(i)
}

fn add_gap(i: u32, line: &mut Line)
    requires { length line.old.items ≤ 200 }
    ensures text { line.new.items ≡ line.old.items ++ spec.gap i }
    ensures len { length line.new.items ≤ length line.old.items + 1 }
{
    if i == 8 {
        add(b" ", line);
    }
}

fn add_cell<C: Cache>(memory: &Mapped<'_, C>, at: u32, n: u32, i: u32, line: &mut Line)
    requires within { IsWithin (seen C.entries memory.now) }
    requires room { length line.old.items ≤ 190 }
    ensures text { line.new.items ≡ line.old.items ++ spec.cell (seen C.entries memory.now) at n i }
    ensures len { length line.new.items ≤ length line.old.items + 4 }
{
    add_gap(i, line);
    if i < n {
        add_digits(byte_now(memory, address(at, i)), line);
    } else {
        add(b"   ", line);
    }
}

fn add_cells<C: Cache>(memory: &Mapped<'_, C>, at: u32, n: u32, line: &mut Line)
    requires within { IsWithin (seen C.entries memory.now) }
    requires room { length line.old.items ≤ 20 }
    ensures text { line.new.items ≡ line.old.items ++ below (λ i. spec.cell (seen C.entries memory.now) at n i) 16 }
    ensures len { length line.new.items ≤ length line.old.items + 64 }
{
    for i in 0..16 {
        add_cell(memory, at, n, i, line);
    }
}

fn add_letters<C: Cache>(memory: &Mapped<'_, C>, at: u32, n: u32, line: &mut Line)
    requires within { IsWithin (seen C.entries memory.now) }
    requires few { n ≤ 16 }
    requires room { length line.old.items ≤ 100 }
    ensures text { line.new.items
        ≡ line.old.items ++ below (λ i. spec.letter (byte_now (seen C.entries memory.now) (spec.address at i))) n }
    ensures len { length line.new.items ≤ length line.old.items + n }
{
    for i in 0..n {
        add_letter(byte_now(memory, address(at, i)), line);
    }
}

#[tactic(auto, unfolding(crate::specs::Dump::dump_line))]
fn add_line<C: Cache>(
    memory: &Mapped<'_, C>,
    at: u32,
    n: u32,
    text: &mut Vec<u8>,
) -> Result<(), AllocError>
    requires within { IsWithin (seen C.entries memory.now) }
    requires few { n ≤ 16 }
    ensures { OnOk result (text.new.items ≡ text.old.items ++ spec.dump_line (seen C.entries memory.now) at n) }
{
    let mut line: Line = ArrayVec::new();
    eight_digits(at, &mut line);
    add(b" ", &mut line);
    add_cells(memory, at, n, &mut line);
    add(b"  |", &mut line);
    add_letters(memory, at, n, &mut line);
    add(b"|\n", &mut line);
    text.extend_from_slice(line.as_slice())
}

/// How many bytes the k-th line has.
fn rest_of(len: u32, k: u32) -> u32
    requires line { 16 * k < len }
    ensures rest { result ≡ spec.rest_of len k }
    ensures few { result ≤ 16 }
{
    (len - 16 * k).min(16)
}

/// The bytes at a linear address, 16 a line.
pub fn add_memory<C: Cache>(
    memory: &Mapped<'_, C>,
    at: u32,
    len: u32,
    text: &mut Vec<u8>,
) -> Result<(), AllocError>
    requires within { IsWithin (seen C.entries memory.now) }
    requires len { len ≤ 2 ^ 24 }
    ensures { OnOk result (text.new.items ≡ text.old.items ++ spec.memory_text (seen C.entries memory.now) at len) }
{
    let lines = (len + 15) / 16;
    for k in 0..lines {
        add_line(memory, address(at, 16 * k), rest_of(len, k), text)?;
    }
    Ok(())
}
