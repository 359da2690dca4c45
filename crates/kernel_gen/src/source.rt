//! The source of a generated kernel.

ghost use Rattle.std.specs.Prelude.{◌≡◌, ◌++◌, IfOk, OnOk, decimal};
ghost use Rattle.kernel_gen.specs.Kernels.{next, place_of, lines_of, text_of, kernel_text};

use itoa::Buffer;
use std::alloc::{AllocError, Global};

/// How many numbers a kernel is made of.
const NUMBERS: u32 = 1000;

/// The source of the kernel of a number, as GNU AT&T assembly.
#[tactic(auto, unfolding(crate::specs::Kernels::kernel_text))]
pub fn kernel(alloc: Global, number: u32) -> Result<Vec<u8>, AllocError>
    ensures { IfOk result (λ text. text.items ≡ kernel_text number) }
{
    let mut text = Vec::from_slice(alloc, b".bss\nbuf: .zero 65536\n.text\n_start:\ntop:\n")?;
    let mut x = number;
    for _ in 0..NUMBERS {
        x = next(x);
        add_lines(x, &mut text)?;
    }
    text.extend_from_slice(b"jmp top\n")?;
    Ok(text)
}

#[tactic(auto, unfolding(crate::specs::Kernels::next))]
fn next(x: u32) -> u32
    ensures { result ≡ next x }
{
    ((1664525 * x as u64 + 1013904223) % 4294967296) as u32
}

/// A place of a word in the buffer.
fn place_of(x: u32) -> u32
    ensures { result ≡ place_of x }
{
    4 * (x / 256 % 16384)
}

/// Adds the lines of a number.
#[tactic(auto, unfolding(crate::specs::Kernels::lines_of, crate::specs::Kernels::text_of))]
fn add_lines(x: u32, text: &mut Vec<u8>) -> Result<(), AllocError>
    ensures { OnOk result (text.new.items ≡ text.old.items ++ text_of (lines_of x)) }
{
    match x / 16777216 % 6 {
        0 => add(b"movl $", x, b",%eax\noutl %eax,$128\n", text),
        1 => text.extend_from_slice(b"pushf\npopf\n"),
        2 => {
            add(b"movl $", x, b",buf+", text)?;
            add(b"", place_of(x), b"\n", text)
        }
        3 => add(b"movl buf+", place_of(x), b",%eax\noutl %eax,$128\n", text),
        4 => text.extend_from_slice(b"cli\nsti\n"),
        _ => add(b"invlpg buf+", place_of(x), b"\n", text),
    }
}

/// Adds a number in decimal between two texts.
fn add(before: &[u8], number: u32, after: &[u8], text: &mut Vec<u8>) -> Result<(), AllocError>
    ensures { OnOk result (text.new.items ≡ text.old.items ++ (before.now ++ decimal number ++ after.now)) }
{
    let mut buffer = Buffer::new();
    text.extend_from_slice(before)?;
    text.extend_from_slice(buffer.format(number).as_bytes())?;
    text.extend_from_slice(after)
}
