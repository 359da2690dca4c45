//! The names of registers, without their `%`. Intel SDM volume 2, table 2-2.

ghost use Rattle.std.specs.Prelude.{◌≡◌, ◌≤◌, length};
ghost use Rattle.ia32_text.specs.Registers as spec;

use ia32_types::{Seg, Size};

/// A register of 32 bits.
#[tactic(auto, unfolding(crate::specs::Registers::long_name))]
pub fn long_name(number: u8) -> &'static [u8]
    ensures name { result.now ≡ spec.long_name number }
    ensures len { length result.now ≤ 3 }
{
    match number {
        0 => b"eax",
        1 => b"ecx",
        2 => b"edx",
        3 => b"ebx",
        4 => b"esp",
        5 => b"ebp",
        6 => b"esi",
        _ => b"edi",
    }
}

#[tactic(auto, unfolding(crate::specs::Registers::word_name))]
fn word_name(number: u8) -> &'static [u8]
    ensures name { result.now ≡ spec.word_name number }
    ensures len { length result.now ≤ 3 }
{
    match number {
        0 => b"ax",
        1 => b"cx",
        2 => b"dx",
        3 => b"bx",
        4 => b"sp",
        5 => b"bp",
        6 => b"si",
        _ => b"di",
    }
}

#[tactic(auto, unfolding(crate::specs::Registers::byte_name))]
fn byte_name(number: u8) -> &'static [u8]
    ensures name { result.now ≡ spec.byte_name number }
    ensures len { length result.now ≤ 3 }
{
    match number {
        0 => b"al",
        1 => b"cl",
        2 => b"dl",
        3 => b"bl",
        4 => b"ah",
        5 => b"ch",
        6 => b"dh",
        _ => b"bh",
    }
}

/// A general register of this size.
pub fn register_name(size: Size, number: u8) -> &'static [u8]
    ensures name { result.now ≡ spec.register_name size number }
    ensures len { length result.now ≤ 3 }
{
    match size {
        Size::Long => long_name(number),
        Size::Word => word_name(number),
        Size::Byte => byte_name(number),
    }
}

/// A segment register.
#[tactic(auto, unfolding(crate::specs::Registers::segment_name))]
pub fn segment_name(segment: Seg) -> &'static [u8]
    ensures name { result.now ≡ spec.segment_name segment }
    ensures len { length result.now ≤ 3 }
{
    match segment {
        Seg::Es => b"es",
        Seg::Cs => b"cs",
        Seg::Ss => b"ss",
        Seg::Ds => b"ds",
    }
}

/// A control register.
#[tactic(auto, unfolding(crate::specs::Registers::control_name))]
pub fn control_name(number: u8) -> &'static [u8]
    ensures name { result.now ≡ spec.control_name number }
    ensures len { length result.now ≤ 3 }
{
    match number {
        0 => b"cr0",
        2 => b"cr2",
        3 => b"cr3",
        _ => b"cr4",
    }
}
