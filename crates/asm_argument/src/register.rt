//! The names of registers.

ghost use Rattle.std.specs.Prelude.{◌≡◌};
ghost use Rattle.asm_argument.specs.Among.{among};
ghost use Rattle.asm_argument.specs.Shapes as shapes;

use asm_source::{Name, is_text};

const REGISTERS: [&[u8]; 32] = [
    b"al", b"cl", b"dl", b"bl", b"ah", b"ch", b"dh", b"bh", b"ax", b"cx", b"dx", b"bx", b"sp",
    b"bp", b"si", b"di", b"eax", b"ecx", b"edx", b"ebx", b"esp", b"ebp", b"esi", b"edi", b"es",
    b"cs", b"ss", b"ds", b"cr0", b"cr2", b"cr3", b"cr4",
];

/// Whether the name is one of these.
fn is_among(names: &[&[u8]], name: &[u8]) -> bool
    ensures { result ≡ among names.now name.now }
{
    for text in names {
        if is_text(name, text) {
            return true;
        }
    }
    false
}

/// Whether the name is one of the 24 general registers, `es`, `cs`, `ss`, `ds`, `cr0`, `cr2`, `cr3`
/// or `cr4`.
#[tactic(auto, unfolding(crate::specs::Shapes::is_register, crate::specs::Shapes::registers))]
pub fn is_register(name: &Name) -> bool
    ensures { result ≡ shapes.is_register name.now }
{
    is_among(&REGISTERS, &name.bytes)
}
