//! The instructions that are refused by their names.

ghost use Rattle.std.specs.Prelude.{◌≡◌};
ghost use Rattle.asm_instruction.specs.Names.{found};
ghost use Rattle.asm_instruction.specs.Refused as spec;

use crate::bytes::look_up;
use ia32_types::Refused;

const REFUSED_NAMES: [(&[u8], Refused); 16] = [
    (b"rdtsc", Refused::Rdtsc),
    (b"cpuid", Refused::Cpuid),
    (b"sgdt", Refused::Sgdt),
    (b"sidt", Refused::Sidt),
    (b"sldt", Refused::Sldt),
    (b"str", Refused::Str),
    (b"smsw", Refused::Smsw),
    (b"lmsw", Refused::Lmsw),
    (b"lldt", Refused::Lldt),
    (b"verr", Refused::Verr),
    (b"verw", Refused::Verw),
    (b"lar", Refused::Lar),
    (b"lsl", Refused::Lsl),
    (b"clts", Refused::Clts),
    (b"rdmsr", Refused::Rdmsr),
    (b"wrmsr", Refused::Wrmsr),
];

/// The instruction that is refused by this name. Names are in lower case.
#[tactic(auto, unfolding(crate::specs::Refused::refused_names))]
pub fn refused_name(name: &[u8]) -> Option<Refused>
    ensures { result ≡ found spec.refused_names name.now }
{
    look_up(&REFUSED_NAMES, name)
}
