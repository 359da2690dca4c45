//! Laws of the definitions: what each instruction leaves alone.

ghost use Rattle.ia32_exec.specs.EipAfter.{EipGoesOn};
ghost use Rattle.ia32_exec.specs.FlagsAfter.{InsensitiveStay, SystemFlagsStay};
ghost use Rattle.ia32_exec.specs.SameBytes.{SameOverRanges};

/// EIP is past the instruction, or at a direct branch further by its distance, or, in a repeated string instruction,
/// where it was.
pub fn eip_goes_on()
    ensures { EipGoesOn }
{}

/// IF, the bits from IOPL on, and those that the profile never sets stay.
pub fn system_flags_stay()
    ensures user { SystemFlagsStay }
    ensures insensitive { InsensitiveStay }
{}

/// An instruction has the same outcome over bytes that are the same in its ranges.
pub fn same_over_ranges()
    ensures { SameOverRanges }
{}
