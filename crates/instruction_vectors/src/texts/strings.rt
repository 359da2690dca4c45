//! String instructions, flags.

/// The bytes of an instruction at 10000000, and its text.
pub const STRINGS: &str = "\
a4 => movsb
a5 => movsl
f3 a4 => rep movsb
f3 a5 => rep movsl
aa => stosb
ab => stosl
f3 aa => rep stosb
f3 ab => rep stosl
ac => lodsb
ad => lodsl
f3 ac => rep lodsb
f3 ad => rep lodsl
f8 => clc
f9 => stc
fc => cld
fd => std";
