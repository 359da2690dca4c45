//! The vectors of the exceptions that the machines raise. Intel SDM volume 3, exception and interrupt vectors.

/// #DE, a divide error.
pub const DIVIDE_ERROR: u8 = 0;

/// #UD, an invalid opcode.
pub const INVALID_OPCODE: u8 = 6;

/// #NP, a segment that isn't present. Vectors from here to #PF push an error code.
pub const NOT_PRESENT: u8 = 11;

/// #SS, a fault of the stack's segment.
pub const STACK_FAULT: u8 = 12;

/// #GP, a general protection fault.
pub const GENERAL_PROTECTION: u8 = 13;

/// #PF, a page fault.
pub const PAGE_FAULT: u8 = 14;
