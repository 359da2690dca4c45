//! The flags of the control registers and of EFLAGS, as words with one bit. Intel SDM volume 3, control registers, and
//! volume 1, the EFLAGS register.

/// CR0.PE: protection is on.
pub const CR0_PE: u32 = 0x1;

/// CR0.MP, of the coprocessor.
pub const CR0_MP: u32 = 0x2;

/// CR0.EM, of the coprocessor.
pub const CR0_EM: u32 = 0x4;

/// CR0.TS, of the coprocessor.
pub const CR0_TS: u32 = 0x8;

/// CR0.ET, which is always 1.
pub const CR0_ET: u32 = 0x10;

/// CR0.NE: errors of the coprocessor.
pub const CR0_NE: u32 = 0x20;

/// CR0.WP: level 0 may not write to read-only pages either.
pub const CR0_WP: u32 = 0x1_0000;

/// CR0.AM: alignment.
pub const CR0_AM: u32 = 0x4_0000;

/// CR0.PG: paging is on.
pub const CR0_PG: u32 = 0x8000_0000;

/// CR3.PWT, of the cache.
pub const CR3_PWT: u32 = 0x8;

/// CR3.PCD, of the cache.
pub const CR3_PCD: u32 = 0x10;

/// CR4.PSE: pages of 4 MB.
pub const CR4_PSE: u32 = 0x10;

/// EFLAGS.TF: a trap after each instruction.
pub const EFLAGS_TF: u32 = 0x100;

/// EFLAGS.IF: external interrupts are taken.
pub const EFLAGS_IF: u32 = 0x200;

/// EFLAGS.IOPL, by the lower of its two bits.
pub const EFLAGS_IOPL: u32 = 0x1000;

/// EFLAGS.NT: a nested task.
pub const EFLAGS_NT: u32 = 0x4000;
