//! The bits of a PDE and a PTE, as words with one bit. Intel SDM volume 3, 32-bit paging.

/// P: the page, or the table, is there.
pub const PTE_P: u32 = 1;

/// R/W: writes pass.
pub const PTE_RW: u32 = 2;

/// U/S: accesses of level 3 pass.
pub const PTE_US: u32 = 4;

/// A, the accessed flag.
pub const PTE_A: u32 = 0x20;

/// D, the dirty flag.
pub const PTE_D: u32 = 0x40;

/// PS of a PDE: it maps a page of 4 MB.
pub const PDE_PS: u32 = 0x80;

/// The accessed flag in the lowest byte of a word, where a walk sets it.
pub const ACCESSED: u8 = PTE_A as u8;

/// The dirty flag in the lowest byte of a word.
pub const DIRTY: u8 = PTE_D as u8;
