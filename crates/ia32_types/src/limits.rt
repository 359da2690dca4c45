//! Limits of a run (profile).

/// The fewest frames of a kernel's memory, 8 MB.
pub const MIN_FRAMES: u32 = 2048;

/// The most frames of a kernel's memory, 64 MB.
pub const MAX_FRAMES: u32 = 16384;

/// The frames of the pool from which the tables of a patched run are taken, 2 MB.
pub const POOL_FRAMES: u32 = 512;

/// The most steps of a run.
pub const MAX_STEPS: u64 = 1 << 40;
