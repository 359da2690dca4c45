//! The forms with what they are given.

use arrayvec::ArrayVec;

/// Up to 64 numbers of steps.
pub type Steps = ArrayVec<u64, 64>;

/// Up to 64 linear addresses.
pub type Addresses = ArrayVec<u32, 64>;

/// A run that is looked into: the names of its image and its script, and the number of its frames.
#[derive(Clone, Copy)]
pub struct LookedRun<'a> {
    pub image: &'a str,
    pub script: &'a str,
    pub frames: u32,
}

/// What is printed of a machine.
#[derive(Clone, Copy)]
pub enum Aspect {
    /// All but the memory.
    Whole,
    /// The walk for a linear address.
    Walk(u32),
    /// The bytes at a linear address, 1 to 2^24 of them.
    Memory { address: u32, len: u32 },
}

/// Which steps are printed.
#[derive(Drop)]
pub enum Only {
    /// Each of them.
    Each,
    /// Those that begin at one of these linear addresses, 1 to 64 of them.
    At(Addresses),
    /// Those that write to this range, 1 to 2^32 bytes from a linear address on.
    On { address: u32, len: u64 },
}

/// A form with its words.
#[derive(Drop)]
pub enum LookWords<'a> {
    /// The name of an image.
    List(&'a str),
    /// The items of a run to the step `to`, and its steps from `from` on.
    Steps {
        run: LookedRun<'a>,
        from: u64,
        to: u64,
        only: Only,
    },
    /// The machine before each of these steps, which rise, 1 to 64 of them.
    Before {
        run: LookedRun<'a>,
        steps: Steps,
        aspect: Aspect,
    },
    /// The machine of a checkpoint, by its name.
    InFile {
        state: &'a str,
        aspect: Aspect,
    },
}
