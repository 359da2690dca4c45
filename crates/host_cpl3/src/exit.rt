//! How an instruction of the host, or a run of it, ends.

use ia32_types::Regs;

/// Why the host doesn't go on. The registers are those before the exiting instruction.
#[derive(Clone, Copy, PartialEq, Eq)]
pub enum Exit {
    /// The instruction lies at this address of the wedge window, in the kernel view.
    Entry(u32),
    /// It raises this exception at CPL 3, IOPL 0 and IF 1. `cr2` is the address of a page fault, and else 0.
    Fault { vector: u8, code: u32, cr2: u32 },
    /// It is INT with this vector, or INT3 with 3.
    Soft(u8),
    /// Its bytes are no spelling.
    Outside,
    /// It is POPF of an image with a flag that isn't kept.
    FlagBits,
    /// It has an access past the last address.
    Wrap,
    /// It would come after as many as were asked for.
    Budget,
}

/// How an instruction is completed, with the registers that it leaves, as the definitions say it.
#[derive(Clone, Copy)]
pub enum Completion {
    /// It counts, and leaves these registers.
    Completed(Regs),
    /// It is a jump into the wedge window, in the kernel view.
    Entered(Regs),
}

/// How an instruction is completed that left its registers in place.
#[derive(Clone, Copy)]
pub enum Ending {
    /// It counts.
    Completed,
    /// It is a jump into the wedge window, in the kernel view.
    Entered,
}
