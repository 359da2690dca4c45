//! The registers, flags, instructions, sites and stops that the machines speak of.
#![tactic(auto)]

mod addresses;
mod bits;
mod flags;
mod insn;
mod limits;
mod register;
mod same;
mod site;
mod size;
mod stop;
mod vectors;

pub use addresses::{
    DATA_ADDRESS, DATA_PAGE, LAST_PAGE, PAGES, TEXT_ADDRESS, TEXT_FRAME, TEXT_PAGE, TEXT_PLACE,
    WINDOW_ADDRESS, WINDOW_BELOW, WINDOW_END,
};
pub use bits::{bit, sign_extended_32, sign_extended_64, with_bit};
pub use flags::{
    ADJUST_AT, ALIGNMENT_AT, CARRY_AT, DIRECTION_AT, Flags, IDENTIFICATION_AT, INTERRUPT_AT,
    IOPL_AT, IOPL_TOP_AT, NESTED_AT, OVERFLOW_AT, PARITY_AT, Regs, SIGN_AT, TRAP_AT, VIRTUAL_AT,
    VIRTUAL_INTERRUPT_AT, VIRTUAL_PENDING_AT, ZERO_AT,
};
pub use insn::{Address, Insn, Op, Operand};
pub use limits::{MAX_FRAMES, MAX_STEPS, MIN_FRAMES, POOL_FRAMES};
pub use register::{CS, DS, EAX, EBP, EBX, ECX, EDI, EDX, ES, ESI, ESP, Reg, SS, Seg};
pub use same::same_insn;
pub use site::{Refused, SiteKind, sensitive};
pub use size::Size;
pub use stop::{Did, Stop};
pub use vectors::{
    DIVIDE_ERROR, GENERAL_PROTECTION, INVALID_OPCODE, NOT_PRESENT, PAGE_FAULT, STACK_FAULT,
};
