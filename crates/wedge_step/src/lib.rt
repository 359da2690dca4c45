//! One step of a patched run that the host has no part in: what a look finds of it before it is done, the step by the
//! rules while shadows stand, and what they keep at its end.
#![tactic(auto)]

mod beginning;
mod carrying;
mod clash;
mod close;
mod looking;
mod opened;
mod running;
mod settled;
mod sight;
mod single;

pub use beginning::{begin_over, original};
pub use carrying::{carry_laws, known_laws};
pub use clash::clashes;
pub use running::{Lost, Running};
pub use sight::are_bytes;
pub use single::{fill_used, finish_step, side_of, step_alone, text_frames};
