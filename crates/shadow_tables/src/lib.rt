//! Shadow tables.
#![tactic(auto)]

mod barring;
mod calls;
mod opened;
mod shadow;
mod shadows;
mod words;

pub use calls::{Call, replay};
pub use shadow::Shadow;
pub use shadows::Shadows;
pub use words::{Side, permits};
