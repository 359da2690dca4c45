//! Laws of what burning and linking make: texts of instructions that were padded, joined and relocated.
#![tactic(auto)]

mod accepted;
mod built;
mod burnt;
mod chunked;
mod filled;
mod joined;
mod linked;
mod relocated;

pub use accepted::burnt_and_linked;
pub use built::acceptance;
pub use burnt::burning;
pub use chunked::padded;
pub use filled::relocation;
pub use joined::sweeps;
pub use linked::linking;
pub use relocated::fields;
