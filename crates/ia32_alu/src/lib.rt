//! Results and flags of arithmetic, logic, shifts, multiplication and division.
#![tactic(auto)]

mod arithmetic;
mod laws;
mod products;
mod quotients;
mod shifts;
mod signed;
mod status;
mod sums;

pub use arithmetic::alu;
pub use laws::{
    comparisons, differences_in_range, divisions, divisions_refused, products_divided,
    quotients_found, sums_in_range,
};
pub use products::multiply;
pub use quotients::divide;
pub use shifts::shift;
pub use status::Status;
