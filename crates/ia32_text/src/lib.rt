//! An instruction as text in AT&T syntax.
#![tactic(auto)]

mod kinds;
mod laws;
mod line;
mod names;
mod numbers;
mod operands;
mod put;
mod registers;
mod style;

pub use kinds::{Ending, Layout, ending_of, layout_of};
pub use laws::{assembles_again, branches_again, statements_as_text, texts_are_read};
pub use line::{Line, ROOM, add};
pub use names::stem;
pub use numbers::{add_bytes, eight_digits, four_digits, one_digit, two_digits};
pub use operands::{Operands, Written, operands_of};
pub use put::put_text;
pub use style::{Style, Target};
