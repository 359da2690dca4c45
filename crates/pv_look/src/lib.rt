//! What is looked up of images and runs: the call that does all that the program `look` does.
#![tactic(auto)]

mod before;
mod comment;
mod file;
mod here;
mod labels;
mod laws;
mod line;
mod listing;
mod looking;
mod moments;
mod onward;
mod part;
mod site_names;
mod spelling;
mod statement;
mod stepping;

pub use here::Here;
pub use laws::shown_is_a_run;
pub use listing::list;
pub use looking::look;
pub use part::Part;
pub use stepping::steps;
