//! What a command does without a machine: files are read, objects and images are built of what they
//! hold, and lines are printed.
#![tactic(auto)]

mod build;
mod comparing;
mod halt;
mod image;
mod lines;
mod made;
mod object;
mod script;
mod source;
mod status;
mod telling;
mod texts;

pub use build::built;
pub use comparing::{Texts, tell_both};
pub use halt::{Halt, Line};
pub use image::{accepted, accepted_line, image_file};
pub use lines::{link_line, place_line, refusal_at_line, too_small_line};
pub use made::Made;
pub use object::{object_file, objects_in};
pub use script::{Runnable, runnable_in_files};
pub use source::source_in_file;
pub use status::Status;
pub use telling::{end, load, print, refused, tell_run};
