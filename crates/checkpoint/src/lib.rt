//! Checkpoints: a machine's state as the bytes of a file.
#![tactic(auto)]

mod bare;
mod bare_rest;
mod bare_run;
mod board_form;
mod demand;
mod fitting;
mod form;
mod guest;
mod guest_rest;
mod guest_run;
mod head;
mod laws;
mod processor;
mod reading;
mod rested;
mod state;
mod writing;

pub use bare::{bare_from, state_of_bare};
pub use bare_rest::{rest_bare, save_bare, save_bare_from};
pub use bare_run::continue_bare;
pub use fitting::fits;
pub use guest::{guest_from, state_of_guest};
pub use guest_rest::{rest_wedge, save_wedge, save_wedge_from};
pub use guest_run::continue_wedge;
pub use laws::{first_bad_is_least, legs_are_a_run};
pub use reading::read_checkpoint;
pub use rested::Rested;
pub use state::{CheckpointCause, CheckpointFault, State};
pub use writing::write_checkpoint;
