//! The machines on which an image is run.

/// On which machine an image is run: the bare one, or a host, which runs its patched text.
#[derive(Clone, Copy)]
pub enum RunMode {
    Bare,
    Wedge,
}
