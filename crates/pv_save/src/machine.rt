//! Which of the machines a run asks for.

ghost use Rattle.std.specs.Prelude.{◌≡◌};
ghost use Rattle.pv_save.specs.Saving.{is_wedge};

use pv_words::RunMode;

/// A host runs the patched text.
pub fn is_wedge(mode: RunMode) -> bool
    ensures { result ≡ is_wedge mode }
{
    match mode {
        RunMode::Bare => false,
        RunMode::Wedge => true,
    }
}
