//! What tests ask, in one place, and what is printed where it does not hold.

ghost use Rattle.std.specs.Prelude.{◌≡◌, true};

use std::process::Abort;

/// What a row of a table says holds.
pub fn holds(rt: &impl Abort, row: usize, held: bool) {
    assert!(rt; held, "row {row}");
}

/// What is said in words holds.
pub fn is_so(rt: &impl Abort, said: &str, held: bool) {
    assert!(rt; held, "{said}");
}

/// What the next calls rest on holds.
pub fn given(rt: &impl Abort, said: &str, held: bool)
    ensures { held ≡ true }
{
    assert!(rt; held, "{said}");
}

/// A step, of those that show what is said, has the result that it states.
pub fn comes_so(rt: &impl Abort, shown: &str, step: usize, held: bool) {
    assert!(rt; held, "{shown}: step {step}");
}
