//! Laws of the outcomes of instructions by their pure effect.

ghost use Rattle.step_exec.specs.Divided.{Divides};
ghost use Rattle.step_exec.specs.Users.{HasUserForm};

/// What a user's code does by itself of the sensitive instructions has the form of a plain one: its ranges, and then an
/// effect of registers, selectors and the bytes read.
pub fn has_user_form()
    ensures { HasUserForm }
{}

/// A plain instruction divides after its ranges.
pub fn divides()
    ensures { Divides }
{}
