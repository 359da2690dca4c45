//! A law of what a monitor's rules add to a plain instruction.

ghost use Rattle.step_exec.specs.Agreement.{PlainAgree};

/// A plain instruction under the monitor's rules does what it does on the bare machine, unless one of the monitor's
/// stops ends it.
pub fn plain_agrees()
    ensures { PlainAgree }
{}
