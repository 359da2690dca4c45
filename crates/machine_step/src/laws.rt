//! Where the step of an instruction that another does is divided.

ghost use Rattle.machine_step.specs.Laws.{PlainDivides};

/// An insensitive instruction is its ranges, translated, and then what is left of it.
pub fn plain_divides()
    ensures { PlainDivides }
{}
