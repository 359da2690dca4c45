//! Values of the definitions, computed.

ghost use Rattle.machine_model.specs.Examples.{ExamplesHold};

/// Small values of the counts, of clashes and of what a monitor asks, computed.
pub fn examples_hold()
    ensures { ExamplesHold }
{}
