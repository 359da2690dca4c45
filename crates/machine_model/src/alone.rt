//! Laws of what a step completes, and of the steps that count nothing.

ghost use Rattle.machine_model.specs.Alone.{StepsAreDone, WaitsCountNothing, SitesCountNothing, OthersCountNothing, NativesAreDirect};

/// The instruction that a step completed is the one that its processor read at EIP.
pub fn steps_are_done()
    ensures { StepsAreDone }
{}

/// Where an interrupt is taken, or the processor is halted, no instruction is completed. At level 0 none that begins in
/// a site is direct, nor is INT or INT3, nor at level 3 an instruction that needs a level or a descriptor. Every other
/// one is direct where it is completed.
pub fn others_count_nothing()
    ensures waits { WaitsCountNothing }
    ensures sites { SitesCountNothing }
    ensures others { OthersCountNothing }
    ensures direct { NativesAreDirect }
{}
