//! Laws of the host's runs.

ghost use Rattle.host_cpl3.specs.Borders.{BeginsBelow, EachBeginsBelow, EntersTheWindow, ExitsInTheWindow};
ghost use Rattle.host_cpl3.specs.RunsTo.{EachIsRun};

/// A run is as many instructions as complete, of those that were asked for, and then its exit.
pub fn each_is_run()
    ensures { EachIsRun }
{}

/// An instruction that is done begins below 2^32. One that isn't counted jumps into the window, in the kernel view, and
/// the exit of the window is that of an EIP in it.
pub fn borders()
    ensures below { BeginsBelow }
    ensures each { EachBeginsBelow }
    ensures enters { EntersTheWindow }
    ensures exits { ExitsInTheWindow }
{}
