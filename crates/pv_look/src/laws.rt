//! The states that are shown are those of the run that `run --bare` makes.

ghost use Rattle.pv_look.specs.Onward.{ShownIsARun, ShownIsTheBareRun, StopIsOfTheBareRun};

/// The steps to all of the states that are shown are one run's, which has all their reports; of an image they are the first
/// steps of the run that `run_bare` makes of it, and a stop that is met is that run's.
pub fn shown_is_a_run()
    ensures run { ShownIsARun }
    ensures bare { ShownIsTheBareRun }
    ensures stop { StopIsOfTheBareRun }
{}
