//! Whose steps a trace has, what is left of it without the lines that are added, and why a page tells where a step stops.

ghost use Rattle.step_trace.specs.Denials.{DenialsTell};
ghost use Rattle.step_trace.specs.Traces.{EachTraceIsOfItsRun, EachTraceIsOfTheBareRun, WithoutLines};

/// The trace of a run of which a cache keeps what each step has left has the steps of that run, each with its lines; so the
/// trace of an image has those of the run that `run_bare` makes of it.
pub fn each_trace_is_of_its_run()
    ensures runs { EachTraceIsOfItsRun }
    ensures bare { EachTraceIsOfTheBareRun }
{}

/// Without the lines of its steps the trace of a run is the run's text.
pub fn without_lines()
    ensures { WithoutLines }
{}

/// An access that isn't ready is told by the page that was gone through last: that page has no translation then.
pub fn denials_tell()
    ensures { DenialsTell }
{}
