//! Laws of what a monitor's rules add to steps and runs (a simulation, step by step), and of what a step reports.

ghost use Rattle.machine_model.specs.Agreement.{BareIsPlain, StepsAgree, RunsAgree};
ghost use Rattle.machine_model.specs.Owned.{OwnsItsBytes};
ghost use Rattle.machine_model.specs.Written.{WritesAreNoted, WalksAreNoted};

use event_entry::deliveries_agree;
use paging::fetches_agree;
use step_exec::plain_agrees;
use sys_exec::rows_agree;

/// What a monitor's rules add to a step is nothing on the bare machine.
pub fn bare_is_plain()
    ensures { BareIsPlain }
{}

/// A step under a monitor's rules that goes on, or ends at a stop of the bare machine, is the bare machine's step from
/// the same state with the same set.
pub fn steps_agree()
    ensures { StepsAgree }
{
    fetches_agree();
    plain_agrees();
    rows_agree();
    deliveries_agree();
}

/// A run under a monitor's rules is a run of the bare machine with the same sets and reports, up to a stop that the
/// bare machine hasn't.
pub fn runs_agree()
    ensures { RunsAgree }
{
    steps_agree();
}

/// An instruction that was fetched under a monitor's rules owns its bytes.
pub fn owns_its_bytes()
    ensures { OwnsItsBytes }
{}

/// Where a range is ready for a write, the frames of all its bytes are among those that the step reports as written. A
/// walk that finds an entry reads the frames of both its words, or that of the one word of a page of 4 MB.
pub fn steps_are_noted()
    ensures writes { WritesAreNoted }
    ensures walks { WalksAreNoted }
{}
