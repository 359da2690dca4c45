//! Laws of what a monitor's rules add to a translation, and of what a translation leaves.

ghost use Rattle.paging.specs.Agreement.{UsesAgree, FetchesAgree};
ghost use Rattle.paging.specs.Ready.{RangesStay};

/// A translation under the monitor's rules is the bare machine's, unless one of the monitor's stops ends it.
pub fn uses_agree()
    ensures { UsesAgree }
{}

/// So is a fetch.
pub fn fetches_agree()
    ensures { FetchesAgree }
{}

/// What could be read or written may be so still after a translation that is ready.
pub fn ranges_stay()
    ensures { RangesStay }
{}
