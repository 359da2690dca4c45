//! In which order a translation is tested.

ghost use Rattle.step_mem.specs.Order.{RangesInOrder, FetchesInOrder};

/// A translation of a range meets what the first of its tests gives that holds: those of its addresses, and then those
/// of each of its pages.
pub fn ranges_in_order()
    ensures { RangesInOrder }
{}

/// So does a fetch, whose addresses aren't tested.
pub fn fetches_in_order()
    ensures { FetchesInOrder }
{}
