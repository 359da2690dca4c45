//! Laws of the definitions.

ghost use Rattle.frame_pool.specs.Held.{WritesElsewhereKeep};

/// What is written in other frames than the free ones changes nothing of the pool.
pub fn writes_elsewhere_keep_the_pool()
    ensures { WritesElsewhereKeep }
{}
