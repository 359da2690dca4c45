//! What holds of pairs over loads of CR3.

ghost use Rattle.std.specs.Prelude.{◌≡◌, ℕ, ◌≤◌, List, length, Some};
ghost use Rattle.shadow_cache.specs.Past.{pairs_after};
ghost use Rattle.shadow_cache.specs.Away.{AreApart, loaded, present_value, PairsComeBack, PairsLeave, OthersLeaveOrStay, PresentLeavesOrStays};
ghost use Rattle.shadow_cache.specs.Replayed.{ArePlaced, ArePasts};
ghost use Rattle.shadow_cache.specs.Agreeing.{Agree};
ghost use Rattle.shadow_cache.specs.declared.pair.Pair.{Pair};
ghost use Rattle.shadow_cache.specs.declared.call_lists.RootsCall.{RootsCall};

/// After `new` and any calls there are at most 8 pairs, no two of one value, and the present one is that of the value
/// that was loaded last. Of the directory indices under which pages were filled in a pair each is counted once.
pub fn pairs_are_apart()
    ensures few { (value : ℕ) (calls : List RootsCall) → length (pairs_after value calls) ≤ 8 }
    ensures apart { (value : ℕ) (calls : List RootsCall) → AreApart (pairs_after value calls) }
    ensures present { (value : ℕ) (calls : List RootsCall) → present_value (pairs_after value calls) ≡ Some (loaded value calls) }
    ensures placed { (value : ℕ) (calls : List RootsCall) → ArePlaced (pairs_after value calls) }
{}

/// A pair that isn't marked when another value is loaded comes back as it was when its own value is loaded again, where
/// no frame of its tables was written and not all were dropped in between, and at most seven values were loaded.
pub fn pairs_come_back()
    ensures { PairsComeBack }
{}

/// A pair doesn't come back that is marked when another value is loaded, of which a frame of its tables is written while
/// it isn't the present one, or beside which all are dropped: when its value is loaded again a new pair begins.
pub fn pairs_leave()
    ensures { PairsLeave }
{}

/// At each call a pair leaves exactly where it is marked, present and a value is loaded; where it is the last of 8 that
/// stay, and a new one comes; where it isn't the present one and a frame of its tables is written, or all are dropped.
/// A pair that isn't the present one and doesn't leave is as it was.
pub fn pairs_leave_or_stay()
    ensures others { OthersLeaveOrStay }
    ensures present { PresentLeavesOrStays }
{}

/// Pairs of which a call's `told` says that they are those of `new` with a value and then some calls are each as its past
/// says.
pub fn pairs_are_as_told()
    ensures { (value : ℕ) (calls : List RootsCall) (ps : List Pair) (m : List ℕ)
        → Agree value calls ps m → ArePasts value calls (pairs_after value calls) ps m }
{}
