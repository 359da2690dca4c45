//! What views keep beside the frames that they hold.

ghost use Rattle.std.specs.Prelude.{◌≡◌, ℕ, ◌≤◌, List, length};
ghost use Rattle.std.specs.FinMap.{empty};
ghost use Rattle.shadow_tables.specs.Entries.{entries_of};
ghost use Rattle.shadow_cache.specs.Views as roots;
ghost use Rattle.shadow_cache.specs.declared.roots.Roots.{Roots};

/// Where no frames are held but two, which are the roots of the present views, nothing is present.
pub fn roots_alone_keep_nothing()
    ensures { (r : Roots) (m : List ℕ) → length (roots.frames r m) ≤ 2 → entries_of (roots.slots r m) ≡ empty }
{}
