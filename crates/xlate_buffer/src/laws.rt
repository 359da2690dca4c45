//! What calls of the TLB, one after another, leave.

ghost use Rattle.std.specs.Prelude.{◌≡◌, ℕ, List};
ghost use Rattle.std.specs.FinMap.{get};
ghost use Rattle.xlate_buffer.specs.Calls.{Call, made_by, last_kept};

/// After any calls `find` gives exactly the entry that was kept last in the page's place, the page modulo
/// 64, where it is of this page and neither `drop_page` of it, nor `drop_dir` of its directory index, nor `drop_all`
/// came since.
pub fn finds_the_last_kept()
    ensures { (calls : List Call) (page : ℕ) → get (made_by calls) page ≡ last_kept calls page }
{}
