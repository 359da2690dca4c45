//! Translations that a patched run keeps: up to its last step, and before an instruction that a null segment denies.

use crate::sessions::follow;
use worked_kernels::KEPT_TO_THE_END;

#[test]
fn a_step_goes_by_what_is_kept_where_a_walk_would_stop(rt: HostRuntime) {
    follow(&rt, rt.alloc(), KEPT_TO_THE_END);
}
