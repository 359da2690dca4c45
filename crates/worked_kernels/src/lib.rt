//! Sessions of commands over worked kernels: texts that the tests of whole runs read line by line. The module `sessions` of
//! `worked_runs` says how they are read. Tables of `machine_runs` stand beside them.
#![tactic(auto)]

mod assembled;
mod built;
mod damaged;
mod faults;
mod formats;
mod hostile;
mod interrupted;
mod kept;
mod made;
mod moved;
mod noted;
mod refused;
mod shared;
mod spaces;

pub use assembled::{EVENTS, PLAIN, USER};
pub use built::BUILT;
pub use damaged::{CUT_IMAGES, CUT_OBJECTS, DAMAGED_SCRIPTS, IMAGE_FIELDS, OBJECT_FIELDS, SCRIPT};
pub use faults::{CALLS, ENDED, HALTS, NEVER_FAILING, OWN_OBJECT, PUTS, REFUSALS, SAVED_PUTS};
pub use formats::{BY_GAPS, CUT_SITES, LONG, ONE_SITE, SENDS_A_BYTE};
pub use hostile::{BORDERS, HOSTILE, LARGE};
pub use interrupted::IS_INTERRUPTED;
pub use kept::KEPT_TO_THE_END;
pub use made::FIRST_NUMBER;
pub use moved::{
    BEHIND_HEAD, BETWEEN_STEPS, FILLS_MEMORY, GOES_ON, HEAD, IS_SAVED, LACKS_A_BYTE, PASSES_MEMORY,
    SAVED_IN_PLACE, SPOILED, USER_WITHOUT_INTERRUPTS,
};
pub use noted::{
    CHANGES_IN_TWO_SPACES, CHANGES_WRITE_PROTECTION, GOES_OVER_600_TABLES, JUDGED,
    NEEDS_MORE_FRAMES, READS_ITS_TEXT, SHOWN_AFTER_600_TABLES, SHOWN_AFTER_THE_CHANGE,
    SHOWN_IN_TWO_SPACES, SPOILED_SECOND, SPOILED_SPACES, WITH_ONE_DROP, WITH_TWO_DROPS,
};
pub use refused::{REFUSED, TOO_MANY_SITES};
pub use shared::{
    ARE_TOO_LARGE, COUNTS_AT_LEVEL_3, FOUR_IN_TURNS, FOUR_TIMES, GOES_OVER_MANY_TABLES,
    IS_HELD_OFF, RELEASES, SHARED, SHARES, TURNS_END_HELD_OFF,
};
pub use spaces::{
    COPIES_WITHIN_A_STALE_PAGE, GOES_OVER_FORTY_TABLES, GOES_ROUND_THREE_SPACES,
    READS_A_STALE_PAGE, READS_A_STALE_PAGE_ALONE, SHARES_A_PAGE, SHOWN_BEHIND_FORTY_TABLES,
    SHOWN_BY_SPACES, TO_A_NEW_VALUE, TO_THE_SAME,
};
