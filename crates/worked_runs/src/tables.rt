//! Kernels over many tables and in several address spaces.

use crate::commands::{built, joined, text_of};
use crate::sessions::follow_over;
use pv_io::MemFiles;
use std::alloc::Global;
use std::process::Abort;
use worked_kernels::{
    GOES_OVER_FORTY_TABLES, GOES_ROUND_THREE_SPACES, SHARES_A_PAGE, SHOWN_BEHIND_FORTY_TABLES,
    SHOWN_BY_SPACES, TO_A_NEW_VALUE, TO_THE_SAME,
};

/// Both machines show this of a source of three pieces.
fn shows(rt: &impl Abort, alloc: Global, pieces: [&str; 3], shown: &str) {
    let mut files = built_of(rt, alloc, pieces);
    let session = text_of(rt, alloc, &["$ runs 0 2000\n", shown]);
    follow_over(rt, alloc, &mut files, &session);
}

/// What is built of a source of three pieces.
fn built_of(rt: &impl Abort, alloc: Global, pieces: [&str; 3]) -> MemFiles {
    let [first, second, third] = pieces;
    let source = [first.as_bytes(), second.as_bytes(), third.as_bytes()];
    built(rt, alloc, &joined(rt, alloc, &source))
}

#[test]
fn both_machines_show_the_same_over_many_tables_and_spaces(rt: HostRuntime) {
    let tables = [GOES_OVER_FORTY_TABLES, "", ""];
    shows(&rt, rt.alloc(), tables, SHOWN_BEHIND_FORTY_TABLES);
    for on in [TO_THE_SAME, TO_A_NEW_VALUE] {
        let spaces = [GOES_ROUND_THREE_SPACES, on, SHARES_A_PAGE];
        shows(&rt, rt.alloc(), spaces, SHOWN_BY_SPACES);
    }
}
