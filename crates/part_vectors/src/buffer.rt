//! The TLB.

use crate::asked::comes_so;
use paging::Entry;
use std::process::Abort;
use xlate_buffer::Buffer;

const FIRST: Entry = Entry {
    page: 1,
    frame: 0x100,
    user: false,
    write: true,
    dirty: true,
};

const SECOND: Entry = Entry {
    page: 65,
    frame: 0x200,
    user: true,
    write: false,
    dirty: false,
};

/// The last page of directory index 0, and the first of index 1.
const LAST: Entry = Entry {
    page: 1023,
    ..FIRST
};

const NEXT: Entry = Entry {
    page: 1024,
    ..FIRST
};

/// What is done to the TLB, or found in it.
enum Step {
    Keep(Entry),
    DropPage(u32),
    DropDir(u32),
    DropAll,
    Find(u32, Option<Entry>),
}

/// Whether a step has the result that it states.
fn does(buffer: &mut Buffer, step: &Step) -> bool {
    match *step {
        Step::Keep(entry) => buffer.keep(entry),
        Step::DropPage(page) => buffer.drop_page(page),
        Step::DropDir(index) => buffer.drop_dir(index),
        Step::DropAll => buffer.drop_all(),
        Step::Find(page, entry) => return buffer.find(page) == entry,
    }
    true
}

fn follow(rt: &impl Abort, shown: &str, steps: &[Step]) {
    let mut buffer = Buffer::new();
    for (k, step) in steps.iter().enumerate() {
        comes_so(rt, shown, k, does(&mut buffer, step));
    }
}

static TAKEN: [Step; 4] = [
    Step::Keep(FIRST),
    Step::Keep(SECOND),
    Step::Find(1, None),
    Step::Find(65, Some(SECOND)),
];

static DROPPED: [Step; 8] = [
    Step::Keep(FIRST),
    Step::DropPage(65),
    Step::Find(1, Some(FIRST)),
    Step::DropPage(1),
    Step::Find(1, None),
    Step::Keep(SECOND),
    Step::DropAll,
    Step::Find(65, None),
];

static DIRECTORIES: [Step; 13] = [
    Step::Keep(FIRST),
    Step::Keep(LAST),
    Step::Keep(NEXT),
    Step::DropDir(2),
    Step::Find(1, Some(FIRST)),
    Step::Find(1023, Some(LAST)),
    Step::Find(1024, Some(NEXT)),
    Step::DropDir(0),
    Step::Find(1, None),
    Step::Find(1023, None),
    Step::Find(1024, Some(NEXT)),
    Step::DropDir(1),
    Step::Find(1024, None),
];

#[test]
fn pages_are_found_until_another_comes_or_they_are_dropped(rt: HostRuntime) {
    follow(&rt, "a page takes the place of another", &TAKEN);
    follow(&rt, "dropped pages are not found", &DROPPED);
    follow(&rt, "nor the pages of a directory index", &DIRECTORIES);
}
