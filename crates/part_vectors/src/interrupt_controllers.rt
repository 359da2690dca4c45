//! Two 8259As by their data sheet and the profile.

use crate::asked::comes_so;
use ia32_types::Did;
use pic8259::Pics;
use std::process::Abort;

const MASTER: u16 = 0x20;

const MASTER_DATA: u16 = 0x21;

const SLAVE: u16 = 0xA0;

const SLAVE_DATA: u16 = 0xA1;

/// What is done to both, and its result.
enum Step {
    Edge(u8),
    Write(u16, u8, Did),
    Read(u16, u8),
    Pending(Option<u8>),
    Taken(Option<u8>),
}

/// Acknowledges what is pending.
fn taken(pics: &mut Pics) -> Option<u8> {
    pics.pending()?;
    Some(pics.acknowledge())
}

/// Whether a step has the result that it states.
fn does(pics: &mut Pics, step: &Step) -> bool {
    match *step {
        Step::Edge(line) => {
            if line >= 16 || line == 2 {
                return false;
            }
            pics.edge(line);
            true
        }
        Step::Write(port, v, did) => pics.write(port, v) == did,
        Step::Read(port, v) => pics.read(port) == v,
        Step::Pending(vector) => pics.pending() == vector,
        Step::Taken(vector) => taken(pics) == vector,
    }
}

fn follow(rt: &impl Abort, shown: &str, pics: &mut Pics, steps: &[Step]) {
    for (k, step) in steps.iter().enumerate() {
        comes_so(rt, shown, k, does(pics, step));
    }
}

static STARTS: [(u16, u8); 8] = [
    (MASTER, 0x11),
    (SLAVE, 0x11),
    (MASTER_DATA, 0x20),
    (SLAVE_DATA, 0x28),
    (MASTER_DATA, 4),
    (SLAVE_DATA, 2),
    (MASTER_DATA, 1),
    (SLAVE_DATA, 1),
];

/// Both, started with the vector bases 0x20 and 0x28.
fn started() -> Pics {
    let mut pics = Pics::new();
    for row in &STARTS {
        let (port, v) = *row;
        let _ = pics.write(port, v);
    }
    pics
}

static BEFORE_THE_START: [Step; 21] = [
    Step::Read(MASTER_DATA, 0xFF),
    Step::Edge(4),
    Step::Read(MASTER, 0x10),
    Step::Pending(None),
    Step::Write(MASTER, 0x10, Did::Stop),
    Step::Write(MASTER, 0x13, Did::Stop),
    Step::Write(MASTER, 0x15, Did::Stop),
    Step::Write(MASTER, 0x40, Did::Stop),
    Step::Write(MASTER, 0x68, Did::Stop),
    Step::Write(MASTER, 0x08, Did::Stop),
    Step::Write(MASTER, 0x0C, Did::Stop),
    Step::Write(MASTER, 0x11, Did::Done),
    Step::Read(MASTER, 0),
    Step::Write(MASTER_DATA, 0x27, Did::Done),
    Step::Write(MASTER_DATA, 5, Did::Stop),
    Step::Write(MASTER_DATA, 4, Did::Done),
    Step::Write(MASTER_DATA, 3, Did::Stop),
    Step::Edge(4),
    Step::Pending(None),
    Step::Write(MASTER_DATA, 1, Did::Done),
    Step::Pending(Some(0x24)),
];

static BOTH: [Step; 16] = [
    Step::Edge(12),
    Step::Read(MASTER, 4),
    Step::Taken(Some(0x2C)),
    Step::Write(MASTER, 0x0B, Did::Done),
    Step::Write(SLAVE, 0x0B, Did::Done),
    Step::Read(MASTER, 4),
    Step::Read(SLAVE, 0x10),
    Step::Edge(14),
    Step::Edge(5),
    Step::Pending(None),
    Step::Write(SLAVE, 0x64, Did::Done),
    Step::Pending(None),
    Step::Write(MASTER, 0x62, Did::Done),
    Step::Read(MASTER, 0),
    Step::Read(SLAVE, 0),
    Step::Taken(Some(0x2E)),
];

static LEVELS: [Step; 12] = [
    Step::Edge(7),
    Step::Edge(3),
    Step::Edge(1),
    Step::Write(MASTER_DATA, 2, Did::Done),
    Step::Taken(Some(0x23)),
    Step::Pending(None),
    Step::Write(MASTER_DATA, 0, Did::Done),
    Step::Taken(Some(0x21)),
    Step::Write(MASTER, 0x20, Did::Done),
    Step::Pending(None),
    Step::Write(MASTER, 0x20, Did::Done),
    Step::Taken(Some(0x27)),
];

// A first command word clears requests, service and mask, and leaves the base until the next word comes.
static AGAIN: [Step; 34] = [
    Step::Write(MASTER_DATA, 0x80, Did::Done),
    Step::Write(MASTER, 0x0B, Did::Done),
    Step::Edge(3),
    Step::Taken(Some(0x23)),
    Step::Edge(5),
    Step::Read(MASTER, 8),
    Step::Pending(None),
    Step::Write(MASTER, 0x11, Did::Done),
    Step::Read(MASTER, 0),
    Step::Read(MASTER_DATA, 0),
    Step::Pending(None),
    Step::Edge(7),
    Step::Read(MASTER, 0x80),
    Step::Pending(Some(0x27)),
    Step::Write(MASTER_DATA, 0x75, Did::Done),
    Step::Pending(Some(0x77)),
    Step::Write(MASTER_DATA, 4, Did::Done),
    Step::Taken(Some(0x77)),
    Step::Write(MASTER_DATA, 1, Did::Done),
    Step::Read(MASTER_DATA, 0),
    // the slave too
    Step::Write(SLAVE_DATA, 0xFF, Did::Done),
    Step::Edge(9),
    Step::Pending(None),
    Step::Write(SLAVE, 0x11, Did::Done),
    Step::Pending(None),
    Step::Edge(12),
    Step::Pending(Some(0x2C)),
    Step::Taken(Some(0x2C)),
    Step::Edge(8),
    Step::Write(SLAVE_DATA, 0x98, Did::Done),
    Step::Write(MASTER, 0x62, Did::Done),
    Step::Pending(Some(0x98)),
    Step::Write(SLAVE_DATA, 2, Did::Done),
    Step::Taken(Some(0x98)),
];

#[test]
fn lines_are_raised_taken_and_ended_by_their_levels(rt: HostRuntime) {
    let nothing = "nothing is raised before the start";
    follow(&rt, nothing, &mut Pics::new(), &BEFORE_THE_START);
    let slave = "a line of the slave is taken and ended at both";
    follow(&rt, slave, &mut started(), &BOTH);
    let highest = "the highest unmasked level comes first";
    follow(&rt, highest, &mut started(), &LEVELS);
    let again = "a chip that is started again goes on raising";
    follow(&rt, again, &mut started(), &AGAIN);
}
