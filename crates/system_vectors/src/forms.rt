//! The forms of descriptors and gates.

use descriptors::{Descriptor, Gate, descriptor, gate};

// A descriptor of code, and of other plain segments: its level, whether it is present, and whether it was used.
macro_rules! code {
    ($dpl:literal, $present:literal, $used:literal) => {
        Descriptor::Code { dpl: $dpl, present: $present, used: $used }
    };
}

macro_rules! plain {
    ($dpl:literal, $present:literal, $used:literal) => {
        Descriptor::Plain { dpl: $dpl, present: $present, used: $used }
    };
}

// Bytes 0 to 3 and 4 to 7 as two words; the forms are those of the SDM, volume 3, "Segment descriptors" and "TSS
// descriptor".
static DESCRIPTORS: [(u32, u32, Descriptor); 17] = [
    (0x0000_FFFF, 0x00CF_9B00, code!(0, true, true)),
    (0x0000_FFFF, 0x00CF_9A00, code!(0, true, false)),
    (0x0000_FFFF, 0x00CF_FA00, code!(3, true, false)),
    (0x0000_FFFF, 0x00CF_1A00, code!(0, false, false)),
    (0x0000_FFFF, 0x00CF_9300, plain!(0, true, true)),
    (0x0000_FFFF, 0x00CF_F200, plain!(3, true, false)),
    (0x0000_FFFF, 0x00CF_7300, plain!(3, false, true)),
    // conforming code, data that expands down, a level between, a base, a limit, bytes in place of pages
    (0x0000_FFFF, 0x00CF_9E00, Descriptor::Foreign),
    (0x0000_FFFF, 0x00CF_9600, Descriptor::Foreign),
    (0x0000_FFFF, 0x00CF_BA00, Descriptor::Foreign),
    (0x0000_FFFF, 0x00CF_9A01, Descriptor::Foreign),
    (0x0000_FFFE, 0x00CF_9A00, Descriptor::Foreign),
    (0x0000_FFFF, 0x004F_9A00, Descriptor::Foreign),
    // a local descriptor table, and nothing
    (0x0000_0000, 0x0000_8200, Descriptor::System),
    (0x0000_0000, 0x0000_0000, Descriptor::System),
    (
        0x2000_0067,
        0xC000_8902,
        Descriptor::Task {
            base: 0xC002_2000,
            limit: 0x67,
            present: true,
            busy: false,
        },
    ),
    (
        0x2000_0067,
        0xC080_0B02,
        Descriptor::Task {
            base: 0xC002_2000,
            limit: 0x0006_7FFF,
            present: false,
            busy: true,
        },
    ),
];

fn is_descriptor(low: u32, high: u32, form: Descriptor) -> bool {
    descriptor(low, high) == form
}

const INTERRUPT: Gate = Gate::Handler {
    sel: 8,
    offset: 0x5678_1234,
    dpl: 0,
    keeps: false,
};

const TRAP: Gate = Gate::Handler {
    sel: 8,
    offset: 0x5678_1234,
    dpl: 3,
    keeps: true,
};

/// Bytes 4 to 7 of a gate, and its form.
static GATES: [(u32, Gate); 7] = [
    // byte 4 is ignored
    (0x5678_8E00, INTERRUPT),
    (0x5678_8E55, INTERRUPT),
    (0x5678_EF00, TRAP),
    // absent, a task gate, a call gate, a 16-bit interrupt gate
    (0x5678_6E00, Gate::Wrong { dpl: 3 }),
    (0x5678_E500, Gate::Wrong { dpl: 3 }),
    (0x5678_8C00, Gate::Wrong { dpl: 0 }),
    (0x5678_C600, Gate::Wrong { dpl: 2 }),
];

fn is_gate(high: u32, form: Gate) -> bool {
    gate(0x0008_1234, high) == form
}

#[test]
fn descriptors_and_gates_have_their_forms(rt: HostRuntime) {
    for (low, high, form) in &DESCRIPTORS {
        assert!(rt; is_descriptor(*low, *high, *form), "{low:#x} {high:#x}");
    }
    for (high, form) in &GATES {
        assert!(rt; is_gate(*high, *form), "{high:#x}");
    }
}
