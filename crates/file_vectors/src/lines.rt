//! Items and ends, and their lines.

ghost use Rattle.std.specs.Prelude.{◌≡◌};

use crate::agree::{are_bytes, are_same, holds, sink};
use ia32_types::Stop;
use pv_io::MemSink;
use run_trace::{End, Ended, Item, NoNotes, Notes, StepItems, What, put_end, put_item, put_step};
use std::alloc::{AllocError, Global};

/// What has a line.
#[derive(Clone, Copy)]
enum Line {
    Item(Item),
    End(Ended),
}

/// Whether the line is taken.
fn is_taken(out: &mut MemSink, line: &Line) -> bool {
    match line {
        Line::Item(item) => put_item(item, out).is_ok(),
        Line::End(ended) => put_end(ended, out).is_ok(),
    }
}

/// Whether the line is this one.
fn is_line(alloc: Global, line: &Line, text: &str) -> bool {
    match MemSink::new(alloc, 64, Vec::new(alloc)) {
        Ok(mut out) => is_taken(&mut out, line) && are_same(out.bytes(), text.as_bytes()),
        Err(AllocError) => false,
    }
}

macro_rules! item {
    ($step:literal, $what:expr) => {
        Line::Item(Item { step: $step, what: $what })
    };
}

macro_rules! end {
    ($steps:literal, $end:expr, $fills:literal) => {
        Line::End(Ended { steps: $steps, end: $end, fills: $fills })
    };
}

static LINES: [(Line, &str); 24] = [
    (item!(2, What::Out8(0x3f8, 0x48)), "2 out8 03f8 48\n"),
    (item!(2, What::Sent(0x48)), "2 tx 48\n"),
    (
        item!(8, What::Out32(0x80, 0x101063)),
        "8 out32 0080 00101063\n",
    ),
    (item!(6, What::In8(0x3fd, 0x61)), "6 in8 03fd 61\n"),
    (
        item!(0, What::In32(0xabcd, 0xf00d_00ef)),
        "0 in32 abcd f00d00ef\n",
    ),
    (item!(29, What::Irq(0x20)), "29 irq 20\n"),
    (
        item!(1_099_511_627_776, What::Sent(0)),
        "1099511627776 tx 00\n",
    ),
    (
        end!(0, End::Stopped(Stop::Unsupported), 7),
        "end steps 0 stop 1 Unsupported\n",
    ),
    (
        end!(1, End::Stopped(Stop::BeyondRam), 7),
        "end steps 1 stop 2 BeyondRam\n",
    ),
    (
        end!(2, End::Stopped(Stop::WrapAccess), 7),
        "end steps 2 stop 3 WrapAccess\n",
    ),
    (
        end!(3, End::Stopped(Stop::DeliveryFailed), 7),
        "end steps 3 stop 4 DeliveryFailed\n",
    ),
    (
        end!(4, End::Stopped(Stop::ControlBits), 7),
        "end steps 4 stop 5 ControlBits\n",
    ),
    (
        end!(5, End::Stopped(Stop::DeviceUse), 7),
        "end steps 5 stop 6 DeviceUse\n",
    ),
    (
        end!(6, End::Stopped(Stop::FlagBits), 7),
        "end steps 6 stop 7 FlagBits\n",
    ),
    (
        end!(7, End::Stopped(Stop::SegmentForm), 7),
        "end steps 7 stop 8 SegmentForm\n",
    ),
    (
        end!(8, End::Stopped(Stop::TextTouched), 7),
        "end steps 8 stop 9 TextTouched\n",
    ),
    (
        end!(9, End::Stopped(Stop::WedgeTouched), 7),
        "end steps 9 stop 10 WedgeTouched\n",
    ),
    (
        end!(10, End::Stopped(Stop::LowTouched), 7),
        "end steps 10 stop 11 LowTouched\n",
    ),
    (
        end!(11, End::Stopped(Stop::NotAStart), 7),
        "end steps 11 stop 12 NotAStart\n",
    ),
    (
        end!(12, End::Stopped(Stop::TextMapped), 7),
        "end steps 12 stop 13 TextMapped\n",
    ),
    (
        end!(13, End::Stopped(Stop::TableInText), 7),
        "end steps 13 stop 14 TableInText\n",
    ),
    (
        end!(14, End::Stopped(Stop::UserFlags), 7),
        "end steps 14 stop 15 UserFlags\n",
    ),
    (
        end!(15, End::Stopped(Stop::CodeIsTable), 7),
        "end steps 15 stop 16 CodeIsTable\n",
    ),
    (end!(16, End::Bound, 0), "end steps 16\n"),
];

#[test]
fn items_and_ends_have_their_lines(rt: HostRuntime) {
    for (k, (line, text)) in LINES.iter().enumerate() {
        holds(&rt, k, is_line(rt.alloc(), line, text));
    }
}

/// A line, and whether it is taken.
static TAKEN: [(Line, bool); 3] = [
    (item!(3, What::Irq(0x2f)), true),
    (item!(4, What::Irq(0x2f)), false),
    (end!(5, End::Bound, 0), true),
];

#[test]
fn a_line_is_one_call_of_the_sink(rt: HostRuntime) {
    let mut out = sink(&rt, rt.alloc(), 64, &[1]);
    for (k, (line, taken)) in TAKEN.iter().enumerate() {
        holds(&rt, k, is_taken(&mut out, line) == *taken);
    }
    assert!(rt; out.faults() == 1);
    are_bytes(&rt, out.bytes(), b"3 irq 2f\nend steps 5\n");
}

/// A write of a port, and the byte that it sends.
fn out_and_sent() -> StepItems
    ensures { result.len ≡ 2 }
{
    let mut items = StepItems::new();
    items.add(Item {
        step: 2,
        what: What::Out8(0x3f8, 0x48),
    });
    items.add(Item {
        step: 2,
        what: What::Sent(0x48),
    });
    items
}

/// Whether the lines of such a step, or of one without items, are taken.
fn puts(out: &mut MemSink, sends: bool) -> bool {
    let items = if sends {
        out_and_sent()
    } else {
        StepItems::new()
    };
    put_step(&items, out).is_ok()
}

/// Whether a step has those items, whether they are taken, and what the sink has after them.
static STEPS: [(bool, bool, &[u8]); 3] = [
    (false, true, b""),
    (true, true, b"2 out8 03f8 48\n2 tx 48\n"),
    (true, false, b"2 out8 03f8 48\n2 tx 48\n2 out8 03f8 48\n"),
];

#[test]
fn a_step_has_a_line_for_each_item_up_to_one_that_is_not_taken(rt: HostRuntime) {
    let mut out = sink(&rt, rt.alloc(), 64, &[3]);
    for (k, (sends, taken, bytes)) in STEPS.iter().enumerate() {
        holds(&rt, k, puts(&mut out, *sends) == *taken);
        are_bytes(&rt, out.bytes(), bytes);
    }
    assert!(rt; out.faults() == 1);
}

#[test]
fn nobody_wants_notes(rt: HostRuntime) {
    let mut notes = NoNotes;
    notes.emptied(1);
    notes.dropped(2, 3);
    assert!(rt; !notes.wanted());
}
