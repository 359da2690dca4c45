//! What the first 256 bytes of a checkpoint are to meet.

ghost use Rattle.std.specs.Prelude.{◌≡◌, ◌+◌, ◌<◌, ◌^◌, length};
ghost use Rattle.checkpoint.specs.Demands.{first_bad};
ghost use Rattle.checkpoint.specs.Form.{magic_demands, count_demands, is_frame_count, are_flags, is_control_0, is_control_4, is_level, is_halt, processor_demands, is_null, segments_demands, demands};

use crate::board_form::bad_in_board;
use crate::demand::{Demand, earlier, first_bad, first_set, of_field};
use crate::head::{
    CR0_PLACE, CR3_PLACE, CR4_PLACE, EFLAGS_PLACE, FRAMES_PLACE, HALTED_PLACE, HELD_PLACE, Head,
    LEVEL_PLACE, STEP_PLACE, Segment, TASK_LOADED_PLACE,
};

fn magic_demands(magic: &[u8; 4]) -> [Demand; 4]
    ensures { result ≡ magic_demands magic.now }
{
    [
        Demand {
            at: 0,
            end: 1,
            met: magic[0] == 80,
        },
        Demand {
            at: 0,
            end: 2,
            met: magic[1] == 86,
        },
        Demand {
            at: 0,
            end: 3,
            met: magic[2] == 67,
        },
        Demand {
            at: 0,
            end: 4,
            met: magic[3] == 49,
        },
    ]
}

fn is_frame_count(n: u32) -> bool
    ensures { result ≡ is_frame_count n }
{
    2048 <= n && n <= 16384
}

fn count_demands(head: &Head) -> [Demand; 2]
    ensures { result ≡ count_demands head.now }
{
    [
        of_field(FRAMES_PLACE, 4, is_frame_count(head.frames)),
        of_field(STEP_PLACE, 8, head.step <= 1 << 40),
    ]
}

fn are_flags(bits: u32) -> bool
    ensures { result ≡ are_flags bits }
{
    bits & 2 == 2 && bits & 0xFFFFC128 == 0
}

fn is_control_0(bits: u32) -> bool
    ensures { result ≡ is_control_0 bits }
{
    bits & 0x80000011 == 0x80000011 && bits & 0x7FFAFFC0 == 0
}

fn is_control_4(bits: u32) -> bool
    ensures { result ≡ is_control_4 bits }
{
    bits == 0 || bits == 0x10
}

fn is_level(level: u8) -> bool
    ensures { result ≡ is_level level }
{
    level == 0 || level == 3
}

/// A halted processor is at level 0.
fn is_halt(halted: u8, level: u8) -> bool
    ensures { result ≡ is_halt halted level }
{
    halted <= 1 && (halted == 0 || level == 0)
}

fn processor_demands(head: &Head) -> [Demand; 8]
    ensures { result ≡ processor_demands head.now }
{
    [
        of_field(EFLAGS_PLACE, 4, are_flags(head.eflags)),
        of_field(CR0_PLACE, 4, is_control_0(head.cr0)),
        of_field(CR3_PLACE, 4, head.cr3 & 0xFE7 == 0),
        of_field(CR4_PLACE, 4, is_control_4(head.cr4)),
        of_field(TASK_LOADED_PLACE, 1, head.task_loaded <= 1),
        of_field(LEVEL_PLACE, 1, is_level(head.level)),
        of_field(HALTED_PLACE, 1, is_halt(head.halted, head.level)),
        of_field(HELD_PLACE, 1, head.held <= 1),
    ]
}

fn is_null(segment: Segment) -> bool
    ensures { result ≡ is_null segment }
{
    segment.null == (segment.selector < 4) as u8
}

fn segments_demands(head: &Head) -> [Demand; 12]
    ensures { result ≡ segments_demands head.now }
{
    let [es, cs, ss, ds] = head.segments;
    [
        of_field(98, 1, is_null(es)),
        of_field(99, 1, is_level(es.level)),
        of_field(102, 1, is_null(cs)),
        of_field(103, 1, is_level(cs.level)),
        of_field(106, 1, is_null(ss)),
        of_field(107, 1, is_level(ss.level)),
        of_field(110, 1, is_null(ds)),
        of_field(111, 1, is_level(ds.level)),
        of_field(102, 1, cs.null == 0),
        of_field(103, 1, cs.level == head.level),
        of_field(106, 1, ss.null == 0),
        of_field(107, 1, ss.level == head.level),
    ]
}

/// The first bad field of a file with these numbers, of which so many bytes are there.
#[tactic(auto, unfolding(crate::specs::Form::demands))]
pub fn bad_field(there: usize, head: &Head) -> Option<u32>
    ensures { result ≡ first_bad there (demands head.now) }
{
    let front = earlier(
        first_bad(there, &magic_demands(&head.magic)),
        first_bad(there, &count_demands(head)),
    );
    let counts = earlier(front, first_bad(there, &processor_demands(head)));
    let processor = earlier(counts, first_bad(there, &segments_demands(head)));
    let unnamed = earlier(processor, first_set(there, 114, &head.unnamed));
    let board = earlier(unnamed, bad_in_board(there, &head.board));
    earlier(board, first_set(there, 192, &head.rest))
}
