//! What a patched run leaves in memory, and which translations it keeps.

ghost use Rattle.std.specs.Prelude.{◌≤◌, ◌^◌};

use crate::adopted::bare_after;
use crate::common::{are_same, holds, image_of, sink, took};
use crate::guests::guest_after;
use crate::slices::no_event;
use bare_machine::run_bare;
use guest_ram::Ram;
use host_cpl3::{Host, Machine};
use image_check::Checked;
use std::alloc::Global;
use std::process::Abort;
use wedge_core::run_wedge;
use worked_kernels::{
    COPIES_WITHIN_A_STALE_PAGE, GOES_OVER_FORTY_TABLES, GOES_ROUND_THREE_SPACES, SHARES_A_PAGE,
    SHOWN_BEHIND_FORTY_TABLES, SHOWN_BY_SPACES, TO_A_NEW_VALUE, TO_THE_SAME,
};

/// The bytes of a memory there.
fn bytes_at(rt: &impl Abort, alloc: Global, ram: &Ram, at: u32, len: u32) -> Vec<u8> {
    assert!(rt; at <= ram.len() && len <= ram.len() - at);
    Vec::from_slice(alloc, ram.part(at, len)).expect(rt, "memory")
}

/// The bytes of the host's memory there, after a patched run of so many steps.
fn memory_after(
    rt: &impl Abort,
    alloc: Global,
    image: &Checked,
    n: u64,
    at: u32,
    len: u32,
) -> Vec<u8>
    requires { n ≤ 2 ^ 40 }
{
    let mut host = Machine::new();
    guest_after(rt, alloc, image, n, &mut host);
    bytes_at(rt, alloc, host.ram(), at, len)
}

/// A source, a number of steps, and what stands then at a place in memory.
type Left = (&'static str, u8, u32, &'static [u8]);

static LEFT: [Left; 3] = [
    // Sites are patched.
    (
        "cli\n",
        0,
        0x10_0000,
        &[0xE9, 0xF4, 0xF4, 0xF4, 0xF4, 0xEB, 0xFE, 0, 0],
    ),
    (
        "lidt 0x11000010\n",
        0,
        0x10_0000,
        &[0xE9, 0xF4, 0xF4, 0xF4, 0xF4, 0xF4, 0xF4, 0xEB, 0xFE],
    ),
    // A step that clashes begins with no translation.
    (COPIES_WITHIN_A_STALE_PAGE, 9, 0x40_1004, &[2, 0, 0, 0]),
];

fn is_left(rt: &impl Abort, alloc: Global, left: &Left) -> bool {
    let (source, n, at, want) = *left;
    let image = image_of(rt, alloc, source);
    let len = want.len().min(9) as u32;
    are_same(
        &memory_after(rt, alloc, &image, u64::from(n), at, len),
        want,
    )
}

/// The memory of the bare machine where that kernel copies to, after its copy.
fn bare_memory(rt: &impl Abort, alloc: Global) -> Vec<u8> {
    let image = image_of(rt, alloc, COPIES_WITHIN_A_STALE_PAGE);
    let bare = bare_after(rt, alloc, &image, 9);
    bytes_at(rt, alloc, bare.ram(), 0x40_1004, 4)
}

#[test]
fn steps_leave_their_bytes_in_memory(rt: HostRuntime) {
    for (row, left) in LEFT.iter().enumerate() {
        holds(&rt, row, is_left(&rt, rt.alloc(), left));
    }
    // the old frame's word or the new one's
    let bare = bare_memory(&rt, rt.alloc());
    assert!(rt; are_same(&bare, &[1, 0, 0, 0]) || are_same(&bare, &[2, 0, 0, 0]));
}

/// How many pages a patched run of 2,000 steps with so many frames of a pool fills, which prints this.
fn fills_of(rt: &impl Abort, alloc: Global, image: &Checked, pool: u32, text: &str) -> u64
    requires { (16 ≤ pool) × (pool ≤ 512) }
{
    let script = no_event(rt, alloc);
    let mut out = sink(rt, alloc);
    let mut host = Machine::new();
    let ended = run_wedge(alloc, image, &script, 2048, 2000, pool, &mut host, &mut out).expect(
        rt, "an end",
    );
    took(rt, &out, text.as_bytes());
    ended.fills
}

/// The bare machine prints this in 2,000 steps.
fn bare_prints(rt: &impl Abort, alloc: Global, image: &Checked, text: &str) {
    let script = no_event(rt, alloc);
    let mut out = sink(rt, alloc);
    let ended = run_bare(alloc, image, &script, 2048, 2000, &mut out);
    assert!(rt; ended.is_ok());
    took(rt, &out, text.as_bytes());
}

#[test]
fn a_small_pool_fills_more_and_prints_the_same(rt: HostRuntime) {
    let image = image_of(&rt, rt.alloc(), GOES_OVER_FORTY_TABLES);
    let large = fills_of(&rt, rt.alloc(), &image, 512, SHOWN_BEHIND_FORTY_TABLES);
    let small = fills_of(&rt, rt.alloc(), &image, 16, SHOWN_BEHIND_FORTY_TABLES);
    assert!(rt; large < small);
    bare_prints(&rt, rt.alloc(), &image, SHOWN_BEHIND_FORTY_TABLES);
}

/// The kernel of three address spaces that goes on so from the third space.
fn spaces(rt: &impl Abort, alloc: Global, on: &str) -> Checked {
    let source = format!(in alloc; "{GOES_ROUND_THREE_SPACES}{on}{SHARES_A_PAGE}");
    image_of(rt, alloc, &source.expect(rt, "memory"))
}

/// How many pages that kernel's run fills with so many frames of a pool.
fn fills_of_spaces(rt: &impl Abort, alloc: Global, on: &str, pool: u32) -> u64
    requires { (16 ≤ pool) × (pool ≤ 512) }
{
    let image = spaces(rt, alloc, on);
    fills_of(rt, alloc, &image, pool, SHOWN_BY_SPACES)
}

// A step that the wedge does itself, at a site or inside one, fills those of its pages that aren't kept with their rights, and
// so does an instruction that the host can't do before. The writes of the beginning fill nine pages and the text's: 10. A load
// of CR3 drops the text's page from the space that it leaves, so each of the nine turns fills it again: 9. The change fills
// its page, the first space's turn after it 2, since its pages have left by then, and the third's the text's. These are 23. A
// turn in a round fills 1 more where its page isn't kept: in three turns, or in all nine and for both reads of the third space
// at the end.
#[test]
fn a_space_that_comes_back_has_its_pages_and_fills_less(rt: HostRuntime) {
    let small = fills_of_spaces(&rt, rt.alloc(), TO_THE_SAME, 16);
    let same = fills_of_spaces(&rt, rt.alloc(), TO_THE_SAME, 512);
    let new = fills_of_spaces(&rt, rt.alloc(), TO_A_NEW_VALUE, 512);
    assert!(rt; same == 23 + 3 && new == 23 + 11 && same < small);
}
