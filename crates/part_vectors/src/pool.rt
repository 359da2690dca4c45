//! The pool of frames.

ghost use Rattle.std.specs.Prelude.{◌≡◌, ◌+◌, ◌*◌, ◌≤◌, length, Some};
ghost use Rattle.frame_pool.specs.Pool.{base_of, free_list, Stands};

use crate::asked::{given, is_so};
use crate::memory::ram_of;
use frame_pool::Pool;
use guest_ram::{FRAME, Ram};
use std::process::Abort;

/// A pool of so many frames from that one on.
pub fn pool_of(rt: &impl Abort, ram: &mut Ram, first: u32, count: u32) -> Pool
    requires room { 4096 * (first + count) ≤ length ram.old }
    requires two { 2 ≤ count }
    ensures stands { Stands result ram.new }
    ensures free { 2 ≤ length (free_list result ram.new) }
    ensures base { base_of result ≡ first }
    ensures len { length ram.new ≡ length ram.old }
{
    let pool = Pool::new(ram, first, count);
    given(rt, "two are free", pool.free() >= 2);
    pool
}

/// The frame that was given is that one.
fn gives(rt: &impl Abort, frame: u32, taken: Option<u32>)
    ensures { taken ≡ Some frame }
{
    given(rt, "the frame", taken == Some(frame));
}

// Of a memory of four frames the pool has the last two. It gives 2, 3 and none, and 2 again, zeroed, once that came back.
#[test]
fn gives_frames_out_and_takes_them_back(rt: HostRuntime) {
    let mut ram = ram_of(&rt, rt.alloc(), 4);
    ram.write32(FRAME * 3 + 8, 99);
    let mut pool = Pool::new(&mut ram, 2, 2);
    is_so(&rt, "both are free", pool.free() == 2);
    gives(&rt, 2, pool.take(&mut ram));
    gives(&rt, 3, pool.take(&mut ram));
    is_so(&rt, "zeros in it", ram.read32(FRAME * 3 + 8) == 0);
    is_so(&rt, "no third", pool.take(&mut ram).is_none());
    is_so(&rt, "none is free", pool.free() == 0);
    ram.write32(FRAME * 2 + 8, 7);
    pool.give(&mut ram, 2);
    is_so(&rt, "one came back", pool.free() == 1);
    is_so(&rt, "it again", pool.take(&mut ram) == Some(2));
    is_so(&rt, "zeros again", ram.read32(FRAME * 2 + 8) == 0);
    pool.reset(&mut ram);
    is_so(
        &rt,
        "the first after all came back",
        pool.take(&mut ram) == Some(2),
    );
}
