//! Memory by bytes, words and parts.

ghost use Rattle.std.specs.Prelude.{◌≡◌, ◌+◌, ◌*◌, ◌≤◌, length, true};

use crate::asked::{comes_so, given};
use guest_ram::Ram;
use std::alloc::Global;
use std::process::Abort;

/// What is done to a memory, or stands in it.
enum Step {
    Write8(u32, u8),
    Write16(u32, u16),
    Write32(u32, u32),
    Put(u32, &'static [u8]),
    Read8(u32, u8),
    Read16(u32, u16),
    Read32(u32, u32),
    Part(u32, &'static [u8]),
}

/// Whether so many bytes at a place lie within a length.
fn fits(len: u32, at: u32, count: usize) -> bool
    ensures { result ≡ true → at + count ≤ len }
{
    count <= 8 && count as u32 <= len && at <= len - count as u32
}

/// Whether a step has the result that it states.
fn does(ram: &mut Ram, step: &Step) -> bool {
    let len = ram.len();
    match *step {
        Step::Write8(at, v) if fits(len, at, 1) => ram.write8(at, v),
        Step::Write16(at, v) if fits(len, at, 2) => ram.write16(at, v),
        Step::Write32(at, v) if fits(len, at, 4) => ram.write32(at, v),
        Step::Put(at, bytes) if fits(len, at, bytes.len()) => ram.put(at, bytes),
        Step::Read8(at, v) if fits(len, at, 1) => return ram.read8(at) == v,
        Step::Read16(at, v) if fits(len, at, 2) => return ram.read16(at) == v,
        Step::Read32(at, v) if fits(len, at, 4) => return ram.read32(at) == v,
        Step::Part(at, bytes) if fits(len, at, bytes.len()) => {
            return ram.part(at, bytes.len() as u32) == bytes;
        }
        _ => return false,
    }
    true
}

fn follow(rt: &impl Abort, shown: &str, ram: &mut Ram, steps: &[Step]) {
    for (k, step) in steps.iter().enumerate() {
        comes_so(rt, shown, k, does(ram, step));
    }
}

/// A new memory of so many frames.
pub fn ram_of(rt: &impl Abort, alloc: Global, frames: u32) -> Ram
    requires { (1 ≤ frames) × (frames ≤ 32768) }
    ensures { length result ≡ 4096 * frames }
{
    let ram = Ram::new(alloc, frames).expect(rt, "memory");
    given(rt, "its length", ram.len() == 4096 * frames);
    ram
}

static WRITTEN: [Step; 10] = [
    Step::Read32(8188, 0),
    Step::Write32(100, 0x1234_5678),
    Step::Read8(100, 0x78),
    Step::Read16(101, 0x3456),
    Step::Write16(102, 0xabcd),
    Step::Write8(101, 0xee),
    Step::Read32(100, 0xabcd_ee78),
    Step::Put(8190, &[7, 8]),
    Step::Read16(8190, 0x0807),
    Step::Part(8189, &[0, 7, 8]),
];

static CAME: [Step; 1] = [Step::Read32(100, 0)];

static WENT: [Step; 1] = [Step::Read32(100, 0xabcd_ee78)];

#[test]
fn reads_what_it_wrote_and_exchanges_a_frame(rt: HostRuntime) {
    let mut ram = ram_of(&rt, rt.alloc(), 2);
    let mut other = ram_of(&rt, rt.alloc(), 1);
    follow(&rt, "what was written", &mut ram, &WRITTEN);
    given(&rt, "two frames", ram.len() == 8192);
    given(&rt, "one frame", other.len() == 4096);
    ram.exchange(&mut other, 1);
    follow(&rt, "what came", &mut ram, &CAME);
    follow(&rt, "what went", &mut other, &WENT);
}

static LARGEST: [Step; 2] = [Step::Write32(134217724, 5), Step::Read32(134217724, 5)];

// Bytes of 0xAA, which stay around what is written among them.
static WRITES: [Step; 9] = [
    Step::Put(4088, &[0xAA; 8]),
    Step::Write8(4091, 0x44),
    Step::Part(4088, &[0xAA, 0xAA, 0xAA, 0x44, 0xAA, 0xAA, 0xAA, 0xAA]),
    Step::Put(4088, &[0xAA; 8]),
    Step::Write16(4091, 0x3344),
    Step::Part(4088, &[0xAA, 0xAA, 0xAA, 0x44, 0x33, 0xAA, 0xAA, 0xAA]),
    Step::Put(4088, &[0xAA; 8]),
    Step::Write32(4091, 0x1122_3344),
    Step::Part(4088, &[0xAA, 0xAA, 0xAA, 0x44, 0x33, 0x22, 0x11, 0xAA]),
];

#[test]
fn changes_its_own_bytes_alone_and_takes_the_largest(rt: HostRuntime) {
    let mut ram = ram_of(&rt, rt.alloc(), 1);
    follow(&rt, "its own bytes alone", &mut ram, &WRITES);
    let mut ram = ram_of(&rt, rt.alloc(), 32768);
    follow(&rt, "the largest", &mut ram, &LARGEST);
}
