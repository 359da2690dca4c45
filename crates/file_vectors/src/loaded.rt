//! Images in memory, and the state that a machine starts in.

ghost use Rattle.std.specs.Prelude.{◌≡◌, ◌*◌, ◌≤◌, length};

use crate::images::{checked, image};
use crate::vectors::NO_SITES;
use guest_ram::Ram;
use image_check::Checked;
use image_load::{Boot, TooSmall, load};
use std::alloc::Global;
use std::process::Abort;

// An image of so many zeroed bytes, whose text is its end.
fn zeroed(rt: &impl Abort, alloc: Global, bss: u32) -> Checked {
    let mut parts = image(b"\xEB\xFE", NO_SITES);
    parts.bss = bss;
    checked(rt, alloc, &parts)
}

// An image in a memory of so many frames, with what `load` returns for it.
fn started(
    rt: &impl Abort,
    alloc: Global,
    image: &Checked,
    frames: u32,
) -> (Ram, Result<Boot, TooSmall>)
    requires { (2048 ≤ frames) × (frames ≤ 16384) }
    ensures { length result.0 ≡ 4096 * frames }
{
    let mut ram = Ram::new(alloc, frames).expect(rt, "memory");
    let told = load(image, &mut ram, frames);
    (ram, told)
}

/// Whether it is reported that the memory has too few frames.
fn is_too_small(told: &Result<Boot, TooSmall>, need: u32, have: u32) -> bool {
    match told {
        Err(small) => small.need == need && small.have == have,
        Ok(_) => false,
    }
}

#[test]
fn an_image_that_is_too_large_is_told(rt: HostRuntime) {
    let image = zeroed(&rt, rt.alloc(), 8_388_608);
    let (_ram, told) = started(&rt, rt.alloc(), &image, 2048);
    assert!(rt; is_too_small(&told, 2305, 2048));
}

/// Something that holds where a machine starts.
enum Shown {
    TextAt(u32),
    TextFrames(u32),
    FirstFree(u32),
    Eip(u32),
    Registers([u32; 8]),
    Word(u32, u32),
}

fn is_shown(ram: &Ram, boot: &Boot, shown: &Shown) -> bool
    requires { length ram.now ≡ 8388608 }
{
    match shown {
        Shown::TextAt(at) => boot.text_at == *at,
        Shown::TextFrames(count) => boot.text_frames == *count,
        Shown::FirstFree(at) => boot.first_free == *at,
        Shown::Eip(at) => boot.cpu.regs.eip == *at,
        Shown::Registers(registers) => boot.cpu.regs.r == *registers,
        Shown::Word(at, word) => *at <= 0x7F_FFFC && ram.read32(*at) == *word,
    }
}

static SHOWN: [Shown; 18] = [
    Shown::TextAt(0x10_0000),
    Shown::TextFrames(1),
    Shown::FirstFree(0x10_2000),
    Shown::Eip(0x1000_0000),
    Shown::Registers([0x80_0000, 0, 0, 0x10_2000, 0xC010_0000, 0, 0, 0]),
    Shown::Word(0x1100, 0x1_4003),
    Shown::Word(0x1104, 0),
    Shown::Word(0x1110, 0x1_8003),
    Shown::Word(0x1C00, 0x4003),
    Shown::Word(0x1C04, 0x5003),
    Shown::Word(0x1C08, 0),
    Shown::Word(0x2008, 0x0000_FFFF),
    Shown::Word(0x200C, 0x00CF_9B00),
    Shown::Word(0x1_4000, 0x10_0001),
    Shown::Word(0x1_4004, 0),
    Shown::Word(0x1_8000, 0x10_1003),
    Shown::Word(0x5FFC, 0x7F_F003),
    Shown::Word(0x10_0000, 0x0000_FEEB),
];

/// The first of these that doesn't hold.
fn first_other(ram: &Ram, boot: &Boot, all: &[Shown]) -> Option<usize>
    requires { length ram.now ≡ 8388608 }
{
    for (k, shown) in all.iter().enumerate() {
        if !is_shown(ram, boot, shown) {
            return Some(k);
        }
    }
    None
}

#[test]
fn a_machine_starts_as_the_boot_state_says(rt: HostRuntime) {
    let image = zeroed(&rt, rt.alloc(), 4);
    let (ram, told) = started(&rt, rt.alloc(), &image, 2048);
    let boot = told.expect(&rt, "it is large enough");
    assert_eq!(rt; first_other(&ram, &boot, &SHOWN), None);
}
