//! MOV to and from the control registers, bit by bit.

use crate::world::{Case, NONE, comes_out, cpu_at, past, refused, with, with_flags};
use descriptors::Cpu;
use ia32_types::Stop;
use sys_exec::SysEffect;

const STOP: SysEffect = SysEffect::Stop(Stop::ControlBits);

/// What is given, and the register then, or none where the bits are refused.
type Given = (u32, Option<u32>);

const CR0: [Given; 37] = [
    (0x8000_0001, Some(0x8000_0011)), // PE (0) and PG (31)
    (0x8000_0003, Some(0x8000_0013)), // MP (1)
    (0x8000_0005, Some(0x8000_0015)), // EM (2)
    (0x8000_0009, Some(0x8000_0019)), // TS (3)
    (0x8000_0011, Some(0x8000_0011)), // ET (4)
    (0x8000_0021, Some(0x8000_0031)), // NE (5)
    (0x8000_0041, None),
    (0x8000_0081, None),
    (0x8000_0101, None),
    (0x8000_0201, None),
    (0x8000_0401, None),
    (0x8000_0801, None),
    (0x8000_1001, None),
    (0x8000_2001, None),
    (0x8000_4001, None),
    (0x8000_8001, None),
    (0x8001_0001, Some(0x8001_0011)), // WP (16)
    (0x8002_0001, None),
    (0x8004_0001, Some(0x8004_0011)), // AM (18)
    (0x8008_0001, None),
    (0x8010_0001, None),
    (0x8020_0001, None),
    (0x8040_0001, None),
    (0x8080_0001, None),
    (0x8100_0001, None),
    (0x8200_0001, None),
    (0x8400_0001, None),
    (0x8800_0001, None),
    (0x9000_0001, None),
    (0xA000_0001, None), // NW (29)
    (0xC000_0001, None), // CD (30)
    (0x8005_003F, Some(0x8005_003F)),
    // paging or protection off
    (0x0000_0001, None),
    (0x8000_0000, None),
    (0x0000_0000, None),
    (0x0005_003F, None),
    (0x8005_003E, None),
];

const CR3: [Given; 18] = [
    (0x0000_0000, Some(0x0000_0000)),
    (0x0000_0001, None),
    (0x0000_0002, None),
    (0x0000_0004, None),
    (0x0000_0008, Some(0x0000_0008)), // PWT (3)
    (0x0000_0010, Some(0x0000_0010)), // PCD (4)
    (0x0000_0020, None),
    (0x0000_0040, None),
    (0x0000_0080, None),
    (0x0000_0100, None),
    (0x0000_0200, None),
    (0x0000_0400, None),
    (0x0000_0800, None),
    (0x0000_1000, Some(0x0000_1000)),
    (0x8000_0000, Some(0x8000_0000)),
    (0xFFFF_F000, Some(0xFFFF_F000)),
    (0xFFFF_F018, Some(0xFFFF_F018)),
    (0xFFFF_F019, None),
];

const CR4: [Given; 6] = [
    (0x0000_0000, Some(0x0000_0000)),
    (0x0000_0001, None),
    (0x0000_0010, Some(0x0000_0010)), // PSE (4)
    (0x0000_0011, None),
    (0x0000_0080, None), // PGE (7)
    (0x8000_0000, None),
];

const CR2: [Given; 4] = [
    (0x0000_0000, Some(0x0000_0000)),
    (0x0000_0001, Some(0x0000_0001)),
    (0x1234_5678, Some(0x1234_5678)),
    (0xFFFF_FFFF, Some(0xFFFF_FFFF)),
];

// MOV to a control register from EBX, and from one to EBX.
fn to(number: u8) -> [u8; 8] {
    [0x0F, 0x22, 0xC3 | number % 8 << 3, 0, 0, 0, 0, 0]
}

fn from(number: u8) -> [u8; 8] {
    [0x0F, 0x20, 0xC3 | number % 8 << 3, 0, 0, 0, 0, 0]
}

fn with_control(cpu: Cpu, number: u8, v: u32) -> Cpu {
    let mut then = cpu;
    match number {
        0 => then.cr0 = v,
        2 => then.cr2 = v,
        3 => then.cr3 = v,
        _ => then.cr4 = v,
    }
    then
}

// MOV to a control register, where CR4 is 0: all translations leave the set where it is CR3, or where it turns PSE on.
fn given(number: u8, row: Given) -> Case {
    let (v, then) = row;
    let cpu = with(cpu_at(0), 3, v);
    match then {
        None => refused(cpu, NONE, to(number), STOP),
        Some(kept) => {
            let effect = if number == 3 || (number == 4 && kept == 0x10) {
                SysEffect::DropAll
            } else {
                SysEffect::Next
            };
            let mut case = refused(cpu, NONE, to(number), effect);
            case.then = with_control(past(cpu, 3), number, kept);
            case
        }
    }
}

#[test]
fn control_registers_keep_their_bits(rt: HostRuntime) {
    let alloc = rt.alloc();
    for (number, rows) in [(0u8, &CR0[..]), (2, &CR2[..]), (3, &CR3[..]), (4, &CR4[..])] {
        for (k, row) in rows.iter().enumerate() {
            comes_out(&rt, alloc, k, &given(number, *row));
        }
    }
    for bit in 0..32u32 {
        // PSE (4) alone is kept
        let kept = if bit == 4 { Some(0x10) } else { None };
        comes_out(&rt, alloc, bit as usize, &given(4, (1 << bit, kept)));
    }
}

/// CR4, what it is given, and what is asked: all translations leave the set where PSE changes, and else none.
const SWITCHES: [(u32, u32, SysEffect); 4] = [
    (0, 0, SysEffect::Next),
    (0, 0x10, SysEffect::DropAll),
    (0x10, 0x10, SysEffect::Next),
    (0x10, 0, SysEffect::DropAll),
];

fn switched(cr4: u32, v: u32, effect: SysEffect) -> Case {
    let cpu = with_control(with(cpu_at(0), 3, v), 4, cr4);
    let mut case = refused(cpu, NONE, to(4), effect);
    case.then = with_control(past(cpu, 3), 4, v);
    case
}

#[test]
fn a_change_of_pse_drops_all(rt: HostRuntime) {
    let alloc = rt.alloc();
    for (k, row) in SWITCHES.iter().enumerate() {
        let (cr4, v, effect) = *row;
        comes_out(&rt, alloc, k, &switched(cr4, v, effect));
    }
}

fn told(number: u8, v: u32) -> Case {
    let cpu = cpu_at(0);
    let mut case = refused(cpu, NONE, from(number), SysEffect::Next);
    case.then = with(past(cpu, 3), 3, v);
    case
}

// Whatever IOPL is.
fn users(bytes: [u8; 8]) -> Case {
    let cpu = with_flags(cpu_at(3), 0x0000_3002);
    refused(
        cpu,
        NONE,
        bytes,
        SysEffect::Raise {
            vector: 13,
            code: 0,
        },
    )
}

#[test]
fn control_registers_are_told_to_the_kernel_alone(rt: HostRuntime) {
    let alloc = rt.alloc();
    for (number, v) in [
        (0u8, 0x8001_0011u32),
        (2, 0xBAD0_0000),
        (3, 0x0000_1000),
        (4, 0),
    ] {
        comes_out(&rt, alloc, usize::from(number), &told(number, v));
        comes_out(&rt, alloc, usize::from(number), &users(from(number)));
        comes_out(&rt, alloc, usize::from(number), &users(to(number)));
    }
}
