//! IN and OUT by level, and which port and value they name.

use crate::world::{Case, NONE, comes_out, cpu_at, past, refused, with, with_flags};
use sys_exec::SysEffect;

/// The bytes, their count, and what is asked where EAX is B1C2D3A0 and DX is A2A2.
type Row = ([u8; 8], u32, SysEffect);

const ROWS: [Row; 8] = [
    (
        [0xE4, 0x60, 0, 0, 0, 0, 0, 0],
        2,
        SysEffect::PortIn {
            port: 0x60,
            wide: false,
        },
    ),
    (
        [0xE5, 0xFE, 0, 0, 0, 0, 0, 0],
        2,
        SysEffect::PortIn {
            port: 0xFE,
            wide: true,
        },
    ),
    (
        [0xEC, 0x00, 0, 0, 0, 0, 0, 0],
        1,
        SysEffect::PortIn {
            port: 0xA2A2,
            wide: false,
        },
    ),
    (
        [0xED, 0x00, 0, 0, 0, 0, 0, 0],
        1,
        SysEffect::PortIn {
            port: 0xA2A2,
            wide: true,
        },
    ),
    (
        [0xE6, 0x60, 0, 0, 0, 0, 0, 0],
        2,
        SysEffect::PortOut {
            port: 0x60,
            wide: false,
            value: 0xA0,
        },
    ),
    (
        [0xE7, 0xFE, 0, 0, 0, 0, 0, 0],
        2,
        SysEffect::PortOut {
            port: 0xFE,
            wide: true,
            value: 0xB1C2_D3A0,
        },
    ),
    (
        [0xEE, 0x00, 0, 0, 0, 0, 0, 0],
        1,
        SysEffect::PortOut {
            port: 0xA2A2,
            wide: false,
            value: 0xA0,
        },
    ),
    (
        [0xEF, 0x00, 0, 0, 0, 0, 0, 0],
        1,
        SysEffect::PortOut {
            port: 0xA2A2,
            wide: true,
            value: 0xB1C2_D3A0,
        },
    ),
];

/// The level, the flags, and whether it may: IOPL is at least the level.
type Level = (u8, u32, bool);

const LEVELS: [Level; 6] = [
    (0, 0x0000_0002, true),
    (0, 0x0000_3002, true),
    (3, 0x0000_0002, false),
    (3, 0x0000_1002, false),
    (3, 0x0000_2202, false),
    (3, 0x0000_3002, true),
];

fn asked(row: Row, level: Level) -> Case {
    let (bytes, len, effect) = row;
    let (cpl, flags, may) = level;
    let cpu = with(with_flags(cpu_at(cpl), flags), 0, 0xB1C2_D3A0);
    if !may {
        return refused(
            cpu,
            NONE,
            bytes,
            SysEffect::Raise {
                vector: 13,
                code: 0,
            },
        );
    }
    let mut case = refused(cpu, NONE, bytes, effect);
    case.then = past(cpu, len);
    case
}

#[test]
fn ports_are_reached_by_level(rt: HostRuntime) {
    let alloc = rt.alloc();
    for (k, row) in ROWS.iter().enumerate() {
        for level in &LEVELS {
            comes_out(&rt, alloc, k, &asked(*row, *level));
        }
    }
}
