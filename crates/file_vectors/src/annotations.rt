//! Worked annotations, as bytes and in memory.

ghost use Rattle.std.specs.Prelude.{◌≡◌, ◌<◌, ◌^◌, length};

use crate::agree::{are_bytes, are_same, holds, list, put_times};
use crate::vectors::WORKED_SITES;
use guest_ram::Ram;
use ia32_types::SiteKind;
use sites::{Site, Sites, SitesFault, are_gapped, patch, read_sites, write_sites};
use std::alloc::Global;
use std::process::Abort;

/// OUT at 7 and HLT at 12, each with four NOPs after it.
const OUT_AND_HLT: [Site; 2] = [
    Site {
        at: 7,
        kind: SiteKind::PortOut,
        len: 1,
        total: 5,
    },
    Site {
        at: 12,
        kind: SiteKind::Hlt,
        len: 1,
        total: 5,
    },
];

/// The bytes that those sites are written as in a format.
fn written(rt: &impl Abort, alloc: Global, format: u8) -> Vec<u8> {
    let list = Vec::from_slice(alloc, &OUT_AND_HLT).expect(rt, "memory");
    if format == 1 {
        return write_sites(alloc, &Sites { list, format: 1 }).expect(rt, "memory");
    }
    assert!(rt; are_gapped(&list));
    write_sites(alloc, &Sites { list, format: 2 }).expect(rt, "memory")
}

/// Whether the bytes are read as those sites in that format.
fn is_read(alloc: Global, bytes: &[u8], format: u8) -> bool
    requires { length bytes.now < 2 ^ 32 }
{
    match read_sites(alloc, bytes) {
        Ok(sites) => sites.format == format && sites.list.as_slice() == OUT_AND_HLT.as_slice(),
        Err(_) => false,
    }
}

/// A format, and the bytes of those sites.
type Format = (u8, &'static [u8]);

/// By their places, and by their gaps.
static FORMATS: [Format; 2] = [
    (1, WORKED_SITES),
    (2, b"PVS2\x02\0\0\0\x07\0\0\x14\x01\0\0\0\x04\x01"),
];

fn is_worked(rt: &impl Abort, alloc: Global, row: &Format) -> bool {
    let (format, bytes) = *row;
    let found = written(rt, alloc, format);
    are_same(&found, bytes) && bytes.len() < 100 && is_read(alloc, bytes, format)
}

#[test]
fn worked_annotations_are_written_and_read(rt: HostRuntime) {
    for (k, row) in FORMATS.iter().enumerate() {
        holds(&rt, k, is_worked(&rt, rt.alloc(), row));
    }
}

/// A number of sites, the head that states it, and what read_sites answers.
type Counted = (u32, &'static [u8], Result<usize, u32>);

// 256 times CLI after the longest gap: the last one ends at 256 * (2^24 - 1 + 5).
static COUNTED: [Counted; 2] = [
    (255, b"PVS2\xFF\0\0\0", Ok(255)),
    (256, b"PVS2\0\x01\0\0", Err(1283)),
];

/// What read_sites answers: the number of sites, or the place of the fault.
fn answer(alloc: Global, bytes: &[u8]) -> Result<usize, u32> {
    if bytes.len() >= 2000 {
        return Err(u32::MAX);
    }
    match read_sites(alloc, bytes) {
        Ok(sites) => Ok(sites.list.len()),
        Err(SitesFault::Form { at }) => Err(at),
        Err(SitesFault::Memory) => Err(u32::MAX),
    }
}

/// That head, and so many times CLI after the longest gap.
fn counted(rt: &impl Abort, alloc: Global, head: &[u8], count: u32) -> Vec<u8> {
    let mut bytes = list(rt, alloc, head);
    put_times(rt, &mut bytes, &[0xFF, 0xFF, 0xFF, 1, 1], count);
    bytes
}

#[test]
fn ends_have_four_bytes(rt: HostRuntime) {
    for (k, row) in COUNTED.iter().enumerate() {
        let (count, head, want) = *row;
        let bytes = counted(&rt, rt.alloc(), head, count);
        holds(&rt, k, answer(rt.alloc(), &bytes) == want);
    }
}

// An absent section counts as the first of these.
static ANSWERS: [(&[u8], Result<usize, u32>); 16] = [
    (b"PVS1\0\0\0\0", Ok(0)),
    (b"PV", Err(2)),
    (b"PVS3\0\0\0\0", Err(3)),
    (b"PWS2\0\0\0\0", Err(1)),
    (b"PVS1\0\0\0\0\0", Err(8)),
    (b"PVS1\x01\0\0\0", Err(8)),
    (b"PVS1\x01\0\0\0\x07\0\0\0\x14\x01\x05\0", Ok(1)),
    (b"PVS1\x01\0\0\0\x07\0\0\0\x18\x01\x05\0", Err(12)),
    (b"PVS1\x01\0\0\0\x07\0\0\0\x0A\x07\x05\0", Err(14)),
    (b"PVS1\x01\0\0\0\x07\0\0\0\x14\x01\x05\x01", Err(15)),
    (b"PVS2\0\0\0\0", Ok(0)),
    (b"PVS2\x01\0\0\0\x07\0\0\x14\x01", Ok(1)),
    (b"PVS2\x01\0\0\0\x07\0\0\x14", Err(12)),
    (b"PVS2\x01\0\0\0\x07\0\0\0\x01", Err(11)),
    (b"PVS2\x01\0\0\0\x07\0\0\x14\x0C", Err(12)),
    (b"PVS2\x01\0\0\0\x07\0\0\x14\x01\0", Err(13)),
];

#[test]
fn names_the_first_bad_byte(rt: HostRuntime) {
    for (k, (bytes, want)) in ANSWERS.iter().enumerate() {
        holds(&rt, k, answer(rt.alloc(), bytes) == *want);
    }
}

/// CLI with four NOPs after it, and LIDT, which has 7 bytes.
const CLI_AND_LIDT: [Site; 2] = [
    Site {
        at: 0,
        kind: SiteKind::Cli,
        len: 1,
        total: 5,
    },
    Site {
        at: 6,
        kind: SiteKind::LoadIdt,
        len: 7,
        total: 7,
    },
];

/// Their text, with a byte after each, and the same once they are patched.
static UNPATCHED: [u8; 14] = [
    0xFA, 0x90, 0x90, 0x90, 0x90, 0x40, 0x0F, 0x01, 0x1D, 0x10, 0, 0, 0x11, 0x41,
];

static PATCHED: [u8; 14] = [
    0xE9, 0xF4, 0xF4, 0xF4, 0xF4, 0x40, 0xE9, 0xF4, 0xF4, 0xF4, 0xF4, 0xF4, 0xF4, 0x41,
];

/// A page of memory in which that text stands at 256, patched.
fn patched(rt: &impl Abort, alloc: Global) -> Ram
    ensures { length result ≡ 4096 }
{
    let mut ram = Ram::new(alloc, 1).expect(rt, "memory");
    let list = Vec::from_slice(alloc, &CLI_AND_LIDT).expect(rt, "memory");
    ram.put(256, &UNPATCHED);
    patch(&mut ram, 256, &Sites { list, format: 1 });
    ram
}

#[test]
fn patches_the_text_in_memory(rt: HostRuntime) {
    let ram = patched(&rt, rt.alloc());
    are_bytes(&rt, ram.part(256, 14), &PATCHED);
}
