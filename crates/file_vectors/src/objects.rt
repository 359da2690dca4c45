//! Objects that other tools made, and worked examples.

use crate::agree::{holds, list, put_times};
use crate::object_rows::{EMPTY, Parts, WORKED, reads_as};
use crate::vectors::{GCC_OBJECT, NO_SITES, SMALL_OBJECT, WORKED_OBJECT};
use crate::written::SMALL;
use elf_form::{ElfCause, ElfFault, Place, Reloc, read_object};
use std::alloc::Global;
use std::process::Abort;

/// The object of GCC: the text by objdump -d; the symbols by readelf -s, without the null one and that of the source file,
/// where a section has no name; the relocations by readelf -r, of .bss, far_away and near, each R_386_32.
const GCC: Parts = Parts {
    text: b"\x8B\x44\x24\x04\x01\x05\0\0\0\0\xA1\0\0\0\0\x03\x05\0\0\0\0\xC3",
    init: b"\x07\0\0\0",
    bss: 4,
    sites: NO_SITES,
    symbols: &[
        (b"", Place::Bss, 0, false),
        (b"zeroed", Place::Bss, 0, false),
        (b"add", Place::Text, 0, true),
        (b"far_away", Place::Undefined, 0, true),
        (b"near", Place::Init, 0, true),
    ],
    relocs: &[
        Reloc {
            in_text: true,
            at: 6,
            symbol: 0,
            relative: false,
        },
        Reloc {
            in_text: true,
            at: 11,
            symbol: 3,
            relative: false,
        },
        Reloc {
            in_text: true,
            at: 17,
            symbol: 4,
            relative: false,
        },
    ],
};

static OF_TOOLS: [Parts; 3] = [GCC, WORKED, SMALL];

#[test]
fn objects_of_other_tools_are_read(rt: HostRuntime) {
    reads_as(&rt, rt.alloc(), &GCC_OBJECT, &OF_TOOLS[0]);
    reads_as(&rt, rt.alloc(), &WORKED_OBJECT, &OF_TOOLS[1]);
    reads_as(&rt, rt.alloc(), &SMALL_OBJECT, &OF_TOOLS[2]);
}

/// Whether the file is refused at this place, by this cause.
fn is_refused(alloc: Global, bytes: &[u8], at: u32, cause: ElfCause) -> bool {
    match read_object(alloc, bytes) {
        Err(
            ElfFault::At {
                at: place,
                cause: found,
            },
        ) => place == at && found == cause,
        Ok(_) | Err(ElfFault::Memory) => false,
    }
}

/// Puts these bytes at a place, as far as the file goes.
fn put_at(file: &mut [u8], at: usize, with: &[u8]) {
    for (index, byte) in with.iter().enumerate() {
        if let Some(place) = file.get_mut(at.wrapping_add(index)) {
            *place = *byte;
        }
    }
}

/// The file with other bytes at some places.
pub fn changed(rt: &impl Abort, alloc: Global, file: &[u8], changes: &[(usize, &[u8])]) -> Vec<u8> {
    let mut bytes = list(rt, alloc, file);
    for (at, with) in changes {
        put_at(&mut bytes, *at, with);
    }
    bytes
}

/// A byte of the worked object that is changed, and the fault.
type Spoiled = (usize, u8, u32, ElfCause);

// Section header 7 is the symbol table's, at 492; symbol 1 is at 112.
static SPOILED: [Spoiled; 12] = [
    (0, 0, 0, ElfCause::Magic),
    (4, 2, 4, ElfCause::Class),
    (20, 2, 20, ElfCause::Version),
    (16, 2, 16, ElfCause::FileType),
    (18, 62, 18, ElfCause::Machine),
    (46, 64, 46, ElfCause::Sizes),
    (528, 8, 528, ElfCause::Sizes),
    (256, 9, 256, ElfCause::SectionForm),
    (50, 2, 50, ElfCause::StringPlace),
    (112, 9, 112, ElfCause::StringPlace),
    (124, 0x20, 124, ElfCause::SymbolForm),
    (126, 4, 126, ElfCause::SymbolForm),
];

fn is_spoiled(rt: &impl Abort, alloc: Global, row: &Spoiled) -> bool {
    let (index, byte, at, cause) = *row;
    let bytes = changed(rt, alloc, &WORKED_OBJECT, &[(index, [byte].as_slice())]);
    is_refused(alloc, &bytes, at, cause)
}

#[test]
fn names_the_first_fault(rt: HostRuntime) {
    for (k, row) in SPOILED.iter().enumerate() {
        holds(&rt, k, is_spoiled(&rt, rt.alloc(), row));
    }
}

/// The worked object with the header of the text first, the null one after it; the symbol has index 0 (SHN_UNDEF).
fn with_text_first(rt: &impl Abort, alloc: Global) -> Vec<u8> {
    changed(
        rt,
        alloc,
        &WORKED_OBJECT,
        &[
            (126, b"\0".as_slice()),
            (212, &WORKED_OBJECT[252..292]),
            (252, &WORKED_OBJECT[212..252]),
        ],
    )
}

static UNDEFINED: Parts = Parts {
    symbols: &[(b"_start", Place::Undefined, 0, true)],
    ..WORKED
};

static NOTHING: Parts = EMPTY;

/// The worked object's header alone, which names no section table, and a table of names that isn't there.
fn without_sections(rt: &impl Abort, alloc: Global) -> Vec<u8> {
    let mut bytes = changed(
        rt,
        alloc,
        &WORKED_OBJECT,
        &[(32, [0, 0, 0, 0].as_slice()), (48, [0, 0, 7, 0].as_slice())],
    );
    bytes.truncate(52);
    bytes
}

#[test]
fn index_zero_names_no_section_and_there_may_be_none(rt: HostRuntime) {
    let bytes = with_text_first(&rt, rt.alloc());
    reads_as(&rt, rt.alloc(), &bytes, &UNDEFINED);
    let bytes = without_sections(&rt, rt.alloc());
    reads_as(&rt, rt.alloc(), &bytes, &NOTHING);
}

/// The worked object with 65,535 headers. The symbol has index 0xFFF1 (SHN_ABS); the header of that number is one of
/// zeroed bytes, and those from the tenth to the last are null beside it.
fn with_all_headers(rt: &impl Abort, alloc: Global) -> Vec<u8> {
    let mut bytes = changed(
        rt,
        alloc,
        &WORKED_OBJECT,
        &[(48, b"\xFF\xFF".as_slice()), (126, b"\xF1\xFF".as_slice())],
    );
    put_times(rt, &mut bytes, &WORKED_OBJECT[212..252], 0xFFF1 - 10);
    put_times(rt, &mut bytes, &WORKED_OBJECT[332..372], 1);
    put_times(rt, &mut bytes, &WORKED_OBJECT[212..252], 0xFFFF - 0xFFF2);
    bytes
}

/// A field, its index, where the string table has its header, how many headers there are, and the fault's place.
type Index = (usize, &'static [u8], usize, u16, u32);

// The header of the file names the table of names of sections, and that of the symbols that of names of symbols.
static INDICES: [Index; 4] = [
    (50, &[0, 0], 572, 10, 50),
    (50, &[0xF1, 0xFF], 572, 0xFFFF, 50),
    (516, &[0, 0, 0, 0], 532, 10, 516),
    (516, &[0xF1, 0xFF, 0, 0], 532, 0xFFFF, 516),
];

/// The 40 bytes of a header.
fn header(from: usize) -> Option<&'static [u8]> {
    WORKED_OBJECT.get(from..)?.get(..40)
}

/// The worked object with that field. Header 0 is that of the string table, which is named by its index or by a reserved
/// one. With 65,535 headers each index has one: those after the tenth are all like header 0.
fn with_index(rt: &impl Abort, alloc: Global, row: &Index) -> Vec<u8> {
    let (field, index, from, count, _) = *row;
    let header = header(from).expect(rt, "a header");
    let headers = count.to_le_bytes();
    let mut bytes = changed(
        rt,
        alloc,
        &WORKED_OBJECT,
        &[(field, index), (48, &headers), (212, header)],
    );
    put_times(rt, &mut bytes, header, u32::from(count).saturating_sub(10));
    bytes
}

fn is_misplaced(rt: &impl Abort, alloc: Global, row: &Index) -> bool {
    let bytes = with_index(rt, alloc, row);
    is_refused(alloc, &bytes, row.4, ElfCause::StringPlace)
}

#[test]
fn reserved_indices_and_index_zero_name_no_section_and_no_string_table(rt: HostRuntime) {
    let bytes = with_all_headers(&rt, rt.alloc());
    assert!(rt; is_refused(rt.alloc(), &bytes, 126, ElfCause::SymbolForm));
    for (k, row) in INDICES.iter().enumerate() {
        holds(&rt, k, is_misplaced(&rt, rt.alloc(), row));
    }
}
