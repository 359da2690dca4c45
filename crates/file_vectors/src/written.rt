//! Files that are written, against bytes that other tools read.

ghost use Rattle.std.specs.Prelude.{◌≡◌, ◌<◌, All, length};
ghost use Rattle.std.specs.List.{sum_by};
ghost use Rattle.elf_form.specs.Writable.{IsWritableImage, IsWritableObject};

use crate::agree::{Held, Number, Part, add, are_bytes, are_held, list, put_times};
use crate::object_rows::{Named, Parts, put_symbol};
use crate::vectors::{SMALL_IMAGE_HEAD, SMALL_IMAGE_TAIL, SMALL_OBJECT};
use elf_form::{Image, Object, Place, Reloc, Symbol, read_image, write_image, write_object};
use std::alloc::Global;
use std::process::Abort;

const SITES: &[u8] = b"PVS1\x01\0\0\0\0\0\0\0\x01\x01\x05\0";

const COUNT: Named = (b"count", Place::Bss, 0, false);

const START: Named = (b"_start", Place::Text, 0, true);

const FAR: Named = (b"far", Place::Undefined, 0, true);

const TABLE: Named = (b"table", Place::Init, 0, true);

/// It is cli with its padding, `movl count+4,%eax`, `call far`, ret.
const TEXT: &[u8] = b"\xFA\x90\x90\x90\x90\xA1\x04\0\0\0\xE8\xFC\xFF\xFF\xFF\xC3";

const INIT: &[u8] = b"\0\0\0\0\x07\0";

const RELOCS: &[Reloc] = &[
    Reloc {
        in_text: true,
        at: 6,
        symbol: 0,
        relative: false,
    },
    Reloc {
        in_text: true,
        at: 11,
        symbol: 2,
        relative: true,
    },
    Reloc {
        in_text: false,
        at: 0,
        symbol: 1,
        relative: false,
    },
];

/// What it has.
pub const SMALL: Parts = Parts {
    text: TEXT,
    init: INIT,
    bss: 8,
    sites: SITES,
    symbols: &[COUNT, START, FAR, TABLE],
    relocs: RELOCS,
};

/// Its symbols, and how many bytes their names have.
fn small_symbols(rt: &impl Abort, alloc: Global) -> Vec<Symbol>
    ensures count { length result.items ≡ 4 }
    ensures names { sum_by (λ s. length s.name) result.items ≡ 19 }
{
    let mut symbols = Vec::new(alloc);
    put_symbol(rt, alloc, &mut symbols, &COUNT);
    put_symbol(rt, alloc, &mut symbols, &START);
    put_symbol(rt, alloc, &mut symbols, &FAR);
    put_symbol(rt, alloc, &mut symbols, &TABLE);
    symbols
}

/// Its relocations, each of one of four symbols.
fn small_relocs(rt: &impl Abort, alloc: Global) -> Vec<Reloc>
    ensures count { length result.items ≡ 3 }
    ensures named { All (λ r. r.symbol < 4) result.items }
{
    Vec::from_slice(alloc, RELOCS).expect(rt, "memory")
}

fn small_object(rt: &impl Abort, alloc: Global) -> Object
    ensures { IsWritableObject result }
{
    Object {
        text: list(rt, alloc, TEXT),
        init: list(rt, alloc, INIT),
        bss: 8,
        sites: list(rt, alloc, SITES),
        symbols: small_symbols(rt, alloc),
        relocs: small_relocs(rt, alloc),
    }
}

#[test]
fn writes_an_object_that_other_tools_read(rt: HostRuntime) {
    let object = small_object(&rt, rt.alloc());
    let bytes = write_object(rt.alloc(), &object).expect(&rt, "memory");
    are_bytes(&rt, &bytes, &SMALL_OBJECT);
}

const IMAGE_TEXT: &[u8] = &[0xFA, 0x90, 0x90, 0x90, 0x90, 0xEB, 0xFE];

fn small_image(rt: &impl Abort, alloc: Global) -> Image
    ensures { IsWritableImage result }
{
    Image {
        text: list(rt, alloc, IMAGE_TEXT),
        init: list(rt, alloc, &[1, 2, 3]),
        bss: 9,
        entry: 0x10000000,
        text_at: 0x10000000,
        init_at: 0x11000000,
        sites: list(rt, alloc, SITES),
    }
}

/// The file of the small image: what stands before its text and from its data on, and the text, with zeros between.
fn small_file(rt: &impl Abort, alloc: Global) -> Vec<u8> {
    let mut file = list(rt, alloc, &SMALL_IMAGE_HEAD);
    put_times(rt, &mut file, b"\0", 4096 - 116);
    add(rt, &mut file, IMAGE_TEXT);
    put_times(rt, &mut file, b"\0", 8192 - 4103);
    add(rt, &mut file, &SMALL_IMAGE_TAIL);
    file
}

static HELD: [Held; 7] = [
    Held::Whole(Part::Text, IMAGE_TEXT),
    Held::Whole(Part::Init, &[1, 2, 3]),
    Held::Is(Number::Bss, 9),
    Held::Is(Number::Entry, 0x10000000),
    Held::Is(Number::TextAt, 0x10000000),
    Held::Is(Number::InitAt, 0x11000000),
    Held::Whole(Part::Sites, SITES),
];

/// The file that is written of the small image.
fn written_image(rt: &impl Abort, alloc: Global) -> Vec<u8> {
    let image = small_image(rt, alloc);
    write_image(alloc, &image).expect(rt, "memory")
}

/// The file is that of the small image.
fn is_small_file(rt: &impl Abort, alloc: Global, file: &[u8]) {
    are_bytes(rt, file, &small_file(rt, alloc));
}

/// The file is read as the small image.
fn is_read(rt: &impl Abort, alloc: Global, file: &[u8]) {
    let image = read_image(alloc, file).expect(rt, "an image");
    are_held(rt, &image, &HELD);
}

#[test]
fn writes_an_image_that_other_tools_read_and_reads_it(rt: HostRuntime) {
    let file = written_image(&rt, rt.alloc());
    is_small_file(&rt, rt.alloc(), &file);
    is_read(&rt, rt.alloc(), &file);
}
