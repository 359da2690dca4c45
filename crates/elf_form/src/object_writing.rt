//! Writing an object.

ghost use Rattle.std.specs.Prelude.{◌≡◌, ℕ, List, [], ◌∷◌, ◌<◌, ◌≤◌, ◌+◌, ◌*◌, ◌^◌, ◌++◌, Bool, true, false, length, count_by, map, replicate, All, Ok, OnOk, IfOk};
ghost use Rattle.std.specs.List.{flat_map};
ghost use Rattle.elf_form.specs.declared.object.TheConstants.{SYMBOL_LIMIT};
ghost use Rattle.elf_form.specs.declared.segments.TheConstants.{FILE_LIMIT};
ghost use Rattle.elf_form.specs.Output.{halves, longs, pad};
ghost use Rattle.elf_form.specs.StringTable.{name_place};
ghost use Rattle.elf_form.specs.Writable.{IsStringTable, HasPlaces, IsWritableObject, IsWholeObject, HasValues, AreLengths};
ghost use Rattle.elf_form.specs.ObjectLayout.{next, layout as layout_of, names_of, strings_of, is_of, place_number, symbol_bytes, symbol_table, first_global, reloc_bytes, reloc_table, object_header, object_parts, object_tables, part_sections, table_sections, object_names, object_bytes};
ghost use Rattle.elf_form.specs.ObjectReading.{object_in};

use crate::abi::{
    EHDR_SIZE, EM_386, ET_REL, EV_CURRENT, R_386_32, R_386_PC32, REL_SIZE, SHDR_SIZE, SYM_SIZE,
};
use crate::object::{Object, Place, Reloc, Symbol, bytes_of};
use crate::output::{IDENTITY, pad, put_halves, put_longs, put_padded, put_zeros};
use crate::section_header::{
    DATA_SECTION, NO_SECTION, SITES_SECTION, TEXT_SECTION, bss_section, names_section, put_headers,
    relocations_section, symbols_section,
};
use crate::strings::{Places, strings};
use std::alloc::{AllocError, Global};

const NAMES: [u8; 74] =
    *b"\0.text\0.data\0.bss\0.pv_sites\0.rel.text\0.rel.data\0.symtab\0.strtab\0.shstrtab\0";

/// Where the parts of a file begin.
#[derive(Clone, Copy)]
pub struct Layout {
    pub init: u32,
    pub sites: u32,
    pub text_relocs: u32,
    pub data_relocs: u32,
    pub symbols: u32,
    pub strings: u32,
    pub names: u32,
    pub sections: u32,
}

/// The next multiple of 4.
#[tactic(auto, unfolding(crate::specs::ObjectLayout::next))]
fn next(n: usize) -> usize
    requires { n < 2 ^ 40 }
    ensures exact { result ≡ next n }
    ensures near { result < n + 4 }
{
    n + pad(4, n)
}

/// Whether it is a relocation of the text, or one of the data.
fn is_of(in_text: bool, reloc: &Reloc) -> bool
    ensures { result ≡ is_of in_text reloc.now }
{
    reloc.in_text == in_text
}

fn count_of(relocs: &[Reloc], in_text: bool) -> usize
    ensures exact { result ≡ count_by (is_of in_text) relocs.now }
    ensures within { result ≤ length relocs.now }
{
    let mut count = 0;
    for r in relocs {
        if is_of(in_text, r) {
            count += 1;
        }
    }
    count
}

fn place_number(place: Place) -> u16
    ensures { result ≡ place_number place }
{
    match place {
        Place::Undefined => 0,
        Place::Text => 1,
        Place::Init => 2,
        Place::Bss => 3,
    }
}

#[tactic(auto, unfolding(crate::specs::ObjectLayout::reloc_bytes))]
fn put_reloc(out: &mut Vec<u8>, reloc: &Reloc) -> Result<(), AllocError>
    requires { reloc.now.symbol < SYMBOL_LIMIT }
    ensures { OnOk result (out.new.items ≡ out.old.items ++ reloc_bytes reloc.now) }
{
    let kind = if reloc.relative { R_386_PC32 } else { R_386_32 };
    put_longs(out, &[reloc.at, 256 * (reloc.symbol + 1) + kind])
}

#[tactic(auto, unfolding(crate::specs::ObjectLayout::reloc_table))]
fn put_relocs(out: &mut Vec<u8>, relocs: &[Reloc], in_text: bool) -> Result<(), AllocError>
    requires { All (λ r. r.symbol < SYMBOL_LIMIT) relocs.now }
    ensures { OnOk result (out.new.items ≡ out.old.items ++ reloc_table in_text relocs.now) }
{
    for r in relocs {
        if is_of(in_text, r) {
            put_reloc(out, r)?;
        }
    }
    Ok(())
}

#[tactic(auto, unfolding(crate::specs::StringTable::name_place))]
fn place_of(places: &Places, name: &[u8]) -> u32
    ensures { (names : List (List ℕ)) → HasPlaces names places.now → result ≡ name_place names name.now }
{
    places.get(name).copied().unwrap_or(0)
}

/// Where a symbol's name begins, its value, and its size, which is not kept.
fn symbol_numbers(name: u32, value: u32) -> [u32; 3]
    ensures numbers { result ≡ name ∷ value ∷ 0 ∷ [] }
    ensures small { value < 2 ^ 32 }
{
    [name, value, 0]
}

#[tactic(auto, unfolding(crate::specs::ObjectLayout::symbol_bytes))]
fn put_symbol(out: &mut Vec<u8>, places: &Places, symbol: &Symbol) -> Result<(), AllocError>
    ensures bytes { OnOk result ((names : List (List ℕ)) → HasPlaces names places.now
        → out.new.items ≡ out.old.items ++ symbol_bytes names symbol.now) }
    ensures value { symbol.now.value < 2 ^ 32 }
{
    let place = place_of(places, bytes_of(&symbol.name));
    put_longs(out, &symbol_numbers(place, symbol.value))?;
    let binding = if symbol.global { 16 } else { 0 };
    out.extend_from_slice(&[binding, 0])?;
    put_halves(out, &[place_number(symbol.place)])
}

fn put_symbols(out: &mut Vec<u8>, places: &Places, symbols: &[Symbol]) -> Result<(), AllocError>
    ensures bytes { OnOk result ((names : List (List ℕ)) → HasPlaces names places.now
        → out.new.items ≡ out.old.items ++ (replicate SYM_SIZE 0 ++ flat_map (symbol_bytes names) symbols.now)) }
    ensures values { OnOk result (All (λ s. s.value < 2 ^ 32) symbols.now) }
{
    put_zeros(out, SYM_SIZE)?;
    for s in symbols {
        put_symbol(out, places, s)?;
    }
    Ok(())
}

/// How long the parts of an object's file are, in bytes or in entries.
#[derive(Clone, Copy)]
pub struct Lengths {
    pub text: usize,
    pub init: usize,
    pub sites: usize,
    pub text_relocs: usize,
    pub data_relocs: usize,
    pub symbols: usize,
    pub strings: usize,
}

fn lengths_of(object: &Object, strings: usize) -> Lengths
    requires writable { IsWritableObject object.now }
    requires strings { strings ≡ length (strings_of object.now.symbols) }
    ensures { AreLengths object.now result }
{
    Lengths {
        text: object.text.len(),
        init: object.init.len(),
        sites: object.sites.len(),
        text_relocs: count_of(&object.relocs, true),
        data_relocs: count_of(&object.relocs, false),
        symbols: object.symbols.len(),
        strings,
    }
}

/// Where the parts of the object's file begin.
#[tactic(auto, unfolding(crate::specs::ObjectLayout::layout))]
fn layout_for(object: &Object, lengths: Lengths) -> Layout
    requires { AreLengths object.now lengths }
    ensures { result ≡ layout_of object.now }
{
    let _object = object;
    let init = next(EHDR_SIZE + lengths.text);
    let sites = next(init + lengths.init);
    let text_relocs = next(sites + lengths.sites);
    let data_relocs = text_relocs + REL_SIZE * lengths.text_relocs;
    let symbols = data_relocs + REL_SIZE * lengths.data_relocs;
    let strings = symbols + SYM_SIZE * (lengths.symbols + 1);
    let names = next(strings + lengths.strings);
    Layout {
        init: init as u32,
        sites: sites as u32,
        text_relocs: text_relocs as u32,
        data_relocs: data_relocs as u32,
        symbols: symbols as u32,
        strings: strings as u32,
        names: names as u32,
        sections: next(names + NAMES.len()) as u32,
    }
}

#[tactic(auto, unfolding(crate::specs::ObjectLayout::object_header))]
fn put_header(out: &mut Vec<u8>, object: &Object, layout: &Layout) -> Result<(), AllocError>
    requires writable { IsWritableObject object.now }
    requires layout { layout.now ≡ layout_of object.now }
    ensures { OnOk result (out.new.items ≡ out.old.items ++ object_header object.now) }
{
    out.extend_from_slice(&IDENTITY)?;
    put_halves(out, &[ET_REL, EM_386])?;
    put_longs(out, &[EV_CURRENT, 0, 0, layout.sections, 0])?;
    put_halves(out, &[EHDR_SIZE as u16, 0, 0, SHDR_SIZE as u16, 10, 9])
}

#[tactic(auto, unfolding(crate::specs::ObjectLayout::object_parts))]
fn put_parts(out: &mut Vec<u8>, object: &Object, layout: &Layout) -> Result<(), AllocError>
    requires writable { IsWritableObject object.now }
    requires layout { layout.now ≡ layout_of object.now }
    ensures { OnOk result (out.new.items ≡ out.old.items ++ object_parts object.now) }
{
    put_padded(out, 4, EHDR_SIZE, &object.text)?;
    put_padded(out, 4, layout.init as usize, &object.init)?;
    put_padded(out, 4, layout.sites as usize, &object.sites)
}

#[tactic(auto, unfolding(crate::specs::ObjectLayout::object_tables, crate::specs::ObjectLayout::symbol_table))]
fn put_tables(
    out: &mut Vec<u8>,
    object: &Object,
    strings: &[u8],
    places: &Places,
    layout: &Layout,
) -> Result<(), AllocError>
    requires writable { IsWritableObject object.now }
    requires strings { strings.now ≡ strings_of object.now.symbols }
    requires places { HasPlaces (names_of object.now.symbols) places.now }
    requires layout { layout.now ≡ layout_of object.now }
    ensures bytes { OnOk result (out.new.items ≡ out.old.items ++ object_tables object.now) }
    ensures values { OnOk result (HasValues object.now) }
{
    put_relocs(out, &object.relocs, true)?;
    put_relocs(out, &object.relocs, false)?;
    put_symbols(out, places, &object.symbols)?;
    put_padded(out, 4, layout.strings as usize, strings)?;
    put_padded(out, 4, layout.names as usize, &NAMES)
}

/// The number of the first global symbol in the symbol table.
fn first_global(symbols: &[Symbol]) -> usize
    requires { length symbols.now ≤ SYMBOL_LIMIT }
    ensures number { result ≡ first_global symbols.now }
    ensures small { result ≤ SYMBOL_LIMIT + 1 }
{
    for (i, s) in symbols.iter().enumerate() {
        if s.global {
            return i + 1;
        }
    }
    symbols.len() + 1
}

/// Puts the section headers of what an object has.
fn put_part_sections(
    out: &mut Vec<u8>,
    object: &Object,
    lengths: &Lengths,
    layout: &Layout,
) -> Result<(), AllocError>
    requires lengths { AreLengths object.now lengths.now }
    requires layout { layout.now ≡ layout_of object.now }
    ensures { OnOk result (out.new.items ≡ out.old.items ++ longs (part_sections object.now)) }
{
    let (text, init) = (lengths.text as u32, lengths.init as u32);
    let sites = lengths.sites as u32;
    let headers = [
        NO_SECTION,
        TEXT_SECTION.at(0, EHDR_SIZE as u32, text),
        DATA_SECTION.at(0, layout.init, init),
        bss_section(16).at(0, 0, object.bss),
        SITES_SECTION.at(0, layout.sites, sites),
    ];
    put_headers(out, &headers)
}

/// Puts the section headers of the tables.
fn put_table_sections(
    out: &mut Vec<u8>,
    object: &Object,
    lengths: &Lengths,
    layout: &Layout,
) -> Result<(), AllocError>
    requires count { length object.now.symbols ≤ SYMBOL_LIMIT }
    requires lengths { AreLengths object.now lengths.now }
    requires layout { layout.now ≡ layout_of object.now }
    ensures { OnOk result (out.new.items ≡ out.old.items ++ longs (table_sections object.now)) }
{
    let text = REL_SIZE as u32 * lengths.text_relocs as u32;
    let data = REL_SIZE as u32 * lengths.data_relocs as u32;
    let symbols = SYM_SIZE as u32 * (lengths.symbols as u32 + 1);
    let strings = lengths.strings as u32;
    let global = first_global(&object.symbols) as u32;
    let headers = [
        relocations_section(28, 1).at(0, layout.text_relocs, text),
        relocations_section(38, 2).at(0, layout.data_relocs, data),
        symbols_section(global).at(0, layout.symbols, symbols),
        names_section(56).at(0, layout.strings, strings),
        names_section(64).at(0, layout.names, NAMES.len() as u32),
    ];
    put_headers(out, &headers)
}

/// Puts the whole file of an object.
#[tactic(auto, unfolding(crate::specs::ObjectLayout::object_bytes))]
fn put_object(
    out: &mut Vec<u8>,
    object: &Object,
    strings: &[u8],
    places: &Places,
) -> Result<(), AllocError>
    requires writable { IsWritableObject object.now }
    requires strings { strings.now ≡ strings_of object.now.symbols }
    requires places { HasPlaces (names_of object.now.symbols) places.now }
    ensures bytes { OnOk result (out.new.items ≡ out.old.items ++ object_bytes object.now) }
    ensures values { OnOk result (HasValues object.now) }
{
    let lengths = lengths_of(object, strings.len());
    let layout = layout_for(object, lengths);
    put_header(out, object, &layout)?;
    put_parts(out, object, &layout)?;
    put_tables(out, object, strings, places, &layout)?;
    put_part_sections(out, object, &lengths, &layout)?;
    put_table_sections(out, object, &lengths, &layout)?;
    Ok(())
}

/// The one layout of an object. The file of a whole object, where it has at most `FILE_LIMIT`
/// bytes, is read as the same object.
pub fn write_object(alloc: Global, object: &Object) -> Result<Vec<u8>, AllocError>
    requires { IsWritableObject object.now }
    ensures layout { IfOk result (λ v. v.items ≡ object_bytes object.now) }
    ensures size { IfOk result (λ v. length v.items ≡ (layout_of object.now).sections + 400) }
    ensures read_back { IfOk result (λ v. IsWholeObject object.now → length v.items ≤ FILE_LIMIT → object_in v.items ≡ Ok object.now) }
{
    let (strings, places) = strings(alloc, &object.symbols)?;
    let mut out = Vec::new(alloc);
    put_object(&mut out, object, &strings, &places)?;
    Ok(out)
}
