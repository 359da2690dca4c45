//! The object of what all items made.

ghost use Rattle.std.specs.Prelude.{◌≡◌, ◌≤◌, ◌<◌, ◌+◌, ◌++◌, ◌^◌, ◌∷◌, [], length, map, filter, false, count_by, All, OnOk, IfOk, if◌then◌else◌};
ghost use Rattle.std.specs.List.{range_with_len};
ghost use Rattle.sites.specs.Form.{AreSites, AreGapped};
ghost use Rattle.afterburner.specs.Tables.{with_number};
ghost use Rattle.afterburner.specs.Objects as spec;
ghost use Rattle.elf_form.specs.declared.object.Reloc.{Reloc};

use crate::assembly::Assembly;
use crate::symbol::{Binding, Definition};
use asm_source::{Names, SYMBOL_LIMIT};
use elf_form::{Bytes, Object, Place, Reloc, Symbol};
use sites::{SITE_LIMIT, of_text, write_sites};
use std::alloc::{AllocError, Global};

/// An undefined name is global.
fn is_global(definition: Definition) -> bool
    ensures { result ≡ spec.is_global definition }
{
    match definition.place {
        Place::Undefined => true,
        _ => match definition.binding {
            Binding::Common | Binding::Global => true,
            _ => false,
        },
    }
}

fn value(definition: Definition) -> u32
    ensures { result ≡ spec.value_at definition.place definition.value }
{
    match definition.place {
        Place::Undefined => 0,
        _ => definition.value,
    }
}

fn symbol(alloc: Global, name: &[u8], definition: Definition) -> Result<Symbol, AllocError>
    ensures { IfOk result (λ s. s ≡ spec.symbol name.now definition) }
{
    Ok(Symbol {
        name: Bytes {
            list: Vec::from_slice(alloc, name)?,
        },
        place: definition.place,
        value: value(definition),
        global: is_global(definition),
    })
}

/// Adds a symbol, if it is global or local as is wanted.
fn put_symbol(
    alloc: Global,
    out: &mut Vec<Symbol>,
    name: &[u8],
    definition: Definition,
    global: bool,
) -> Result<(), AllocError>
    ensures { OnOk result (out.new.items ≡ out.old.items ++ filter (spec.are global) (spec.symbol name.now definition ∷ [])) }
{
    if is_global(definition) != global {
        return Ok(());
    }
    out.push(symbol(alloc, name, definition)?)?;
    Ok(())
}

/// Adds the global symbols, or the local ones, in first-seen order.
fn put_symbols(
    alloc: Global,
    out: &mut Vec<Symbol>,
    names: &Names,
    definitions: &[Definition],
    global: bool,
) -> Result<(), AllocError>
    requires { length definitions.now ≡ length names.now }
    ensures { OnOk result (out.new.items ≡ out.old.items ++ filter (spec.are global) (spec.symbols_seen names.now definitions.now)) }
{
    for (number, definition) in definitions.iter().enumerate() {
        put_symbol(alloc, out, names.name_at(number), *definition, global)?;
    }
    Ok(())
}

fn one_if(counted: bool) -> usize
    ensures count { result ≡ (if counted then 1 else 0) }
    ensures most { result ≤ 1 }
{
    if counted { 1 } else { 0 }
}

/// The number of a symbol after so many local and global ones, where there are `all` local ones.
fn ordered(global: bool, all: usize, locals: usize, globals: usize) -> u32
    requires locals { locals < 2 ^ 32 }
    requires globals { all + globals < 2 ^ 32 }
    ensures { result ≡ (if global then all + globals else locals) }
{
    if global {
        (all + globals) as u32
    } else {
        locals as u32
    }
}

fn local_count(definitions: &[Definition]) -> usize
    ensures count { result ≡ count_by (spec.defines false) definitions.now }
    ensures most { result ≤ length definitions.now }
{
    definitions
        .iter()
        .filter(|definition| !is_global(**definition))
        .count()
}

/// For the number of each name that of its symbol: local symbols come before global ones.
fn ordered_numbers(alloc: Global, definitions: &[Definition]) -> Result<Vec<u32>, AllocError>
    requires { length definitions.now ≤ SYMBOL_LIMIT }
    ensures numbers { IfOk result (λ v. v.items ≡ map (spec.ordered_number definitions.now) (range_with_len 0 (length definitions.now))) }
    ensures count { IfOk result (λ v. length v.items ≡ length definitions.now) }
{
    let all = local_count(definitions);
    let mut numbers = Vec::new(alloc);
    let mut locals: usize = 0;
    let mut globals: usize = 0;
    for definition in definitions {
        let global = is_global(*definition);
        numbers.push(ordered(global, all, locals, globals))?;
        locals += one_if(!global);
        globals += one_if(global);
    }
    Ok(numbers)
}

/// Adds relocations, with the number of a symbol in place of that of its name.
fn put_relocs(out: &mut Vec<Reloc>, numbers: &[u32], relocs: &[Reloc]) -> Result<(), AllocError>
    requires { All (λ (r : Reloc). r.symbol < length numbers.now) relocs.now }
    ensures { OnOk result (out.new.items ≡ out.old.items ++ map (with_number numbers.now) relocs.now) }
{
    for reloc in relocs {
        out.push(Reloc {
            in_text: reloc.in_text,
            at: reloc.at,
            symbol: numbers[reloc.symbol as usize],
            relative: reloc.relative,
        })?;
    }
    Ok(())
}

/// The symbols of an object, local ones first.
#[tactic(auto, unfolding(crate::specs::Objects::ordered))]
fn symbols(
    alloc: Global,
    names: &Names,
    definitions: &[Definition],
) -> Result<Vec<Symbol>, AllocError>
    requires { length definitions.now ≡ length names.now }
    ensures { IfOk result (λ v. v.items ≡ spec.ordered (spec.symbols_seen names.now definitions.now)) }
{
    let mut out = Vec::new(alloc);
    put_symbols(alloc, &mut out, names, definitions, false)?;
    put_symbols(alloc, &mut out, names, definitions, true)?;
    Ok(out)
}

/// The relocations of an object, those of text first.
#[tactic(auto, using(crate::proofs::Ordering::renumbered_two))]
fn relocs(
    alloc: Global,
    definitions: &[Definition],
    text: &[Reloc],
    init: &[Reloc],
) -> Result<Vec<Reloc>, AllocError>
    requires count { length definitions.now ≤ SYMBOL_LIMIT }
    requires text { All (λ (r : Reloc). r.symbol < length definitions.now) text.now }
    requires init { All (λ (r : Reloc). r.symbol < length definitions.now) init.now }
    ensures { IfOk result (λ v. v.items ≡ map (spec.renumbered definitions.now) (text.now ++ init.now)) }
{
    let numbers = ordered_numbers(alloc, definitions)?;
    let mut out = Vec::new(alloc);
    put_relocs(&mut out, &numbers, text)?;
    put_relocs(&mut out, &numbers, init)?;
    Ok(out)
}

/// The object of what all items made.
#[tactic(auto, unfolding(crate::specs::Objects::object))]
pub fn object(alloc: Global, names: &Names, made: Assembly) -> Result<Object, AllocError>
    requires definitions { length made.definitions ≡ length names.now }
    requires count { length made.definitions ≤ SYMBOL_LIMIT }
    requires text { All (λ (r : Reloc). r.symbol < length made.definitions) made.text_relocs }
    requires init { All (λ (r : Reloc). r.symbol < length made.definitions) made.data_relocs }
    requires bss { made.bss < 2 ^ 32 }
    requires few { length made.sites ≤ SITE_LIMIT }
    requires sites { AreSites 0 made.sites }
    requires gaps { AreGapped 0 made.sites }
    ensures { IfOk result (λ o. o ≡ spec.object names.now made) }
{
    let symbols = symbols(alloc, names, &made.definitions)?;
    let relocs = relocs(
        alloc,
        &made.definitions,
        &made.text_relocs,
        &made.data_relocs,
    )?;
    let Assembly {
        section: _,
        after_sti: _,
        text,
        init,
        bss,
        sites,
        text_relocs: _,
        data_relocs: _,
        definitions: _,
    } = made;
    let sites = of_text(sites, text.len());
    let sites = write_sites(alloc, &sites)?;
    Ok(Object {
        text,
        init,
        bss: bss as u32,
        sites,
        symbols,
        relocs,
    })
}
