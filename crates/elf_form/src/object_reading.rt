//! Reading an object.

ghost use Rattle.std.specs.Prelude.{◌≡◌, ℕ, ◌≤◌, ◌<◌, ◌+◌, ◌*◌, ◌^◌, ◌∷◌, List, ◌++◌, length, All, IfNone, IfSome, IfOk, OnOk};
ghost use Rattle.elf_form.specs.declared.roles.Role.TheVariants as role;
ghost use Rattle.elf_form.specs.declared.cause.ElfCause.{ElfCause};
ghost use Rattle.elf_form.specs.declared.cause.ElfCause.TheVariants.{Sizes};
ghost use Rattle.elf_form.specs.Whole.{AllFound, IsWhole, IsSection};
ghost use Rattle.elf_form.specs.Faults.{tested, causes};
ghost use Rattle.elf_form.specs.Stages.{section_causes, late_causes, and_then, identified};
ghost use Rattle.elf_form.specs.Answers.{Gives};
ghost use Rattle.elf_form.specs.Order.{IsFirstOf};
ghost use Rattle.elf_form.specs.Header.{sections};
ghost use Rattle.elf_form.specs.Sections.{names as names_in};
ghost use Rattle.elf_form.specs.Roles.{with_role, starts as starts_of};
ghost use Rattle.elf_form.specs.Symbols.{relocs_of};
ghost use Rattle.elf_form.specs.KeptRelocs.{IsEntry, AreKept};
ghost use Rattle.elf_form.specs.Linkable.{IsLinkable};
ghost use Rattle.elf_form.specs.ObjectParts.{ObjectParts};
ghost use Rattle.elf_form.specs.ObjectReading.{table_of as table_in, kept_relocs, symbol_form, reloc_form, contents_or, object_at, object_in, wrong_object};
ghost use Rattle.elf_form.specs.Accepted.{ObjectAs};
ghost use Rattle.elf_form.specs.Reasons.{IsRefusedObject, no_object};

use crate::abi::ET_REL;
use crate::cause::{ElfCause, ElfFault};
use crate::entries::{entries_of, relocs_fault};
use crate::header::{cut, identified, lower, test};
use crate::joining::{joined, starts};
use crate::object::{Object, Reloc};
use crate::object_conditions::{object_form, object_sizes, string_places, strings_of, table_of};
use crate::records::{Starts, numbers, put_relocs, put_symbols};
use crate::roles::{Role, with_role};
use crate::sections::{compressed, contents, names};
use crate::segments::{FILE_LIMIT, Found};
use crate::symbol_walks::{sections_fault, symbols_fault};
use crate::symbols::{Entry, RelocTest, SectionTest, SymbolTest};
use std::alloc::{AllocError, Global};

/// The relocations of an object's text, of its data, and of its zeroed bytes.
#[derive(Drop)]
pub struct KeptRelocs {
    pub text: Vec<Entry>,
    pub init: Vec<Entry>,
    pub bss: Vec<Entry>,
}

fn kept_in(alloc: Global, bytes: &[u8]) -> Result<KeptRelocs, AllocError>
    requires { IsWhole bytes.now }
    ensures { IfOk result (AreKept bytes.now) }
{
    let names = names(bytes);
    Ok(KeptRelocs {
        text: entries_of(alloc, Role::Text, names, bytes)?,
        init: entries_of(alloc, Role::Init, names, bytes)?,
        bss: entries_of(alloc, Role::Bss, names, bytes)?,
    })
}

fn kept_fault(test: RelocTest, bytes: &[u8], kept: &KeptRelocs) -> Option<usize>
    requires whole { IsWhole bytes.now }
    requires kept { AreKept bytes.now kept.now }
    ensures place { result ≡ kept_relocs test bytes.now }
    ensures inside { IfSome result (λ at. at < length bytes.now) }
{
    let names = names(bytes);
    let table = table_of(bytes);
    let text = relocs_fault(test, table, names, bytes, &kept.text);
    let init = relocs_fault(test, table, names, bytes, &kept.init);
    let bss = relocs_fault(test, table, names, bytes, &kept.bss);
    lower(text, lower(init, bss))
}

fn symbol_form(bytes: &[u8], kept: &KeptRelocs) -> Option<usize>
    requires whole { IsWhole bytes.now }
    requires kept { AreKept bytes.now kept.now }
    ensures place { result ≡ symbol_form bytes.now }
    ensures inside { IfSome result (λ at. at < length bytes.now) }
{
    let names = names(bytes);
    let table = table_of(bytes);
    let globals = symbols_fault(SymbolTest::Globals, table, strings_of(bytes), names, bytes);
    lower(globals, kept_fault(RelocTest::Named, bytes, kept))
}

fn reloc_form(bytes: &[u8], kept: &KeptRelocs) -> Option<usize>
    requires whole { IsWhole bytes.now }
    requires kept { AreKept bytes.now kept.now }
    ensures place { result ≡ reloc_form bytes.now }
    ensures inside { IfSome result (λ at. at < length bytes.now) }
{
    let links = sections_fault(SectionTest::Links, table_of(bytes), names(bytes), bytes);
    lower(links, kept_fault(RelocTest::Form, bytes, kept))
}

/// The contents of the first of the sections that were found, or `absent` where there is none.
fn contents_or<'a>(absent: &'a [u8], bytes: &'a [u8], found: Found) -> &'a [u8]
    requires { AllFound (IsSection bytes.now) found }
    ensures { result.now ≡ contents_or absent.now bytes.now found }
{
    match found {
        Found::Nothing => absent,
        Found::One(s) | Found::Two(s, _) | Found::More(s, _) => contents(bytes, s),
    }
}

/// The section of annotations of an object that has none: one of no sites.
const NO_SITES: [u8; 8] = *b"PVS1\0\0\0\0";

/// Adds the relocations of an object's text, and after them those of its data.
#[tactic(auto, unfolding(crate::specs::ObjectReading::object_at))]
fn put_kept(
    out: &mut Vec<Reloc>,
    alloc: Global,
    starts: Starts,
    bytes: &[u8],
    kept: &KeptRelocs,
) -> Result<(), AllocError>
    requires whole { IsWhole bytes.now }
    requires kept { AreKept bytes.now kept.now }
    requires init { starts.init.now ≡ starts_of role.Init (names_in bytes.now) bytes.now 0 (sections bytes.now) }
    requires bss { starts.bss.now ≡ starts_of role.Bss (names_in bytes.now) bytes.now 0 (sections bytes.now) }
    ensures { OnOk result (out.new.items ≡ out.old.items ++ (object_at bytes.now).relocs) }
{
    let names = names(bytes);
    let numbers = numbers(alloc, table_of(bytes), names, bytes)?;
    put_relocs(out, starts, &numbers, names, bytes, &kept.text)?;
    put_relocs(out, starts, &numbers, names, bytes, &kept.init)
}

/// The bytes of an object.
#[derive(Drop)]
struct Parts {
    text: Vec<u8>,
    init: Vec<u8>,
    sites: Vec<u8>,
}

#[tactic(auto, unfolding(crate::specs::ObjectReading::object_at))]
fn parts_in(alloc: Global, bytes: &[u8]) -> Result<Parts, AllocError>
    requires { IsWhole bytes.now }
    ensures text { IfOk result (λ parts. parts.text.items ≡ (object_at bytes.now).text) }
    ensures init { IfOk result (λ parts. parts.init.items ≡ (object_at bytes.now).init) }
    ensures sites { IfOk result (λ parts. parts.sites.items ≡ (object_at bytes.now).sites) }
{
    let names = names(bytes);
    let text = contents_or(&[], bytes, with_role(Role::Text, names, bytes));
    let sites = contents_or(&NO_SITES, bytes, with_role(Role::Sites, names, bytes));
    Ok(Parts {
        text: Vec::from_slice(alloc, text)?,
        init: joined(alloc, names, bytes)?,
        sites: Vec::from_slice(alloc, sites)?,
    })
}

/// The object whose joined sections begin at `starts`, with `bss` zeroed bytes.
#[tactic(auto, unfolding(crate::specs::ObjectReading::object_at))]
fn object_with(
    alloc: Global,
    starts: Starts,
    bss: u32,
    bytes: &[u8],
    kept: &KeptRelocs,
) -> Result<Object, AllocError>
    requires whole { IsWhole bytes.now }
    requires kept { AreKept bytes.now kept.now }
    requires init { starts.init.now ≡ starts_of role.Init (names_in bytes.now) bytes.now 0 (sections bytes.now) }
    requires bss { starts.bss.now ≡ starts_of role.Bss (names_in bytes.now) bytes.now 0 (sections bytes.now) }
    requires zeroed { bss ≡ (object_at bytes.now).bss }
    ensures { IfOk result (λ o. o ≡ object_at bytes.now) }
{
    let names = names(bytes);
    let table = table_of(bytes);
    let parts = parts_in(alloc, bytes)?;
    let mut symbols = Vec::new(alloc);
    put_symbols(
        &mut symbols,
        alloc,
        starts,
        table,
        strings_of(bytes),
        names,
        bytes,
    )?;
    let mut relocs = Vec::new(alloc);
    put_kept(&mut relocs, alloc, starts, bytes, kept)?;
    let Parts { text, init, sites } = parts;
    Ok(Object {
        text,
        init,
        bss,
        sites,
        symbols,
        relocs,
    })
}

#[tactic(auto, unfolding(crate::specs::ObjectReading::object_at))]
fn object_at(alloc: Global, bytes: &[u8], kept: &KeptRelocs) -> Result<Object, AllocError>
    requires whole { IsWhole bytes.now }
    requires kept { AreKept bytes.now kept.now }
    ensures { IfOk result (λ o. o ≡ object_at bytes.now) }
{
    let names = names(bytes);
    let (init, _end) = starts(alloc, Role::Init, names, bytes)?;
    let (bss, bss_end) = starts(alloc, Role::Bss, names, bytes)?;
    let starts = Starts {
        init: &init,
        bss: &bss,
    };
    let zeroed = (bss_end % 0x1_0000_0000) as u32;
    object_with(alloc, starts, zeroed, bytes, kept)
}

#[tactic(auto, unfolding(crate::specs::Faults::tested, crate::specs::ObjectReading::wrong_object))]
fn kept_tested(alloc: Global, bytes: &[u8], kept: &KeptRelocs) -> Result<Object, ElfFault>
    requires whole { IsWhole bytes.now }
    requires limit { length bytes.now ≤ FILE_LIMIT }
    requires kept { AreKept bytes.now kept.now }
    ensures { Gives (λ o. o) result (tested (wrong_object bytes.now) late_causes (object_at bytes.now)) }
{
    test(ElfCause::SymbolForm, symbol_form(bytes, kept))?;
    test(ElfCause::RelocForm, reloc_form(bytes, kept))?;
    Ok(object_at(alloc, bytes, kept)?)
}

fn late_tested(alloc: Global, bytes: &[u8]) -> Result<Object, ElfFault>
    requires whole { IsWhole bytes.now }
    requires limit { length bytes.now ≤ FILE_LIMIT }
    ensures { Gives (λ o. o) result (tested (wrong_object bytes.now) late_causes (object_at bytes.now)) }
{
    let kept = kept_in(alloc, bytes)?;
    kept_tested(alloc, bytes, &kept)
}

#[tactic(auto, unfolding(crate::specs::Faults::tested, crate::specs::ObjectReading::wrong_object))]
fn section_tested(alloc: Global, bytes: &[u8]) -> Result<Object, ElfFault>
    requires whole { IsWhole bytes.now }
    requires limit { length bytes.now ≤ FILE_LIMIT }
    ensures { Gives (λ o. o) result (tested (wrong_object bytes.now) section_causes (object_at bytes.now)) }
{
    test(ElfCause::SectionForm, object_form(bytes))?;
    test(ElfCause::Compressed, compressed(bytes))?;
    test(ElfCause::StringPlace, string_places(bytes))?;
    late_tested(alloc, bytes)
}

#[tactic(auto, unfolding(crate::specs::Faults::tested, crate::specs::ObjectReading::wrong_object))]
fn header_tested(alloc: Global, bytes: &[u8]) -> Result<Object, ElfFault>
    requires { IsWhole bytes.now }
    ensures { Gives (λ o. o) result (and_then (identified ET_REL bytes.now)
        (tested (wrong_object bytes.now) (Sizes ∷ section_causes) (object_at bytes.now))) }
{
    identified(bytes, ET_REL)?;
    test(ElfCause::Sizes, object_sizes(bytes))?;
    section_tested(alloc, bytes)
}

fn object(alloc: Global, bytes: &[u8]) -> Result<Object, ElfFault>
    ensures { Gives (λ o. o) result (object_in bytes.now) }
{
    match cut(bytes) {
        Some(at) => Err(ElfFault::At {
            at,
            cause: ElfCause::Truncated,
        }),
        None => header_tested(alloc, bytes),
    }
}

/// The object that a file is, or the first of its faults.
pub fn read_object(alloc: Global, bytes: &[u8]) -> Result<Object, ElfFault>
    // The value is what the file holds, and the file is wrong by no cause.
    ensures object { IfOk result (ObjectAs bytes.now) }
    // Where the file holds an object, it is read, unless memory runs out.
    ensures only { (object : ObjectParts) → ObjectAs bytes.now object → Gives (λ o. o) result (Ok object) }
    // A fault is the first cause that holds, at its place.
    ensures first { (at : ℕ) (cause : ElfCause) → result ≡ Err (ElfFault.At at cause) → IsFirstOf (wrong_object bytes.now) causes at cause }
    // A fault by the causes' conditions: at the cause's place its own holds, and at no place does one of a cause before it.
    ensures refused { (at : ℕ) (cause : ElfCause) → result ≡ Err (ElfFault.At at cause) → IsRefusedObject bytes.now at cause }
    ensures refused_only { (at : ℕ) (cause : ElfCause) → IsRefusedObject bytes.now at cause → Gives (λ o. o) result (no_object at cause) }
    ensures exact { Gives (λ o. o) result (object_in bytes.now) }
    // What is read can be linked.
    ensures linkable { IfOk result (λ o. IsLinkable o) }
{
    object(alloc, bytes)
}
