//! The names of the directives.

ghost use Rattle.std.specs.Prelude.{◌≡◌};
ghost use Rattle.asm_source.specs.Tables.{found};
ghost use Rattle.asm_source.specs.DirectiveTable as spec;

use crate::bytes::{begins, is_text};

/// A directive, whichever of its names it has.
#[derive(Clone, Copy)]
pub enum DirectiveName {
    Text,
    Data,
    Bss,
    Section,
    /// `.globl` and `.global`.
    Global,
    Local,
    /// Values of one byte, of two and of four.
    Bytes,
    Shorts,
    Longs,
    /// `.ascii`; `.asciz` and `.string`, whose strings end with a zero byte.
    Ascii,
    Asciz,
    /// `.zero`, `.skip` and `.space`.
    Zeros,
    /// `.align` and `.balign`; `.p2align`.
    Aligned,
    Powered,
    /// `.comm`; `.lcomm`.
    Common,
    LocalCommon,
    /// What says nothing of the object, as `.file` and `.cfi_startproc`.
    Skipped,
}

/// The directive of this name: of all that there are.
#[tactic(auto, unfolding(crate::specs::DirectiveTable::directive_name))]
pub fn directive_name(name: &[u8]) -> Option<DirectiveName>
    ensures { result ≡ spec.directive_name name.now }
{
    section_directive(name)
        .or(symbol_directive(name))
        .or(value_directive(name))
        .or(string_directive(name))
        .or(alignment_directive(name))
        .or(skipped_directive(name))
}

#[tactic(auto, unfolding(crate::specs::DirectiveTable::section_directives))]
fn section_directive(name: &[u8]) -> Option<DirectiveName>
    ensures { result ≡ found spec.section_directives name.now }
{
    if is_text(name, b".text") {
        Some(DirectiveName::Text)
    } else if is_text(name, b".data") {
        Some(DirectiveName::Data)
    } else if is_text(name, b".bss") {
        Some(DirectiveName::Bss)
    } else if is_text(name, b".section") {
        Some(DirectiveName::Section)
    } else {
        None
    }
}

#[tactic(auto, unfolding(crate::specs::DirectiveTable::symbol_directives))]
fn symbol_directive(name: &[u8]) -> Option<DirectiveName>
    ensures { result ≡ found spec.symbol_directives name.now }
{
    if is_text(name, b".globl") || is_text(name, b".global") {
        Some(DirectiveName::Global)
    } else if is_text(name, b".local") {
        Some(DirectiveName::Local)
    } else if is_text(name, b".comm") {
        Some(DirectiveName::Common)
    } else if is_text(name, b".lcomm") {
        Some(DirectiveName::LocalCommon)
    } else {
        None
    }
}

#[tactic(auto, unfolding(crate::specs::DirectiveTable::value_directives))]
fn value_directive(name: &[u8]) -> Option<DirectiveName>
    ensures { result ≡ found spec.value_directives name.now }
{
    if is_text(name, b".byte") {
        Some(DirectiveName::Bytes)
    } else if is_text(name, b".short") || is_text(name, b".word") || is_text(name, b".value") {
        Some(DirectiveName::Shorts)
    } else if is_text(name, b".long") || is_text(name, b".int") {
        Some(DirectiveName::Longs)
    } else if is_text(name, b".zero") || is_text(name, b".skip") || is_text(name, b".space") {
        Some(DirectiveName::Zeros)
    } else {
        None
    }
}

#[tactic(auto, unfolding(crate::specs::DirectiveTable::string_directives))]
fn string_directive(name: &[u8]) -> Option<DirectiveName>
    ensures { result ≡ found spec.string_directives name.now }
{
    if is_text(name, b".ascii") {
        Some(DirectiveName::Ascii)
    } else if is_text(name, b".asciz") || is_text(name, b".string") {
        Some(DirectiveName::Asciz)
    } else {
        None
    }
}

#[tactic(auto, unfolding(crate::specs::DirectiveTable::alignment_directives))]
fn alignment_directive(name: &[u8]) -> Option<DirectiveName>
    ensures { result ≡ found spec.alignment_directives name.now }
{
    if is_text(name, b".align") || is_text(name, b".balign") {
        Some(DirectiveName::Aligned)
    } else if is_text(name, b".p2align") {
        Some(DirectiveName::Powered)
    } else {
        None
    }
}

fn skipped_directive(name: &[u8]) -> Option<DirectiveName>
    ensures { result ≡ spec.skipped_directive name.now }
{
    if is_skipped(name) {
        Some(DirectiveName::Skipped)
    } else {
        None
    }
}

#[tactic(auto, unfolding(crate::specs::DirectiveTable::is_skipped))]
fn is_skipped(name: &[u8]) -> bool
    ensures { result ≡ spec.is_skipped name.now }
{
    is_text(name, b".file")
        || is_text(name, b".type")
        || is_text(name, b".size")
        || is_text(name, b".ident")
        || is_text(name, b".code32")
        || is_text(name, b".loc")
        || begins(name, b".cfi_")
}
