//! The lines that are printed, and the numbers of the causes in them.

ghost use Rattle.std.specs.Prelude.{◌≡◌, IfOk};
ghost use Rattle.pv_build.specs.Lines.{sizes_line, place_line, refusal_at_line, too_small_line, object_place_line, object_name_line, object_line, link_line, work_line, same_line, differ_line, script_number, form_number, check_number};

use crate::halt::Line;
use board::ScriptCause;
use elf_form::ElfCause;
use elf_link::LinkCause;
use image_check::CheckCause;
use image_load::TooSmall;
use std::alloc::{AllocError, Global};

/// How many bytes of text, of data and of zeroed data something has, and how many sites.
#[derive(Clone, Copy)]
pub struct Sizes {
    pub text: usize,
    pub init: usize,
    pub bss: u32,
    pub sites: usize,
}

/// What something has.
pub fn sizes_line(alloc: Global, what: &str, sizes: Sizes, tail: &str) -> Result<Line, AllocError>
    ensures { IfOk result (λ line. line ≡ sizes_line what.now sizes.text sizes.init sizes.bss sizes.sites tail.now) }
{
    let text = sizes.text;
    let init = sizes.init;
    let bss = sizes.bss;
    let sites = sizes.sites;
    let line = format!(in alloc; "{what} text {text} data {init} bss {bss} sites {sites}{tail}\n")?;
    Ok(Line {
        bytes: line.into_bytes(),
    })
}

/// A refusal at an offset of a file.
pub fn place_line(alloc: Global, number: u32, at: u32) -> Result<Line, AllocError>
    ensures { IfOk result (λ line. line ≡ place_line number at) }
{
    let line = format!(in alloc; "refused {number} at {at}\n")?;
    Ok(Line {
        bytes: line.into_bytes(),
    })
}

/// A refusal at a line of a text, counted from 1.
pub fn refusal_at_line(alloc: Global, number: u32, line: u64) -> Result<Line, AllocError>
    ensures { IfOk result (λ l. l ≡ refusal_at_line number line) }
{
    let line = format!(in alloc; "refused {number} line {line}\n")?;
    Ok(Line {
        bytes: line.into_bytes(),
    })
}

/// An image that needs more frames than there are.
pub fn too_small_line(alloc: Global, small: TooSmall) -> Result<Line, AllocError>
    ensures { IfOk result (λ line. line ≡ too_small_line small.need small.have) }
{
    let need = small.need;
    let have = small.have;
    let line = format!(in alloc; "refused 90 need {need} have {have}\n")?;
    Ok(Line {
        bytes: line.into_bytes(),
    })
}

/// A refusal of an object, counted from 0, at an offset.
pub fn object_place_line(
    alloc: Global,
    number: u32,
    object: u32,
    at: u32,
) -> Result<Line, AllocError>
    ensures { IfOk result (λ line. line ≡ object_place_line number object at) }
{
    let line = format!(in alloc; "refused {number} object {object} at {at}\n")?;
    Ok(Line {
        bytes: line.into_bytes(),
    })
}

/// A refusal of an object with the bytes of a name.
pub fn object_name_line(
    alloc: Global,
    number: u32,
    object: u32,
    name: &[u8],
) -> Result<Line, AllocError>
    ensures { IfOk result (λ line. line ≡ object_name_line number object name.now) }
{
    let line = format!(in alloc; "refused {number} object {object} name ")?;
    let mut bytes = line.into_bytes();
    bytes.extend_from_slice(name)?;
    bytes.push(b'\n')?;
    Ok(Line { bytes })
}

/// A refusal of an object.
pub fn object_line(alloc: Global, number: u32, object: u32) -> Result<Line, AllocError>
    ensures { IfOk result (λ line. line ≡ object_line number object) }
{
    let line = format!(in alloc; "refused {number} object {object}\n")?;
    Ok(Line {
        bytes: line.into_bytes(),
    })
}

/// A refusal of objects that are not linked.
pub fn link_line(alloc: Global, object: u32, cause: &LinkCause) -> Result<Line, AllocError>
    ensures { IfOk result (λ line. line ≡ link_line object cause.now) }
{
    let number = cause.number() as u32;
    match cause {
        LinkCause::NoSymbol(name) => object_name_line(alloc, number, object, &name.list),
        LinkCause::Doubled(name) => object_name_line(alloc, number, object, &name.list),
        LinkCause::NotText(at) => object_place_line(alloc, number, object, *at),
        LinkCause::TextTooLarge
        | LinkCause::InitTooLarge
        | LinkCause::TooManySymbols
        | LinkCause::SitesForm => object_line(alloc, number, object),
    }
}

/// What `work` prints of a kernel.
#[derive(Clone, Copy)]
pub struct Told {
    pub number: u32,
    pub text: usize,
    pub sites: usize,
    pub items: usize,
    pub fills: u64,
}

/// The first line of `work`.
pub fn work_line(alloc: Global, told: Told) -> Result<Line, AllocError>
    ensures { IfOk result (λ line. line ≡ work_line told.number told.text told.sites told.items told.fills) }
{
    let number = told.number;
    let text = told.text;
    let sites = told.sites;
    let items = told.items;
    let fills = told.fills;
    let line = format!(in alloc;
        "work {number} text {text} sites {sites} items {items} fills {fills}\n"
    )?;
    Ok(Line {
        bytes: line.into_bytes(),
    })
}

/// Two texts are the same.
pub fn same_line(alloc: Global) -> Result<Line, AllocError>
    ensures { IfOk result (λ line. line ≡ same_line) }
{
    let bytes = Vec::from_slice(alloc, b"same\n")?;
    Ok(Line { bytes })
}

/// The first line, from 1, in which two texts differ.
pub fn differ_line(alloc: Global, line: usize) -> Result<Line, AllocError>
    ensures { IfOk result (λ l. l ≡ differ_line line) }
{
    let line = format!(in alloc; "differ line {line}\n")?;
    Ok(Line {
        bytes: line.into_bytes(),
    })
}

/// The number of a cause of a script.
pub fn number_of_script(cause: ScriptCause) -> u32
    ensures { result ≡ script_number cause }
{
    match cause {
        ScriptCause::NoForm => 80,
        ScriptCause::BadNumber => 81,
        ScriptCause::StepFalls => 82,
        ScriptCause::TooMany => 83,
        ScriptCause::NotAscii => 84,
    }
}

/// The number of a cause of a file that is no object or image.
pub fn number_of_form(cause: ElfCause) -> u32
    ensures { result ≡ form_number cause }
{
    match cause {
        ElfCause::Truncated => 40,
        ElfCause::Magic => 41,
        ElfCause::Class => 42,
        ElfCause::Encoding => 43,
        ElfCause::Version => 44,
        ElfCause::FileType => 45,
        ElfCause::Machine => 46,
        ElfCause::Sizes => 47,
        ElfCause::SectionForm => 48,
        ElfCause::Compressed => 49,
        ElfCause::StringPlace => 50,
        ElfCause::SymbolForm => 51,
        ElfCause::RelocForm => 52,
    }
}

/// The number of a cause of an image that is not accepted.
pub fn number_of_check(cause: CheckCause) -> u32
    ensures { result ≡ check_number cause }
{
    match cause {
        CheckCause::TextPlace => 60,
        CheckCause::InitPlace => 61,
        CheckCause::TextSize => 62,
        CheckCause::InitSize => 63,
        CheckCause::EntryPlace => 64,
        CheckCause::RefusedCode => 65,
        CheckCause::BadCode => 66,
        CheckCause::TextEnd => 67,
        CheckCause::SiteWrong => 68,
        CheckCause::SitesForm => 69,
        CheckCause::Target => 70,
        CheckCause::EntryStart => 71,
    }
}
