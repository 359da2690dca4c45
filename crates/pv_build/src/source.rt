//! The source that a text is.

ghost use Rattle.std.specs.Prelude.{◌≡◌, ℕ, IfOk, IfErr};
ghost use Rattle.pv_io.specs.Files.{IsHeld};
ghost use Rattle.asm_lex.specs.declared.fault.SourceCause.{SourceCause};
ghost use Rattle.asm_source.specs.Readable.{IsReadable};
ghost use Rattle.asm_parse.specs.Source.{SourceAs};
ghost use Rattle.pv_build.specs.Readings.{OnlyRead};
ghost use Rattle.pv_build.specs.Failures.{NoneFailedIn};
ghost use Rattle.pv_build.specs.Telling.{HaltsOverFiles, RefusesAs};
ghost use Rattle.pv_build.specs.Sources.{IsNoSource, source_line};
ghost use Rattle.pv_build.specs.SourceFiles.{HasSource, HasNoSource};

use crate::halt::Halt;
use crate::lines::refusal_at_line;
use crate::telling::{load, refused};
use asm_lex::SourceFault;
use asm_parse::{Source, parse};
use pv_io::Files;
use std::alloc::Global;

/// The source that a text is.
pub fn source_of_text(alloc: Global, text: &[u8]) -> Result<Source, Halt>
    ensures source { IfOk result (λ s. SourceAs text.now s) }
    ensures readable { IfOk result IsReadable }
    ensures refused { IfErr result (RefusesAs
        (λ line. (at : ℕ) × (cause : SourceCause) × IsNoSource text.now (at, cause) × (line ≡ source_line at cause))) }
{
    match parse(alloc, text) {
        Ok(source) => Ok(source),
        Err(SourceFault::Memory) => Err(Halt::Memory),
        Err(SourceFault::At { line, cause }) => {
            Err(refused(refusal_at_line(alloc, cause.number() as u32, line as u64)))
        }
    }
}

/// The source that a file holds.
#[tactic(auto, using(crate::proofs::Failures::none_here, crate::proofs::Failures::none_since, crate::proofs::Failures::none_in))]
pub fn source_in_file<F: Files>(alloc: Global, name: &str, files: &mut F) -> Result<Source, Halt>
    ensures source { IfOk result (λ s. HasSource (F.held files.old) name.now s) }
    ensures readable { IfOk result IsReadable }
    ensures halted { IfErr result (HaltsOverFiles F.Files (IsHeld (F.held files.old) name.now) files.old files.new
        (λ line. (at : ℕ) × (cause : SourceCause) × HasNoSource (F.held files.old) name.now (at, cause)
        × (line ≡ source_line at cause))) }
    ensures read { OnlyRead F.Files (IsHeld (F.held files.old) name.now) files.old files.new }
    ensures kept { NoneFailedIn F.Files files.old files.new result }
{
    let file = load(alloc, name, files)?;
    source_of_text(alloc, &file)
}
