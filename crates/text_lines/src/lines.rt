//! A text that is read line by line.

ghost use Rattle.std.specs.Prelude.{◌≡◌, ◌++◌, ◌∷◌, [], List, None, IfOk, IfErr, IfSome, OnOk, ◌+◌, ◌<◌, ◌^◌};
ghost use Rattle.text_lines.specs.Cuts.{cut_at};
ghost use Rattle.text_lines.specs.Lines.{Rule, said, badness, judged, text_read, LinesSay};
ghost use Rattle.text_lines.specs.Answers.{ReadAs, IsRefused};

use crate::cuts::first_cut;
use std::alloc::Global;

/// Why a text is refused.
#[derive(Drop)]
pub enum LineFault<C> {
    /// The first bad line, counted from 1.
    At { line: u64, cause: C },
    Memory,
}

/// How the lines of a text are read.
pub trait LineReader {
    /// What a line says.
    type Item: Drop;

    /// Why a line is bad.
    type Cause: Drop;

    /// What a line says by itself, and why that isn't taken after the items before it.
    ghost rule: { Self → Rule Self.Item Self.Cause };

    /// What holds of the items of good lines.
    ghost fits: { Self → List Self.Item → Type 0 };

    /// What a line says after these items, if anything, or why it is bad.
    fn read(&self, before: &[Self::Item], line: &[u8]) -> Result<Option<Self::Item>, Self::Cause>
        requires { fits self.now before.now }
        ensures said { result ≡ judged (rule self.now) before.now ((rule self.now).says line.now) }
        ensures fits { IfOk result (λ item. IfSome item (λ x. fits self.now (before.now ++ x ∷ []))) };
}

/// Takes what a line says. `number` is the line's, counted from 1.
fn take_line<R: LineReader>(
    reader: &R,
    items: &mut Vec<R::Item>,
    number: u64,
    line: &[u8],
) -> Result<(), LineFault<R::Cause>>
    requires { R.fits reader.now items.old.items }
    ensures good { OnOk result (badness (R.rule reader.now) items.old.items ((R.rule reader.now).says line.now) ≡ None) }
    ensures taken { OnOk result (items.new.items ≡ items.old.items ++ said ((R.rule reader.now).says line.now)) }
    ensures fits { OnOk result (R.fits reader.now items.new.items) }
    ensures bad { IfErr result (IsRefused number (badness (R.rule reader.now) items.old.items ((R.rule reader.now).says line.now))) }
{
    match reader.read(items, line) {
        Err(cause) => Err(LineFault::At {
            line: number,
            cause,
        }),
        Ok(None) => Ok(()),
        Ok(Some(item)) => match items.push(item) {
            Ok(()) => Ok(()),
            Err(_) => Err(LineFault::Memory),
        },
    }
}

/// Reads a text line by line: what its lines say, or its first bad line.
pub fn read_lines<R: LineReader>(
    alloc: Global,
    reader: &R,
    text: &[u8],
) -> Result<Vec<R::Item>, LineFault<R::Cause>>
    requires { R.fits reader.now [] }
    ensures read { ReadAs result (text_read (R.rule reader.now) text.now) }
    ensures lines { LinesSay (R.rule reader.now) (cut_at 10 text.now) (text_read (R.rule reader.now) text.now) }
    ensures fits { IfOk result (λ items. R.fits reader.now items.items) }
{
    let mut items = Vec::new(alloc);
    let mut number = 1;
    let mut rest = text;
    loop {
        match first_cut(rest, b'\n') {
            None => {
                take_line(reader, &mut items, number, rest)?;
                return Ok(items);
            }
            Some(end) => {
                take_line(reader, &mut items, number, &rest[..end])?;
                number += 1;
                rest = &rest[end + 1..];
            }
        }
    }
}
