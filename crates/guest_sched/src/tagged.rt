//! A sink that puts a kernel's number before each line.

ghost use Rattle.std.proofs.Props.{props};
ghost use Rattle.std.specs.Prelude.{◌≡◌, ◌+◌, ◌-◌, ◌^◌, ◌<◌, ◌≤◌, ◌++◌, [], Some, true, false, not, length, take, IfOk, OnOk, OnErr, is_err, if◌then◌else◌};
ghost use Rattle.pv_io.specs.Causes.{Rose};
ghost use Rattle.pv_io.specs.Sink.{Appends, AppendsFront};
ghost use Rattle.guest_sched.specs.Tags.{tag_of};
ghost use Rattle.guest_sched.specs.Dues.{line_len, has_end};
ghost use Rattle.guest_sched.specs.Marks.{IsTaken, told};

use crate::mark::Mark;
use pv_io::{Failed, Sink};

/// A sink that puts a kernel's number and a space before each line, in a put of its own. A put that failed may have taken
/// any front: from then on it takes nothing.
#[derive(Drop)]
pub(crate) struct Tagged<'a, O: Sink> {
    out: &'a mut O,
    tag: [u8; 2],
    /// A line was begun, and goes on.
    begun: bool,
    failed: bool,
    since: Mark,
    ghost taken: { IsTaken tag begun failed since.text since.taken (O.taken out.now) since.faults (O.faults out.now) } by { Prim.hlevel props },
}

impl<'a, O: Sink> Tagged<'a, O> {
    /// No line was begun.
    pub(crate) fn new(kernel: u8, out: &'a mut O) -> Tagged<'a, O>
        requires { kernel < 10 }
        ensures same_sink { result.out.ghost_name ≡ out.entry.ghost_name }
        ensures now { result.out.now ≡ out.old }
        ensures since { (result.since.taken ≡ O.taken out.old) × (result.since.faults ≡ O.faults out.old) × (result.since.text ≡ []) }
        ensures tag { result.tag ≡ tag_of kernel }
        ensures failed { result.failed ≡ false }
    {
        let since = Mark::at(out);
        Tagged {
            out,
            tag: [b'0' + kernel, b' '],
            begun: false,
            failed: false,
            since,
        }
    }

    /// A put has failed.
    pub(crate) fn has_failed(&self) -> bool
        ensures { result ≡ self.now.failed }
    {
        self.failed
    }

    /// Puts the first line of a text, and returns its length.
    fn put_line(&mut self, text: &[u8]) -> Result<usize, Failed>
        requires some { 1 ≤ length text.now }
        requires live { self.old.failed ≡ false }
        ensures len { IfOk result (λ len. (len ≡ line_len text.now) × (1 ≤ len) × (len ≤ length text.now)) }
        ensures same_sink { self.new.out.ghost_name ≡ self.old.out.ghost_name }
        ensures since { (self.new.since.taken ≡ self.old.since.taken) × (self.new.since.faults ≡ self.old.since.faults) }
        ensures text { self.new.since.text ≡ self.old.since.text ++ take (line_len text.now) text.now }
        ensures tag { self.new.tag ≡ self.old.tag }
        ensures failed { self.new.failed ≡ is_err result }
    {
        let (len, ended) = first_line(text);
        let line = &text[..len];
        let begun = self.begun;
        let result = put_after(self.out, &self.tag, begun, line);
        self.since = self.since.and(&line);
        self.begun = !ended;
        self.failed = result.is_err();
        match result {
            Ok(()) => Ok(len),
            Err(failed) => Err(failed),
        }
    }
}

/// The length of the first line with its end, and whether it has one.
fn first_line(text: &[u8]) -> (usize, bool)
    ensures len { result.0 ≡ line_len text.now }
    ensures end { result.1 ≡ has_end text.now }
    ensures within { result.0 ≤ length text.now }
{
    let mut len = 0;
    for b in text {
        len += 1;
        if *b == b'\n' {
            return (len, true);
        }
    }
    (len, false)
}

/// Puts a line, with the tag before it where it isn't begun.
#[tactic(auto, using(crate::proofs::Puts::both, crate::proofs::Puts::then_front, crate::proofs::Puts::front_of_both))]
fn put_after<O: Sink>(out: &mut O, tag: &[u8], begun: bool, line: &[u8]) -> Result<(), Failed>
    ensures ok { OnOk result (Appends (O.taken out.old) (O.taken out.new) ((if begun then [] else tag.now) ++ line.now)) }
    ensures failed { OnErr result (AppendsFront (O.taken out.old) (O.taken out.new) ((if begun then [] else tag.now) ++ line.now)) }
    ensures kept { OnOk result (O.faults out.new ≡ O.faults out.old) }
    ensures cause { OnErr result (Rose (O.faults out.old) (O.faults out.new)) }
{
    if begun {
        return out.put(line);
    }
    match out.put(tag) {
        Ok(()) => out.put(line),
        Err(failed) => Err(failed),
    }
}

impl<'a, O: Sink> Sink for Tagged<'a, O> {
    ghost taken = { λ s. Some (told s.out.ghost_name s.tag s.since.faults s.since.taken s.since.text) };

    ghost faults = { λ s. if s.failed then 2 ^ 64 - 1 else 0 };

    fn put(&mut self, bytes: &[u8]) -> Result<(), Failed> {
        if self.failed {
            return Err(Failed);
        }
        let mut rest = bytes;
        while !rest.is_empty() {
            let len = self.put_line(rest)?;
            rest = &rest[len..];
        }
        Ok(())
    }
}
