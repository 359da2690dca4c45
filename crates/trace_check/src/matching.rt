//! A sink that compares what it is given with a text, and keeps nothing.

ghost use Rattle.std.specs.Prelude.{◌≡◌, ◌≤◌, ◌++◌, ◌∷◌, [], true, Some, None, is_some};
ghost use Rattle.pv_io.specs.Causes.{Rose};
ghost use Rattle.trace_check.specs.Matches.{taken_by, IsMatched, DiffersAs, line_behind};

use pv_io::{Failed, Sink};
use std::marker::Model;

/// Takes bytes as long as they are the text's, and the first that isn't. After it each call fails.
#[derive(Drop)]
pub struct Matching<'a> {
    text: &'a [u8],
    at: usize,
    wrong: Option<u8>,
    faults: u64,
}

impl<'a> Model for Matching<'a> {
    ghost use Rattle.trace_check.specs.Matches.{Matched, IsMatched};

    ghost Value = { Matched };

    ghost view = { λ m. record {
      text = m.text.now;
      at = m.at;
      wrong = m.wrong;
      faults = m.faults;
    } };

    ghost invariant = { λ m. IsMatched (record {
      text = m.text.now;
      at = m.at;
      wrong = m.wrong;
      faults = m.faults;
    }) };
}

impl<'a> Matching<'a> {
    /// Nothing of the text is matched yet.
    pub fn new(text: &'a [u8]) -> Matching<'a>
        ensures { result ≡ record { text = text.now; at = 0; wrong = None; faults = 0 } }
    {
        Matching {
            text,
            at: 0,
            wrong: None,
            faults: 0,
        }
    }

    /// The first line, counted from 1, that differs between what was given and the text, or that one of them lacks.
    pub fn difference(&self) -> Option<u64>
        ensures difference { DiffersAs self.now result }
        ensures matched { IsMatched self.now }
    {
        if self.wrong.is_none() && self.at == self.text.len() {
            return None;
        }
        Some(line_behind(&self.text[..self.at]))
    }

    /// A byte was given that isn't the text's.
    fn is_wrong(&self) -> bool
        ensures { result ≡ is_some self.now.wrong }
    {
        self.wrong.is_some()
    }

    /// Takes one byte.
    fn take(&mut self, b: u8)
        requires { self.old.wrong ≡ None }
        ensures taken { taken_by self.new ≡ taken_by self.old ++ b ∷ [] }
        ensures faults { self.new.faults ≡ self.old.faults }
    {
        if self.at < self.text.len() && self.text[self.at] == b {
            self.at += 1;
        } else {
            self.wrong = Some(b);
        }
    }

    /// Counts a call that fails.
    fn fail(&mut self)
        requires { is_some self.old.wrong ≡ true }
        ensures taken { taken_by self.new ≡ taken_by self.old }
        ensures faults { Rose self.old.faults self.new.faults }
        ensures later { self.old.faults ≤ self.new.faults }
    {
        self.faults = self.faults.saturating_add(1);
    }
}

/// The line, counted from 1, of the place after a text.
pub fn line_behind(text: &[u8]) -> u64
    ensures { result ≡ line_behind text.now }
{
    let mut line = 1;
    for b in text {
        if *b == b'\n' {
            line += 1;
        }
    }
    line
}

impl Sink for Matching<'_> {
    ghost taken = { λ m. Some (taken_by m) };

    ghost faults = { λ m. m.faults };

    fn put(&mut self, bytes: &[u8]) -> Result<(), Failed> {
        for b in bytes {
            if self.is_wrong() {
                self.fail();
                return Err(Failed);
            }
            self.take(*b);
        }
        if self.is_wrong() {
            self.fail();
            return Err(Failed);
        }
        Ok(())
    }
}
