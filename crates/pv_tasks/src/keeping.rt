//! A sink that keeps what it takes.

ghost use Rattle.std.specs.Prelude.{◌≡◌, ◌≤◌, [], Some, OnOk, OnErr};
ghost use Rattle.pv_io.specs.Causes.{Rose};
ghost use Rattle.pv_io.specs.Sink.{Appends, AppendsFront};

use pv_io::{Failed, Sink};
use std::alloc::Global;

/// Keeps all bytes. A put fails only where no memory was found for them, and is counted then.
#[derive(Drop)]
pub struct TextSink {
    pub text: Vec<u8>,
    faults: u64,
}

impl TextSink {
    /// A sink that has taken nothing, and asks this allocator for its memory.
    pub fn new(alloc: Global) -> TextSink
        ensures { result.text.items ≡ [] }
    {
        TextSink {
            text: Vec::new(alloc),
            faults: 0,
        }
    }

    /// All that was taken.
    pub fn into_text(self) -> Vec<u8>
        ensures { result ≡ self.text }
    {
        let TextSink { text, .. } = self;
        text
    }
}

impl Sink for TextSink {
    ghost taken = { λ s. Some s.text.items };

    ghost faults = { λ s. s.faults };

    fn put(&mut self, bytes: &[u8]) -> Result<(), Failed> {
        match self.text.extend_from_slice(bytes) {
            Ok(()) => Ok(()),
            Err(_) => {
                self.faults = self.faults.saturating_add(1);
                Err(Failed)
            }
        }
    }
}
