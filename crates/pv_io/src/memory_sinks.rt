//! Sinks in memory: one whose calls fail by a list, and one that never fails.

ghost use Rattle.std.specs.Prelude.{◌≡◌, ◌≤◌, ◌+◌, ◌++◌, [], length, Some, None, IfOk, OnOk, OnErr, is_err};
ghost use Rattle.pv_io.specs.Causes.{Rose};
ghost use Rattle.pv_io.specs.Sink.{Appends, AppendsFront};
ghost use Rattle.pv_io.specs.MemSink.{is_refused, put_to};

use crate::{Failed, Sink};
use std::alloc::{AllocError, Global};
use std::marker::Model;

/// Takes bytes into room that it has from the start.
#[derive(Drop)]
pub struct MemSink {
    taken: Vec<u8>,
    room: u32,
    calls: u64,
    fail: Vec<u64>,
    faults: u64,
}

impl Model for MemSink {
    ghost use Rattle.std.specs.Prelude.{◌≤◌, vec_len, vec_capacity};
    ghost use Rattle.pv_io.specs.MemSink.{Taken};

    ghost Value = { Taken };

    ghost view = { λ s. record {
      bytes = s.taken.items;
      room = s.room;
      calls = s.calls;
      fail = s.fail.items;
      faults = s.faults;
    } };

    ghost invariant = { λ s. (s.room ≤ vec_capacity s.taken) × (vec_len s.taken ≤ s.room) };
}

impl MemSink {
    /// Room for that many bytes. The calls whose numbers, from 0, are in the list fail.
    pub fn new(alloc: Global, room: u32, fail: Vec<u64>) -> Result<MemSink, AllocError>
        ensures { IfOk result (λ s. s ≡ record { bytes = []; room = room; calls = 0; fail = fail.items; faults = 0 }) }
    {
        Ok(MemSink {
            taken: Vec::with_capacity(alloc, room as usize)?,
            room,
            calls: 0,
            fail,
            faults: 0,
        })
    }

    /// The bytes that were taken.
    pub fn bytes(&self) -> &[u8]
        ensures { result.now ≡ self.now.bytes }
    {
        &self.taken
    }

    /// How many calls failed.
    pub fn faults(&self) -> u64
        ensures { result ≡ self.now.faults }
    {
        self.faults
    }

    /// The next call fails where it is given these bytes.
    fn refuses(&self, bytes: &[u8]) -> bool
        ensures { result ≡ is_refused self.now bytes.now }
    {
        let left = self.room as usize - self.taken.len();
        self.fail.contains(&self.calls) || left < bytes.len()
    }

    /// Takes bytes for which there is room.
    fn take(&mut self, bytes: &[u8])
        requires { length self.now.bytes + length bytes.now ≤ self.now.room }
        ensures { self.new ≡ record self.old { bytes = self.old.bytes ++ bytes.now } }
    {
        match self.taken.extend_from_slice(bytes) {
            Ok(()) => {}
            Err(_) => unreachable!(),
        }
    }
}

impl Sink for MemSink {
    ghost taken = { λ s. Some s.bytes };

    ghost faults = { λ s. s.faults };

    /// Fails exactly where the call's number is in the list or the bytes don't fit the room; it then takes
    /// nothing.
    fn put(&mut self, bytes: &[u8]) -> Result<(), Failed>
        ensures ok { OnOk result (Appends (Some self.old.bytes) (Some self.new.bytes) bytes.now) }
        ensures failed { OnErr result (AppendsFront (Some self.old.bytes) (Some self.new.bytes) bytes.now) }
        ensures later { self.old.faults ≤ self.new.faults }
        ensures cause { OnErr result (Rose self.old.faults self.new.faults) }
        ensures kept { OnOk result (self.new.faults ≡ self.old.faults) }

        ensures answer { is_err result ≡ is_refused self.old bytes.now }
        ensures after { self.new ≡ put_to self.old bytes.now }
    {
        let refused = self.refuses(bytes);
        self.calls = self.calls.saturating_add(1);
        if refused {
            self.faults = self.faults.saturating_add(1);
            return Err(Failed);
        }
        self.take(bytes);
        Ok(())
    }
}

/// Takes all bytes and keeps none.
#[derive(Drop)]
pub struct SureSink {}

impl SureSink {
    /// It has no state.
    pub fn new() -> SureSink {
        SureSink {}
    }
}

impl Sink for SureSink {
    ghost taken = { λ _. None };

    ghost faults = { λ _. 0 };

    fn put(&mut self, bytes: &[u8]) -> Result<(), Failed> {
        let _ = bytes;
        Ok(())
    }
}
