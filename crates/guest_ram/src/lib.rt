//! The memory of a guest: bytes in frames of 4,096, with little-endian words.
#![tactic(auto)]

ghost use Rattle.std.specs.Prelude.{◌≡◌, ◌+◌, ◌*◌, ◌<◌, ◌≤◌, ◌^◌, length, replicate, IfOk};
ghost use Rattle.guest_ram.specs.Bytes.{part, with_part, byte, word16, word32, with_byte, with_word16, with_word32, AreBytes};

mod memory;
mod words;

use memory::{Lease, Memory, Room};
use std::alloc::{AllocError, Global};
use std::marker::Model;
pub use words::{byte, half, put_word, word};

/// The bytes of a frame.
pub const FRAME: u32 = 4096;

/// Memory from place 0 on, in bytes. It owns them, and frees them when it is dropped.
pub struct Ram {
    memory: Memory,
    lease: Lease<Global>,
    heap: Global,
}

impl Model for Ram {
    ghost use Rattle.std.specs.Prelude.{◌≡◌, List, ℕ, ◌<◌, ◌^◌, length};

    ghost Value = { List ℕ };

    ghost view = { λ r. r.memory.items };

    ghost invariant = { λ r. (length r.memory.items < 2 ^ 32) × (r.lease.alloc ≡ r.heap) × (r.lease.ptr ≡ r.memory.ptr) × (r.lease.size ≡ r.memory.len) };
}

impl Drop for Ram {
    fn drop(self) {
        let Ram {
            memory,
            lease,
            heap,
        } = self;
        memory.free(lease, &heap);
    }
}

impl Ram {
    /// Zero bytes, 4,096 for each of 1 to 32,768 frames.
    pub fn new(alloc: Global, frames: u32) -> Result<Ram, AllocError>
        requires { (1 ≤ frames) × (frames ≤ 32768) }
        ensures memory { IfOk result (λ r. r ≡ replicate (frames * 4096) 0) }
        ensures len { IfOk result (λ r. length r ≡ frames * 4096) }
    {
        match Room::reserve(&alloc, (frames * FRAME) as usize) {
            Some((room, lease)) => Ok(Ram {
                memory: room.zeroed(),
                lease,
                heap: alloc,
            }),
            None => Err(AllocError),
        }
    }

    /// How many bytes there are.
    pub fn len(&self) -> u32
        ensures count { result ≡ length self.now }
        ensures bytes { AreBytes self.now }
    {
        count(self.memory.as_slice()) as u32
    }

    /// The `len` bytes at `at`.
    pub fn part(&self, at: u32, len: u32) -> &[u8]
        requires { at + len ≤ length self.now }
        ensures bytes { result.now ≡ part self.now at len }
        ensures len { length result.now ≡ len }
    {
        let at = at as usize;
        &self.memory.as_slice()[at..at + len as usize]
    }

    /// Replaces the bytes at `at`, as many as are given.
    pub fn put(&mut self, at: u32, bytes: &[u8])
        requires { at + length bytes.now ≤ length self.old }
        ensures memory { self.new ≡ with_part self.old at bytes.now }
        ensures len { length self.new ≡ length self.old }
    {
        put_in(self.memory.as_mut_slice(), at as usize, bytes);
    }

    /// Exchanges the first frames of both.
    pub fn exchange(&mut self, other: &mut Ram, frames: u32)
        requires mine { 4096 * frames ≤ length self.old }
        requires theirs { 4096 * frames ≤ length other.old }
        ensures mine { self.new ≡ with_part self.old 0 (part other.old 0 (4096 * frames)) }
        ensures theirs { other.new ≡ with_part other.old 0 (part self.old 0 (4096 * frames)) }
        ensures len { (length self.new ≡ length self.old) × (length other.new ≡ length other.old) }
    {
        let _bytes = self.len();
        let n = (FRAME * frames) as usize;
        exchange_in(self.memory.as_mut_slice(), other.memory.as_mut_slice(), n);
    }

    /// The byte at `at`.
    pub fn read8(&self, at: u32) -> u8
        requires { at < length self.now }
        ensures { result ≡ byte self.now at }
    {
        self.memory.as_slice()[at as usize]
    }

    /// The word of two bytes at `at`, the lowest byte first.
    pub fn read16(&self, at: u32) -> u16
        requires { at + 2 ≤ length self.now }
        ensures { result ≡ word16 self.now at }
    {
        let p = self.part(at, 2);
        u16::from_le_bytes([p[0], p[1]])
    }

    /// The word of four bytes at `at`, the lowest byte first.
    pub fn read32(&self, at: u32) -> u32
        requires { at + 4 ≤ length self.now }
        ensures { result ≡ word32 self.now at }
    {
        let p = self.part(at, 4);
        u32::from_le_bytes([p[0], p[1], p[2], p[3]])
    }

    /// Replaces the byte at `at`.
    pub fn write8(&mut self, at: u32, v: u8)
        requires { at < length self.old }
        ensures memory { self.new ≡ with_byte self.old at v }
        ensures len { length self.new ≡ length self.old }
    {
        self.put(at, &[v]);
    }

    /// Replaces the two bytes at `at`, the lowest byte first.
    pub fn write16(&mut self, at: u32, v: u16)
        requires { at + 2 ≤ length self.old }
        ensures memory { self.new ≡ with_word16 self.old at v }
        ensures len { length self.new ≡ length self.old }
    {
        self.put(at, &v.to_le_bytes());
    }

    /// Replaces the four bytes at `at`, the lowest byte first.
    pub fn write32(&mut self, at: u32, v: u32)
        requires { at + 4 ≤ length self.old }
        ensures memory { self.new ≡ with_word32 self.old at v }
        ensures len { length self.new ≡ length self.old }
    {
        self.put(at, &v.to_le_bytes());
    }
}

fn put_in(memory: &mut [u8], at: usize, bytes: &[u8])
    requires { at + length bytes.now ≤ length memory.old }
    ensures { memory.new ≡ with_part memory.old at bytes.now }
{
    memory[at..at + bytes.len()].copy_from_slice(bytes);
}

/// How many there are. Each of them is a byte, which a contract does not see in a list of numbers.
pub fn count(bytes: &[u8]) -> usize
    ensures count { result ≡ length bytes.now }
    ensures bytes { AreBytes bytes.now }
{
    bytes.len()
}

fn exchange_in(a: &mut [u8], b: &mut [u8], n: usize)
    requires { (n ≤ length a.old) × (n ≤ length b.old) }
    ensures a { a.new ≡ with_part a.old 0 (part b.old 0 n) }
    ensures b { b.new ≡ with_part b.old 0 (part a.old 0 n) }
{
    a[..n].swap_with_slice(&mut b[..n]);
}
