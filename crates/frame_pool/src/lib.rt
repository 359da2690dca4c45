//! Frames of a memory that are handed out and come back. The free frames are a list, whose links are in their first words.
#![tactic(auto)]

ghost use Rattle.std.specs.Prelude.{◌≡◌, ◌+◌, ◌*◌, ◌<◌, ◌≤◌, ◌^◌, ◌∷◌, List, ℕ, length, MatchOption};
ghost use Rattle.frame_pool.specs.Frames.{frames_from};
ghost use Rattle.frame_pool.specs.Pool.{base_of, count_of, free_list, Stands, IsOut, SameFrames, SameBut, SameOutside, Takes, TakesNone};

mod laws;

use guest_ram::{FRAME, Ram};
pub use laws::writes_elsewhere_keep_the_pool;

/// The bytes of a frame that is taken.
const ZEROS: [u8; FRAME as usize] = [0; FRAME as usize];

/// A part of a memory's frames, some of them free. The free ones' links lie in the memory, so each call is handed the
/// memory as the pool left it. Frames are numbered from the memory's beginning, and have 4,096 bytes.
#[derive(Drop)]
pub struct Pool {
    head: u32,
    base: u32,
    count: u32,
    free: u32,
}

impl Pool {
    /// A pool of the `count` frames from `base` on, all free, lowest first.
    pub fn new(ram: &mut Ram, base: u32, count: u32) -> Pool
        requires room { 4096 * (base + count) ≤ length ram.old }
        requires some { 1 ≤ count }
        ensures list { free_list result ram.new ≡ frames_from base count }
        ensures stands { Stands result ram.new }
        ensures frames { (base_of result ≡ base) × (count_of result ≡ count) }
        ensures memory { SameOutside base count ram.old ram.new }
        ensures len { length ram.new ≡ length ram.old }
    {
        let mut pool = Pool {
            head: 0,
            base,
            count,
            free: 0,
        };
        pool.reset(ram);
        pool
    }

    /// Makes all frames free again, lowest first.
    pub fn reset(&mut self, ram: &mut Ram)
        requires { 4096 * (base_of self.old + count_of self.old) ≤ length ram.old }
        ensures list { free_list self.new ram.new ≡ frames_from (base_of self.old) (count_of self.old) }
        ensures stands { Stands self.new ram.new }
        ensures frames { SameFrames self.old self.new }
        ensures memory { SameOutside (base_of self.old) (count_of self.old) ram.old ram.new }
        ensures len { length ram.new ≡ length ram.old }
    {
        let _bytes = ram.len();
        self.free = 0;
        for i in 0..self.count {
            self.give(ram, self.base + (self.count - 1 - i));
        }
    }

    /// The first free frame, zeroed. None where no frame is free.
    pub fn take(&mut self, ram: &mut Ram) -> Option<u32>
        requires { Stands self.old ram.old }
        ensures stands { Stands self.new ram.new }
        ensures frames { SameFrames self.old self.new }
        ensures frame { MatchOption result (TakesNone self.old self.new ram.old ram.new) (λ f. Takes self.old self.new ram.old ram.new f) }
        ensures len { length ram.new ≡ length ram.old }
    {
        if self.free == 0 {
            return None;
        }
        let _bytes = ram.len();
        let frame = self.head;
        self.head = ram.read32(FRAME * frame);
        self.free -= 1;
        ram.put(FRAME * frame, &ZEROS);
        Some(frame)
    }

    /// Puts a frame that is out first, so that the next `take` gives it.
    pub fn give(&mut self, ram: &mut Ram, frame: u32)
        requires stands { Stands self.old ram.old }
        requires out { IsOut self.old ram.old frame }
        ensures list { free_list self.new ram.new ≡ frame ∷ free_list self.old ram.old }
        ensures stands { Stands self.new ram.new }
        ensures frames { SameFrames self.old self.new }
        ensures memory { SameBut frame ram.old ram.new }
        ensures len { length ram.new ≡ length ram.old }
    {
        let _bytes = ram.len();
        ram.write32(FRAME * frame, self.head);
        self.head = frame;
        self.free += 1;
    }

    /// How many frames are free.
    pub fn free(&self) -> u32
        ensures count { (m : List ℕ) → result ≡ length (free_list self.now m) }
    {
        self.free
    }
}
