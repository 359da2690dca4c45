//! Sets of a guest's frames.

ghost use Rattle.std.specs.Prelude.{◌≡◌, ◌<◌, true, false, slice_index_or, slice_set, if◌then◌else◌};
ghost use Rattle.shadow_cache.specs.FrameSets.{no_frames, all_frames};

use std::marker::Model;

/// A set of guest frames that may hold tables, those of 64 MB (16,384): a bit for each. Seen as the list that says of each
/// frame, by its number, whether it is in.
#[derive(Drop)]
pub struct FrameSet {
    words: [u64; 256],
}

impl Model for FrameSet {
    ghost use Rattle.std.specs.Prelude.{List, Bool};
    ghost use Rattle.shadow_cache.specs.FrameSets.{spread};

    ghost Value = { List Bool };

    ghost view = { λ s. spread s.words };
}

impl FrameSet {
    /// No frame.
    pub fn new() -> FrameSet
        ensures { result ≡ no_frames }
    {
        FrameSet { words: [0; 256] }
    }

    /// All frames.
    pub fn full() -> FrameSet
        ensures { result ≡ all_frames }
    {
        FrameSet {
            words: [u64::MAX; 256],
        }
    }

    /// A copy of the set.
    pub fn copy(&self) -> FrameSet
        ensures { result ≡ self.now }
    {
        FrameSet { words: self.words }
    }

    /// Takes all frames out.
    pub fn clear(&mut self)
        ensures { self.new ≡ no_frames }
    {
        self.words = [0; 256];
    }

    /// The frame is in.
    pub fn has(&self, frame: u32) -> bool
        ensures is { result ≡ slice_index_or self.now frame false }
        ensures within { result ≡ true → frame < 16384 }
    {
        match self.words.get(frame as usize / 64) {
            Some(word) => (*word >> (frame % 64)) % 2 == 1,
            None => false,
        }
    }

    /// Puts the frame in.
    pub fn add(&mut self, frame: u32)
        requires { frame < 16384 }
        ensures { self.new ≡ slice_set self.old frame true }
    {
        let word = self.words[frame as usize / 64];
        self.words[frame as usize / 64] = word | (1 << (frame % 64));
    }

    /// Takes the frame out.
    pub fn remove(&mut self, frame: u32)
        requires { frame < 16384 }
        ensures { self.new ≡ slice_set self.old frame false }
    {
        let word = self.words[frame as usize / 64];
        self.words[frame as usize / 64] = word & !(1 << (frame % 64));
    }

    /// Takes a frame out, if it is to go.
    pub fn remove_if(&mut self, frame: u32, goes: bool)
        ensures { self.new ≡ if goes then slice_set self.old frame false else self.old }
    {
        if goes && self.has(frame) {
            self.remove(frame);
        }
    }
}
