//! The bytes that an instruction may read.

ghost use Rattle.std.specs.Prelude.{◌≡◌};
ghost use Rattle.step_exec.specs.Plain.{is_in};

use crate::memory::StepMemory;
use ia32_exec::{LinearBytes, Range, Ranges};
use ia32_types::Size;

/// Memory with two translated ranges: what is read alone, as it was translated, and what is written.
#[derive(Drop)]
pub struct View<'a, M: StepMemory> {
    pub mem: &'a M,
    pub ranges: &'a Ranges,
}

fn is_in(range: Option<Range>, at: u32) -> bool
    ensures { result ≡ is_in range at }
{
    match range {
        None => false,
        Some(range) => range.at <= at && u64::from(at) < u64::from(range.at) + u64::from(range.len),
    }
}

impl<M: StepMemory> LinearBytes for View<'_, M> {
    ghost use Rattle.step_exec.specs.Divided.{byte_of};
    ghost use Rattle.step_exec.specs.Ready.{IsOpen};

    ghost byte = { λ v at. byte_of v.ranges.now (M.space v.mem.now) at };

    ghost readable = { λ v at. IsOpen v.ranges.now (M.space v.mem.now) at };

    ghost read_in_space = { λ v at h. h.space };

    #[tactic(auto, unfolding(paging::specs::Space::loaded))]
    fn byte(&self, at: u32) -> u32 {
        if is_in(self.ranges.read, at) && self.ranges.write.is_some() {
            return self.mem.read_earlier(at, Size::Byte);
        }
        self.mem.read(at, Size::Byte)
    }

    fn whole(&self, at: u32, size: Size) -> Option<u32> {
        match &self.ranges.write {
            None => Some(self.mem.read(at, size)),
            Some(_) => match &self.ranges.read {
                None => Some(self.mem.read(at, size)),
                Some(_) => None,
            },
        }
    }
}
