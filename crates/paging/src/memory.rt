//! The guest's memory as one step reaches it, as a trait.

ghost use Rattle.std.specs.Prelude.{◌≡◌, ◌+◌, ◌≤◌, ◌^◌, ◌<◌, IsTrue};
ghost use Rattle.ia32_types.specs.Bytes.{size_in_bytes};
ghost use Rattle.paging.specs.Ready.{IsReadable, IsWritable, Readied, IsReadyEarlier, FitsSize};
ghost use Rattle.paging.specs.Space.{Space, Earlier, Span, earlier_of, loaded, loaded_earlier, saved};
ghost use Rattle.paging.specs.Uses.{uses};

use crate::entry::{Access, Touch};
use ia32_types::Size;

/// The guest's memory as one step reaches it.
pub trait GuestMem {
    /// What it stands for.
    ghost space: { Self → Space };

    /// What no call changes, so that the owner of the parts knows them again.
    type Frame;

    ghost frame: { Self → Self.Frame };

    /// Translates a range, page by page from the lowest.
    fn touch(&mut self, at: u32, len: u32, access: Access) -> Touch
        requires room { (space self.old).pages ≤ 62 }
        requires some { 1 ≤ len }
        requires short { len ≤ 32 }
        ensures uses { uses (space self.old) at len access ≡ (result, space self.new) }
        ensures pages { (space self.new).pages ≤ (space self.old).pages + 2 }
        ensures ready { Readied (space self.new) at len access.write result }
        ensures earlier { (space self.new).earlier ≡ earlier_of (space self.old) }
        ensures frame { frame self.new ≡ frame self.old };

    /// Reads where this step's touches made the range ready.
    fn load(&mut self, at: u32, size: Size) -> u32
        requires { IsReadable (space self.old) at (size_in_bytes size) }
        ensures value { result ≡ loaded (space self.old) at size }
        ensures fits { FitsSize size result }
        ensures same { space self.new ≡ space self.old }
        ensures frame { frame self.new ≡ frame self.old };

    /// Reads where the touch before the last was ready, at the places that its range had then.
    fn load_earlier(&mut self, at: u32, size: Size) -> u32
        requires { IsReadyEarlier (space self.old) at size }
        ensures value { result ≡ loaded_earlier (space self.old) at size }
        ensures fits { FitsSize size result }
        ensures same { space self.new ≡ space self.old }
        ensures frame { frame self.new ≡ frame self.old };

    /// Writes where this step's touches made the range ready for a write.
    fn save(&mut self, at: u32, size: Size, value: u32)
        requires { IsWritable (space self.old) at (size_in_bytes size) }
        ensures saved { space self.new ≡ saved (space self.old) at size value }
        ensures frame { frame self.new ≡ frame self.old };
}
