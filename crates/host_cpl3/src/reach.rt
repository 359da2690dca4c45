//! Where the addresses of one range lead.

ghost use Rattle.std.specs.Prelude.{◌<◌, ◌^◌};

/// A range of at most two pages, with the frames of its first and of its last page. A range of no bytes holds no
/// address.
#[derive(Clone, Copy)]
pub struct Reach {
    /// The linear address of its first byte.
    pub at: u32,
    /// In bytes.
    pub len: u32,
    /// The number of the frame of its first page, and of its last.
    pub first: u32,
    pub last: u32,
    ghost small: { (first < 2 ^ 20) × (last < 2 ^ 20) },
}

impl Reach {
    ghost use Rattle.std.specs.Prelude.{◌≡◌};
    ghost use Rattle.host_cpl3.specs.Reaches.{holds, placed};

    /// A range of no bytes.
    pub fn none() -> Reach
        ensures { result.len ≡ 0 }
    {
        Reach {
            at: 0,
            len: 0,
            first: 0,
            last: 0,
        }
    }

    /// Whether the linear address is one of the range's.
    pub fn holds(&self, at: u32) -> bool
        ensures { result ≡ holds self.now at }
    {
        self.at <= at && u64::from(at) < u64::from(self.at) + u64::from(self.len)
    }

    /// The place of an address that it holds.
    pub fn placed(&self, at: u32) -> u32
        ensures { result ≡ placed self.now at }
    {
        let frame = if at / 4096 == self.at / 4096 {
            self.first
        } else {
            self.last
        };
        4096 * frame + at % 4096
    }
}
