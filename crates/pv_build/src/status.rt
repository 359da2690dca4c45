//! How the program ends.

ghost use Rattle.std.specs.Prelude.{◌≡◌};
ghost use Rattle.pv_build.specs.Numbers.{status_number};

/// How the program ends, in the order of its exit status; `Words` is a command line that is none of the forms.
#[derive(Clone, Copy)]
pub enum Status {
    Done,
    Words,
    Refused,
    Stopped,
    ReadFault,
    WriteFault,
    Memory,
}

impl Status {
    /// The number with which the process ends.
    pub fn number(self) -> u8
        ensures { result ≡ status_number self }
    {
        match self {
            Status::Done => 0,
            Status::Words => 2,
            Status::Refused => 3,
            Status::Stopped => 4,
            Status::ReadFault => 5,
            Status::WriteFault => 6,
            Status::Memory => 7,
        }
    }
}
