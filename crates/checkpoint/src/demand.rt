//! Demands on the fields of a file, and the first field that is bad.

ghost use Rattle.std.specs.Prelude.{◌≡◌, ◌+◌, ◌<◌, ◌^◌, length};
ghost use Rattle.board.specs.Earlier.{earlier};
ghost use Rattle.checkpoint.specs.Demands.{bad_in, first_bad, of_field, zero_demands};

/// What a field at a place has to meet. It is read from the bytes before `end`, and is tested only where they are there.
#[derive(Clone, Copy)]
pub struct Demand {
    /// The offset of the field's first byte in the file.
    pub at: u32,
    pub end: u32,
    pub met: bool,
}

fn bad_in(there: usize, demand: Demand) -> Option<u32>
    ensures { result ≡ bad_in there demand }
{
    if demand.end as usize <= there && !demand.met {
        return Some(demand.at);
    }
    None
}

/// The earlier of two places.
pub fn earlier(a: Option<u32>, b: Option<u32>) -> Option<u32>
    ensures { result ≡ earlier a b }
{
    match (a, b) {
        (None, _) => b,
        (Some(_), None) => a,
        (Some(a), Some(b)) => Some(a.min(b)),
    }
}

/// The first field that is bad.
pub fn first_bad(there: usize, demands: &[Demand]) -> Option<u32>
    ensures { result ≡ first_bad there demands.now }
{
    let mut first = None;
    for demand in demands {
        first = earlier(first, bad_in(there, *demand));
    }
    first
}

/// Of a field of so many bytes.
pub fn of_field(at: u32, size: u32, met: bool) -> Demand
    requires { at + size < 2 ^ 31 }
    ensures { result ≡ of_field at size met }
{
    Demand {
        at,
        end: at + size,
        met,
    }
}

/// The first byte that isn't 0, of those from `at` on that have no name and are there.
pub fn first_set(there: usize, at: u32, bytes: &[u8]) -> Option<u32>
    requires { at + length bytes.now < 2 ^ 31 }
    ensures { result ≡ first_bad there (zero_demands at bytes.now) }
{
    for (i, b) in bytes.iter().enumerate() {
        let place = at + i as u32;
        if *b != 0 && (place as usize) < there {
            return Some(place);
        }
    }
    None
}
