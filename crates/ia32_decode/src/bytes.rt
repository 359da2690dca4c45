//! The bytes of an instruction, as they are read from one page or two.

ghost use Rattle.std.specs.Prelude.{◌≡◌, ◌+◌, ◌≤◌, ◌++◌, length};
ghost use Rattle.ia32_decode.specs.Decoding.{decoded};
ghost use Rattle.ia32_decode.specs.Spelled.{IsSpelled};

use crate::answer::{Decoded, decode_into};
use arrayvec::ArrayVec;

/// The bytes of an instruction, as far as they were read.
pub type Bytes = ArrayVec<u8, 32>;

/// Puts these bytes after those that were read.
pub fn append(from: &[u8], to: &mut Bytes)
    requires { length to.old.items + length from.now ≤ 32 }
    ensures { to.new.items ≡ to.old.items ++ from.now }
{
    match to.try_extend_from_slice(from) {
        Ok(()) => {}
        Err(_) => unreachable!(),
    }
}

/// What bytes begin with that lie in two pieces.
pub fn decode_joined(front: &[u8], back: &[u8]) -> Decoded
    requires few { length front.now + length back.now ≤ 32 }
    ensures exact { result ≡ decoded (front.now ++ back.now) }
    ensures spelled { IsSpelled result }
{
    let mut found = Decoded::Outside;
    decode_joined_into(front, back, &mut found);
    found
}

/// What bytes begin with that lie in two pieces, put into the place that the caller has for it.
#[inline(never)]
pub fn decode_joined_into(front: &[u8], back: &[u8], found: &mut Decoded)
    requires few { length front.now + length back.now ≤ 32 }
    ensures exact { found.new ≡ decoded (front.now ++ back.now) }
    ensures spelled { IsSpelled found.new }
{
    let mut bytes: Bytes = ArrayVec::new();
    append(front, &mut bytes);
    append(back, &mut bytes);
    decode_into(bytes.as_slice(), found);
}
