//! How a source has to write an instruction so that it is spelled by some bytes.

ghost use Rattle.std.specs.Prelude.{◌≡◌};
ghost use Rattle.pv_look.specs.Spelling.{is_spelled, named_fields};

use ia32_encode::{ArrayBytes, Wide, encode};
use ia32_types::Insn;

const EMPTY: ArrayBytes = ArrayBytes {
    bytes: [0; 16],
    len: 0,
    disp_at: 0,
    imm_at: 0,
};

/// Nothing names a symbol.
pub const PLAIN: Wide = Wide {
    disp: false,
    imm: false,
};

const DISPLACEMENT: Wide = Wide {
    disp: true,
    imm: false,
};

const IMMEDIATE: Wide = Wide {
    disp: false,
    imm: true,
};

const BOTH: Wide = Wide {
    disp: true,
    imm: true,
};

/// Whether these bytes are the chosen spelling where these fields name a symbol.
fn is_spelled(insn: &Insn, fields: Wide, bytes: &[u8]) -> bool
    ensures { result ≡ is_spelled fields insn.now bytes.now }
{
    let mut spelling = EMPTY;
    match encode(insn, fields, &mut spelling) {
        Ok(len) => &spelling.bytes[..len as usize] == bytes,
        Err(_) => false,
    }
}

/// The fields that have to name a symbol, as few as will do; nothing where no source is assembled to the bytes.
#[tactic(auto, unfolding(crate::specs::Spelling::named_fields))]
pub fn named_fields(insn: &Insn, bytes: &[u8]) -> Option<Wide>
    ensures { result ≡ named_fields insn.now bytes.now }
{
    if is_spelled(insn, PLAIN, bytes) {
        Some(PLAIN)
    } else if is_spelled(insn, DISPLACEMENT, bytes) {
        Some(DISPLACEMENT)
    } else if is_spelled(insn, IMMEDIATE, bytes) {
        Some(IMMEDIATE)
    } else if is_spelled(insn, BOTH, bytes) {
        Some(BOTH)
    } else {
        None
    }
}
