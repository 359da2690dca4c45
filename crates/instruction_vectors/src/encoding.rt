//! Instructions, and the spellings that are chosen for them.

use crate::spelled::Spelled;
use ia32_decode::{Decoded, decode};
use ia32_encode::{ArrayBytes, NoForm, Wide, encode};
use ia32_types::Insn;
use std::process::Abort;

mod kept;
mod no_forms;
mod others;
mod places;

/// Other bytes than any spelling has, to see what is written.
const BEFORE: ArrayBytes = ArrayBytes {
    bytes: [0xd6; 16],
    len: 16,
    disp_at: 15,
    imm_at: 14,
};

/// The bytes of an instruction, and its chosen spelling.
struct Choice {
    spelled: Spelled,
    chosen: Spelled,
}

// The text is for the reader.
macro_rules! choice {
    ($text:literal, [$($byte:literal),*] [$($chosen:literal),*]) => {
        Choice {
            spelled: crate::spelled::bytes!($($byte),*),
            chosen: crate::spelled::bytes!($($chosen),*),
        }
    };
}

use choice;

/// The chosen spelling of an instruction, which fields name a symbol, and where the fields stand.
struct Placed {
    bytes: Spelled,
    wide: Wide,
    disp_at: u8,
    imm_at: u8,
}

// The text is for the reader.
macro_rules! placed {
    ($text:literal, [$($byte:literal),*], $disp:literal $imm:literal, $disp_at:literal $imm_at:literal) => {
        Placed {
            bytes: crate::spelled::bytes!($($byte),*),
            wide: Wide { disp: $disp, imm: $imm },
            disp_at: $disp_at,
            imm_at: $imm_at,
        }
    };
}

use placed;

/// What is written for the instruction that the bytes spell.
fn written(spelled: &[u8], wide: Wide) -> Option<ArrayBytes> {
    let Decoded::Insn(insn, _) = decode(spelled) else {
        return None;
    };
    let mut into = BEFORE;
    match encode(&insn, wide, &mut into) {
        Ok(len) => (len == into.len).then_some(into),
        Err(NoForm) => None,
    }
}

/// Bytes are there, and each is zero.
fn are_zero(bytes: Option<&[u8]>) -> bool {
    let Some(bytes) = bytes else {
        return false;
    };
    for b in bytes {
        if *b != 0 {
            return false;
        }
    }
    true
}

/// The first bytes are these, and the others are zero.
fn are_written(into: &ArrayBytes, bytes: &[u8]) -> bool {
    usize::from(into.len) == bytes.len()
        && into.bytes.as_slice().starts_with(bytes)
        && are_zero(into.bytes.as_slice().get(bytes.len()..))
}

const NARROW: Wide = Wide {
    disp: false,
    imm: false,
};

fn is_kept(bytes: &[u8]) -> bool {
    match written(bytes, NARROW) {
        Some(into) => are_written(&into, bytes),
        None => false,
    }
}

fn is_chosen(choice: &Choice) -> bool {
    match written(choice.spelled.as_slice(), NARROW) {
        Some(into) => are_written(&into, choice.chosen.as_slice()),
        None => false,
    }
}

fn is_placed(placed: &Placed) -> bool {
    let bytes = placed.bytes.as_slice();
    match written(bytes, placed.wide) {
        Some(into) => {
            are_written(&into, bytes)
                && into.disp_at == placed.disp_at
                && into.imm_at == placed.imm_at
        }
        None => false,
    }
}

/// There is no form, and what was there before stays.
fn has_no_form(insn: &Insn, wide: Wide) -> bool {
    let mut into = BEFORE;
    encode(insn, wide, &mut into) == Err(NoForm) && into == BEFORE
}

/// Each of these has its chosen spelling.
fn are_chosen(rt: &impl Abort, choices: &[Choice]) {
    for (k, choice) in choices.iter().enumerate() {
        assert!(rt; is_chosen(choice), "row {k}");
    }
}

/// Each of these is written so.
fn are_placed(rt: &impl Abort, rows: &[Placed]) {
    for (k, placed) in rows.iter().enumerate() {
        assert!(rt; is_placed(placed), "row {k}");
    }
}
