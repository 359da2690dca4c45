//! Instructions as text, as GNU objdump shows them; `.ci/text` says in what classes a text differs from objdump's.

use self::arithmetic::ARITHMETIC;
use self::branches::BRANCHES;
use self::forms::FORMS;
use self::moves::MOVES;
use self::sensitive::SENSITIVE;
use self::shifts::SHIFTS;
use self::strings::STRINGS;
use self::unary::UNARY;
use arrayvec::ArrayVec;
use ia32_decode::{Decoded, decode};
use ia32_encode::Wide;
use ia32_text::{Line, Style, Target, put_text};
use std::process::Abort;

mod arithmetic;
mod branches;
mod forms;
mod moves;
mod sensitive;
mod shifts;
mod strings;
mod unary;

/// Where each instruction stands.
const PLACE: u32 = 0x1000_0000;

/// A direct branch by a label, and each number as a number.
const STYLE: Style = Style {
    target: Target::Label,
    named: Wide {
        disp: false,
        imm: false,
    },
};

/// The bytes of a spelling, of which the longest has 11.
type Spelling = ArrayVec<u8, 16>;

/// The byte of two digits.
fn byte_of(digits: &str) -> Option<u8> {
    u8::from_str_radix(digits, 16).ok()
}

/// The bytes that stand as pairs of digits with a blank between them.
fn bytes_of(listed: &str) -> Option<Spelling> {
    let mut bytes = Spelling::new();
    for digits in listed.split(' ') {
        bytes.try_push(byte_of(digits)?).ok()?;
    }
    Some(bytes)
}

/// The text of the instruction that these bytes are, all of them.
fn text_of(bytes: &[u8]) -> Option<Line> {
    match decode(bytes) {
        Decoded::Insn(insn, len) if usize::from(len) == bytes.len() => {
            let mut line = Line::new();
            put_text(&insn, PLACE, len, STYLE, &mut line);
            Some(line)
        }
        _ => None,
    }
}

/// Whether the bytes of a row have its text.
fn has_text(row: &str) -> bool {
    let Some((listed, text)) = row.split_once(" => ") else {
        return false;
    };
    let Some(bytes) = bytes_of(listed) else {
        return false;
    };
    match text_of(bytes.as_slice()) {
        Some(line) => line.as_slice() == text.as_bytes(),
        None => false,
    }
}

/// Each row has its text.
fn have_texts(rt: &impl Abort, rows: &str) {
    for row in rows.lines() {
        assert!(rt; has_text(row), "{row}");
    }
}

static ROWS: [&str; 8] = [
    ARITHMETIC, BRANCHES, FORMS, MOVES, SENSITIVE, SHIFTS, STRINGS, UNARY,
];

#[test]
fn instructions_have_objdumps_texts(rt: HostRuntime) {
    for rows in ROWS.iter() {
        have_texts(&rt, rows);
    }
}
