//! Answers against texts, and rows of such texts.

use std::alloc::{AllocError, Global};
use std::process::Abort;

const DIGITS: &[u8; 16] = b"0123456789abcdef";

/// What is left of a text, as long as what comes agrees with it.
#[derive(Clone, Copy)]
pub struct Rest<'a> {
    text: &'a [u8],
    agrees: bool,
}

impl<'a> Rest<'a> {
    /// Nothing of the text has come.
    pub fn new(text: &'a [u8]) -> Rest<'a> {
        Rest { text, agrees: true }
    }

    /// Whether nothing is left.
    pub fn is_done(&self) -> bool {
        self.agrees && self.text.is_empty()
    }

    /// These bytes come next.
    pub fn take(&mut self, bytes: &[u8]) {
        match self.text.strip_prefix(bytes) {
            Some(rest) => self.text = rest,
            None => self.agrees = false,
        }
    }

    /// This text comes next.
    pub fn take_text(&mut self, text: Result<String, AllocError>) {
        match text {
            Ok(text) => self.take(text.as_bytes()),
            Err(AllocError) => self.agrees = false,
        }
    }

    /// Each of these bytes comes next as two digits, with a blank before it.
    pub fn take_bytes(&mut self, bytes: &[u8]) {
        for byte in bytes {
            let (high, low) = (*byte / 16, *byte % 16);
            self.take(&[b' ', DIGITS[high as usize], DIGITS[low as usize]]);
        }
    }
}

/// What stands before the arrow of a row, and what stands after it.
pub fn sides(row: &str) -> (&str, &str) {
    match row.split_once(" =>") {
        Some((text, listed)) => (text, listed.strip_prefix(' ').unwrap_or(listed)),
        None => (row, "no arrow"),
    }
}

/// The bytes of a text, with a newline for each `~`.
pub fn unmarked(rt: &impl Abort, alloc: Global, text: &str) -> Vec<u8> {
    let mut bytes = Vec::from_slice(alloc, text.as_bytes()).expect(rt, "memory");
    for byte in bytes.iter_mut() {
        if *byte == b'~' {
            *byte = b'\n';
        }
    }
    bytes
}

/// That holds of a row.
pub fn told(rt: &impl Abort, row: &str, held: bool) {
    assert!(rt; held, "{row}");
}

/// What stands in a row of a table holds.
pub fn holds(rt: &impl Abort, row: usize, held: bool) {
    assert!(rt; held, "row {row}");
}

/// Puts the piece after the bytes.
pub fn add(rt: &impl Abort, bytes: &mut Vec<u8>, piece: &[u8]) {
    bytes.extend_from_slice(piece).expect(rt, "memory");
}

/// Puts the piece so many times after the bytes.
pub fn put_times(rt: &impl Abort, bytes: &mut Vec<u8>, piece: &[u8], count: u32) {
    for _ in 0..count {
        add(rt, bytes, piece);
    }
}

/// Whether that is the line and the number of a refusal.
pub fn is_fault(alloc: Global, listed: &str, line: u32, number: u8) -> bool {
    let mut rest = Rest::new(listed.as_bytes());
    rest.take_text(format!(in alloc; "{line} {number}"));
    rest.is_done()
}
