//! The sweep of a text.

ghost use Rattle.std.specs.Prelude.{◌≡◌, ℕ, ◌+◌, ◌≤◌, length, drop, slice_index_or, false, IfOk, IfSome};
ghost use Rattle.sites.specs.declared.limits.TheConstants.{TEXT_LIMIT};
ghost use Rattle.image_check.specs.Answers.{Gives};
ghost use Rattle.image_check.specs.Pieces.{is_refused, stop_cause, pieces_in, all_pieces, is_piece_start};
ghost use Rattle.image_check.specs.Conditions.{last_at};
ghost use Rattle.image_check.specs.Stops.{piece_there, AreLeft};

use crate::fault::{CheckCause, CheckFault};
use crate::piece::{Piece, role_of};
use ia32_decode::{Decoded, decode, refused};
use std::alloc::Global;

/// For each byte of a text whether an instruction begins there, and the offset of the last one.
#[derive(Drop)]
pub struct Swept {
    pub starts: Vec<bool>,
    pub last: u32,
}

fn is_refused(bytes: &[u8]) -> bool
    ensures { result ≡ is_refused bytes.now }
{
    refused(bytes).is_some()
}

fn stop_cause(rest: &[u8]) -> CheckCause
    ensures { result ≡ stop_cause rest.now }
{
    if is_refused(rest) {
        CheckCause::RefusedCode
    } else {
        CheckCause::BadCode
    }
}

/// The bytes from an offset on.
fn rest_of(text: &[u8], at: usize) -> &[u8]
    requires { at ≤ length text.now }
    ensures { result.now ≡ drop at text.now }
{
    &text[at..]
}

/// The instruction at an offset, where one stands there.
pub fn piece_there(text: &[u8], at: usize) -> Option<Piece>
    requires inside { at ≤ length text.now }
    requires limit { length text.now ≤ TEXT_LIMIT }
    ensures exact { result ≡ piece_there text.now at }
    ensures room { IfSome result (λ p. (1 ≤ p.len) × (at + p.len ≤ length text.now)) }
    ensures place { IfSome result (λ p. p.at ≡ at) }
{
    match decode(rest_of(text, at)) {
        Decoded::Insn(insn, len) => {
            Some(Piece {
                at: at as u32,
                len,
                role: role_of(at as u32, len, &insn),
            })
        }
        Decoded::Short | Decoded::Outside => None,
    }
}

/// Why the sweep stops at an offset.
fn stopped(text: &[u8], at: usize) -> CheckFault
    requires inside { at ≤ length text.now }
    requires limit { length text.now ≤ TEXT_LIMIT }
    ensures { result ≡ CheckFault.At at (stop_cause (drop at text.now)) }
{
    CheckFault::At {
        at: at as u32,
        cause: stop_cause(rest_of(text, at)),
    }
}

/// Goes through the instructions of a text, one directly after the other. They aren't kept: what asks for them
/// reads them again.
pub fn sweep(alloc: Global, text: &[u8]) -> Result<Swept, CheckFault>
    requires { length text.now ≤ TEXT_LIMIT }
    ensures pieces { Gives (λ _. all_pieces text.now) result (pieces_in text.now) }
    ensures left { IfOk result (λ _. AreLeft text.now 0 (all_pieces text.now)) }
    ensures starts { IfOk result (λ swept. (i : ℕ) → slice_index_or swept.starts.items i false ≡ is_piece_start (all_pieces text.now) i) }
    ensures last { IfOk result (λ swept. swept.last ≡ last_at (all_pieces text.now)) }
{
    let mut starts = vec![in alloc; false; text.len()]?;
    let mut last = 0;
    let mut at = 0;
    while at < text.len() {
        match piece_there(text, at) {
            None => return Err(stopped(text, at)),
            Some(piece) => {
                starts[at] = true;
                last = piece.at;
                at += piece.len as usize;
            }
        }
    }
    Ok(Swept { starts, last })
}
