//! Reading a checkpoint.

ghost use Rattle.std.specs.Prelude.{◌≡◌, ◌+◌, ◌*◌, ◌≤◌, ◌<◌, ◌^◌, IfOk, IfNone, IfSome, length, drop};
ghost use Rattle.checkpoint.specs.Head.{head_at};
ghost use Rattle.checkpoint.specs.States.{checkpoint_bytes, checkpoint_in, front, size, misses, fault_of};
ghost use Rattle.checkpoint.specs.InForm.{IsInForm, Gives};

use crate::form::bad_field;
use crate::head::{Head, head_at};
use crate::processor::cpu_of;
use crate::state::{CheckpointCause, CheckpointFault, State};
use board::Board;
use guest_ram::Ram;
use std::alloc::{AllocError, Global};

/// The bytes of a file in front of the memory, with zeros for those that aren't there.
fn front(bytes: &[u8]) -> [u8; 256]
    ensures { result ≡ front bytes.now }
{
    let mut front = [0; 256];
    let there = bytes.len().min(256);
    front[..there].copy_from_slice(&bytes[..there]);
    front
}

/// Where a file of so many bytes ends too early or too late.
fn misses(there: usize, frames: u32) -> Option<u32>
    requires { frames ≤ 16384 }
    ensures { result ≡ misses there (size frames) }
{
    let size = 256 + 4096 * frames;
    if there < size as usize {
        return Some(there as u32);
    }
    if (size as usize) < there {
        return Some(size);
    }
    None
}

/// The first bad place of a file with these numbers, of which so many bytes are there.
#[tactic(auto, unfolding(crate::specs::States::fault_of))]
fn fault_of(head: &Head, there: usize) -> Option<u32>
    ensures place { result ≡ fault_of head.now there }
    ensures frames { IfNone result ((2048 ≤ head.now.frames) × (head.now.frames ≤ 16384)) }
    ensures size { IfNone result (there ≡ size head.now.frames) }
{
    if let Some(at) = bad_field(there, head) {
        return Some(at);
    }
    if there < 8 {
        return Some(there as u32);
    }
    misses(there, head.frames)
}

/// The memory after the first 256 bytes.
fn memory(alloc: Global, bytes: &[u8], frames: u32) -> Result<Ram, AllocError>
    requires frames { (2048 ≤ frames) × (frames ≤ 16384) }
    requires size { length bytes.now ≡ size frames }
    ensures { IfOk result (λ ram. ram ≡ drop 256 bytes.now) }
{
    let mut ram = Ram::new(alloc, frames)?;
    ram.put(0, &bytes[256..]);
    Ok(ram)
}

/// The state that the bytes say, or the first bad place.
#[tactic(auto, unfolding(crate::specs::States::checkpoint_in))]
pub fn read_checkpoint(alloc: Global, bytes: &[u8]) -> Result<State, CheckpointFault>
    // The bytes are those of the state, which has the form.
    ensures spelled { IfOk result (λ state. (bytes.now ≡ checkpoint_bytes state) × IsInForm state) }
    // The state or the first bad place, unless memory runs out.
    ensures exact { Gives result (checkpoint_in bytes.now) }
{
    let head = head_at(&front(bytes));
    if let Some(at) = fault_of(&head, bytes.len()) {
        return Err(CheckpointFault::At {
            at,
            cause: CheckpointCause::Form,
        });
    }
    let board = match Board::restore(&head.board) {
        Some(board) => board,
        None => unreachable!(),
    };
    match memory(alloc, bytes, head.frames) {
        Ok(ram) => Ok(State {
            cpu: cpu_of(&head),
            board,
            step: head.step,
            ram,
        }),
        Err(_) => Err(CheckpointFault::Memory),
    }
}
