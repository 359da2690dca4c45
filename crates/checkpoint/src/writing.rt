//! Writing a checkpoint.

ghost use Rattle.std.specs.Prelude.{◌≡◌, Ok, IfOk};
ghost use Rattle.checkpoint.specs.States.{checkpoint_bytes, checkpoint_in};
ghost use Rattle.checkpoint.specs.InForm.{IsInForm};

use crate::head::put_head;
use crate::processor::head_of;
use crate::state::State;
use std::alloc::{AllocError, Global};

/// The bytes of a state, which read back as this state.
#[tactic(auto, unfolding(crate::specs::States::checkpoint_bytes))]
pub fn write_checkpoint(alloc: Global, state: &State) -> Result<Vec<u8>, AllocError>
    requires { IsInForm state.now }
    ensures bytes { IfOk result (λ v. v.items ≡ checkpoint_bytes state.now) }
    ensures back { IfOk result (λ v. checkpoint_in v.items ≡ Ok state.now) }
{
    let len = state.ram.len();
    let mut bytes = Vec::with_capacity(alloc, 256 + len as usize)?;
    let head = head_of(&state.cpu, state.board.save(), state.step, len / 4096);
    put_head(&mut bytes, &head)?;
    bytes.extend_from_slice(state.ram.part(0, len))?;
    Ok(bytes)
}
