//! A whole machine as text.

ghost use Rattle.std.specs.Prelude.{◌≡◌, ◌++◌, OnOk};
ghost use Rattle.machine_text.specs.Shown as spec;
ghost use Rattle.machine_text.specs.Views.{seen, IsWithin};

use crate::cached::add_cached;
use crate::devices::add_devices;
use crate::mapped::Mapped;
use crate::next::add_next;
use crate::registers::add_registers;
use board::Board;
use std::alloc::AllocError;
use xlate_buffer::Cache;

/// All but the memory: registers, the next instruction, the devices, and the cached translations.
#[tactic(auto, unfolding(crate::specs::Shown::state_text))]
pub fn add_state<C: Cache>(
    memory: &Mapped<'_, C>,
    board: &Board,
    text: &mut Vec<u8>,
) -> Result<(), AllocError>
    requires { IsWithin (seen C.entries memory.now) }
    ensures { OnOk result (text.new.items ≡ text.old.items ++ spec.state_text memory.now.cpu.now (seen C.entries memory.now) board.now) }
{
    add_registers(memory.cpu, text)?;
    add_next(memory, memory.cpu.regs.eip, text)?;
    add_devices(board, text)?;
    add_cached(memory.cache, text)
}
