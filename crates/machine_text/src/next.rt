//! The next instruction as text.

ghost use Rattle.std.specs.Prelude.{◌≡◌, ◌+◌, ◌++◌, ◌≤◌, length, OnOk, min};
ghost use Rattle.machine_text.specs.Below.{below};
ghost use Rattle.machine_text.specs.Mapped.{byte_now};
ghost use Rattle.machine_text.specs.Dump.{digits, address};
ghost use Rattle.machine_text.specs.Next as spec;
ghost use Rattle.machine_text.specs.Views.{seen, IsWithin};

use crate::dump::{add_digits, address};
use crate::mapped::{Mapped, byte_now};
use arrayvec::ArrayVec;
use ia32_decode::Decoded;
use ia32_encode::Wide;
use ia32_text::{Line, Style, Target, add, eight_digits, put_text};
use ia32_types::Insn;
use linear_view::instruction_at;
use std::alloc::AllocError;
use xlate_buffer::Cache;

/// Numbers as they are, and the target of a direct branch by its address.
const BY_ADDRESS: Style = Style {
    target: Target::Address,
    named: Wide {
        disp: false,
        imm: false,
    },
};

fn add_bytes_at<C: Cache>(memory: &Mapped<'_, C>, at: u32, len: u8, line: &mut Line)
    requires within { IsWithin (seen C.entries memory.now) }
    requires room { length line.old.items ≤ 30 }
    ensures text { line.new.items ≡ line.old.items ++ spec.bytes_at (seen C.entries memory.now) at len }
    ensures len { length line.new.items ≤ length line.old.items + 33 }
{
    let count = u32::from(len).min(11);
    for i in 0..count {
        add_digits(byte_now(memory, address(at, i)), line);
    }
}

fn add_instruction<C: Cache>(memory: &Mapped<'_, C>, at: u32, insn: &Insn, len: u8, line: &mut Line)
    requires within { IsWithin (seen C.entries memory.now) }
    requires room { length line.old.items ≤ 30 }
    ensures text { line.new.items ≡ line.old.items ++ spec.instruction_line (seen C.entries memory.now) at insn.now len }
    ensures len { length line.new.items ≤ length line.old.items + 160 }
{
    add_bytes_at(memory, at, len, line);
    add(b" ", line);
    put_text(insn, at, len, BY_ADDRESS, line);
}

fn add_read<C: Cache>(memory: &Mapped<'_, C>, at: u32, read: Option<Decoded>, line: &mut Line)
    requires within { IsWithin (seen C.entries memory.now) }
    requires room { length line.old.items ≤ 30 }
    ensures text { line.new.items ≡ line.old.items ++ spec.read_text (seen C.entries memory.now) at read }
    ensures len { length line.new.items ≤ length line.old.items + 160 }
{
    match read {
        None => add(b" not mapped", line),
        Some(read) => match read {
            Decoded::Insn(insn, len) => add_instruction(memory, at, &insn, len, line),
            Decoded::Outside => add(b" no instruction", line),
            Decoded::Short => add(b" no instruction", line),
        },
    }
}

/// The instruction at a linear address, with its bytes.
#[tactic(auto, unfolding(crate::specs::Next::next_text))]
pub fn add_next<C: Cache>(
    memory: &Mapped<'_, C>,
    at: u32,
    text: &mut Vec<u8>,
) -> Result<(), AllocError>
    requires { IsWithin (seen C.entries memory.now) }
    ensures { OnOk result (text.new.items ≡ text.old.items ++ spec.next_text (seen C.entries memory.now) at) }
{
    let read = instruction_at(memory.ram, memory.frames, memory.cpu, memory.cache, at);
    let mut line: Line = ArrayVec::new();
    add(b"next    ", &mut line);
    eight_digits(at, &mut line);
    add_read(memory, at, read, &mut line);
    add(b"\n", &mut line);
    text.extend_from_slice(line.as_slice())
}
