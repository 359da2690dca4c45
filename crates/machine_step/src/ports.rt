//! IN and OUT at the board.

ghost use Rattle.std.specs.Prelude.{◌≡◌, ◌<◌, false, Some, IfOk, OnErr};
ghost use Rattle.paging.specs.Space.{Space};
ghost use Rattle.board.specs.Ports.{port_read, port_written};
ghost use Rattle.machine_model.specs.State.{State as Whole};
ghost use Rattle.machine_model.specs.Instruction.{with_accumulator};
ghost use Rattle.machine_model.specs.Step.{after_read, after_write, in_item, out_item};
ghost use Rattle.machine_step.specs.Roots.{EndsWith};
ghost use Rattle.machine_step.specs.Worked.{ComesTo, IsDropped, answer_of, completed_of, done_by};

use crate::worked::{Dropped, Seen, Worked};
use board::{Board, PortRead};
use descriptors::Cpu;
use ia32_exec::with_register;
use ia32_types::{Did, Insn, Size, Stop};
use run_trace::What;

/// IN puts what the board gives into AL or EAX.
#[inline(always)]
pub fn read(
    insn: &Insn,
    before: &Cpu,
    worked: &mut Worked,
    board: &mut Board,
    port: u16,
    wide: bool,
) -> Result<(), Stop>
    ensures step { (b : Whole) (s : Space) → ComesTo
        (after_read b (completed_of (done_by insn.now before.now)) worked.old.cpu port wide s (port_read board.old port wide))
        b (answer_of result worked.new) board.new s }
    ensures board { board.new ≡ (port_read board.old port wide).1 }
    ensures stopped { OnErr result (board.new ≡ board.old) }
    ensures dropped { IfOk (answer_of result worked.new) (λ w. IsDropped w.dropped) }
    ensures ends { IfOk (answer_of result worked.new) (EndsWith (Some (done_by insn.now before.now)) worked.old.cpu) }
    ensures raised { worked.new.raised ≡ worked.old.raised }
{
    match board.port_in(port, wide) {
        PortRead::Stop => Err(Stop::DeviceUse),
        PortRead::Value(value) => {
            worked.cpu = with_accumulator(wide, value, worked.cpu);
            worked.complete(
                insn,
                before,
                Seen::One(in_item(port, wide, value)),
                Dropped::Nothing,
            );
            Ok(())
        }
    }
}

fn with_accumulator(wide: bool, value: u32, cpu: Cpu) -> Cpu
    requires { wide ≡ false → value < 256 }
    ensures { result ≡ with_accumulator wide value cpu }
{
    let size = if wide { Size::Long } else { Size::Byte };
    Cpu {
        regs: with_register(size, 0, value, cpu.regs),
        ..cpu
    }
}

fn in_item(port: u16, wide: bool, value: u32) -> What
    requires { wide ≡ false → value < 256 }
    ensures { result ≡ in_item port wide value }
{
    if wide {
        What::In32(port, value)
    } else {
        What::In8(port, value as u8)
    }
}

/// OUT of AL or EAX.
#[inline(always)]
pub fn write(
    insn: &Insn,
    before: &Cpu,
    worked: &mut Worked,
    board: &mut Board,
    port: u16,
    wide: bool,
    value: u32,
) -> Result<(), Stop>
    requires fits { wide ≡ false → value < 256 }
    ensures step { (b : Whole) (s : Space) → ComesTo
        (after_write b (completed_of (done_by insn.now before.now)) worked.old.cpu (out_item port wide value) s
        (port_written board.old port wide value))
        b (answer_of result worked.new) board.new s }
    ensures board { board.new ≡ (port_written board.old port wide value).1 }
    ensures stopped { OnErr result (board.new ≡ board.old) }
    ensures dropped { IfOk (answer_of result worked.new) (λ w. IsDropped w.dropped) }
    ensures ends { IfOk (answer_of result worked.new) (EndsWith (Some (done_by insn.now before.now)) worked.old.cpu) }
    ensures raised { worked.new.raised ≡ worked.old.raised }
{
    let item = out_item(port, wide, value);
    let seen = match board.port_out(port, wide, value) {
        Did::Stop => return Err(Stop::DeviceUse),
        Did::Done => Seen::One(item),
        Did::Sent(byte) => Seen::Two(item, What::Sent(byte)),
    };
    worked.complete(insn, before, seen, Dropped::Nothing);
    Ok(())
}

fn out_item(port: u16, wide: bool, value: u32) -> What
    requires { wide ≡ false → value < 256 }
    ensures { result ≡ out_item port wide value }
{
    if wide {
        What::Out32(port, value)
    } else {
        What::Out8(port, value as u8)
    }
}
