//! What an instruction accesses in memory, determined by the registers alone.

ghost use Rattle.std.specs.Prelude.{◌≡◌, ◌<◌, ◌≤◌, ◌+◌, slice_index};
ghost use Rattle.ia32_types.specs.declared.size.Size.TheVariants.{Long};
ghost use Rattle.ia32_exec.specs.Registers.{with_whole};
ghost use Rattle.ia32_exec.specs.Ranges.{segment_of, operand_range};
ghost use Rattle.ia32_types.specs.declared.register.Seg.TheVariants.{Ds, Es};
ghost use Rattle.ia32_exec.specs.Stack.{stack_of, esp_below, esp_above};
ghost use Rattle.ia32_exec.specs.Effect.{on_stack, reads, writes, source_and_target, both_read, element, unless_over, ranges_of};
ghost use Rattle.ia32_exec.specs.Short.{IsShort};

use crate::access::{Range, Ranges};
use crate::registers::{address_of, with_whole};
use ia32_types::{Insn, Op, Operand, Reg, Regs, Seg, Size};

/// The segment of an operand with that base: SS for EBP and ESP, and DS otherwise.
pub fn segment_of(base: Option<Reg>) -> Seg
    ensures { result ≡ segment_of base }
{
    match base {
        Some(Reg::Esp) => Seg::Ss,
        Some(Reg::Ebp) => Seg::Ss,
        _ => Seg::Ds,
    }
}

fn operand_range(operand: Operand, size: Size, regs: &Regs) -> Option<Range>
    ensures range { result ≡ operand_range operand size regs.now }
    ensures short { IsShort result }
{
    match operand {
        Operand::Memory(address) => Some(Range {
            at: address_of(address, regs),
            len: size.bytes(),
            seg: segment_of(address.base),
        }),
        _ => None,
    }
}

fn on_stack(at: u32, len: u32) -> Option<Range>
    ensures range { result ≡ on_stack at len }
    ensures short { 1 ≤ len → len ≤ 32 → IsShort result }
{
    let seg = Seg::Ss;
    Some(Range { at, len, seg })
}

fn reads(read: Option<Range>) -> Ranges
    ensures ranges { result ≡ reads read }
    ensures short { IsShort read → IsShort result.read × IsShort result.write }
{
    Ranges { read, write: None }
}

fn writes(write: Option<Range>) -> Ranges
    ensures ranges { result ≡ writes write }
    ensures short { IsShort write → IsShort result.read × IsShort result.write }
{
    Ranges { read: None, write }
}

fn source_and_target(insn: &Insn, regs: &Regs) -> Ranges
    ensures ranges { result ≡ source_and_target insn.now regs.now }
    ensures short { IsShort result.read × IsShort result.write }
{
    Ranges {
        read: operand_range(insn.b, insn.size, regs),
        write: operand_range(insn.a, insn.size, regs),
    }
}

fn both_read(insn: &Insn, regs: &Regs) -> Ranges
    ensures ranges { result ≡ both_read insn.now regs.now }
    ensures short { IsShort result.read × IsShort result.write }
{
    let first = operand_range(insn.a, insn.size, regs);
    reads(first.or(operand_range(insn.b, insn.size, regs)))
}

fn element(seg: Seg, n: usize, insn: &Insn, regs: &Regs) -> Option<Range>
    requires { n < 8 }
    ensures range { result ≡ unless_over insn.now regs.now (element seg n insn.now regs.now) }
    ensures short { IsShort result }
{
    if insn.rep && regs.r[1] == 0 {
        return None;
    }
    let at = regs.r[n];
    let len = insn.size.bytes();
    Some(Range { at, len, seg })
}

fn first_read(insn: &Insn, size: Size, regs: &Regs) -> Ranges
    ensures ranges { result ≡ reads (operand_range insn.now.a size regs.now) }
    ensures short { IsShort result.read × IsShort result.write }
{
    reads(operand_range(insn.a, size, regs))
}

fn second_read(insn: &Insn, regs: &Regs) -> Ranges
    ensures ranges { result ≡ reads (operand_range insn.now.b insn.now.size regs.now) }
    ensures short { IsShort result.read × IsShort result.write }
{
    reads(operand_range(insn.b, insn.size, regs))
}

fn first_written(insn: &Insn, size: Size, regs: &Regs) -> Ranges
    ensures ranges { result ≡ writes (operand_range insn.now.a size regs.now) }
    ensures short { IsShort result.read × IsShort result.write }
{
    writes(operand_range(insn.a, size, regs))
}

fn stack_read(at: u32, len: u32) -> Ranges
    requires len { (1 ≤ len) × (len ≤ 32) }
    ensures ranges { result ≡ reads (on_stack at len) }
    ensures short { IsShort result.read × IsShort result.write }
{
    reads(on_stack(at, len))
}

fn stack_written(at: u32, len: u32) -> Ranges
    requires len { (1 ≤ len) × (len ≤ 32) }
    ensures ranges { result ≡ writes (on_stack at len) }
    ensures short { IsShort result.read × IsShort result.write }
{
    writes(on_stack(at, len))
}

/// PUSH and CALL: an operand is read, and a number of four bytes pushed.
fn read_and_pushed(insn: &Insn, regs: &Regs) -> Ranges
    ensures ranges { result
        ≡ record { read = operand_range insn.now.a Long regs.now; write = on_stack (esp_below 4 regs.now) 4 } }
    ensures short { IsShort result.read × IsShort result.write }
{
    Ranges {
        read: operand_range(insn.a, Size::Long, regs),
        write: on_stack(regs.r[4].wrapping_sub(4), 4),
    }
}

/// POP: the address of its operand is computed by ESP after it.
fn popped_to(insn: &Insn, regs: &Regs) -> Ranges
    ensures ranges { result ≡ record {
      read = on_stack (stack_of regs.now) 4;
      write = operand_range insn.now.a Long (with_whole 4 (esp_above 4 regs.now) regs.now);
    } }
    ensures short { IsShort result.read × IsShort result.write }
{
    let esp = regs.r[4];
    Ranges {
        read: on_stack(esp, 4),
        write: operand_range(
            insn.a,
            Size::Long,
            &with_whole(4, esp.wrapping_add(4), *regs),
        ),
    }
}

/// MOVS.
fn both_elements(insn: &Insn, regs: &Regs) -> Ranges
    ensures ranges { result ≡ record {
      read = unless_over insn.now regs.now (element Ds 6 insn.now regs.now);
      write = unless_over insn.now regs.now (element Es 7 insn.now regs.now);
    } }
    ensures short { IsShort result.read × IsShort result.write }
{
    Ranges {
        read: element(Seg::Ds, 6, insn, regs),
        write: element(Seg::Es, 7, insn, regs),
    }
}

/// What the registers alone say of an instruction's accesses.
#[tactic(auto, unfolding(crate::specs::Effect::ranges_of))]
#[inline(always)]
pub fn ranges(insn: &Insn, regs: &Regs) -> Ranges
    ensures ranges { result ≡ ranges_of insn.now regs.now }
    ensures short { IsShort result.read × IsShort result.write }
{
    let esp = regs.r[4];
    match insn.op {
        Op::Add
        | Op::Or
        | Op::Adc
        | Op::Sbb
        | Op::And
        | Op::Sub
        | Op::Xor
        | Op::Not
        | Op::Neg
        | Op::Inc
        | Op::Dec
        | Op::Mov
        | Op::Xchg => source_and_target(insn, regs),
        Op::Cmp | Op::Test | Op::Imul => both_read(insn, regs),
        Op::Rol | Op::Ror | Op::Shl | Op::Shr | Op::Sar => first_written(insn, insn.size, regs),
        Op::Mul | Op::Div | Op::Idiv => first_read(insn, insn.size, regs),
        Op::ImulBy | Op::Movzx | Op::Movsx => second_read(insn, regs),
        Op::Push | Op::CallTo => read_and_pushed(insn, regs),
        Op::Pop => popped_to(insn, regs),
        Op::Pusha => stack_written(esp.wrapping_sub(32), 32),
        Op::Popa => stack_read(esp, 32),
        Op::Leave => stack_read(regs.r[5], 4),
        Op::Setcc => first_written(insn, Size::Byte, regs),
        Op::Call | Op::PushFlags | Op::PushSeg => stack_written(esp.wrapping_sub(4), 4),
        Op::Movs => both_elements(insn, regs),
        Op::Stos => writes(element(Seg::Es, 7, insn, regs)),
        Op::Lods => reads(element(Seg::Ds, 6, insn, regs)),
        Op::PopFlags | Op::Return => stack_read(esp, 4),
        Op::ReadSeg => first_written(insn, Size::Word, regs),
        Op::JumpTo => first_read(insn, Size::Long, regs),
        _ => reads(None),
    }
}
