//! Segment registers moved, pushed and popped, and far jumps.

ghost use Rattle.std.specs.Prelude.{◌≡◌, ◌+◌, ◌*◌, ◌%◌, ◌≤◌, ◌<◌, ◌^◌};
ghost use Rattle.ia32_types.specs.declared.register.Seg.TheVariants.{Ss};
ghost use Rattle.paging.specs.Gives.{Gives};
ghost use Rattle.sys_exec.specs.Move.{selector_kept, read_seg, data_loaded, load_by, load_seg, push_seg, pop_seg, far_jump};
ghost use Rattle.sys_exec.specs.Asked.{GivesAsked};

use crate::effect::{Refusal, SysOutcome};
use crate::operand::{
    UNSUPPORTED, gone_to, next, past, past_pop, past_push, past_with, pull, push, reach_operand,
    selector, selector_in,
};
use crate::segment::{Purpose, find, load_data, mark_loaded};
use descriptors::Cpu;
use ia32_exec::address_of;
use ia32_types::{Insn, Operand, Seg, Size};
use paging::GuestMem;

/// Puts a selector into a register or into memory.
#[tactic(auto, unfolding(crate::specs::Move::selector_kept))]
fn keep_selector<M: GuestMem>(
    len: u8,
    cpu: &Cpu,
    mem: &mut M,
    sel: u16,
    into: &Operand,
) -> Result<SysOutcome, Refusal>
    requires { (M.space mem.old).pages ≤ 62 }
    ensures gives { Gives result (M.space mem.new) (selector_kept len cpu.now sel into.now (M.space mem.old)) }
    ensures pages { (M.space mem.new).pages ≤ (M.space mem.old).pages + 2 }
    ensures frame { M.frame mem.new ≡ M.frame mem.old }
    ensures asked { GivesAsked result }
{
    match into {
        Operand::Register(k) => Ok(next(past_with(cpu, len, *k % 8, u32::from(sel)))),
        Operand::Memory(a) => {
            reach_operand(cpu, mem, a, 2, true)?;
            mem.save(address_of(*a, &cpu.regs), Size::Word, u32::from(sel));
            Ok(next(past(cpu, len)))
        }
        _ => Err(UNSUPPORTED),
    }
}

/// MOV from a segment register.
#[tactic(auto, unfolding(crate::specs::Move::read_seg))]
pub fn read_seg<M: GuestMem>(
    insn: &Insn,
    len: u8,
    cpu: &Cpu,
    mem: &mut M,
) -> Result<SysOutcome, Refusal>
    requires { (M.space mem.old).pages ≤ 62 }
    ensures gives { Gives result (M.space mem.new) (read_seg insn.now insn.now.b len cpu.now (M.space mem.old)) }
    ensures pages { (M.space mem.new).pages ≤ (M.space mem.old).pages + 2 }
    ensures frame { M.frame mem.new ≡ M.frame mem.old }
    ensures asked { GivesAsked result }
{
    match insn.b {
        Operand::Segment(seg) => keep_selector(len, cpu, mem, selector_in(cpu, seg), &insn.a),
        _ => Err(UNSUPPORTED),
    }
}

/// Loads SS of what is otherwise the processor afterwards. Interrupts are then held off.
#[tactic(auto, unfolding(crate::specs::Move::load_by))]
fn load_stack<M: GuestMem>(
    after: Cpu,
    cpu: &Cpu,
    mem: &mut M,
    sel: u16,
) -> Result<SysOutcome, Refusal>
    requires { (M.space mem.old).pages ≤ 58 }
    ensures gives { Gives result (M.space mem.new) (load_by after cpu.now sel Ss (M.space mem.old)) }
    ensures pages { (M.space mem.new).pages ≤ (M.space mem.old).pages + 4 }
    ensures frame { M.frame mem.new ≡ M.frame mem.old }
    ensures asked { GivesAsked result }
{
    let loading = find(cpu, mem, Purpose::Stack(cpu.cpl), sel)?;
    mark_loaded(cpu, mem, &loading)?;
    let mut after = after;
    after.seg[2] = loading.hidden;
    after.held = true;
    Ok(next(after))
}

/// Loads a segment of data, by its place, of what is otherwise the processor afterwards.
fn load_data_at<M: GuestMem>(
    after: Cpu,
    cpu: &Cpu,
    mem: &mut M,
    sel: u16,
    place: usize,
) -> Result<SysOutcome, Refusal>
    requires room { (M.space mem.old).pages ≤ 58 }
    requires place { place < 4 }
    ensures gives { Gives result (M.space mem.new) (data_loaded after cpu.now sel place (M.space mem.old)) }
    ensures pages { (M.space mem.new).pages ≤ (M.space mem.old).pages + 4 }
    ensures frame { M.frame mem.new ≡ M.frame mem.old }
    ensures asked { GivesAsked result }
{
    let hidden = load_data(cpu, mem, sel)?;
    let mut after = after;
    after.seg[place] = hidden;
    Ok(next(after))
}

/// Loads a selector into a register of what is otherwise the processor afterwards.
#[tactic(auto, unfolding(crate::specs::Move::load_by))]
fn load_by<M: GuestMem>(
    after: Cpu,
    cpu: &Cpu,
    mem: &mut M,
    sel: u16,
    seg: Seg,
) -> Result<SysOutcome, Refusal>
    requires { (M.space mem.old).pages ≤ 58 }
    ensures gives { Gives result (M.space mem.new) (load_by after cpu.now sel seg (M.space mem.old)) }
    ensures pages { (M.space mem.new).pages ≤ (M.space mem.old).pages + 4 }
    ensures frame { M.frame mem.new ≡ M.frame mem.old }
    ensures asked { GivesAsked result }
{
    match seg {
        Seg::Cs => Err(UNSUPPORTED),
        Seg::Ss => load_stack(after, cpu, mem, sel),
        Seg::Ds => load_data_at(after, cpu, mem, sel, 3),
        Seg::Es => load_data_at(after, cpu, mem, sel, 0),
    }
}

/// MOV to a segment register.
#[tactic(auto, unfolding(crate::specs::Move::load_seg))]
pub fn load_seg<M: GuestMem>(
    insn: &Insn,
    len: u8,
    cpu: &Cpu,
    mem: &mut M,
) -> Result<SysOutcome, Refusal>
    requires { (M.space mem.old).pages ≤ 56 }
    ensures gives { Gives result (M.space mem.new) (load_seg insn.now insn.now.a len cpu.now (M.space mem.old)) }
    ensures pages { (M.space mem.new).pages ≤ (M.space mem.old).pages + 6 }
    ensures frame { M.frame mem.new ≡ M.frame mem.old }
    ensures asked { GivesAsked result }
{
    match insn.a {
        Operand::Segment(seg) => {
            let sel = selector(cpu, mem, &insn.b)?;
            load_by(past(cpu, len), cpu, mem, sel, seg)
        }
        _ => Err(UNSUPPORTED),
    }
}

/// PUSH of a segment register.
#[tactic(auto, unfolding(crate::specs::Move::push_seg))]
pub fn push_seg<M: GuestMem>(
    a: &Operand,
    len: u8,
    cpu: &Cpu,
    mem: &mut M,
) -> Result<SysOutcome, Refusal>
    requires { (M.space mem.old).pages ≤ 62 }
    ensures gives { Gives result (M.space mem.new) (push_seg a.now len cpu.now (M.space mem.old)) }
    ensures pages { (M.space mem.new).pages ≤ (M.space mem.old).pages + 2 }
    ensures frame { M.frame mem.new ≡ M.frame mem.old }
    ensures asked { GivesAsked result }
{
    match a {
        Operand::Segment(seg) => {
            push(cpu, mem, u32::from(selector_in(cpu, *seg)))?;
            Ok(next(past_push(cpu, len)))
        }
        _ => Err(UNSUPPORTED),
    }
}

/// POP of a segment register.
#[tactic(auto, unfolding(crate::specs::Move::pop_seg))]
pub fn pop_seg<M: GuestMem>(
    a: &Operand,
    len: u8,
    cpu: &Cpu,
    mem: &mut M,
) -> Result<SysOutcome, Refusal>
    requires { (M.space mem.old).pages ≤ 56 }
    ensures gives { Gives result (M.space mem.new) (pop_seg a.now len cpu.now (M.space mem.old)) }
    ensures pages { (M.space mem.new).pages ≤ (M.space mem.old).pages + 6 }
    ensures frame { M.frame mem.new ≡ M.frame mem.old }
    ensures asked { GivesAsked result }
{
    match a {
        Operand::Segment(seg) => {
            let sel = (pull(cpu, mem)? % 65536) as u16;
            load_by(past_pop(cpu, len), cpu, mem, sel, *seg)
        }
        _ => Err(UNSUPPORTED),
    }
}

/// JMP to another segment.
#[tactic(auto, unfolding(crate::specs::Move::far_jump))]
pub fn far_jump<M: GuestMem>(insn: &Insn, cpu: &Cpu, mem: &mut M) -> Result<SysOutcome, Refusal>
    requires { (M.space mem.old).pages ≤ 60 }
    ensures gives { Gives result (M.space mem.new) (far_jump insn.now cpu.now (M.space mem.old)) }
    ensures pages { (M.space mem.new).pages ≤ (M.space mem.old).pages + 4 }
    ensures frame { M.frame mem.new ≡ M.frame mem.old }
    ensures asked { GivesAsked result }
{
    let code = find(cpu, mem, Purpose::Jump, insn.sel)?;
    mark_loaded(cpu, mem, &code)?;
    let mut after = gone_to(cpu, insn.imm);
    after.seg[1] = code.hidden;
    Ok(next(after))
}
