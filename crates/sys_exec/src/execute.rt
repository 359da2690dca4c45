//! One sensitive instruction.

ghost use Rattle.std.specs.Prelude.{◌≡◌, ◌+◌, ◌*◌, ◌/◌, ◌%◌, ◌≤◌, ◌<◌, ◌^◌, length};
ghost use Rattle.paging.specs.Gives.{Gives};
ghost use Rattle.sys_exec.specs.Sys.{sys_work, told};
ghost use Rattle.sys_exec.specs.Asked.{IsAsked, GivesAsked};

use crate::branch::{call_to, jump_to, return_to};
use crate::control::{read_control, write_control};
use crate::effect::{Refusal, SysEffect, SysOutcome};
use crate::flags::{clear_interrupts, halt, pop_flags, push_flags, set_interrupts};
use crate::iret::interrupt_return;
use crate::moves::{far_jump, load_seg, pop_seg, push_seg, read_seg};
use crate::operand::{UNSUPPORTED, next};
use crate::port::{port_in, port_out};
use crate::table::{drop_page, load_gdt, load_idt, load_tr};
use descriptors::Cpu;
use ia32_types::{Insn, Op};
use paging::GuestMem;

#[tactic(auto, unfolding(crate::specs::Sys::sys_work))]
fn dispatch<M: GuestMem>(
    insn: &Insn,
    len: u8,
    cpu: &Cpu,
    mem: &mut M,
) -> Result<SysOutcome, Refusal>
    requires { (M.space mem.old).pages ≤ 48 }
    ensures gives { Gives result (M.space mem.new) (sys_work insn.now len cpu.now (M.space mem.old)) }
    ensures pages { (M.space mem.new).pages ≤ (M.space mem.old).pages + 16 }
    ensures frame { M.frame mem.new ≡ M.frame mem.old }
    ensures asked { GivesAsked result }
{
    match insn.op {
        Op::Cli => clear_interrupts(len, cpu),
        Op::Sti => set_interrupts(len, cpu),
        Op::Hlt => halt(len, cpu),
        Op::PushFlags => push_flags(len, cpu, mem),
        Op::PopFlags => pop_flags(len, cpu, mem),
        Op::Iret => Ok(next(interrupt_return(cpu, mem)?)),
        Op::ReadControl => read_control(&insn.a, &insn.b, len, cpu),
        Op::WriteControl => write_control(&insn.a, &insn.b, len, cpu),
        Op::LoadGdt => load_gdt(&insn.a, len, cpu, mem),
        Op::LoadIdt => load_idt(&insn.a, len, cpu, mem),
        Op::LoadTask => load_tr(&insn.a, len, cpu, mem),
        Op::DropPage => drop_page(&insn.a, len, cpu),
        Op::ReadSeg => read_seg(insn, len, cpu, mem),
        Op::LoadSeg => load_seg(insn, len, cpu, mem),
        Op::PushSeg => push_seg(&insn.a, len, cpu, mem),
        Op::PopSeg => pop_seg(&insn.a, len, cpu, mem),
        Op::FarJump => far_jump(insn, cpu, mem),
        Op::PortIn => port_in(insn, len, cpu),
        Op::PortOut => port_out(insn, len, cpu),
        Op::Return => return_to(insn.imm, cpu, mem),
        Op::JumpTo => jump_to(&insn.a, cpu, mem),
        Op::CallTo => call_to(&insn.a, len, cpu, mem),
        _ => Err(UNSUPPORTED),
    }
}

/// Does one sensitive instruction. Where it raises or stops, only CR2 may have changed.
pub fn sys<M: GuestMem>(insn: &Insn, len: u8, cpu: &mut Cpu, mem: &mut M) -> SysEffect
    requires { (M.space mem.old).pages ≤ 48 }
    ensures does { told cpu.old (sys_work insn.now len cpu.old (M.space mem.old)) ≡ (result, cpu.new, M.space mem.new) }
    ensures asked { IsAsked result }
    ensures pages { (M.space mem.new).pages ≤ (M.space mem.old).pages + 16 }
    ensures frame { M.frame mem.new ≡ M.frame mem.old }
{
    match dispatch(insn, len, cpu, mem) {
        Ok(done) => {
            *cpu = done.cpu;
            done.effect
        }
        Err(Refusal::Fault { code, at }) => {
            cpu.cr2 = at;
            SysEffect::Raise { vector: 14, code }
        }
        Err(Refusal::Raise { vector, code }) => SysEffect::Raise { vector, code },
        Err(Refusal::Stop(stop)) => SysEffect::Stop(stop),
    }
}
