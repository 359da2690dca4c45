//! The processor's registers.

ghost use Rattle.std.specs.Prelude.{◌≡◌, ◌+◌, ◌++◌, ◌≤◌, ◌<◌, length, codes, OnOk};
ghost use Rattle.machine_text.specs.Registers as spec;
ghost use Rattle.machine_text.specs.Numbers.{long_line};

use crate::numbers::{add_answer, add_long_line, add_where};
use crate::segments::{add_controls, add_segments, add_tables};
use arrayvec::ArrayVec;
use descriptors::Cpu;
use ia32_text::{Line, add, eight_digits, one_digit};
use ia32_types::{Flags, Regs};
use std::alloc::AllocError;

fn add_first(regs: &Regs, text: &mut Vec<u8>) -> Result<(), AllocError>
    ensures { OnOk result (text.new.items ≡ text.old.items ++ spec.first_text regs.now) }
{
    add_long_line(b"eax     ", regs.r[0], text)?;
    add_long_line(b"ecx     ", regs.r[1], text)?;
    add_long_line(b"edx     ", regs.r[2], text)?;
    add_long_line(b"ebx     ", regs.r[3], text)
}

fn add_last(regs: &Regs, text: &mut Vec<u8>) -> Result<(), AllocError>
    ensures { OnOk result (text.new.items ≡ text.old.items ++ spec.last_text regs.now) }
{
    add_long_line(b"esp     ", regs.r[4], text)?;
    add_long_line(b"ebp     ", regs.r[5], text)?;
    add_long_line(b"esi     ", regs.r[6], text)?;
    add_long_line(b"edi     ", regs.r[7], text)
}

fn add_flag(flags: Flags, name: &[u8], at: u32, line: &mut Line)
    requires at { at < 32 }
    requires room { length line.old.items + length name.now ≤ 300 }
    ensures text { line.new.items ≡ line.old.items ++ spec.flag flags.bits name.now at }
    ensures len { length line.new.items ≤ length line.old.items + length name.now }
{
    add_where(flags.bit(at), name, line);
}

fn add_high_flags(flags: Flags, line: &mut Line)
    requires { length line.old.items ≤ 200 }
    ensures text { line.new.items ≡ line.old.items ++ spec.high_flags flags.bits }
    ensures len { length line.new.items ≤ length line.old.items + 12 }
{
    add_flag(flags, b" of", 11, line);
    add_flag(flags, b" df", 10, line);
    add_flag(flags, b" if", 9, line);
    add_flag(flags, b" sf", 7, line);
}

fn add_low_flags(flags: Flags, line: &mut Line)
    requires { length line.old.items ≤ 200 }
    ensures text { line.new.items ≡ line.old.items ++ spec.low_flags flags.bits }
    ensures len { length line.new.items ≤ length line.old.items + 12 }
{
    add_flag(flags, b" zf", 6, line);
    add_flag(flags, b" af", 4, line);
    add_flag(flags, b" pf", 2, line);
    add_flag(flags, b" cf", 0, line);
}

fn add_flags(flags: Flags, text: &mut Vec<u8>) -> Result<(), AllocError>
    ensures { OnOk result (text.new.items ≡ text.old.items ++ spec.flags_text flags.bits) }
{
    let mut line: Line = ArrayVec::new();
    add(b"eflags  ", &mut line);
    eight_digits(flags.bits, &mut line);
    add(b" iopl ", &mut line);
    one_digit((flags.bits / 4096 % 4) as u8, &mut line);
    add_high_flags(flags, &mut line);
    add_low_flags(flags, &mut line);
    add(b"\n", &mut line);
    text.extend_from_slice(line.as_slice())
}

fn add_level(cpl: u8, text: &mut Vec<u8>) -> Result<(), AllocError>
    ensures { OnOk result (text.new.items ≡ text.old.items ++ spec.level_text cpl) }
{
    let mut line: Line = ArrayVec::new();
    add(b"level   ", &mut line);
    one_digit(cpl % 4, &mut line);
    add(b"\n", &mut line);
    text.extend_from_slice(line.as_slice())
}

fn add_doing(cpu: &Cpu, text: &mut Vec<u8>) -> Result<(), AllocError>
    ensures { OnOk result (text.new.items ≡ text.old.items ++ spec.doing_text cpu.now) }
{
    add_level(cpu.cpl, text)?;
    add_answer(b"halted  ", cpu.halted, text)?;
    add_answer(b"held    ", cpu.held, text)
}

fn add_general(regs: &Regs, text: &mut Vec<u8>) -> Result<(), AllocError>
    ensures { OnOk result (text.new.items ≡ text.old.items ++ (spec.first_text regs.now ++ spec.last_text regs.now)) }
{
    add_first(regs, text)?;
    add_last(regs, text)
}

fn add_eip_and_flags(regs: &Regs, text: &mut Vec<u8>) -> Result<(), AllocError>
    ensures { OnOk result (text.new.items ≡ text.old.items ++
        (long_line (codes "eip     ") regs.now.eip ++ spec.flags_text regs.now.flags.bits)) }
{
    add_long_line(b"eip     ", regs.eip, text)?;
    add_flags(regs.flags, text)
}

fn add_hidden(cpu: &Cpu, text: &mut Vec<u8>) -> Result<(), AllocError>
    ensures { OnOk result (text.new.items ≡ text.old.items ++
        (spec.segments_text cpu.now ++ spec.controls_text cpu.now ++ spec.tables_text cpu.now)) }
{
    add_segments(cpu, text)?;
    add_controls(cpu, text)?;
    add_tables(cpu, text)
}

/// All registers of a processor, a line each.
#[tactic(auto, unfolding(crate::specs::Registers::registers_text))]
pub fn add_registers(cpu: &Cpu, text: &mut Vec<u8>) -> Result<(), AllocError>
    ensures { OnOk result (text.new.items ≡ text.old.items ++ spec.registers_text cpu.now) }
{
    add_doing(cpu, text)?;
    add_general(&cpu.regs, text)?;
    add_eip_and_flags(&cpu.regs, text)?;
    add_hidden(cpu, text)
}
