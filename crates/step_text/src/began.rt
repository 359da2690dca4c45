//! How the line of a step begins.

ghost use Rattle.std.specs.Prelude.{◌≡◌, ◌+◌, ◌++◌, ◌≤◌, length, decimal, codes};
ghost use Rattle.ia32_text.specs.Text.{instruction_text};
ghost use Rattle.run_trace.specs.Text.{hex2};
ghost use Rattle.step_text.specs.Began as spec;

use crate::activity::Activity;
use crate::row::{Row, extend};
use arrayvec::ArrayVec;
use descriptors::Cpu;
use ia32_encode::Wide;
use ia32_text::{Line, Style, Target, add, eight_digits, put_text, two_digits};
use ia32_types::Insn;
use itoa::Buffer;

const BY_ADDRESS: Style = Style {
    target: Target::Address,
    named: Wide {
        disp: false,
        imm: false,
    },
};

fn number(n: u64, line: &mut Line)
    requires { length line.old.items ≤ 64 }
    ensures text { line.new.items ≡ line.old.items ++ decimal n }
    ensures len { length line.new.items ≤ length line.old.items + 40 }
{
    let mut buffer = Buffer::new();
    add(buffer.format(n).as_bytes(), line);
}

fn put_instruction(insn: &Insn, eip: u32, len: u8, line: &mut Line)
    requires { length line.old.items ≤ 100 }
    ensures text { line.new.items ≡ line.old.items ++ instruction_text spec.by_address insn.now eip len }
    ensures len { length line.new.items ≤ length line.old.items + 119 }
{
    put_text(insn, eip, len, BY_ADDRESS, line);
}

fn put_interrupt(vector: u8, line: &mut Line)
    requires { length line.old.items ≤ 100 }
    ensures text { line.new.items ≡ line.old.items ++ (codes "irq " ++ hex2 vector) }
    ensures len { length line.new.items ≤ length line.old.items + 119 }
{
    add(b"irq ", line);
    two_digits(vector, line);
}

#[tactic(auto, unfolding(crate::specs::Began::activity_text))]
fn put_activity(does: Activity, eip: u32, line: &mut Line)
    requires { length line.old.items ≤ 100 }
    ensures text { line.new.items ≡ line.old.items ++ spec.activity_text eip does }
    ensures len { length line.new.items ≤ length line.old.items + 119 }
{
    match does {
        Activity::Waits => add(b"halted", line),
        Activity::Takes(vector) => put_interrupt(vector, line),
        Activity::CarriesOut(insn, len) => put_instruction(&insn, eip, len, line),
        Activity::Unsupported => add(b"unsupported", line),
        Activity::Unfetched => add(b"unfetched", line),
    }
}

/// The step's number, the level and EIP, with a blank after each.
#[tactic(auto, unfolding(crate::specs::Began::place_text))]
fn put_place(step: u64, cpu: &Cpu, line: &mut Line)
    requires { length line.old.items ≡ 0 }
    ensures text { line.new.items ≡ line.old.items ++ spec.place_text step cpu.now }
    ensures len { length line.new.items ≤ 96 }
{
    number(step, line);
    add(b" ", line);
    number(u64::from(cpu.cpl), line);
    add(b" ", line);
    eight_digits(cpu.regs.eip, line);
    add(b" ", line);
}

/// Puts the beginning of a step's line, by the processor before the step.
#[tactic(auto, unfolding(crate::specs::Began::began_text))]
pub fn put_began(step: u64, cpu: &Cpu, does: Activity, row: &mut Row)
    requires { length row.old.items ≤ 100 }
    ensures text { row.new.items ≡ row.old.items ++ spec.began_text step cpu.now does }
    ensures len { length row.new.items ≤ length row.old.items + 215 }
{
    let mut line: Line = ArrayVec::new();
    put_place(step, cpu, &mut line);
    put_activity(does, cpu.regs.eip, &mut line);
    extend(line.as_slice(), row);
}
