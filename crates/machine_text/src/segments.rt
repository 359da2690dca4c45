//! Segments, control registers, and the registers of the tables and the TSS.

ghost use Rattle.std.specs.Prelude.{◌≡◌, ◌+◌, ◌++◌, ◌≤◌, length, OnOk};
ghost use Rattle.machine_text.specs.Registers as spec;

use crate::numbers::{add_long_line, add_where};
use arrayvec::ArrayVec;
use descriptors::{Cpu, Hidden, Table, Task};
use ia32_text::{Line, add, eight_digits, four_digits, one_digit};
use std::alloc::AllocError;

fn add_segment(name: &[u8], segment: Hidden, text: &mut Vec<u8>) -> Result<(), AllocError>
    requires { length name.now ≤ 100 }
    ensures { OnOk result (text.new.items ≡ text.old.items ++ spec.segment_text name.now segment) }
{
    let mut line: Line = ArrayVec::new();
    add(name, &mut line);
    four_digits(segment.sel, &mut line);
    add(b" level ", &mut line);
    one_digit(segment.dpl % 4, &mut line);
    add_where(segment.null, b" null", &mut line);
    add(b"\n", &mut line);
    text.extend_from_slice(line.as_slice())
}

/// The segment registers.
pub fn add_segments(cpu: &Cpu, text: &mut Vec<u8>) -> Result<(), AllocError>
    ensures { OnOk result (text.new.items ≡ text.old.items ++ spec.segments_text cpu.now) }
{
    add_segment(b"es      ", cpu.seg[0], text)?;
    add_segment(b"cs      ", cpu.seg[1], text)?;
    add_segment(b"ss      ", cpu.seg[2], text)?;
    add_segment(b"ds      ", cpu.seg[3], text)
}

/// The control registers.
pub fn add_controls(cpu: &Cpu, text: &mut Vec<u8>) -> Result<(), AllocError>
    ensures { OnOk result (text.new.items ≡ text.old.items ++ spec.controls_text cpu.now) }
{
    add_long_line(b"cr0     ", cpu.cr0, text)?;
    add_long_line(b"cr2     ", cpu.cr2, text)?;
    add_long_line(b"cr3     ", cpu.cr3, text)?;
    add_long_line(b"cr4     ", cpu.cr4, text)
}

fn add_table(name: &[u8], table: Table, text: &mut Vec<u8>) -> Result<(), AllocError>
    requires { length name.now ≤ 100 }
    ensures { OnOk result (text.new.items ≡ text.old.items ++ spec.table_text name.now table) }
{
    let mut line: Line = ArrayVec::new();
    add(name, &mut line);
    eight_digits(table.base, &mut line);
    add(b" limit ", &mut line);
    four_digits(table.limit, &mut line);
    add(b"\n", &mut line);
    text.extend_from_slice(line.as_slice())
}

fn add_task_front(task: Task, line: &mut Line)
    requires { length line.old.items ≤ 10 }
    ensures text { line.new.items ≡ line.old.items ++ spec.task_front task }
    ensures len { length line.new.items ≤ length line.old.items + 30 }
{
    add(b"tr      ", line);
    four_digits(task.sel, line);
    add(b" base ", line);
    eight_digits(task.base, line);
}

fn add_task_back(task: Task, line: &mut Line)
    requires { length line.old.items ≤ 50 }
    ensures { line.new.items ≡ line.old.items ++ spec.task_back task }
{
    add(b" limit ", line);
    eight_digits(task.limit, line);
    add_where(!task.loaded, b" never loaded", line);
    add(b"\n", line);
}

fn add_task(task: Task, text: &mut Vec<u8>) -> Result<(), AllocError>
    ensures { OnOk result (text.new.items ≡ text.old.items ++ spec.task_text task) }
{
    let mut line: Line = ArrayVec::new();
    add_task_front(task, &mut line);
    add_task_back(task, &mut line);
    text.extend_from_slice(line.as_slice())
}

/// The registers of the descriptor tables, and TR.
pub fn add_tables(cpu: &Cpu, text: &mut Vec<u8>) -> Result<(), AllocError>
    ensures { OnOk result (text.new.items ≡ text.old.items ++ spec.tables_text cpu.now) }
{
    add_table(b"gdtr    ", cpu.gdt, text)?;
    add_table(b"idtr    ", cpu.idt, text)?;
    add_task(cpu.task, text)
}
