//! The registers that a step changed.

ghost use Rattle.std.specs.Prelude.{◌≡◌, ◌+◌, ◌++◌, ◌≤◌, length, codes};
ghost use Rattle.step_text.specs.Changed as spec;

use crate::entry::{put_base_and_limit, put_selector, put_word};
use crate::row::{Row, extend};
use descriptors::{Cpu, Hidden, Table, Task};
use ia32_types::{Regs, Seg};

#[tactic(auto, unfolding(crate::specs::Changed::general_changes))]
fn put_general(old: &Regs, new: &Regs, row: &mut Row)
    requires { length row.old.items ≤ 100 }
    ensures text { row.new.items ≡ row.old.items ++ spec.general_changes old.now new.now }
    ensures len { length row.new.items ≤ length row.old.items + 153 }
{
    put_word(b"eax", old.r[0], new.r[0], row);
    put_word(b"ecx", old.r[1], new.r[1], row);
    put_word(b"edx", old.r[2], new.r[2], row);
    put_word(b"ebx", old.r[3], new.r[3], row);
    put_word(b"esp", old.r[4], new.r[4], row);
    put_word(b"ebp", old.r[5], new.r[5], row);
    put_word(b"esi", old.r[6], new.r[6], row);
    put_word(b"edi", old.r[7], new.r[7], row);
    put_word(b"eflags", old.flags.bits, new.flags.bits, row);
}

fn same_flag(old: bool, new: bool) -> bool
    ensures { result ≡ spec.same_flag old new }
{
    if old { new } else { !new }
}

fn same_segment(old: Hidden, new: Hidden) -> bool
    ensures { result ≡ spec.same_segment old new }
{
    let level = old.sel == new.sel && old.dpl == new.dpl;
    level && same_flag(old.null, new.null)
}

#[tactic(auto, unfolding(crate::specs::Changed::segment_change))]
fn put_segment(name: &[u8], old: Hidden, new: Hidden, row: &mut Row)
    requires room { length row.old.items ≤ 600 }
    requires short { length name.now ≤ 2 }
    ensures text { row.new.items ≡ row.old.items ++ spec.segment_change name.now old new }
    ensures len { length row.new.items ≤ length row.old.items + 13 }
{
    let same = same_segment(old, new);
    if !same {
        put_selector(name, new.sel, row);
    }
}

#[tactic(auto, unfolding(crate::specs::Changed::segment_changes))]
fn put_segments(old: &Cpu, new: &Cpu, row: &mut Row)
    requires { length row.old.items ≤ 300 }
    ensures text { row.new.items ≡ row.old.items ++ spec.segment_changes old.now new.now }
    ensures len { length row.new.items ≤ length row.old.items + 52 }
{
    put_segment(b"es", old.segment(Seg::Es), new.segment(Seg::Es), row);
    put_segment(b"cs", old.segment(Seg::Cs), new.segment(Seg::Cs), row);
    put_segment(b"ss", old.segment(Seg::Ss), new.segment(Seg::Ss), row);
    put_segment(b"ds", old.segment(Seg::Ds), new.segment(Seg::Ds), row);
}

#[tactic(auto, unfolding(crate::specs::Changed::control_changes))]
fn put_controls(old: &Cpu, new: &Cpu, row: &mut Row)
    requires { length row.old.items ≤ 400 }
    ensures text { row.new.items ≡ row.old.items ++ spec.control_changes old.now new.now }
    ensures len { length row.new.items ≤ length row.old.items + 68 }
{
    put_word(b"cr0", old.cr0, new.cr0, row);
    put_word(b"cr2", old.cr2, new.cr2, row);
    put_word(b"cr3", old.cr3, new.cr3, row);
    put_word(b"cr4", old.cr4, new.cr4, row);
}

#[tactic(auto, unfolding(crate::specs::Changed::table_change))]
fn put_table(name: &[u8], old: Table, new: Table, row: &mut Row)
    requires room { length row.old.items ≤ 560 }
    requires short { length name.now ≤ 4 }
    ensures text { row.new.items ≡ row.old.items ++ spec.table_change name.now old new }
    ensures len { length row.new.items ≤ length row.old.items + 22 }
{
    let same = old.base == new.base && old.limit == new.limit;
    if !same {
        put_base_and_limit(name, new.base, new.limit, row);
    }
}

fn same_task(old: Task, new: Task) -> bool
    ensures { result ≡ spec.same_task old new }
{
    let place = old.sel == new.sel && old.base == new.base && old.limit == new.limit;
    place && same_flag(old.loaded, new.loaded)
}

#[tactic(auto, unfolding(crate::specs::Changed::task_change))]
fn put_task(old: Task, new: Task, row: &mut Row)
    requires { length row.old.items ≤ 600 }
    ensures text { row.new.items ≡ row.old.items ++ spec.task_change old new }
    ensures len { length row.new.items ≤ length row.old.items + 13 }
{
    let same = same_task(old, new);
    if !same {
        put_selector(b"tr", new.sel, row);
    }
}

#[tactic(auto, unfolding(crate::specs::Changed::table_changes))]
fn put_tables(old: &Cpu, new: &Cpu, row: &mut Row)
    requires { length row.old.items ≤ 480 }
    ensures text { row.new.items ≡ row.old.items ++ spec.table_changes old.now new.now }
    ensures len { length row.new.items ≤ length row.old.items + 57 }
{
    put_table(b"gdtr", old.gdt, new.gdt, row);
    put_table(b"idtr", old.idt, new.idt, row);
    put_task(old.task, new.task, row);
}

fn put_where(is_so: bool, text: &[u8], row: &mut Row)
    requires room { length row.old.items ≤ 600 }
    requires short { length text.now ≤ 8 }
    ensures text { row.new.items ≡ row.old.items ++ spec.where_so is_so text.now }
    ensures len { length row.new.items ≤ length row.old.items + 8 }
{
    if is_so {
        extend(text, row);
    }
}

#[tactic(auto, unfolding(crate::specs::Changed::waiting_changes))]
fn put_waiting(old: &Cpu, new: &Cpu, row: &mut Row)
    requires { length row.old.items ≤ 560 }
    ensures text { row.new.items ≡ row.old.items ++ spec.waiting_changes old.now new.now }
    ensures len { length row.new.items ≤ length row.old.items + 16 }
{
    put_where(new.halted && !old.halted, b"  halted", row);
    put_where(new.held, b"  held", row);
}

/// Puts the registers that changed from one processor to another.
#[tactic(auto, unfolding(crate::specs::Changed::processor_changes))]
pub fn put_changes(old: &Cpu, new: &Cpu, row: &mut Row)
    requires { length row.old.items ≤ 100 }
    ensures text { row.new.items ≡ row.old.items ++ spec.processor_changes old.now new.now }
    ensures len { length row.new.items ≤ length row.old.items + 346 }
{
    put_general(&old.regs, &new.regs, row);
    put_segments(old, new, row);
    put_controls(old, new, row);
    put_tables(old, new, row);
    put_waiting(old, new, row);
}
