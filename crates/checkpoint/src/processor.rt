//! A processor as numbers of a checkpoint, and back.

ghost use Rattle.std.specs.Prelude.{◌≡◌, length};
ghost use Rattle.checkpoint.specs.States.{segment_from, head_of, hidden_from, cpu_of};

use crate::head::{Head, Segment};
use descriptors::{Cpu, Hidden, Table, Task};
use ia32_types::{Flags, Regs};

fn segment_from(hidden: Hidden) -> Segment
    ensures { result ≡ segment_from hidden }
{
    Segment {
        selector: hidden.sel,
        null: hidden.null as u8,
        level: hidden.dpl,
    }
}

fn hidden_from(segment: Segment) -> Hidden
    ensures { result ≡ hidden_from segment }
{
    Hidden {
        sel: segment.selector,
        null: segment.null == 1,
        dpl: segment.level,
    }
}

/// The numbers of a processor, a board, a count of steps and one of frames.
#[tactic(auto, unfolding(crate::specs::States::head_of))]
pub fn head_of(cpu: &Cpu, board: [u8; 64], step: u64, frames: u32) -> Head
    ensures head { result ≡ head_of cpu.now board step frames }
    ensures segments { length cpu.now.seg ≡ 4 }
{
    Head {
        magic: [80, 86, 67, 49],
        frames,
        step,
        registers: cpu.regs.r,
        eip: cpu.regs.eip,
        eflags: cpu.regs.flags.bits,
        cr0: cpu.cr0,
        cr2: cpu.cr2,
        cr3: cpu.cr3,
        cr4: cpu.cr4,
        gdt_base: cpu.gdt.base,
        idt_base: cpu.idt.base,
        task_base: cpu.task.base,
        task_limit: cpu.task.limit,
        gdt_limit: cpu.gdt.limit,
        idt_limit: cpu.idt.limit,
        task_selector: cpu.task.sel,
        task_loaded: cpu.task.loaded as u8,
        level: cpu.cpl,
        segments: [
            segment_from(cpu.seg[0]),
            segment_from(cpu.seg[1]),
            segment_from(cpu.seg[2]),
            segment_from(cpu.seg[3]),
        ],
        halted: cpu.halted as u8,
        held: cpu.held as u8,
        unnamed: [0; 14],
        board,
        rest: [0; 64],
    }
}

/// The processor that numbers say.
#[tactic(auto, unfolding(crate::specs::States::cpu_of))]
pub fn cpu_of(head: &Head) -> Cpu
    ensures { result ≡ cpu_of head.now }
{
    Cpu {
        regs: Regs {
            r: head.registers,
            eip: head.eip,
            flags: Flags { bits: head.eflags },
        },
        cpl: head.level,
        seg: [
            hidden_from(head.segments[0]),
            hidden_from(head.segments[1]),
            hidden_from(head.segments[2]),
            hidden_from(head.segments[3]),
        ],
        cr0: head.cr0,
        cr2: head.cr2,
        cr3: head.cr3,
        cr4: head.cr4,
        gdt: Table {
            base: head.gdt_base,
            limit: head.gdt_limit,
        },
        idt: Table {
            base: head.idt_base,
            limit: head.idt_limit,
        },
        task: Task {
            sel: head.task_selector,
            base: head.task_base,
            limit: head.task_limit,
            loaded: head.task_loaded == 1,
        },
        halted: head.halted == 1,
        held: head.held == 1,
    }
}
