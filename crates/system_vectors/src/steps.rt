//! Whole steps of a processor at level 0, from the fetch on.

use crate::world::{NONE, OPERAND, UNREAD, cpu_at, memory, put32};
use bare_mem::Cached;
use board::Board;
use descriptors::Cpu;
use ia32_types::Stop;
use machine_step::{Rules, Seen, Worked, begin_again, first_state, step_in};
use run_trace::What;
use std::alloc::Global;
use std::process::Abort;
use step_mem::{Guard, Text};
use xlate_buffer::Buffer;

/// The outcome of a step.
enum Comes {
    /// EIP goes on by so many bytes, and nothing is seen.
    Goes(u32),
    /// EIP goes on by so many bytes, and this byte is written to port 0x80.
    Writes(u32, u8),
    Stops(Stop),
}

/// The bytes at EIP, as a word, and the outcome of their step. AL is 0xA0.
static STEPS: [(u32, Comes); 5] = [
    // nop
    (0x90, Comes::Goes(1)),
    // movb $0x48,%al
    (0x48B0, Comes::Goes(2)),
    // outb %al,$0x80
    (0x80E6, Comes::Writes(2, 0xA0)),
    // rdtsc
    (0x310F, Comes::Stops(Stop::Unsupported)),
    // movl 0xF000,%eax: page 15 is not present, and the table of gates has zeros
    (0x00F0_00A1, Comes::Stops(Stop::DeliveryFailed)),
];

fn is_seen(worked: &Worked, comes: &Comes) -> bool {
    match (worked.seen, comes) {
        (Seen::Nothing, Comes::Goes(_)) => true,
        (Seen::One(What::Out8(port, byte)), Comes::Writes(_, wrote)) => {
            port == 0x80 && byte == *wrote
        }
        _ => false,
    }
}

fn comes_so(cpu: &Cpu, answer: &Result<Worked, Stop>, comes: &Comes) -> bool {
    match (answer, comes) {
        (Ok(worked), Comes::Goes(len)) | (Ok(worked), Comes::Writes(len, _)) => {
            is_seen(worked, comes) && worked.cpu.regs.eip == cpu.regs.eip.wrapping_add(*len)
        }
        (Err(found), Comes::Stops(stop)) => *found == *stop,
        _ => false,
    }
}

/// The step of a processor that stands at the word.
fn is_step(rt: &impl Abort, alloc: Global, word: u32, comes: &Comes) -> bool {
    let mut ram = memory(alloc, &NONE).expect(rt, "memory");
    put32(&mut ram, OPERAND, word);
    let mut cpu = cpu_at(0);
    cpu.regs.eip = OPERAND;
    let kept = Cached {
        cache: Buffer::new(),
    };
    let text: Option<Text> = None;
    let guard = Guard {
        text: &text,
        own: UNREAD,
    };
    let frames = ram.len() / 4096;
    let rules = Rules { image: None };
    let mut board = Board::new();
    let mut state = first_state(&text);
    begin_again(&cpu, &ram, &kept, frames, guard, &mut state);
    let answer = step_in(&rules, &cpu, &mut board, &mut ram, &kept, &mut state);
    comes_so(&cpu, &answer, comes)
}

#[test]
fn a_step_fetches_reads_and_does_an_instruction(rt: HostRuntime) {
    for (row, (word, comes)) in STEPS.iter().enumerate() {
        assert!(rt; is_step(&rt, rt.alloc(), *word, comes), "row {row}");
    }
}
