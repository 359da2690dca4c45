//! Single instructions, step by step, over memory that is filled with one byte.

use super::{AT_START, BASE, Flat, PLAIN, START, step, word_of};
use ia32_exec::{Effect, ranges};
use ia32_types::{Address, Insn, Op, Operand, Reg, Regs, Size};
use std::process::Abort;

/// An instruction of so many bytes, and its outcome; a register that is set; or what is seen: registers, EIP, flags,
/// a word of the memory, and where an instruction is going to write.
enum Step {
    Done(Insn, u8, Effect),
    Set(usize, u32),
    Register(usize, u32),
    Registers([u32; 8]),
    Eip(u32),
    Flags(u32),
    Word(u32, u32),
    Writes(Insn, u32),
}

fn is_written_at(insn: &Insn, regs: &Regs, at: u32) -> bool {
    match ranges(insn, regs).write {
        Some(range) => range.at == at,
        None => false,
    }
}

/// Whether a step has the result that it states.
fn holds(regs: &mut Regs, mem: &mut Flat, row: &Step) -> bool {
    match *row {
        Step::Done(insn, len, effect) => step(&insn, len, regs, mem) == Some(effect),
        Step::Set(k, v) => {
            regs.r[k % 8] = v;
            true
        }
        Step::Register(k, v) => regs.r[k % 8] == v,
        Step::Registers(r) => regs.r == r,
        Step::Eip(at) => regs.eip == at,
        Step::Flags(bits) => regs.flags.bits == bits,
        Step::Word(at, v) => word_of(mem, at) == v,
        Step::Writes(insn, at) => is_written_at(&insn, regs, at),
    }
}

fn follow(rt: &impl Abort, shown: &str, fill: u8, steps: &[Step]) {
    let mut regs = START;
    let mut mem = Flat { bytes: [fill; 256] };
    for (k, row) in steps.iter().enumerate() {
        assert!(rt; holds(&mut regs, &mut mem, row), "{shown}: step {k}");
    }
}

const ADD_TO_AH: Insn = Insn {
    op: Op::Add,
    size: Size::Byte,
    a: Operand::Register(4),
    imm: 0xff,
    ..PLAIN
};

static ADDED: [Step; 4] = [
    Step::Done(ADD_TO_AH, 3, Effect::Next),
    Step::Register(0, 0xff01),
    Step::Eip(0x1003),
    Step::Flags(0x86),
];

const PUSH_ALL: Insn = Insn {
    op: Op::Pusha,
    ..PLAIN
};

const POP_ALL: Insn = Insn {
    op: Op::Popa,
    ..PLAIN
};

static PUSHED_AND_POPPED: [Step; 10] = [
    Step::Done(PUSH_ALL, 1, Effect::Next),
    Step::Register(4, BASE + 0x60),
    Step::Word(BASE + 0x60, BASE + 0x30),
    Step::Word(BASE + 0x6c, BASE + 0x80),
    Step::Word(BASE + 0x7c, 1),
    Step::Set(0, 0),
    Step::Set(7, 0),
    Step::Done(POP_ALL, 1, Effect::Next),
    Step::Registers(AT_START),
    Step::Eip(0x1002),
];

const POP_AT_ESP_PLUS_8: Insn = Insn {
    op: Op::Pop,
    a: Operand::Memory(Address {
        base: Some(Reg::Esp),
        index: None,
        scale: 1,
        disp: 8,
    }),
    ..PLAIN
};

static POPPED: [Step; 4] = [
    Step::Writes(POP_AT_ESP_PLUS_8, BASE + 0x8c),
    Step::Done(POP_AT_ESP_PLUS_8, 4, Effect::Next),
    Step::Word(BASE + 0x8c, 0x0707_0707),
    Step::Register(4, BASE + 0x84),
];

const REPEAT_STOSB: Insn = Insn {
    op: Op::Stos,
    size: Size::Byte,
    rep: true,
    ..PLAIN
};

static REPEATED: [Step; 13] = [
    Step::Done(REPEAT_STOSB, 2, Effect::Next),
    Step::Register(1, 1),
    Step::Register(7, BASE + 0x31),
    Step::Eip(0x1000),
    Step::Done(REPEAT_STOSB, 2, Effect::Next),
    Step::Register(1, 0),
    Step::Register(7, BASE + 0x32),
    Step::Eip(0x1002),
    Step::Done(REPEAT_STOSB, 2, Effect::Next),
    Step::Register(1, 0),
    Step::Register(7, BASE + 0x32),
    Step::Eip(0x1004),
    Step::Word(BASE + 0x30, 0x0000_0101),
];

const DIVIDE_BY_EDX: Insn = Insn {
    op: Op::Div,
    a: Operand::Register(2),
    ..PLAIN
};

static RAISED: [Step; 4] = [
    Step::Done(DIVIDE_BY_EDX, 2, Effect::Raise(0, 0)),
    Step::Registers(AT_START),
    Step::Eip(START.eip),
    Step::Flags(START.flags.bits),
];

const CALL_BACK: Insn = Insn {
    op: Op::Call,
    imm: 0xffff_fff0,
    ..PLAIN
};

const JUMP_ON: Insn = Insn {
    op: Op::Jmp,
    imm: 0x20,
    ..PLAIN
};

static CALLED_AND_JUMPED: [Step; 6] = [
    Step::Done(CALL_BACK, 5, Effect::Next),
    Step::Eip(0xff5),
    Step::Register(4, BASE + 0x7c),
    Step::Word(BASE + 0x7c, 0x1005),
    Step::Done(JUMP_ON, 2, Effect::Next),
    Step::Eip(0x1017),
];

#[test]
fn instructions_do_their_steps(rt: HostRuntime) {
    follow(&rt, "adds to the second byte", 0, &ADDED);
    follow(&rt, "pushes all and pops all", 0, &PUSHED_AND_POPPED);
    follow(&rt, "pops above the risen stack", 7, &POPPED);
    follow(&rt, "repeats one turn at a time", 0, &REPEATED);
    follow(&rt, "a divide error changes nothing", 0, &RAISED);
    follow(&rt, "calls and jumps by distance", 0, &CALLED_AND_JUMPED);
}
