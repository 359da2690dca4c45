//! The cases hold what an x86-64 processor did with the instruction in a 32-bit program. Of the flags
//! those are the processor's that the manual defines for the instruction; the others are as they were
//! before it, as this project chooses.

mod arithmetic;
mod conditions;
mod moves;
mod products;
mod stack;
mod steps;
mod strings;

use ia32_exec::{Effect, LinearMem, Range, exec, ranges};
use ia32_types::{Address, Flags, Insn, Op, Operand, Reg, Regs, Size};
use std::process::Abort;

const BASE: u32 = 0x1_0000;

/// 256 bytes from address 0x10000 upward.
#[derive(Drop)]
struct Flat {
    bytes: [u8; 256],
}

impl LinearMem for Flat {
    ghost use Rattle.std.specs.Prelude.{◌≡◌, ◌<◌, ◌≤◌, ◌-◌, ◌^◌};
    ghost use Rattle.std.proofs.Common.{arith, refl};
    ghost use Rattle.std.proofs.lemmas.Bool.{eq-eqb};
    ghost use Rattle.instruction_vectors.specs.Flat.{byte_at, is_same};

    ghost byte = { λ m. byte_at m.bytes };

    ghost readable = { λ m at. (65536 ≤ at) × (at < 65792) };

    ghost same = { λ m. is_same };

    ghost writable = { λ m at. (65536 ≤ at) × (at < 65792) };

    ghost read_in_space = { λ m at h. Prim.omega arith };

    ghost write_in_space = { λ m at h. Prim.omega arith };

    ghost own_byte = { λ m at h. eq-eqb (at - 65536) (at - 65536) refl };

    fn read(&self, at: u32, size: Size) -> u32 {
        match size {
            Size::Byte => self.byte(at),
            Size::Word => self.byte(at) + self.byte(at + 1) * 0x100,
            Size::Long => {
                self.byte(at)
                    + self.byte(at + 1) * 0x100
                    + self.byte(at + 2) * 0x1_0000
                    + self.byte(at + 3) * 0x100_0000
            }
        }
    }

    fn write(&mut self, at: u32, size: Size, value: u32) {
        self.put((at - BASE) as usize, size, value);
    }
}

impl Flat {
    ghost use Rattle.std.specs.Prelude.{◌≡◌, ◌<◌, ◌≤◌, ◌+◌, ◌/◌};
    ghost use Rattle.ia32_types.specs.Size.{width};
    ghost use Rattle.instruction_vectors.specs.Flat.{byte_at, put};

    /// The byte at an address.
    fn byte(&self, at: u32) -> u32
        requires { (65536 ≤ at) × (at < 65792) }
        ensures value { result ≡ byte_at self.now.bytes at }
        ensures small { result < 256 }
    {
        u32::from(self.bytes[(at - BASE) as usize])
    }

    /// Writes the low bits of a number, from the byte with that index on.
    fn put(&mut self, at: usize, size: Size, value: u32)
        requires { at + width size / 8 ≤ 256 }
        ensures { self.new.bytes ≡ put size at value self.old.bytes }
    {
        self.bytes[at] = (value % 0x100) as u8;
        match size {
            Size::Byte => {}
            Size::Word => self.bytes[at + 1] = (value / 0x100 % 0x100) as u8,
            Size::Long => {
                self.bytes[at + 1] = (value / 0x100 % 0x100) as u8;
                self.bytes[at + 2] = (value / 0x1_0000 % 0x100) as u8;
                self.bytes[at + 3] = (value / 0x100_0000 % 0x100) as u8;
            }
        }
    }
}

ghost use Rattle.std.specs.Prelude.{◌≡◌, ◌<◌, ◌≤◌, ◌+◌, true, ℕ};
ghost use Rattle.ia32_exec.specs.Readable.{Covers};
ghost use Rattle.ia32_types.specs.Shape.{IsNamed, IsAlone, IsShaped, IsDone};

fn is_inside(range: Option<Range>) -> bool
    ensures { result ≡ true → Covers (λ at. (65536 ≤ at) × (at < 65792)) range }
{
    match range {
        None => true,
        Some(range) => BASE <= range.at
            && range.at <= BASE + 256
            && range.len <= BASE + 256 - range.at,
    }
}

fn is_named(operand: Operand) -> bool
    ensures { result ≡ true → IsNamed operand }
{
    match operand {
        Operand::Register(n) => n < 8,
        _ => true,
    }
}

fn is_alone(a: Operand, b: Operand) -> bool
    ensures { result ≡ true → IsAlone a b }
{
    match (a, b) {
        (Operand::Memory(_), Operand::Memory(_)) => false,
        _ => true,
    }
}

fn is_shaped(insn: &Insn) -> bool
    ensures { result ≡ true → IsShaped insn.now }
{
    is_named(insn.a) && is_named(insn.b) && is_alone(insn.a, insn.b)
}

fn is_done(op: Op) -> bool
    ensures { result ≡ true → IsDone op }
{
    match op {
        Op::Int | Op::Int3 | Op::Cli | Op::Sti | Op::Hlt | Op::Iret => false,
        Op::ReadControl | Op::WriteControl | Op::LoadGdt | Op::LoadIdt | Op::LoadTask => false,
        Op::DropPage | Op::ReadSeg | Op::LoadSeg | Op::PushSeg | Op::PopSeg | Op::FarJump => false,
        Op::PortIn | Op::PortOut | Op::Return | Op::JumpTo | Op::CallTo => false,
        _ => true,
    }
}

/// One instruction over a flat memory, if it stays inside it.
fn step(insn: &Insn, len: u8, regs: &mut Regs, mem: &mut Flat) -> Option<Effect> {
    let ranges = ranges(insn, regs);
    if !is_done(insn.op)
        || !is_shaped(insn)
        || !is_inside(ranges.read)
        || !is_inside(ranges.write)
    {
        return None;
    }
    Some(exec(insn, len, regs, mem))
}

const AT_START: [u32; 8] = [
    1,
    2,
    3,
    4,
    BASE + 0x80,
    BASE + 0x90,
    BASE + 0x20,
    BASE + 0x30,
];

const START: Regs = Regs {
    r: AT_START,
    eip: 0x1000,
    flags: Flags { bits: 2 },
};

const PLAIN: Insn = Insn {
    op: Op::Nop,
    size: Size::Long,
    a: Operand::Absent,
    b: Operand::Absent,
    imm: 0,
    sel: 0,
    rep: false,
};

fn word_of(mem: &Flat, at: u32) -> u32 {
    if BASE <= at && at <= BASE + 252 {
        mem.read(at, Size::Long)
    } else {
        0
    }
}

const AT_10010: Operand = Operand::Memory(Address {
    base: None,
    index: None,
    scale: 1,
    disp: 0x10010,
});

const AT_EAX_ECX_BY_8_LESS_4: Operand = Operand::Memory(Address {
    base: Some(Reg::Eax),
    index: Some(Reg::Ecx),
    scale: 8,
    disp: 0xfffffffc,
});

const AT_EBP_PLUS_4: Operand = Operand::Memory(Address {
    base: Some(Reg::Ebp),
    index: None,
    scale: 1,
    disp: 4,
});

const AT_EBP_PLUS_8: Operand = Operand::Memory(Address {
    base: Some(Reg::Ebp),
    index: None,
    scale: 1,
    disp: 8,
});

const AT_EDI: Operand = Operand::Memory(Address {
    base: Some(Reg::Edi),
    index: None,
    scale: 1,
    disp: 0,
});

const AT_EDI_PLUS_2: Operand = Operand::Memory(Address {
    base: Some(Reg::Edi),
    index: None,
    scale: 1,
    disp: 2,
});

const AT_EDI_PLUS_3: Operand = Operand::Memory(Address {
    base: Some(Reg::Edi),
    index: None,
    scale: 1,
    disp: 3,
});

const AT_ESI: Operand = Operand::Memory(Address {
    base: Some(Reg::Esi),
    index: None,
    scale: 1,
    disp: 0,
});

const AT_ESI_ECX_BY_2_PLUS_4: Operand = Operand::Memory(Address {
    base: Some(Reg::Esi),
    index: Some(Reg::Ecx),
    scale: 2,
    disp: 4,
});

const AT_ESI_PLUS_1: Operand = Operand::Memory(Address {
    base: Some(Reg::Esi),
    index: None,
    scale: 1,
    disp: 1,
});

const AT_ESI_PLUS_12: Operand = Operand::Memory(Address {
    base: Some(Reg::Esi),
    index: None,
    scale: 1,
    disp: 0xc,
});

const AT_ESI_PLUS_2: Operand = Operand::Memory(Address {
    base: Some(Reg::Esi),
    index: None,
    scale: 1,
    disp: 2,
});

const AT_ESI_PLUS_4: Operand = Operand::Memory(Address {
    base: Some(Reg::Esi),
    index: None,
    scale: 1,
    disp: 4,
});

const AT_ESI_PLUS_6: Operand = Operand::Memory(Address {
    base: Some(Reg::Esi),
    index: None,
    scale: 1,
    disp: 6,
});

const AT_ESI_PLUS_85: Operand = Operand::Memory(Address {
    base: Some(Reg::Esi),
    index: None,
    scale: 1,
    disp: 0x55,
});

const AT_ESP: Operand = Operand::Memory(Address {
    base: Some(Reg::Esp),
    index: None,
    scale: 1,
    disp: 0,
});

const AT_ESP_ECX_BY_8: Operand = Operand::Memory(Address {
    base: Some(Reg::Esp),
    index: Some(Reg::Ecx),
    scale: 8,
    disp: 0,
});

const AT_ESP_PLUS_4: Operand = Operand::Memory(Address {
    base: Some(Reg::Esp),
    index: None,
    scale: 1,
    disp: 4,
});

const AT_ESP_PLUS_8: Operand = Operand::Memory(Address {
    base: Some(Reg::Esp),
    index: None,
    scale: 1,
    disp: 8,
});

const REGISTERS: [u32; 8] = [
    0x8003_81f2,
    5,
    0,
    0x40,
    BASE + 0x80,
    BASE + 0x90,
    BASE + 0x20,
    BASE + 0x30,
];

/// An instruction, the registers and flags before and after it, and a sum of the memory after it.
struct Case {
    op: Op,
    size: Size,
    a: Operand,
    b: Operand,
    imm: u32,
    rep: bool,
    before: [u32; 8],
    flags: u32,
    after: [u32; 8],
    flags_after: u32,
    memory: u32,
}

fn filled() -> Flat {
    let mut bytes = [0; 256];
    for k in 0..256usize {
        bytes[k] = ((k * 7 + 3) % 256) as u8;
    }
    bytes[0xf0] = 0xd7;
    bytes[0xf1] = 0x0c;
    bytes[0xf2] = 0;
    bytes[0xf3] = 0;
    Flat { bytes }
}

fn sum_of(mem: &Flat) -> u32 {
    let mut sum = 0u32;
    for k in 0..256u32 {
        let byte = u32::from(mem.bytes[k as usize]);
        sum = sum.wrapping_add(byte.wrapping_mul(k * k + 1));
    }
    sum
}

/// The turns of an instruction, until EIP has passed it.
fn turns(insn: &Insn, regs: &mut Regs, mem: &mut Flat) {
    for _ in 0..8u32 {
        if regs.eip == 0 {
            let _ = step(insn, 1, regs, mem);
        }
    }
}

/// The instruction passes, and does what the case says.
fn agrees(case: &Case) -> bool {
    let insn = Insn {
        op: case.op,
        size: case.size,
        a: case.a,
        b: case.b,
        imm: case.imm,
        sel: 0,
        rep: case.rep,
    };
    let flags = Flags { bits: case.flags };
    let mut regs = Regs {
        r: case.before,
        eip: 0,
        flags,
    };
    let mut mem = filled();
    turns(&insn, &mut regs, &mut mem);
    regs.eip == 1
        && regs.r == case.after
        && regs.flags.bits == case.flags_after
        && sum_of(&mem) == case.memory
}

/// Each case does.
fn agree(rt: &impl Abort, cases: &[Case]) {
    for (k, case) in cases.iter().enumerate() {
        assert!(rt; agrees(case), "case {k}");
    }
}
